// Why a walk ends before its end.
use pm_format::PmtError;
use thiserror::Error;

/// Why a walk ends before its end.
#[derive(Debug, Drop, Error)]
pub enum WalkError {
    /// A directory or an entry is refused, the archive can't be read, or memory ran out: why.
    #[error("archive: {0}")]
    Archive(PmtError),
    /// The run of a tile entry passes the ids of tiles: its first id that does.
    #[error("invalid tile id {0}")]
    InvalidTileId(u64),
    /// A tile entry that isn't empty has tiles of zoom 31: the first of their ids.
    #[error("tile id {0} of zoom 31")]
    TooDeep(u64),
    /// There are more tiles than the limit.
    #[error("too many tiles")]
    TooManyTiles,
}
