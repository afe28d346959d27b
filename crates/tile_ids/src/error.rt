// What is wrong with a coordinate or an id.
use thiserror::Error;

/// Why a coordinate or an id is none.
#[derive(Clone, Copy, Debug, PartialEq, Eq, Error)]
pub enum TileError {
    /// The zoom is above 31, or the column or row isn't below two to the zoom.
    #[error("invalid coordinate {0}/{1}/{2}")]
    InvalidCoordinate(u8, u32, u32),
    /// The id is above that of the last tile of zoom 31.
    #[error("invalid tile id {0}")]
    InvalidTileId(u64),
}
