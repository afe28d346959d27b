// Why an archive isn't imported.
ghost use Rattle.std.specs.Prelude.{◌≡◌};

use base_values::OutOfMemory;
use mb_store::MbtError;
use pm_format::PmtError;
use thiserror::Error;
use tile_ids::TileCoord;

/// Why an archive isn't imported into a set.
#[derive(Debug, Drop, Error)]
pub enum ImportError {
    /// The archive doesn't open, or a directory or an entry of it is refused: why. It is never running out of memory.
    #[error("archive: {0}")]
    Archive(PmtError),
    /// The set doesn't load, or doesn't take the tiles: why. It is never running out of memory.
    #[error("store: {0}")]
    Store(MbtError),
    /// A tile entry has an id above that of the last tile of zoom 31: its first such id.
    #[error("invalid tile id {0}")]
    InvalidTileId(u64),
    /// A tile of at least one byte is of zoom 31, which no set has: the first one of its entry.
    #[error("invalid tile index {0:?}")]
    InvalidTileIndex(TileCoord),
    /// There are more tiles than the limit, which is this number.
    #[error("more than {0} tiles")]
    TooManyTiles(u64),
    /// Memory ran out.
    #[error("out of memory")]
    OutOfMemory,
}

impl From<OutOfMemory> for ImportError {
    ghost use Rattle.std.specs.Prelude.{◌≡◌};
    ghost use Rattle.tile_import.specs.declared.error.ImportError.TheVariants as errors;

    ghost from_gives = { λ _ e. e ≡ errors.OutOfMemory };

    fn from(_: OutOfMemory) -> Self {
        ImportError::OutOfMemory
    }
}
