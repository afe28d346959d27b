// Why an extraction ends without an archive.
ghost use Rattle.std.specs.Prelude.{◌≡◌};
ghost use Rattle.tile_extract.specs.declared.error.ExtractError.TheVariants as errors;

use base_values::OutOfMemory;
use pm_format::{MediumFault, PmtError};
use thiserror::Error;

/// Why an extraction ends without an archive.
#[derive(Debug, Drop, Error)]
pub enum ExtractError {
    /// The zoom that is asked for is below the tile's or above 31: the tile's zoom, and the one asked for.
    #[error("invalid zoom {asked} for a tile of zoom {tile}")]
    InvalidZoom { tile: u8, asked: u8 },
    /// The medium wasn't empty: its length in bytes.
    #[error("medium not empty {length}")]
    MediumNotEmpty { length: u64 },
    /// The source doesn't open, or has no metadata, or a directory that is met or a tile is refused: why. It
    /// is never running out of memory.
    #[error("archive: {0}")]
    Archive(PmtError),
    /// There are more tiles than the limit, which is this number.
    #[error("more than {0} tiles")]
    TooManyTiles(u64),
    /// The data would end past u64, or a directory of the new archive has 2^32 bytes or more.
    #[error("index entry overflow")]
    IndexEntryOverflow,
    /// The medium failed, and its count of faults rose.
    #[error("medium fault")]
    MediumFault,
    /// Memory ran out.
    #[error("out of memory")]
    OutOfMemory,
}

impl From<OutOfMemory> for ExtractError {
    ghost from_gives = { λ _ e. e ≡ errors.OutOfMemory };

    fn from(_: OutOfMemory) -> Self {
        ExtractError::OutOfMemory
    }
}

impl From<MediumFault> for ExtractError {
    ghost from_gives = { λ _ e. e ≡ errors.MediumFault };

    fn from(_: MediumFault) -> Self {
        ExtractError::MediumFault
    }
}
