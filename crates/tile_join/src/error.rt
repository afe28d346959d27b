// Why archives aren't joined.
ghost use Rattle.std.specs.Prelude.{◌≡◌};
ghost use Rattle.tile_join.specs.declared.error.JoinError.TheVariants as errors;

use base_values::OutOfMemory;
use pm_format::PmtError;
use thiserror::Error;

/// Why archives aren't joined. Sources are numbered in their order, the first one 0.
#[derive(Debug, Drop, Error)]
pub enum JoinError {
    /// There is no source, so that nothing says what the archive says beside its tiles.
    #[error("no source")]
    NoSource,
    /// The medium wasn't empty: its length in bytes.
    #[error("medium not empty {length}")]
    MediumNotEmpty { length: u64 },
    /// The source with this number doesn't open, or the last one has no metadata, or a directory or a tile of this
    /// source is refused: why. It is never `OutOfMemory`.
    #[error("source {source}: {error}")]
    Archive { source: u64, error: PmtError },
    /// The source with this number labels its tiles otherwise than the last one, by their type or their compression.
    #[error("source {source} has other tiles than the last one")]
    Different { source: u64 },
    /// A source, or the joined archive, has more tiles than the limit, which is this number.
    #[error("more than {0} tiles")]
    TooManyTiles(u64),
    /// The data would end past u64, or a directory of the new archive has 2^32 bytes or more.
    #[error("index entry overflow")]
    IndexEntryOverflow,
    /// The medium failed, and its count of faults rose.
    #[error("medium fault")]
    MediumFault,
    /// Memory ran out.
    #[error("out of memory")]
    OutOfMemory,
}

impl From<OutOfMemory> for JoinError {
    ghost from_gives = { λ _ e. e ≡ errors.OutOfMemory };

    fn from(_: OutOfMemory) -> Self {
        JoinError::OutOfMemory
    }
}
