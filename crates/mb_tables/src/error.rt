// Why a call on a tile set is refused.
ghost use Rattle.std.specs.Prelude.{◌≡◌};

use crate::{Cell, MbtType, TableName};
use base_values::{OutOfMemory, TextVal};
use std::alloc::{AllocError, AllocFailed};
use thiserror::Error;

/// Why a call on a tile set is refused.
#[derive(Debug, Drop, Error)]
pub enum MbtError {
    /// The tables are those of no layout, there is no metadata table, a cell is of a wrong kind, or a
    /// metadata name stands twice.
    #[error("invalid data format")]
    InvalidDataFormat,
    /// No unique index keeps the tiles of the set apart by their places, or an id of contents stands twice.
    #[error("no uniqueness constraint")]
    NoUniquenessConstraint,
    /// The table has a row with the key of the pushed one, and a unique index on its key.
    #[error("duplicate row in {0}")]
    DuplicateRow(TableName),
    /// The store failed.
    #[error("store fault")]
    StoreFault,
    /// The stored name of the algorithm of a set's digests is none that is known: that name.
    #[error("unsupported hash algorithm {algorithm}")]
    UnsupportedHashAlgorithm {
        /// The name as it is stored.
        algorithm: TextVal,
    },
    /// A row of a tile has no place of zoom 0 to 30, or contents that are neither bytes nor
    /// null: the cells of its place.
    #[error("invalid tile index")]
    InvalidTileIndex {
        /// The cell of the zoom.
        zoom_level: Cell,
        /// The cell of the column.
        tile_column: Cell,
        /// The cell of the row.
        tile_row: Cell,
    },
    /// A place names contents that aren't there.
    #[error("missing tile {tile_id} in {table}")]
    MissingTileReference {
        /// The id of the contents, a number in decimal.
        tile_id: TextVal,
        /// The table in which it is missing.
        table: TableName,
    },
    /// The digest of contents is another than the stored one.
    #[error("incorrect tile hash {stored}, computed {computed}")]
    IncorrectTileHash {
        /// The stored digest in upper case.
        stored: TextVal,
        /// The digest of the contents.
        computed: TextVal,
    },
    /// The digest of all tiles, as metadata has it, is another than the computed one.
    #[error("aggregate hash mismatch: computed {computed}, stored {stored}")]
    AggHashMismatch {
        /// The digest of the tiles.
        computed: TextVal,
        /// The digest as it is stored.
        stored: TextVal,
    },
    /// The metadata has no digest of all tiles.
    #[error("no aggregate hash")]
    AggHashValueNotFound,
    /// The set that is to be patched has no digest of all tiles, and the patch isn't forced.
    #[error("cannot patch a set without an aggregate hash")]
    CannotDiffFileWithoutHash,
    /// The set that is to be patched is itself a patch: it has a digest of all tiles before or after it,
    /// and the patch isn't forced.
    #[error("cannot patch a patch")]
    DiffingDiffFile,
    /// The patch has no digest of all tiles after it, and isn't forced.
    #[error("the patch has no aggregate hashes")]
    PatchFileHasNoHashes,
    /// The patch has a digest of all tiles after it and none before it, and isn't forced.
    #[error("the patch has no aggregate hash before it")]
    PatchFileHasNoBeforeHash,
    /// The patch is meant for a set of another digest of all tiles, and isn't forced.
    #[error("aggregate hash mismatch: the patch is for {before_apply_hash}, the set has {agg_hash}")]
    AggHashMismatchWithDiff {
        /// The digest of the set that the patch is meant for.
        before_apply_hash: TextVal,
        /// The digest of the set.
        agg_hash: TextVal,
    },
    /// The patch describes a table of binary differences.
    #[error("unsupported patch type")]
    UnsupportedPatchType,
    /// The layout of the set isn't one that the call can write.
    #[error("unsupported copy operation")]
    UnsupportedCopyOperation,
    /// Contents that are put have the id of others in a normalised set: that id.
    #[error("contents collide under the id {id}")]
    IdCollision {
        /// The id of the contents.
        id: TextVal,
    },
    /// A coordinate or a name is in both of two sets, or twice in what is put.
    #[error("duplicate values")]
    DuplicateValues,
    /// The destination of a copy has tables, and no mode says what becomes of them.
    #[error("the destination has tables")]
    DestinationFileExists,
    /// The destination of a patching copy has tables.
    #[error("the destination of a patch has tables")]
    NonEmptyTargetFile,
    /// The destination of a copy is of another kind than the one that is asked for.
    #[error("the destination is {actual}, not {desired}")]
    MismatchedTargetType {
        /// The layout of the destination.
        actual: MbtType,
        /// The layout that is asked for.
        desired: MbtType,
    },
    /// A patched copy has another digest of all tiles than the patch says, and the patch isn't forced.
    #[error("aggregate hash mismatch after a patch: the patch says {after_apply_hash}, the tiles have {agg_hash}")]
    AggHashMismatchAfterApply {
        /// The digest that the patch says.
        after_apply_hash: TextVal,
        /// The digest of the tiles.
        agg_hash: TextVal,
    },
    /// The metadata value of a zoom is no number from 0 to 255: the name and that value.
    #[error("invalid zoom value {0}={1}")]
    InvalidZoomValue(&'static str, TextVal),
    /// The file of a tile has no extension of a known format: its path.
    #[error("unsupported file extension of {0}")]
    UnsupportedFileExtension(TextVal),
    /// The file of a tile has another format than the first one: its path.
    #[error("inconsistent tile formats at {path}")]
    InconsistentTileFormats {
        /// The path of the file.
        path: TextVal,
    },
    /// The metadata says no format of the tiles.
    #[error("no format in metadata")]
    NoFormatInMetadata,
    /// The metadata says a format of the tiles that isn't known.
    #[error("unknown format {format} in metadata")]
    UnknownFormatInMetadata {
        /// The format as it is stored.
        format: TextVal,
    },
    /// The tree of files failed.
    #[error("tree fault")]
    TreeFault,
    /// The store has tables that aren't those of a cache.
    #[error("not a cache file")]
    NotACacheFile,
    /// The call found no memory.
    #[error("out of memory")]
    OutOfMemory,
}

/// What a call on a tile set answers.
pub type MbtResult<T> = Result<T, MbtError>;

impl From<OutOfMemory> for MbtError {
    ghost use Rattle.mb_tables.specs.declared.error.MbtError.TheVariants.{OutOfMemory};

    ghost from_gives = { λ _ e. e ≡ OutOfMemory };

    fn from(_: OutOfMemory) -> Self {
        MbtError::OutOfMemory
    }
}

impl From<AllocError> for MbtError {
    ghost use Rattle.mb_tables.specs.declared.error.MbtError.TheVariants.{OutOfMemory};

    ghost from_gives = { λ _ e. e ≡ OutOfMemory };

    fn from(_: AllocError) -> Self {
        MbtError::OutOfMemory
    }
}

impl<T: Drop> From<AllocFailed<T>> for MbtError {
    ghost use Rattle.mb_tables.specs.declared.error.MbtError.TheVariants.{OutOfMemory};

    ghost from_gives = { λ _ e. e ≡ OutOfMemory };

    fn from(_: AllocFailed<T>) -> Self {
        MbtError::OutOfMemory
    }
}
