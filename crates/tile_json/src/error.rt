// Why a text isn't read as a document.
use base_values::OutOfMemory;
use std::alloc::{AllocError, AllocFailed};
use thiserror::Error;

/// Why a text isn't read as a document.
#[derive(Clone, Copy, Debug, PartialEq, Eq, Error)]
pub enum DocumentError {
    /// The text isn't the JSON that is asked for.
    #[error("invalid document")]
    Invalid,
    /// Memory ran out.
    #[error("out of memory")]
    OutOfMemory,
}

impl From<OutOfMemory> for DocumentError {
    ghost use Rattle.std.specs.Prelude.{◌≡◌};
    ghost use Rattle.tile_json.specs.declared.error.DocumentError.TheVariants as errors;

    ghost from_gives = { λ _ e. e ≡ errors.OutOfMemory };

    fn from(_: OutOfMemory) -> Self {
        DocumentError::OutOfMemory
    }
}

impl From<AllocError> for DocumentError {
    ghost use Rattle.std.specs.Prelude.{◌≡◌};
    ghost use Rattle.tile_json.specs.declared.error.DocumentError.TheVariants as errors;

    ghost from_gives = { λ _ e. e ≡ errors.OutOfMemory };

    fn from(_: AllocError) -> Self {
        DocumentError::OutOfMemory
    }
}

impl<T: Drop> From<AllocFailed<T>> for DocumentError {
    ghost use Rattle.std.specs.Prelude.{◌≡◌};
    ghost use Rattle.tile_json.specs.declared.error.DocumentError.TheVariants as errors;

    ghost from_gives = { λ _ e. e ≡ errors.OutOfMemory };

    fn from(_: AllocFailed<T>) -> Self {
        DocumentError::OutOfMemory
    }
}
