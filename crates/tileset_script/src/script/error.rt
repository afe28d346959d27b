// Why a script isn't read.
ghost use Rattle.std.specs.Prelude.{◌≡◌};

use base_values::OutOfMemory;
use std::alloc::{AllocError, AllocFailed};

/// Why a script isn't read.
#[derive(Clone, Copy, Debug, PartialEq, Eq)]
pub enum ScriptError {
    /// The number of the first line that is none of the script's forms in its place or repeats a key.
    BadLine(u64),
    /// Memory ran out.
    OutOfMemory,
}

impl From<OutOfMemory> for ScriptError {
    ghost use Rattle.std.specs.Prelude.{◌≡◌};
    ghost use Rattle.tileset_script.specs.declared.script.error.ScriptError.TheVariants as errors;

    ghost from_gives = { λ _ e. e ≡ errors.OutOfMemory };

    fn from(_: OutOfMemory) -> Self {
        ScriptError::OutOfMemory
    }
}

impl From<AllocError> for ScriptError {
    ghost use Rattle.std.specs.Prelude.{◌≡◌};
    ghost use Rattle.tileset_script.specs.declared.script.error.ScriptError.TheVariants as errors;

    ghost from_gives = { λ _ e. e ≡ errors.OutOfMemory };

    fn from(_: AllocError) -> Self {
        ScriptError::OutOfMemory
    }
}

impl<T: Drop> From<AllocFailed<T>> for ScriptError {
    ghost use Rattle.std.specs.Prelude.{◌≡◌};
    ghost use Rattle.tileset_script.specs.declared.script.error.ScriptError.TheVariants as errors;

    ghost from_gives = { λ _ e. e ≡ errors.OutOfMemory };

    fn from(_: AllocFailed<T>) -> Self {
        ScriptError::OutOfMemory
    }
}
