// Why a step on the database fails.
ghost use Rattle.std.specs.Prelude.{◌≡◌, ◌≤◌, Ok, IfErr, IfOk, IsErrOf, OnErr, OnOk};
ghost use Rattle.mb_sqlite.specs.Common.{Rose};
ghost use Rattle.mb_sqlite.specs.Failing.{answer_of};

use base_values::OutOfMemory;
use mb_store::StoreError;
use sqlite::{Error, ErrorCode};
use std::alloc::{AllocError, AllocFailed};

// Why a step on the database fails.
#[derive(Clone, Copy, Debug, PartialEq, Eq)]
pub(crate) enum Failure {
    // The database failed, or isn't as the call needs it.
    Fault,
    // The step found no memory.
    OutOfMemory,
}

impl From<Error> for Failure {
    ghost use Rattle.std.specs.Prelude.{◌≡◌};
    ghost use Rattle.mb_sqlite.specs.Failing.{failure_of};

    ghost from_gives = { λ error e. e ≡ failure_of error };

    fn from(error: Error) -> Self {
        match error {
            Error::SqliteFailure(ErrorCode::OutOfMemory) => Failure::OutOfMemory,
            _ => Failure::Fault,
        }
    }
}

impl From<OutOfMemory> for Failure {
    ghost use Rattle.std.specs.Prelude.{◌≡◌};
    ghost use Rattle.mb_sqlite.specs.declared.failure.Failure.TheVariants as failures;

    ghost from_gives = { λ _ e. e ≡ failures.OutOfMemory };

    fn from(_: OutOfMemory) -> Self {
        Failure::OutOfMemory
    }
}

impl From<AllocError> for Failure {
    ghost use Rattle.std.specs.Prelude.{◌≡◌};
    ghost use Rattle.mb_sqlite.specs.declared.failure.Failure.TheVariants as failures;

    ghost from_gives = { λ _ e. e ≡ failures.OutOfMemory };

    fn from(_: AllocError) -> Self {
        Failure::OutOfMemory
    }
}

impl<T: Drop> From<AllocFailed<T>> for Failure {
    ghost use Rattle.std.specs.Prelude.{◌≡◌};
    ghost use Rattle.mb_sqlite.specs.declared.failure.Failure.TheVariants as failures;

    ghost from_gives = { λ _ e. e ≡ failures.OutOfMemory };

    fn from(_: AllocFailed<T>) -> Self {
        Failure::OutOfMemory
    }
}

// The answer of a call, of which a fault is counted.
pub(crate) fn counted<T>(faults: &mut u64, answer: Result<T, Failure>) -> Result<T, StoreError>
    ensures answer { IfOk result (λ value. answer ≡ Ok value) }
    ensures refused { IfErr result (λ e. IfErr answer (λ failure. e ≡ answer_of failure)) }
    ensures faulty { IsErrOf answer Failure.Fault → IsErrOf result StoreError.Fault }
    ensures refused_alone { OnErr result (OnOk answer ⊥) }
    ensures faults { faults.old ≤ faults.new }
    ensures fault { IsErrOf result StoreError.Fault → Rose faults.old faults.new }
    ensures still { OnOk result (faults.new ≡ faults.old) }
{
    match answer {
        Ok(value) => Ok(value),
        Err(Failure::OutOfMemory) => Err(StoreError::OutOfMemory),
        Err(Failure::Fault) => {
            *faults = faults.saturating_add(1);
            Err(StoreError::Fault)
        }
    }
}
