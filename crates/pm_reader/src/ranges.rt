// Ranges of a backend's bytes.
ghost use Rattle.std.specs.Prelude.{◌≡◌, ◌<◌, ◌+◌, ◌^◌, IfSome, IfOk, IsErrOf};
ghost use Rattle.pm_reader.specs.Common.{SomeIff, FaultsStand};
ghost use Rattle.pm_reader.specs.Answers.{Gives, HasTextAt, IsWhole, LookUpCauses, bytes_of, range_read};
ghost use Rattle.pm_reader.specs.Reads.{GrewBetween, ReadsOnly, reads_done};

use pm_format::{Backend, BackendResponse, PmtError, PmtResult, ReadCause};
use std::alloc::Global;

/// Exactly the bytes of a range, whose place is counted from a base. `Reading(PastEnd)` comes where it passes the
/// end of the bytes or u64.
pub(crate) fn read_range<B: Backend>(
    alloc: Global,
    backend: &mut B,
    base: u64,
    offset: u64,
    length: u64,
) -> PmtResult<BackendResponse>
    ensures answer { IfSome (B.told backend.old)
        (λ b. Gives (range_read b (base + offset) length) (bytes_of result)) }
    ensures causes { LookUpCauses (B.faults backend.old) (B.faults backend.new) result }
    ensures still { FaultsStand (B.faults backend.old) (B.faults backend.new) result }
    ensures whole { IfSome (B.told backend.old) (λ _. IsWhole result) }
    ensures plain { IsErrOf result PmtError.InvalidEntry → ⊥ }
    ensures version { IfOk result (HasTextAt (B.versions backend.old) (B.reads backend.new)) }
    ensures kept { ReadsOnly B.told B.versions B.faults B.steady backend.old backend.new }
    ensures reads { GrewBetween (B.reads backend.old) (B.reads backend.new) (reads_done result) 1 }
{
    let Some(at) = place_of(base, offset, length) else {
        return Err(PmtError::Reading(ReadCause::PastEnd));
    };
    match backend.read_exact(alloc, at, length) {
        Ok(response) => Ok(response),
        Err(fault) => Err(PmtError::from(fault)),
    }
}

// The place of a range, where its end is within u64.
fn place_of(base: u64, offset: u64, length: u64) -> Option<u64>
    ensures { SomeIff result (base + offset + length < 2 ^ 64) (base + offset) }
{
    let at = base.checked_add(offset)?;
    at.checked_add(length)?;
    Some(at)
}
