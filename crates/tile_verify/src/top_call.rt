// The whole verifier as one call.
ghost use Rattle.std.specs.Prelude.{◌≡◌, ◌≢◌, ◌+◌, ◌≤◌, IfSome};
ghost use Rattle.tile_verify.specs.Common.{opened, ReadsOnly};
ghost use Rattle.tile_verify.specs.Checking.{Answers, Causes, ReadsMade, reads_at_most, FaultsStand};
ghost use Rattle.tile_verify.specs.TopCall.{IsFor, OfCheck};

use crate::{VerifyError, VerifyOutcome, verify};
use base_values::TextVal;
use pm_format::Backend;
use std::alloc::Global;

/// Checks an archive as `verify` does, where there are no words: the words after the archive's own.
///
/// `Usage` comes exactly where there are words, and then the source isn't touched. Each other outcome comes
/// where `verify` answers so.
pub fn run_verify<B: Backend>(alloc: Global, words: &[TextVal], source: &mut B) -> VerifyOutcome
    ensures words { IsFor words.now result }
    ensures answer { IfSome (B.told source.old) (λ b. OfCheck (Answers b) result) }
    ensures causes { OfCheck (Causes (B.faults source.old) (B.faults source.new)) result }
    ensures still { OfCheck (FaultsStand (B.faults source.old) (B.faults source.new)) result }
    ensures memory { result ≢ VerifyOutcome.Refused VerifyError.OutOfMemory }
    ensures untouched { result ≡ VerifyOutcome.Usage → source.new ≡ source.old }
    ensures kept { ReadsOnly B.told B.versions B.faults B.steady source.old source.new }
    ensures made { OfCheck (ReadsMade (B.reads source.old) (B.reads source.new)) result }
    ensures reads { IfSome (B.told source.old)
        (λ b. B.reads source.new ≤ B.reads source.old + reads_at_most b (opened b)) }
{
    if !words.is_empty() {
        return VerifyOutcome::Usage;
    }
    match verify(alloc, source) {
        Ok(report) => VerifyOutcome::Done(report),
        Err(VerifyError::OutOfMemory) => VerifyOutcome::OutOfMemory,
        Err(error) => VerifyOutcome::Refused(error),
    }
}
