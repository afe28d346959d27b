// How outcomes are shown: a status and a line.
ghost use Rattle.std.specs.Prelude.{◌≡◌, IfOk, string_bytes};
ghost use Rattle.tile_verify.specs.OutcomeText.{line, reason_name, refusal, status};

use crate::{Reason, VerifyError, VerifyOutcome};
use base_values::{OutOfMemory, TextVal};
use pm_format::{archive_status, status};
use std::alloc::Global;

/// The status that a program ends with: 0 for `Done`, 1 or, where the source failed, 6 for `Refused`, 2 for `Usage`
/// and 7 for `OutOfMemory`.
pub fn verify_status(outcome: &VerifyOutcome) -> u8
    ensures { result ≡ status outcome.now }
{
    match outcome {
        VerifyOutcome::Done(_) => status::DONE,
        VerifyOutcome::Refused(VerifyError::Opening(error)) => archive_status(error),
        VerifyOutcome::Refused(VerifyError::Fault) => status::FAULT,
        VerifyOutcome::Refused(_) => status::REFUSED,
        VerifyOutcome::Usage => status::USAGE,
        VerifyOutcome::OutOfMemory => status::OUT_OF_MEMORY,
    }
}

/// The line that tells of an outcome, ended by a line feed.
pub fn verify_line(alloc: Global, outcome: &VerifyOutcome) -> Result<TextVal, OutOfMemory>
    ensures { IfOk result (λ text. text ≡ line outcome.now) }
{
    Ok(TextVal::new(match outcome {
        VerifyOutcome::Done(report) => {
            let directories = report.directories;
            let addressed = report.addressed;
            let entries = report.entries;
            let contents = report.contents;
            format!(in alloc; "sound {directories} {addressed} {entries} {contents}\n")?
        }
        VerifyOutcome::Refused(error) => {
            let refusal = refusal_of(alloc, error)?;
            format!(in alloc; "{refusal}\n")?
        }
        VerifyOutcome::Usage => String::from_str(alloc, "usage: tile_verify IN\n")?,
        VerifyOutcome::OutOfMemory => String::from_str(alloc, "out of memory\n")?,
    }))
}

fn refusal_of(alloc: Global, error: &VerifyError) -> Result<String, OutOfMemory>
    ensures { IfOk result (λ text. string_bytes text ≡ refusal error.now) }
{
    Ok(match error {
        VerifyError::Opening(error) => {
            let name = error.name();
            format!(in alloc; "opening {name}")?
        }
        VerifyError::Broken { place, reason, .. } => {
            let depth = place.depth;
            let offset = place.offset;
            let index = place.index;
            let name = name_of(*reason);
            format!(in alloc; "broken {depth} {offset} {index} {name}")?
        }
        VerifyError::Fault => String::from_str(alloc, "source fault")?,
        VerifyError::Short { asked, got } => format!(in alloc; "short {asked} {got}")?,
        VerifyError::OutOfMemory => String::from_str(alloc, "out of memory")?,
    })
}

fn name_of(reason: Reason) -> &'static str
    ensures { result.now ≡ reason_name reason }
{
    match reason {
        Reason::IdsFall => "IdsFall",
        Reason::OutsideRange => "OutsideRange",
        Reason::PastMaxId => "PastMaxId",
        Reason::RunOverlaps => "RunOverlaps",
        Reason::TooDeep => "TooDeep",
        Reason::LeafPastEnd => "LeafPastEnd",
        Reason::NotDecoded => "NotDecoded",
        Reason::TilePastEnd => "TilePastEnd",
    }
}
