// How outcomes are shown: a status and a line.
ghost use Rattle.std.specs.Prelude.{◌≡◌, IfOk, string_bytes};
ghost use Rattle.tileset.specs.OutcomeText.{label_name, line, refusal, status};

use crate::Outcome;
use crate::refusal_text::store_text;
use base_values::{OutOfMemory, TextVal};
use pm_format::{Compression, status};
use std::alloc::Global;
use tile_bridge::ConvertError;

/// The status that a program ends with: 0 for `Done`, and 1 to 9 for the others in their order.
pub fn outcome_status(outcome: &Outcome) -> u8
    ensures { result ≡ status outcome.now }
{
    match outcome {
        Outcome::Done => status::DONE,
        Outcome::Refused(_) => status::REFUSED,
        Outcome::Usage => status::USAGE,
        Outcome::BadScript { .. } => status::NO_INPUT,
        Outcome::InputFault => status::INPUT_FAULT,
        Outcome::OutputFault => status::OUTPUT_FAULT,
        Outcome::MediumFault => status::FAULT,
        Outcome::OutOfMemory => status::OUT_OF_MEMORY,
        Outcome::InputTooLong => status::INPUT_TOO_LONG,
        Outcome::ReadBack(_) => status::READ_BACK,
    }
}

/// The line that tells of an outcome, ended by a line feed; empty for `Done`.
pub fn outcome_line(alloc: Global, outcome: &Outcome) -> Result<TextVal, OutOfMemory>
    ensures { IfOk result (λ text. text ≡ line outcome.now) }
{
    Ok(TextVal::new(match outcome {
        Outcome::Done => String::new(alloc),
        Outcome::Refused(error) => {
            let refusal = refusal_of(alloc, error)?;
            format!(in alloc; "refused: {refusal}\n")?
        }
        Outcome::Usage => String::from_str(alloc, USAGE)?,
        Outcome::BadScript { line } => format!(in alloc; "bad script: line {line}\n")?,
        Outcome::InputFault => String::from_str(alloc, "input fault\n")?,
        Outcome::OutputFault => String::from_str(alloc, "output fault\n")?,
        Outcome::MediumFault => String::from_str(alloc, "medium fault\n")?,
        Outcome::OutOfMemory => String::from_str(alloc, "out of memory\n")?,
        Outcome::InputTooLong => String::from_str(alloc, "input too long\n")?,
        Outcome::ReadBack(error) => {
            let name = error.name();
            format!(in alloc; "read back: {name}\n")?
        }
    }))
}

const USAGE: &str = "usage: tileset convert hex | convert file PATH | bulk N K [L]\n";

fn refusal_of(alloc: Global, error: &ConvertError) -> Result<String, OutOfMemory>
    ensures { IfOk result (λ text. string_bytes text ≡ refusal error.now) }
{
    Ok(match error {
        ConvertError::MediumNotEmpty { length } => {
            format!(in alloc; "medium not empty {length}")?
        }
        ConvertError::UnsupportedCompression(label) => {
            let name = label_of(*label);
            format!(in alloc; "unsupported compression {name}")?
        }
        ConvertError::Store { place, error } => {
            let text = store_text(alloc, error)?;
            format!(in alloc; "store {place} {text}")?
        }
        ConvertError::IndexEntryOverflow => String::from_str(alloc, "IndexEntryOverflow")?,
        ConvertError::StoreFault { place } => format!(in alloc; "StoreFault {place}")?,
        ConvertError::MediumFault => String::from_str(alloc, "MediumFault")?,
        ConvertError::ReadBack(_) => String::from_str(alloc, "ReadBack")?,
        ConvertError::OutOfMemory => String::from_str(alloc, "OutOfMemory")?,
    })
}

fn label_of(label: Compression) -> &'static str
    ensures { result.now ≡ label_name label }
{
    match label {
        Compression::Unknown => "unknown",
        Compression::None => "none",
        Compression::Gzip => "gzip",
        Compression::Brotli => "brotli",
        Compression::Zstd => "zstd",
    }
}
