// What is printed of a conversion of the sets in files.
ghost use Rattle.std.specs.Prelude.{◌≡◌, IfOk, string_bytes};
ghost use Rattle.set_conversion.specs.Outcome.{report_lines, text};

use crate::ConversionOutcome;
use base_values::{OutOfMemory, TextVal};
use pm_writer::ArchivePlaces;
use std::alloc::Global;
use tile_streaming::StreamReport;

// The lines on an archive, with the hash of its tiles where there is one.
fn report_lines(alloc: Global, report: &StreamReport) -> Result<String, OutOfMemory>
    ensures { IfOk result (λ text. string_bytes text ≡ report_lines report.now.aggregate
        report.now.places.addressed report.now.places.contents report.now.places.length) }
{
    let ArchivePlaces {
        addressed,
        contents,
        length,
        ..
    } = report.places;
    Ok(match &report.aggregate {
        Some(hash) => {
            let hash = hash.as_str();
            format!(in alloc;
                "tiles {addressed}, contents {contents}\nbytes {length}\naggregate {hash}\n"
            )?
        }
        None => format!(in alloc; "tiles {addressed}, contents {contents}\nbytes {length}\n")?,
    })
}

/// The text that is printed of an outcome: a line with how many tiles and different contents the archive has, one with
/// its bytes, and one with the aggregate hash of its tiles where that was made; nothing where it isn't `Done`.
pub fn conversion_text(alloc: Global, outcome: &ConversionOutcome) -> Result<TextVal, OutOfMemory>
    ensures { IfOk result (λ t. t ≡ text outcome.now) }
{
    Ok(TextVal::new(match outcome {
        ConversionOutcome::Done(report) => report_lines(alloc, report)?,
        _ => String::new(alloc),
    }))
}
