// What is said on standard error of a run that fails. Where that can't be written, nothing is said.
use crate::TOOL;
use base_values::TextVal;
use mb_reading::ReadError;
use mb_tables::MbtError;
use program_words::{say_beside_fault, say_out_of_memory, say_read_back};
use set_conversion::ConversionOutcome;
use std::fs::File;
use std::io::ErrorKind;
use tile_bridge::ConvertError;

// Says why a file can't be opened or read.
fn say_no_file(rt: &HostRuntime, path: &str) {
    let _ = match File::open(rt, path).and_then(|file| file.metadata()) {
        Err(error) if error.kind() == ErrorKind::NotFound => {
            eprintln!(rt; "{TOOL}: there is no file {path}")
        }
        Err(error) => eprintln!(rt; "{TOOL}: {path} can't be read: {error}"),
        Ok(found) if !found.is_file() => eprintln!(rt; "{TOOL}: {path} is no regular file"),
        Ok(_) => eprintln!(rt; "{TOOL}: {path} can't be read"),
    };
}

/// Says why the file of a set isn't read; nothing where memory ran out, which is said of the run.
pub fn say_unread(rt: &HostRuntime, path: &str, error: &ReadError) {
    let _ = match error {
        ReadError::Missing => eprintln!(rt; "{TOOL}: there is no file {path}"),
        ReadError::Unread => return say_no_file(rt, path),
        ReadError::OutOfMemory => Ok(()),
        ReadError::NotRegular => eprintln!(rt; "{TOOL}: {path} is no regular file"),
        ReadError::NotADatabase => eprintln!(rt; "{TOOL}: {path} is no SQLite database"),
        ReadError::NotASet => {
            eprintln!(rt;
                "{TOOL}: {path} has no table or view named tiles, and no tables of a tile set"
            )
        }
        ReadError::Unopened(cause) | ReadError::Fault { cause, .. } => {
            eprintln!(rt;
                "{TOOL}: {path} is in a form that isn't read directly, or damaged ({cause}); sqlite3 may read it"
            )
        }
        ReadError::Unfinished => {
            eprintln!(rt;
                "{TOOL}: {path} is written by another program, or a write of it was cut off: a rollback journal stands beside it"
            )
        }
        ReadError::Changed => {
            eprintln!(rt; "{TOOL}: {path} changed while it was read; try again")
        }
        other => eprintln!(rt; "{TOOL}: {path}: {other}"),
    };
}

// What can be done about a set that is refused.
fn advice_on(error: &MbtError) -> &'static str {
    match error {
        MbtError::IncorrectTileHash { .. } => {
            "; bin/mbtiles-to-pmtiles --by-script takes it without its hashes"
        }
        MbtError::AggHashValueNotFound => "; without --verify none is asked for",
        MbtError::CannotDiffFileWithoutHash
        | MbtError::DiffingDiffFile
        | MbtError::PatchFileHasNoHashes
        | MbtError::PatchFileHasNoBeforeHash
        | MbtError::AggHashMismatchWithDiff { .. } => {
            "; --force takes patches whatever their hashes"
        }
        _ => "",
    }
}

// Says why the set at a place is refused.
fn say_store(rt: &HostRuntime, sets: &[TextVal], place: u64, error: &MbtError) {
    let name = sets.get(place as usize).map_or("a set", |set| set.as_str());
    let advice = advice_on(error);
    let _ = eprintln!(rt; "{TOOL}: {name} is refused: {error}{advice}");
}

/// Says what a conversion of sets ended with whose archive is written to a file beside its place; nothing
/// where it was said before.
pub fn say_outcome(
    rt: &HostRuntime,
    sets: &[TextVal],
    (beside, out): (&str, &str),
    outcome: &ConversionOutcome,
) {
    match outcome {
        ConversionOutcome::Refused(ConvertError::Store { place, error }) => {
            say_store(rt, sets, *place, error)
        }
        ConversionOutcome::Refused(error) => {
            let _ = eprintln!(rt; "{TOOL}: refused: {error}");
        }
        ConversionOutcome::MediumFault => say_beside_fault(rt, TOOL, out, beside),
        ConversionOutcome::OutOfMemory => say_out_of_memory(rt, TOOL),
        ConversionOutcome::ReadBack(error) => say_read_back(rt, TOOL, out, error),
        _ => {}
    }
}
