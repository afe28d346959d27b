// What is said on standard error, each with the status that the run ends with.
use crate::TOOL;
use crate::help::usage_of;
use mb_reading::ReadError;
use mb_tables::MbtError;
use pm_format::{PmtError, status};
use program_words::{print_for, say_opening, say_out_of_memory, say_unwritten};
use tile_command::{Subcommand, read_status, set_status, source_status};

/// Says that memory ran out.
pub fn out_of_memory(rt: &HostRuntime) -> u8 {
    say_out_of_memory(rt, TOOL);
    status::OUT_OF_MEMORY
}

/// Says which words a subcommand has.
pub fn usage(rt: &HostRuntime, subcommand: Subcommand) -> u8 {
    let line = usage_of(subcommand);
    let _ = eprintln!(rt; "{TOOL}: {line}");
    status::USAGE
}

/// Prints a text on standard output. Where it can't be written, that is said.
pub fn printed(rt: &HostRuntime, text: &str) -> u8 {
    say_unwritten(rt, TOOL, print_for(rt, text, status::DONE))
}

/// Prints a text that was made, if memory was there for it.
pub fn print_made<E>(rt: &HostRuntime, text: Result<String, E>) -> u8
where
    E: Drop,
{
    match text {
        Ok(text) => printed(rt, text.as_str()),
        Err(_) => out_of_memory(rt),
    }
}

/// Says why a set isn't read.
pub fn unread(rt: &HostRuntime, path: &str, error: &ReadError) -> u8 {
    if matches!(error, ReadError::OutOfMemory) {
        return out_of_memory(rt);
    }
    let _ = eprintln!(rt; "{TOOL}: {path}: {error}");
    read_status(error)
}

/// Says why an archive isn't read.
pub fn unopened(rt: &HostRuntime, path: &str, error: &PmtError) -> u8 {
    if matches!(error, PmtError::OutOfMemory) {
        return out_of_memory(rt);
    }
    say_opening(rt, TOOL, path, error);
    source_status(error)
}

// What can be done about a refusal of a set.
fn advice_on(error: &MbtError) -> &'static str {
    match error {
        MbtError::AggHashValueNotFound | MbtError::CannotDiffFileWithoutHash => {
            "; fatyngu hash --update stores one"
        }
        MbtError::AggHashMismatch { .. } => {
            "; the tiles are others than when it was stored, fatyngu hash --update stores that of these"
        }
        MbtError::DiffingDiffFile
        | MbtError::PatchFileHasNoHashes
        | MbtError::PatchFileHasNoBeforeHash
        | MbtError::AggHashMismatchWithDiff { .. }
        | MbtError::AggHashMismatchAfterApply { .. } => {
            "; --force takes the patch whatever its hashes"
        }
        MbtError::NoFormatInMetadata => "; fatyngu meta set SET format png says that tiles are png",
        MbtError::UnsupportedCopyOperation => {
            "; fatyngu copy makes a set in a layout that can be written"
        }
        MbtError::StoreFault => {
            "; its tables are in a form that isn't written here, or the disk is full: fatyngu copy makes a plain set of it"
        }
        _ => "",
    }
}

/// Says why a call on a set is refused.
pub fn refused(rt: &HostRuntime, path: &str, error: &MbtError) -> u8 {
    if matches!(error, MbtError::OutOfMemory) {
        return out_of_memory(rt);
    }
    let advice = advice_on(error);
    let _ = eprintln!(rt; "{TOOL}: {path}: {error}{advice}");
    set_status(error)
}

/// Says why a copy with a patch is refused.
pub fn refused_patch(rt: &HostRuntime, path: &str, patch: &str, error: &MbtError) -> u8 {
    if matches!(error, MbtError::OutOfMemory) {
        return out_of_memory(rt);
    }
    let advice = match error {
        MbtError::UnsupportedCopyOperation => "; give another --mbtiles-type",
        other => advice_on(other),
    };
    let _ = eprintln!(rt; "{TOOL}: {path} with the patch {patch}: {error}{advice}");
    set_status(error)
}
