//! Writes the archive of a part of the archive that the words of the command line name.
#![tactic(auto)]

use base_values::TextVal;
use pm_format::{FileBackend, FileMedium};
use program_words::{
    Before, hold_streams, leave_destination, open_archive, print_for, say_medium_fault,
    say_not_empty, say_opening, say_out_of_memory, say_unwritten, say_usage, sync_destination,
    take_destination, tell_source_fault, words_to_run,
};
use std::process::ExitCode;
use tile_extract::{ExtractError, ExtractOutcome, extract_status, run_extract};

const HELP: &str = "Extracts parts of archives of the PMTiles format.

usage: tile_extract IN OUT Z X Y M T

tile_extract IN OUT Z X Y M T  writes to the file OUT, which is new or empty,
                the archive of the tiles that the archive IN has among the
                tile of zoom Z, column X and row Y and its descendants down
                to zoom M, which are T at most. The file IN isn't changed.
                Nothing is printed where both files can be opened. A run
                that ends with another status than 0 leaves OUT as it was
source fault    the file IN can't be opened
medium fault    the file OUT can't be opened, or is no regular file
--help, -h      prints this text
--version       prints the version

status: 0 done, 1 refused, 2 no command, 5 the text can't be written, 6 a file
can't be opened, read or written, 7 out of memory
";

const VERSION: &str = "tile_extract 0.1.0\n";

const TOOL: &str = "tile_extract";

fn medium_fault() -> ExtractOutcome {
    ExtractOutcome::Refused(ExtractError::MediumFault)
}

// Extracts to a file, and has what its medium has gathered written to the disk.
fn extract_to(
    rt: &HostRuntime,
    words: &[TextVal],
    source: &mut FileBackend,
    (to, medium): (&str, &mut FileMedium),
) -> ExtractOutcome {
    let outcome = run_extract(rt.alloc(), words, source, medium);
    if matches!(outcome, ExtractOutcome::Done(_)) {
        if medium.flush().is_err() || !sync_destination(rt, TOOL, to) {
            return medium_fault();
        }
    }
    outcome
}

// Extracts to a file that was taken, and leaves it as it was where that fails.
fn extract_taken(
    rt: &HostRuntime,
    source: &mut FileBackend,
    (from, to): (&str, &str),
    words: &[TextVal],
    before: Before,
) -> ExtractOutcome {
    let outcome = match FileMedium::open(rt, to) {
        Ok(mut medium) => extract_to(rt, words, source, (to, &mut medium)),
        Err(_) => medium_fault(),
    };
    if !matches!(outcome, ExtractOutcome::Done(_)) {
        say_outcome(rt, (from, to), before, &outcome);
        leave_destination(rt, TOOL, to, before);
    }
    outcome
}

// Says on standard error what a run on two files ended with.
fn say_outcome(
    rt: &HostRuntime,
    (from, to): (&str, &str),
    before: Before,
    outcome: &ExtractOutcome,
) {
    match outcome {
        ExtractOutcome::Done(_) => {}
        ExtractOutcome::Refused(ExtractError::Archive(error)) => {
            say_opening(rt, TOOL, from, error)
        }
        ExtractOutcome::Refused(ExtractError::MediumFault) => {
            say_medium_fault(rt, TOOL, to, before)
        }
        ExtractOutcome::Refused(error) => say_refusal(rt, (from, to), error),
        ExtractOutcome::Usage => say_usage(rt, TOOL),
        ExtractOutcome::OutOfMemory => say_out_of_memory(rt, TOOL),
    }
}

fn say_refusal(rt: &HostRuntime, (from, to): (&str, &str), error: &ExtractError) {
    let _ = match error {
        ExtractError::MediumNotEmpty { length } => {
            return say_not_empty(rt, TOOL, to, *length);
        }
        ExtractError::TooManyTiles(limit) => {
            eprintln!(rt;
                "{TOOL}: {from}: the part has more than {limit} tiles; give a greater limit or a smaller part"
            )
        }
        other => eprintln!(rt; "{TOOL}: {from}: {other}"),
    };
}

// Extracts from a file to a file, which are opened first.
fn extract_files(rt: &HostRuntime, from: &str, to: &str, words: &[TextVal]) -> u8 {
    let fault = extract_status(&medium_fault());
    let Some(mut source) = open_archive(rt, from) else {
        return tell_source_fault(rt, TOOL, from, fault);
    };
    let Some(before) = take_destination(rt, TOOL, to) else {
        return say_unwritten(rt, TOOL, print_for(rt, "medium fault\n", fault));
    };
    extract_status(&extract_taken(rt, &mut source, (from, to), words, before))
}

// Without a word for each file nothing is opened, and nothing is printed on standard output.
fn run_words(rt: &HostRuntime, words: &[TextVal]) -> u8 {
    match words {
        [from, to, rest @ ..] => extract_files(rt, from.as_str(), to.as_str(), rest),
        _ => {
            say_usage(rt, TOOL);
            extract_status(&ExtractOutcome::Usage)
        }
    }
}

fn main(rt: HostRuntime) -> ExitCode {
    let _streams = hold_streams(&rt);
    ExitCode::from(match words_to_run(&rt, TOOL, HELP, VERSION) {
        Ok(words) => run_words(&rt, words.as_slice()),
        Err(status) => status,
    })
}
