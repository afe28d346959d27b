//! Runs the verifier on the file that the words of the command line name.
#![tactic(auto)]

use base_values::TextVal;
use program_words::{
    OUT_OF_MEMORY, hold_streams, open_archive, print_for, say_opening, say_out_of_memory,
    say_source_fault, say_unwritten, say_usage, text_of, words_of,
};
use std::process::ExitCode;
use tile_verify::{VerifyError, VerifyOutcome, run_verify, verify_line, verify_status};

const HELP: &str = "Checks archives of the PMTiles format.

usage: tile_verify IN

tile_verify IN  reads the file IN, which isn't changed, and prints one line:
                sound DIRECTORIES ADDRESSED ENTRIES CONTENTS
                    the leaf entries, the ids with a tile, the tile entries
                    and their different ranges
                broken DEPTH OFFSET INDEX REASON
                    the first entry that is broken: how many leaves lead to
                    its directory, where that begins in the leaf part, the
                    entry's index there, and what is wrong
                opening NAME
                    it doesn't open: the error's name
                source fault
                    the file can't be opened or read
                short ASKED GOT
                    the file gave other numbers of bytes than it was asked
                out of memory
--help, -h      prints this text
--version       prints the version

status: 0 sound, 1 refused, 2 no command, 5 the line can't be written,
6 source fault, 7 out of memory
";

const VERSION: &str = "tile_verify 0.1.0\n";

const TOOL: &str = "tile_verify";

// Prints the line of an outcome. Where it finds no memory, that is the outcome.
fn tell(rt: &HostRuntime, outcome: &VerifyOutcome) -> u8 {
    let Ok(line) = verify_line(rt.alloc(), outcome) else {
        if !matches!(
            outcome,
            VerifyOutcome::OutOfMemory | VerifyOutcome::Refused(VerifyError::OutOfMemory)
        ) {
            say_out_of_memory(rt, TOOL);
        }
        return print_for(
            rt,
            OUT_OF_MEMORY,
            verify_status(&VerifyOutcome::OutOfMemory),
        );
    };
    print_for(rt, line.as_str(), verify_status(outcome))
}

// Checks a regular file, which is opened first.
fn verify_file(rt: &HostRuntime, path: &str, words: &[TextVal]) -> VerifyOutcome {
    match open_archive(rt, path) {
        Some(mut source) => run_verify(rt.alloc(), words, &mut source),
        None => VerifyOutcome::Refused(VerifyError::Fault),
    }
}

// Says on standard error what a run on a file ended with.
fn say_outcome(rt: &HostRuntime, path: &str, outcome: &VerifyOutcome) {
    match outcome {
        VerifyOutcome::Done(_) => {}
        VerifyOutcome::Refused(error) => say_refusal(rt, path, error),
        VerifyOutcome::Usage => say_usage(rt, TOOL),
        VerifyOutcome::OutOfMemory => say_out_of_memory(rt, TOOL),
    }
}

fn say_refusal(rt: &HostRuntime, path: &str, error: &VerifyError) {
    let _ = match error {
        VerifyError::Opening(error) => return say_opening(rt, TOOL, path, error),
        VerifyError::Broken { place, reason, .. } => {
            let (depth, offset, index) = (place.depth, place.offset, place.index);
            eprintln!(rt;
                "{TOOL}: {path}: the archive is broken at entry {index} of the directory at byte {offset} of the leaf part, {depth} leaves deep: {reason:?}"
            )
        }
        VerifyError::Fault => return say_source_fault(rt, TOOL, path),
        VerifyError::Short { asked, got } => {
            eprintln!(rt; "{TOOL}: {path}: asked for {asked} bytes, the file gave {got}")
        }
        VerifyError::OutOfMemory => return say_out_of_memory(rt, TOOL),
    };
}

// Without a word for the file nothing is printed on standard output.
fn run_words(rt: &HostRuntime, words: &[TextVal]) -> u8 {
    match words.split_first() {
        Some((path, rest)) => {
            let outcome = verify_file(rt, path.as_str(), rest);
            say_outcome(rt, path.as_str(), &outcome);
            say_unwritten(rt, TOOL, tell(rt, &outcome))
        }
        None => {
            say_usage(rt, TOOL);
            verify_status(&VerifyOutcome::Usage)
        }
    }
}

fn status_of(rt: &HostRuntime) -> u8 {
    let words = match words_of(rt, TOOL) {
        Err(_) => return tell(rt, &VerifyOutcome::OutOfMemory),
        Ok(None) => return tell(rt, &VerifyOutcome::Usage),
        Ok(Some(words)) => words,
    };
    match text_of(words.as_slice(), HELP, VERSION) {
        Some(text) => say_unwritten(rt, TOOL, print_for(rt, text, 0)),
        None => run_words(rt, words.as_slice()),
    }
}

fn main(rt: HostRuntime) -> ExitCode {
    let _streams = hold_streams(&rt);
    ExitCode::from(status_of(&rt))
}
