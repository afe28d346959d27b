//! Runs the converter on the words of the command line, standard input and output.
#![tactic(auto)]

use base_values::TextVal;
use mb_tables::MbtError;
use pm_format::{FileMedium, Medium, MemMedium};
use program_words::{
    Before, OUT_OF_MEMORY, hold_streams, leave_destination, print, say_input_fault,
    say_medium_fault, say_not_empty, say_out_of_memory, say_output_fault, say_read_back, say_usage,
    sync_destination, take_destination, text_of, words_of,
};
use std::process::ExitCode;
use tile_bridge::ConvertError;
use tileset::{
    Command, Outcome, StdSink, StdSource, command_of, outcome_line, outcome_status, run,
};

const HELP: &str = "Converts sets of map tiles to archives of the PMTiles format.

usage: tileset convert hex | convert file PATH | bulk N K [L]

convert hex        reads a script from standard input, and prints the answers
                   to its queries, the archive's numbers and its bytes in
                   hexadecimal
convert file PATH  reads a script from standard input, writes the archive to
                   a regular file that is new or empty, and prints the answers
                   to the script's queries and the archive's numbers; the file
                   is made before the script is read; one that isn't empty is
                   refused and stays as it is, and a run that ends with another
                   status than 0 leaves the path as it was
bulk N K [L]       converts the tiles of the ids 0 to N - 1, whose contents
                   are the id by K in decimal, and prints where the archive's
                   parts lie; N is 0 to 100000, K is 1 to 1000000, and L, 16
                   to 65536, is how many entries a leaf may have, 4096 where
                   it isn't said
--help, -h         prints this text
--version          prints the version

status: 0 done, 1 refused, 2 no command, 3 bad script, 4 input fault,
5 output fault, 6 medium fault, 7 out of memory, 8 input too long, 9 read back
";

const VERSION: &str = "tileset 0.1.0\n";

const TOOL: &str = "tileset";

// Prints the line of an outcome. Where it finds no memory, or can't be written, that is the outcome.
fn tell(rt: &HostRuntime, outcome: Outcome) -> Outcome {
    let Ok(line) = outcome_line(rt.alloc(), &outcome) else {
        if !matches!(outcome, Outcome::OutOfMemory) {
            say_out_of_memory(rt, TOOL);
        }
        return tell_line(rt, Outcome::OutOfMemory, OUT_OF_MEMORY);
    };
    tell_line(rt, outcome, line.as_str())
}

fn tell_line(rt: &HostRuntime, outcome: Outcome, line: &str) -> Outcome {
    if line.is_empty() || print(rt, line) {
        outcome
    } else {
        if !matches!(outcome, Outcome::OutputFault) {
            say_output_fault(rt, TOOL);
        }
        Outcome::OutputFault
    }
}

// Runs over standard input, standard output and a medium.
fn convert<M: Medium>(rt: &HostRuntime, words: &[TextVal], medium: &mut M) -> Outcome {
    let mut input = StdSource::new(rt.stdin());
    let mut output = StdSink::new(rt.stdout());
    run(rt.alloc(), words, &mut input, &mut output, medium)
}

// Runs over a file that was taken.
fn convert_taken(rt: &HostRuntime, words: &[TextVal], path: &str) -> Outcome {
    let Ok(mut medium) = FileMedium::open(rt, path) else {
        return Outcome::MediumFault;
    };
    let outcome = convert(rt, words, &mut medium);
    if matches!(outcome, Outcome::Done) {
        if medium.flush().is_err() || !sync_destination(rt, TOOL, path) {
            return Outcome::MediumFault;
        }
    }
    outcome
}

// Runs over a file, which is taken before the input is read, and left as it was where the run fails.
fn convert_file(rt: &HostRuntime, words: &[TextVal], path: &str) -> Outcome {
    let Some(before) = take_destination(rt, TOOL, path) else {
        return Outcome::MediumFault;
    };
    let outcome = convert_taken(rt, words, path);
    if !matches!(outcome, Outcome::Done) {
        say_file(rt, path, before, &outcome);
        leave_destination(rt, TOOL, path, before);
    }
    outcome
}

// Says what a run on a file ended with.
fn say_file(rt: &HostRuntime, path: &str, before: Before, outcome: &Outcome) {
    match outcome {
        Outcome::MediumFault => say_medium_fault(rt, TOOL, path, before),
        Outcome::Refused(ConvertError::MediumNotEmpty { length }) => {
            say_not_empty(rt, TOOL, path, *length)
        }
        Outcome::ReadBack(error) => say_read_back(rt, TOOL, path, error),
        _ => say_outcome(rt, outcome),
    }
}

// Runs over the medium that the words ask for.
fn convert_words(rt: &HostRuntime, words: &[TextVal]) -> Outcome {
    match (command_of(words), words) {
        (Some(Command::ConvertFile), [_, _, path]) => convert_file(rt, words, path.as_str()),
        _ => {
            let outcome = convert(rt, words, &mut MemMedium::new(rt.alloc()));
            say_outcome(rt, &outcome);
            outcome
        }
    }
}

// Says on standard error what a run ended with, and what to do.
fn say_outcome(rt: &HostRuntime, outcome: &Outcome) {
    let _ = match outcome {
        Outcome::Done => Ok(()),
        Outcome::Refused(error) => return say_refusal(rt, error),
        Outcome::Usage => return say_usage(rt, TOOL),
        Outcome::BadScript { line } => {
            eprintln!(rt;
                "{TOOL}: line {line} of the script on standard input is no line that can stand there, or the script ends before its base"
            )
        }
        Outcome::InputFault => return say_input_fault(rt, TOOL),
        Outcome::OutputFault => return say_output_fault(rt, TOOL),
        Outcome::MediumFault => eprintln!(rt; "{TOOL}: the archive can't be written"),
        Outcome::OutOfMemory => return say_out_of_memory(rt, TOOL),
        Outcome::InputTooLong => {
            eprintln!(rt;
                "{TOOL}: the script on standard input has more than 268,435,456 bytes; convert fewer zooms or a part of the area"
            )
        }
        Outcome::ReadBack(error) => {
            eprintln!(rt;
                "{TOOL}: the archive gave other bytes back than were written to it: {error}"
            )
        }
    };
}

fn say_refusal(rt: &HostRuntime, error: &ConvertError) {
    let _ = match error {
        ConvertError::Store { place: 0, error } => {
            let advice = advice_on(error);
            eprintln!(rt; "{TOOL}: the script's base is refused: {error}{advice}")
        }
        ConvertError::Store { place, error } => {
            let advice = advice_on(error);
            eprintln!(rt; "{TOOL}: patch {place} of the script is refused: {error}{advice}")
        }
        ConvertError::UnsupportedCompression(_) => {
            eprintln!(rt;
                "{TOOL}: directories are written plain alone; leave out the script's option internal-compression"
            )
        }
        other => eprintln!(rt; "{TOOL}: refused: {other}"),
    };
}

// What can be done about a set that is refused.
fn advice_on(error: &MbtError) -> &'static str {
    match error {
        MbtError::IncorrectTileHash { .. } => "; as a flat set, without its hashes, it is taken",
        MbtError::AggHashValueNotFound => "; without option verify none is asked for",
        MbtError::CannotDiffFileWithoutHash
        | MbtError::DiffingDiffFile
        | MbtError::PatchFileHasNoHashes
        | MbtError::PatchFileHasNoBeforeHash
        | MbtError::AggHashMismatchWithDiff { .. } =>
            "; option force takes patches whatever their hashes",
        _ => "",
    }
}

fn outcome_of(rt: &HostRuntime) -> Outcome {
    let words = match words_of(rt, TOOL) {
        Err(_) => return tell(rt, Outcome::OutOfMemory),
        Ok(None) => return tell(rt, Outcome::Usage),
        Ok(Some(words)) => words,
    };
    match text_of(words.as_slice(), HELP, VERSION) {
        Some(text) => tell_line(rt, Outcome::Done, text),
        None => tell(rt, convert_words(rt, words.as_slice())),
    }
}

fn main(rt: HostRuntime) -> ExitCode {
    let _streams = hold_streams(&rt);
    ExitCode::from(outcome_status(&outcome_of(&rt)))
}
