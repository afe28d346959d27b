//! Serves tiles of the archive that the words of the command line name.
#![tactic(auto)]

use base_values::TextVal;
use byte_streams::{StdSink, StdSource};
use program_words::{
    hold_streams, open_archive, say_input_fault, say_opening, say_out_of_memory, say_output_fault,
    say_source_fault, say_usage, tell_source_fault, words_to_run,
};
use std::process::ExitCode;
use tile_serve::{ServeError, ServeOutcome, run_serve, serve_status};

const HELP: &str = "Serves tiles of an archive of the PMTiles format.

usage: tile_serve IN DIRECTORIES ENTRIES TILES BYTES

tile_serve IN D E T S  reads requests from standard input to its end, a line
                each, and writes a line for each to standard output. The file
                IN isn't changed. At most D directories of E entries together
                and T tiles of S bytes together are held in memory.
GET Z X Y       asks for a tile
GET Z X Y TAG   asks for a tile that isn't the one of a tag: 16 digits, 0 to 9
                and A to F
200 TAG HEX     the tile: the XXH3 digest of its bytes as the tag, and the
                bytes in hexadecimal
304 TAG         the tile is the one of the tag
400             the line is no request
404             there is no such tile
500 InvalidEntry, 500 PastEnd
                the archive is broken on the way to the tile
--help, -h      prints this text
--version       prints the version

status: 0 all is answered, 1 refused, 2 no command, 4 the input can't be read,
5 the output can't be written, 6 the file can't be opened or read, 7 out of
memory, 8 the input is too long
";

const VERSION: &str = "tile_serve 0.1.0\n";

const TOOL: &str = "tile_serve";

// Serves a file, which is opened first.
fn serve_file(rt: &HostRuntime, path: &str, words: &[TextVal]) -> u8 {
    let Some(mut source) = open_archive(rt, path) else {
        let fault = serve_status(&ServeOutcome::Refused(ServeError::Fault));
        return tell_source_fault(rt, TOOL, path, fault);
    };
    let mut input = StdSource::new(rt.stdin());
    let mut output = StdSink::new(rt.stdout());
    let outcome = run_serve(rt.alloc(), words, &mut source, &mut input, &mut output);
    say_outcome(rt, path, &outcome);
    serve_status(&outcome)
}

// Says on standard error what a run on a file ended with.
fn say_outcome(rt: &HostRuntime, path: &str, outcome: &ServeOutcome) {
    let _ = match outcome {
        ServeOutcome::Done => Ok(()),
        ServeOutcome::Refused(error) => return say_refusal(rt, path, error),
        ServeOutcome::Usage => return say_usage(rt, TOOL),
        ServeOutcome::InputFault => return say_input_fault(rt, TOOL),
        ServeOutcome::OutputFault => return say_output_fault(rt, TOOL),
        ServeOutcome::InputTooLong => {
            eprintln!(rt;
                "{TOOL}: standard input has more than 268,435,456 bytes of requests; ask in several runs"
            )
        }
        ServeOutcome::OutOfMemory => return say_out_of_memory(rt, TOOL),
    };
}

fn say_refusal(rt: &HostRuntime, path: &str, error: &ServeError) {
    let _ = match error {
        ServeError::Opening(error) => return say_opening(rt, TOOL, path, error),
        ServeError::Fault => return say_source_fault(rt, TOOL, path),
        ServeError::OutOfMemory => return say_out_of_memory(rt, TOOL),
        other => eprintln!(rt; "{TOOL}: {path}: {other}"),
    };
}

// Without a word for the file nothing is printed on standard output.
fn run_words(rt: &HostRuntime, words: &[TextVal]) -> u8 {
    match words.split_first() {
        Some((path, rest)) => serve_file(rt, path.as_str(), rest),
        None => {
            say_usage(rt, TOOL);
            serve_status(&ServeOutcome::Usage)
        }
    }
}

fn main(rt: HostRuntime) -> ExitCode {
    let _streams = hold_streams(&rt);
    ExitCode::from(match words_to_run(&rt, TOOL, HELP, VERSION) {
        Ok(words) => run_words(&rt, words.as_slice()),
        Err(status) => status,
    })
}
