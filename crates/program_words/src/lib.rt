//! What the programs share: the words of the command line, the printing of texts, the standard streams, the file of an
//! archive and the steps on the way to it.
#![tactic(auto)]

mod beside;
mod destination;
mod folder;
mod left_out;
mod locked;
mod over;
mod said;
mod sources;
mod steps;
mod streams;

ghost use Rattle.std.specs.Prelude.{◌≡◌};
ghost use Rattle.std.specs.Option.{option_copied};
ghost use Rattle.program_words.specs.Text.{asked_text};

use base_values::TextVal;
pub use beside::{
    Beside, Put, Taken, put_beside, remove_beside, remove_made, say_beside_fault, take_beside,
};
pub use destination::{
    Before, leave_destination, say_medium_fault, sync_destination, take_destination,
};
pub use folder::FileId;
pub use left_out::{say_misplaced, say_unnamed};
pub use over::{are_one_file, keep_access, put_over, take_over};
use pm_format::status;
pub use said::{
    say_input_fault, say_not_empty, say_opening, say_out_of_memory, say_output_fault,
    say_read_back, say_source_fault, say_unwritten, say_usage, tell_source_fault,
};
pub use sources::{SourceFile, open_archive, source_file};
use std::alloc::{AllocError, Global};
use std::env;
use std::io::{ErrorKind, Write};
pub use steps::{Step, begin_step};
pub use streams::{HeldStreams, hold_streams};

/// The line of a run that memory ran out for. It stands here since making it may find no memory either.
pub const OUT_OF_MEMORY: &str = "out of memory\n";

/// The words after the program's name, where each of them is a text; refused where memory runs out. Standard error
/// says why none are given.
pub fn words_of(rt: &HostRuntime, tool: &str) -> Result<Option<Vec<TextVal>>, AllocError> {
    let words = given_words(rt, rt.alloc());
    match &words {
        Err(_) => say_out_of_memory(rt, tool),
        Ok(None) => said::say_unread_words(rt, tool),
        Ok(Some(_)) => {}
    }
    words
}

fn given_words(rt: &HostRuntime, alloc: Global) -> Result<Option<Vec<TextVal>>, AllocError> {
    let args = match env::args(rt) {
        Ok(args) => args,
        Err(error) if error.kind() == ErrorKind::OutOfMemory => return Err(AllocError),
        Err(_) => return Ok(None),
    };
    let mut words = Vec::new(alloc);
    for arg in args.skip(1) {
        words.push(TextVal::new(arg))?;
    }
    Ok(Some(words))
}

/// The text that a single word, `--help`, `-h` or `--version`, asks for in place of a run.
pub fn text_of(words: &[TextVal], help: &'static str, version: &'static str) -> Option<&'static str>
    ensures { option_copied result ≡ asked_text words.now help.now version.now }
{
    match words {
        [word] => match word.as_str() {
            "--help" | "-h" => Some(help),
            "--version" => Some(version),
            _ => None,
        },
        _ => None,
    }
}

/// The words of a run, or the status of one that ends before it begins: where they are no texts, memory runs out for
/// them, or a single one asks for the help text or the version, which is printed.
pub fn words_to_run(
    rt: &HostRuntime,
    tool: &str,
    help: &'static str,
    version: &'static str,
) -> Result<Vec<TextVal>, u8> {
    let words = match words_of(rt, tool) {
        Err(_) => return Err(status::OUT_OF_MEMORY),
        Ok(None) => return Err(status::USAGE),
        Ok(Some(words)) => words,
    };
    match text_of(words.as_slice(), help, version) {
        Some(text) => Err(say_unwritten(rt, tool, print_for(rt, text, status::DONE))),
        None => Ok(words),
    }
}

/// Prints a text on standard output. Whether all of it is out.
pub fn print(rt: &HostRuntime, text: &str) -> bool {
    let mut out = rt.stdout();
    out.write_all(text.as_bytes()).is_ok() && out.flush().is_ok()
}

/// Prints a text on standard output, and gives the status, or `status::OUTPUT_FAULT` where it isn't all out.
pub fn print_for(rt: &HostRuntime, text: &str, status: u8) -> u8 {
    if print(rt, text) {
        status
    } else {
        status::OUTPUT_FAULT
    }
}
