// Runs over a file in the folder that the program runs in.
use crate::answers::{said_outcome, say, say_bytes};
use crate::fields::{Fields, bytes_of, words_of};
use crate::running::run;
use base_values::TextVal;
use pm_format::{Backend, FileMedium, Medium};
use std::alloc::Global;
use std::fmt::Write;
use tileset::{MemSink, MemSource, Outcome};

fn words_with(alloc: Global, path: &str) -> Option<Vec<TextVal>> {
    let mut words = words_of(alloc, "convert file")?;
    words
        .push(TextVal::new(String::from_str(alloc, path).ok()?))
        .ok()?;
    Some(words)
}

fn run_on(
    alloc: Global,
    out: &mut String,
    words: &[TextVal],
    script: Vec<u8>,
    medium: &mut FileMedium,
) -> Option<()> {
    let mut input = MemSource::new(script);
    let mut output = MemSink::new(alloc);
    let outcome: Outcome = run(alloc, words, &mut input, &mut output, medium);
    said_outcome(alloc, out, outcome)?;
    say(out, "|")?;
    say_bytes(alloc, out, output.as_bytes(), 4000)
}

// The length and the bytes of a file that is opened anew.
fn say_file(rt: &HostRuntime, alloc: Global, out: &mut String, path: &str) -> Option<()> {
    let mut medium = FileMedium::open(rt, path).ok()?;
    let length = medium.len().ok()?;
    let whole = medium.read_exact(alloc, 0, length).ok()?;
    write!(out, "|{length}|").ok()?;
    say_bytes(alloc, out, &whole.bytes, 64)
}

/// A case of a path and a script: a run that converts into the file, and what the file then holds.
pub fn answer(
    rt: &HostRuntime,
    alloc: Global,
    out: &mut String,
    fields: &mut Fields,
) -> Option<()> {
    let path = fields.next();
    let words = words_with(alloc, path)?;
    let script = bytes_of(alloc, fields.next())?;
    let mut medium = FileMedium::open(rt, path).ok()?;
    run_on(alloc, out, &words, script, &mut medium)?;
    medium.flush().ok()?;
    say_file(rt, alloc, out, path)
}
