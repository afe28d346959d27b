// Runs over objects that answer in other ways.
use crate::answers::{said_outcome, say, say_bytes};
use crate::fields::{Fields, bytes_of, words_of};
use crate::in_memory::{Ended, run_calm};
use crate::running::run;
use crate::short_medium::ShortMedium;
use crate::single_bytes::{SingleBytesSink, SingleBytesSource};
use crate::stores::{Options, converted, options_of, script_of};
use base_values::TextVal;
use bytes::Bytes;
use pm_format::MemMedium;
use std::alloc::Global;
use std::io::Cursor;
use tileset::{MemSink, MemSource, Outcome, StdSink, StdSource};
use tileset_script::ParsedScript;

fn said_output(alloc: Global, out: &mut String, outcome: Outcome, output: &[u8]) -> Option<()> {
    said_outcome(alloc, out, outcome)?;
    say(out, "|")?;
    say_bytes(alloc, out, output, 4000)
}

// The first bytes of what a run wrote.
fn front_of(alloc: Global, ended: Ended, size: usize) -> Option<Bytes> {
    let whole = ended.medium.as_bytes();
    Bytes::copy_from_slice(alloc, &whole[..size.min(whole.len())]).ok()
}

fn short_outcome(alloc: Global, words: &[TextVal], script: Vec<u8>, front: Bytes) -> Outcome {
    let mut input = MemSource::new(script);
    let mut output = MemSink::new(alloc);
    let mut medium = ShortMedium::new(front);
    run(alloc, words, &mut input, &mut output, &mut medium)
}

/// A case of a length and a script: the medium opens as so many bytes of the script's archive, and gives short ranges.
pub fn short(alloc: Global, out: &mut String, fields: &mut Fields) -> Option<()> {
    let size = fields.next().parse::<usize>().ok()?;
    let words = words_of(alloc, "convert hex")?;
    let script = bytes_of(alloc, fields.next())?;
    let ended = run_calm(alloc, &words, script.clone().ok()?);
    let front = front_of(alloc, ended, size)?;
    said_outcome(alloc, out, short_outcome(alloc, &words, script, front))
}

// The same of a conversion over stores that holds no contents.
fn short_stream(alloc: Global, script: ParsedScript, front: Bytes) -> Outcome {
    let ParsedScript {
        options,
        mut base,
        mut patches,
        queries,
    } = script;
    let mut medium = ShortMedium::new(front);
    let answer = converted(
        alloc,
        &mut base,
        &mut patches,
        queries.as_slice(),
        &options_of(options),
        Options::Streamed,
        &mut medium,
    );
    match answer {
        Ok(_) => Outcome::Done,
        Err(error) => Outcome::from(error),
    }
}

/// The same of a conversion over stores that holds no contents.
pub fn short_streamed(alloc: Global, out: &mut String, fields: &mut Fields) -> Option<()> {
    let size = fields.next().parse::<usize>().ok()?;
    let words = words_of(alloc, "convert hex")?;
    let script = bytes_of(alloc, fields.next())?;
    let parsed = script_of(alloc, script.as_slice())?;
    let ended = run_calm(alloc, &words, script);
    let front = front_of(alloc, ended, size)?;
    said_outcome(alloc, out, short_stream(alloc, parsed, front))
}

// A medium whose version texts change.
fn versioned(alloc: Global) -> Option<MemMedium> {
    let mut medium = MemMedium::new(alloc);
    medium.set_versions(words_of(alloc, "a b")?);
    Some(medium)
}

/// A case of a script: the medium's version texts change from read to read.
pub fn versions(alloc: Global, out: &mut String, fields: &mut Fields) -> Option<()> {
    let words = words_of(alloc, "convert hex")?;
    let mut medium = versioned(alloc)?;
    let mut input = MemSource::new(bytes_of(alloc, fields.next())?);
    let mut output = MemSink::new(alloc);
    let outcome = run(alloc, &words, &mut input, &mut output, &mut medium);
    said_output(alloc, out, outcome, output.as_bytes())
}

/// A case of a script: the source gives one byte at a time, and the sink takes one.
pub fn single(alloc: Global, out: &mut String, fields: &mut Fields) -> Option<()> {
    let words = words_of(alloc, "convert hex")?;
    let mut input = SingleBytesSource::new(bytes_of(alloc, fields.next())?);
    let mut output = SingleBytesSink::new(alloc);
    let mut medium = MemMedium::new(alloc);
    let outcome = run(alloc, &words, &mut input, &mut output, &mut medium);
    said_output(alloc, out, outcome, output.as_bytes())
}

// How a run over a reader and a writer of std ends.
fn streamed(alloc: Global, words: &[TextVal], script: &[u8], bytes: &mut Vec<u8>) -> Outcome {
    let mut medium = MemMedium::new(alloc);
    let mut input = StdSource::new(Cursor::new(script));
    let mut output = StdSink::new(bytes);
    run(alloc, words, &mut input, &mut output, &mut medium)
}

/// A case of a script: it goes through a reader and a writer of std.
pub fn streams(alloc: Global, out: &mut String, fields: &mut Fields) -> Option<()> {
    let words = words_of(alloc, "convert hex")?;
    let script = bytes_of(alloc, fields.next())?;
    let mut bytes = Vec::new(alloc);
    let outcome = streamed(alloc, &words, script.as_slice(), &mut bytes);
    said_output(alloc, out, outcome, bytes.as_slice())
}
