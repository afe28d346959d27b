// Runs of the server over an input and an output in memory.
use crate::lines::{show, spelled};
use crate::media::failing;
use byte_streams::{MemSink, MemSource};
use pm_format::Backend;
use rows_shared::{Words, number, said, say, texts};
use std::alloc::Global;
use tile_serve::{ServeOutcome, run_serve, serve_status};

// An output, of which a call fails.
fn output_of(alloc: Global, words: &mut Words) -> Option<MemSink> {
    let mut output = MemSink::new(alloc);
    output.fail_at(failing(alloc, number(words)?)?);
    Some(output)
}

// An input of these lines, of which a call fails.
fn input_of(alloc: Global, words: &mut Words) -> Option<MemSource> {
    let calls = failing(alloc, number(words)?)?;
    let mut input = MemSource::new(spelled(alloc, words.next()?)?);
    input.fail_at(calls);
    Some(input)
}

fn said_outcome(out: &mut String, outcome: ServeOutcome) -> Option<()> {
    say(out, &serve_status(&outcome))?;
    said(out, outcome)
}

// Which call of the output fails and which of the input, 0 for none, the input, and the words of the run. The answer is
// its status, its outcome and the output.
pub fn answer<B: Backend>(
    alloc: Global,
    out: &mut String,
    backend: &mut B,
    words: &mut Words,
) -> Option<()> {
    let mut output = output_of(alloc, words)?;
    let mut input = input_of(alloc, words)?;
    let words = texts(alloc, words)?;
    said_outcome(
        out,
        run_serve(alloc, words.as_slice(), backend, &mut input, &mut output),
    )?;
    show(out, output.as_bytes())
}
