// Calls that open what a backend holds and ask one thing of it.
use crate::{reading, serve_runs, serving, states, verifying};
use pm_format::Backend;
use rows_shared::Words;
use std::alloc::Global;

fn serve<B: Backend>(
    alloc: Global,
    out: &mut String,
    backend: &mut B,
    words: &mut Words,
) -> Option<()> {
    match words.next()? {
        "lines" => serving::answer(alloc, out, backend, words),
        "run" => serve_runs::answer(alloc, out, backend, words),
        _ => None,
    }
}

pub fn answer<B: Backend>(
    alloc: Global,
    out: &mut String,
    backend: &mut B,
    call: &str,
    words: &mut Words,
) -> Option<()> {
    match call {
        "read" => reading::answer(alloc, out, backend, words),
        "state" => states::answer(alloc, out, backend, words),
        "verify" => verifying::answer(alloc, out, backend, words),
        "serve" => serve(alloc, out, backend, words),
        _ => None,
    }
}
