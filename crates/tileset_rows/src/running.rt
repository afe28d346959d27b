// The top call with nothing said of it: a line here is a test, and a caller that takes no clause
// is proved in little time.
use base_values::TextVal;
use pm_format::Medium;
use std::alloc::Global;
use tileset::{Outcome, Sink, Source};

/// `tileset::run`.
pub fn run<I: Source, O: Sink, M: Medium>(
    alloc: Global,
    words: &[TextVal],
    input: &mut I,
    output: &mut O,
    medium: &mut M,
) -> Outcome {
    tileset::run(alloc, words, input, output, medium)
}
