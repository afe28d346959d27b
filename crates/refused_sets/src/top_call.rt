// The whole converter.
ghost use Rattle.tileset.specs.Run.{Causes, given_of};

use base_values::TextVal;
use byte_streams::{Sink, Source};
use pm_format::Medium;
use std::alloc::Global;
use tileset::{Outcome, run};

/// The outcome of a run.
pub fn outcome<I: Source, O: Sink, M: Medium>(
    alloc: Global,
    words: &[TextVal],
    input: &mut I,
    output: &mut O,
    medium: &mut M,
) -> Outcome
    ensures causes { Causes (given_of words.now (I.left input.old) (M.told medium.old)) result }
{
    run(alloc, words, input, output, medium)
}
