// Scripts, a line at a time.
ghost use Rattle.std.specs.Prelude.{◌<◌, ◌+◌, ◌-◌, ◌^◌, IfOk, IfSome, OnOk, length};
ghost use Rattle.tileset_script.specs.Common.{HasNo, lines_of, option_and_then, option_copied};
ghost use Rattle.tileset_script.specs.Reading.{ScriptNeverFails, DraftNeverFails, EndsAs, Reads, Takes, TakesLines, drafted};
ghost use Rattle.tileset_script.specs.Script.{at_end, line_of, script_from, with_line};

use super::draft::Draft;
use super::line::parse_line;
use super::{ParsedScript, ScriptError};
use base_values::OutOfMemory;
use line_words::next_whole_line;
use std::alloc::Global;

// Takes a line, and says whether it is a good one in its place.
fn take_line(alloc: Global, draft: &mut Draft, line: &[u8]) -> Result<bool, OutOfMemory>
    ensures takes { IfOk result (λ taken. Takes (option_and_then (with_line (drafted draft.old))
        (line_of line.now)) taken (drafted draft.new)) }
    ensures unfailing { OnOk result (DraftNeverFails draft.old → DraftNeverFails draft.new) }
{
    match parse_line(alloc, line)? {
        Some(line) => draft.take(alloc, line),
        None => Ok(false),
    }
}

/// Takes the lines of a text that end in a line feed, and answers what is behind them; or None at a bad line,
/// whose number it is then.
pub(crate) fn take_lines<'a>(
    alloc: Global,
    draft: &mut Draft,
    number: &mut u64,
    text: &'a [u8],
) -> Result<Option<&'a [u8]>, OutOfMemory>
    ensures lines { number.old + length text.now < 2 ^ 64 → IfOk result (λ rest.
        TakesLines number.old (drafted draft.old) text.now (option_copied rest) number.new
        (drafted draft.new)) }
    ensures whole { IfOk result (λ rest. IfSome rest (λ r. HasNo 10 r.now (length r.now))) }
    ensures unfailing { OnOk result (DraftNeverFails draft.old → DraftNeverFails draft.new) }
{
    let mut rest = text;
    while let Some((line, tail)) = next_whole_line(rest) {
        if !take_line(alloc, draft, line)? {
            return Ok(None);
        }
        *number = number.saturating_add(1);
        rest = tail;
    }
    Ok(Some(rest))
}

// The script of lines that are taken, where there was a base line.
fn finish(draft: Draft, number: u64) -> Result<ParsedScript, ScriptError>
    ensures ends { EndsAs (at_end number (drafted draft)) result }
    ensures unfailing { DraftNeverFails draft → IfOk result ScriptNeverFails }
{
    match draft.finish()? {
        Some(script) => Ok(script),
        None => Err(ScriptError::BadLine(number)),
    }
}

/// The script of lines that are taken and of a last one that no line feed ends, or the number of the bad line.
pub(crate) fn end(
    alloc: Global,
    mut draft: Draft,
    number: u64,
    line: &[u8],
) -> Result<ParsedScript, ScriptError>
    ensures ends { number < 2 ^ 64 - 1 → HasNo 10 line.now (length line.now)
        → EndsAs (script_from number (drafted draft) (lines_of line.now)) result }
    ensures unfailing { DraftNeverFails draft → IfOk result ScriptNeverFails }
{
    if line.is_empty() {
        return finish(draft, number);
    }
    if !take_line(alloc, &mut draft, line)? {
        return Err(ScriptError::BadLine(number));
    }
    finish(draft, number.saturating_add(1))
}

/// The script that an input spells, or the number of its first bad line. No call of its stores fails. Rows take
/// the time of sorting them.
pub fn parse_script(alloc: Global, input: &[u8]) -> Result<ParsedScript, ScriptError>
    requires small { length input.now < 2 ^ 63 }
    ensures reads { Reads input.now result }
    ensures unfailing { IfOk result ScriptNeverFails }
{
    let mut draft = Draft::new(alloc);
    let mut number = 1;
    match take_lines(alloc, &mut draft, &mut number, input)? {
        Some(line) => end(alloc, draft, number, line),
        None => Err(ScriptError::BadLine(number)),
    }
}
