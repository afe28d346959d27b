// Runs in which one call after another fails.
use crate::answers::say;
use crate::fields::{Fields, bytes_of, words_of};
use crate::in_memory::{Ended, Failing, run_calm, run_failing};
use base_values::TextVal;
use std::alloc::Global;
use std::fmt::Write;
use tileset::Outcome;

/// More calls than any case here makes.
pub const MOST_CALLS: u64 = 1000;

// The place of the label of directories.
const LABEL: usize = 97;

/// What has a call that fails.
#[derive(Clone, Copy)]
pub enum Object {
    Input,
    Output,
    Medium,
}

fn object_of(name: &str) -> Option<Object> {
    match name {
        "input" => Some(Object::Input),
        "output" => Some(Object::Output),
        "medium" => Some(Object::Medium),
        _ => None,
    }
}

fn add_call(failing: &mut Failing, object: Object, number: u64) -> Option<()> {
    match object {
        Object::Input => failing.input.push(number).ok(),
        Object::Output => failing.output.push(number).ok(),
        Object::Medium => failing.medium.push(number).ok(),
    }
}

// One call that fails.
fn failing_at(alloc: Global, object: Object, number: u64) -> Option<Failing> {
    let mut failing = Failing::none(alloc);
    add_call(&mut failing, object, number)?;
    Some(failing)
}

/// A run in which this call of an object fails.
pub fn run_with(
    alloc: Global,
    words: &[TextVal],
    script: &[u8],
    object: Object,
    number: u64,
) -> Option<Ended> {
    let failing = failing_at(alloc, object, number)?;
    let script = Vec::from_slice(alloc, script).ok()?;
    Some(run_failing(alloc, words, script, failing, Vec::new(alloc)))
}

// No reader opens these bytes, or they are the whole archive.
fn is_hidden_or(bytes: &[u8], whole: &[u8]) -> bool {
    bytes == whole || bytes.get(LABEL).is_none_or(|label| *label == 0)
}

// Whether a run ends as it must where a call of an object fails: nothing or a proper front is written, and no part
// of the archive is shown.
fn is_wanted(object: Object, ended: &Ended, whole: &Ended) -> bool {
    let written = ended.output.as_bytes();
    let held = ended.medium.as_bytes();
    let front = written.len() < whole.output.as_bytes().len()
        && whole.output.as_bytes().starts_with(written);
    match object {
        Object::Input => {
            matches!(ended.outcome, Outcome::InputFault) && written.is_empty() && held.is_empty()
        }
        Object::Output => {
            matches!(ended.outcome, Outcome::OutputFault)
                && front
                && held == whole.medium.as_bytes()
        }
        Object::Medium => {
            matches!(ended.outcome, Outcome::MediumFault)
                && front
                && is_hidden_or(held, whole.medium.as_bytes())
        }
    }
}

fn is_same(ended: &Ended, whole: &Ended) -> bool {
    ended.output.as_bytes() == whole.output.as_bytes()
        && ended.medium.as_bytes() == whole.medium.as_bytes()
}

// What the end of a run comes to: the same as without a failing call, another one, a wanted one,
// or one that isn't wanted.
#[derive(Clone, Copy)]
enum Turn {
    Same,
    Other,
    Wanted,
    Unwanted,
}

fn turn_of(object: Object, ended: Ended, whole: &Ended) -> Turn {
    if matches!(ended.outcome, Outcome::Done) {
        return if is_same(&ended, whole) {
            Turn::Same
        } else {
            Turn::Other
        };
    }
    if is_wanted(object, &ended, whole) {
        Turn::Wanted
    } else {
        Turn::Unwanted
    }
}

fn each_call(
    alloc: Global,
    out: &mut String,
    object: Object,
    words: &[TextVal],
    script: &[u8],
    whole: &Ended,
) -> Option<()> {
    for number in 1..MOST_CALLS {
        let ended = run_with(alloc, words, script, object, number)?;
        match turn_of(object, ended, whole) {
            Turn::Wanted => {}
            Turn::Same if number == 1 => return say(out, "no call"),
            Turn::Same => return say(out, "as wanted"),
            Turn::Other => return say(out, "another end"),
            Turn::Unwanted => return write!(out, "not as wanted at call {number}").ok(),
        }
    }
    say(out, "no end")
}

/// A case of an object, words and a script: each call of the object fails in a run of its own, until none is left.
pub fn each(alloc: Global, out: &mut String, fields: &mut Fields) -> Option<()> {
    let object = object_of(fields.next())?;
    let words = words_of(alloc, fields.next())?;
    let script = bytes_of(alloc, fields.next())?;
    let whole = run_calm(alloc, &words, script.clone().ok()?);
    each_call(alloc, out, object, &words, &script, &whole)
}

fn is_done(ended: Ended) -> bool {
    matches!(ended.outcome, Outcome::Done)
}

// How many calls of the medium a run makes: a later one that fails isn't noticed.
fn count_calls(alloc: Global, script: &[u8]) -> Option<u64> {
    let words = words_of(alloc, "convert hex")?;
    for number in 1..MOST_CALLS {
        let ended = run_with(alloc, &words, script, Object::Medium, number)?;
        if is_done(ended) {
            return Some(number);
        }
    }
    None
}

// A script and further lines.
fn joined(alloc: Global, script: Vec<u8>, field: &str) -> Option<Vec<u8>> {
    let mut script = script;
    let more = bytes_of(alloc, field)?;
    script.extend_from_slice(&more).ok()?;
    Some(script)
}

/// A case of a script and further lines: how many more calls of the medium a run makes for these lines.
pub fn reads(alloc: Global, out: &mut String, fields: &mut Fields) -> Option<()> {
    let script = bytes_of(alloc, fields.next())?;
    let before = count_calls(alloc, &script)?;
    let longer = joined(alloc, script, fields.next())?;
    let now = count_calls(alloc, &longer)?;
    let more = now.checked_sub(before)?;
    write!(out, "{more}").ok()
}
