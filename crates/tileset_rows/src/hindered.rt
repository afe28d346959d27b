// Conversions over stores and a medium of which one call after another fails.
use crate::answers::{say, say_other};
use crate::counted::MOST_CALLS;
use crate::fields::{Fields, bytes_of};
use crate::stores::{Options, script_of, shown};
use pm_format::MemMedium;
use std::alloc::Global;
use tileset_script::ParsedScript;

// What has a call that fails: a store by its place, 0 for the base, or the medium.
#[derive(Clone, Copy)]
enum Object {
    Store(usize),
    Medium,
}

fn object_of(name: &str) -> Option<Object> {
    match name {
        "medium" => Some(Object::Medium),
        place => Some(Object::Store(place.parse::<usize>().ok()?)),
    }
}

fn hinder_store(script: &mut ParsedScript, place: usize, calls: Vec<u64>) -> Option<()> {
    if place == 0 {
        script.base.fail_at(calls);
        return Some(());
    }
    script.patches.get_mut(place - 1)?.fail_at(calls);
    Some(())
}

// Has the call of a number fail.
fn hinder(
    alloc: Global,
    script: &mut ParsedScript,
    medium: &mut MemMedium,
    object: Object,
    number: u64,
) -> Option<()> {
    let mut calls = Vec::new(alloc);
    calls.push(number).ok()?;
    match object {
        Object::Store(place) => hinder_store(script, place, calls),
        Object::Medium => {
            medium.fail_at(calls);
            Some(())
        }
    }
}

// Appends how a conversion ends in which this call of an object fails, and what the base then holds;
// gives whether it is done.
fn say_hindered(
    alloc: Global,
    out: &mut String,
    script: &[u8],
    options: Options,
    object: Object,
    number: u64,
) -> Option<bool> {
    let mut script = script_of(alloc, script)?;
    let mut medium = MemMedium::new(alloc);
    hinder(alloc, &mut script, &mut medium, object, number)?;
    shown(alloc, out, script, options, medium)
}

/// A case of an object and a script: each call of the object fails in a conversion of its own, until none is left.
/// Ends that follow each other and are the same stand once. The calls that reading the script makes come first,
/// and fail in no conversion.
pub fn answer(
    alloc: Global,
    out: &mut String,
    fields: &mut Fields,
    options: Options,
) -> Option<()> {
    let object = object_of(fields.next())?;
    let script = bytes_of(alloc, fields.next())?;
    let mut last = String::new(alloc);
    let mut failed = false;
    for number in 1..MOST_CALLS {
        let mut text = String::new(alloc);
        let done = say_hindered(alloc, &mut text, &script, options, object, number)?;
        if failed || !done {
            say_other(alloc, out, &mut last, text.as_str())?;
        }
        if failed && done {
            return Some(());
        }
        failed = failed || !done;
    }
    say(out, "no end")
}
