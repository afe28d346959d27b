// Calls of the medium that is kept.
use pm_format::MemMedium;
use rows_shared::{Counted, Words, bytes, number, say, say_bytes, texts};
use std::alloc::Global;
use tile_hash::md5_text;

fn hold(alloc: Global, backend: &mut Counted, words: &mut Words) -> Option<()> {
    *backend = Counted::new(MemMedium::from_bytes(bytes(alloc, words)?));
    Some(())
}

// Puts bytes in place of those from a place on.
fn change(alloc: Global, backend: &mut Counted, words: &mut Words) -> Option<()> {
    let at = number::<usize>(words)?;
    let piece = bytes(alloc, words)?;
    let held = backend.medium.as_bytes();
    let mut changed = held.get(..at)?.to_vec(alloc).ok()?;
    changed.extend_from_slice(piece.as_slice()).ok()?;
    changed
        .extend_from_slice(held.get(at.checked_add(piece.len())?..)?)
        .ok()?;
    *backend = Counted::new(MemMedium::from_bytes(changed));
    Some(())
}

// Leaves the first bytes alone.
fn cut(alloc: Global, backend: &mut Counted, words: &mut Words) -> Option<()> {
    let left = backend
        .medium
        .as_bytes()
        .get(..number::<usize>(words)?)?
        .to_vec(alloc)
        .ok()?;
    *backend = Counted::new(MemMedium::from_bytes(left));
    Some(())
}

fn fail(alloc: Global, medium: &mut MemMedium, words: &mut Words) -> Option<()> {
    let mut calls = Vec::new(alloc);
    for word in words {
        calls.push(word.parse::<u64>().ok()?).ok()?;
    }
    medium.fail_at(calls);
    Some(())
}

fn versions(alloc: Global, medium: &mut MemMedium, words: &mut Words) -> Option<()> {
    medium.set_versions(texts(alloc, words)?);
    Some(())
}

// The calls that fail: one, or none where it is 0.
pub fn failing(alloc: Global, call: u64) -> Option<Vec<u64>> {
    let mut calls = Vec::new(alloc);
    calls.push(call).ok()?;
    Some(calls)
}

// A medium of these bytes, of which a call fails.
pub fn holding(alloc: Global, bytes: &[u8], call: u64) -> Option<MemMedium> {
    let mut medium = MemMedium::from_bytes(bytes.to_vec(alloc).ok()?);
    medium.fail_at(failing(alloc, call)?);
    Some(medium)
}

// A part of what is held.
pub fn part(alloc: Global, out: &mut String, medium: &MemMedium, words: &mut Words) -> Option<()> {
    let rest = medium.as_bytes().get(number::<usize>(words)?..)?;
    say_bytes(alloc, out, rest.get(..number::<usize>(words)?)?)
}

// How many bytes are held, and their MD5 digest.
pub fn digest(alloc: Global, out: &mut String, medium: &MemMedium) -> Option<()> {
    say(out, &medium.as_bytes().len())?;
    say_bytes(alloc, out, md5_text(medium.as_bytes()).as_slice())
}

pub fn answer(
    alloc: Global,
    out: &mut String,
    backend: &mut Counted,
    words: &mut Words,
) -> Option<()> {
    match words.next()? {
        "hold" => hold(alloc, backend, words),
        "change" => change(alloc, backend, words),
        "cut" => cut(alloc, backend, words),
        "fail" => fail(alloc, &mut backend.medium, words),
        "versions" => versions(alloc, &mut backend.medium, words),
        "part" => part(alloc, out, &backend.medium, words),
        "digest" => digest(alloc, out, &backend.medium),
        "calls" => say(out, &backend.calls),
        _ => None,
    }
}
