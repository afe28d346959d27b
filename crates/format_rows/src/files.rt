// Calls of a medium over a file.
use crate::media::{exact, len, read};
use pm_format::{FileMedium, Medium};
use rows_shared::{Words, bytes, number, said, say};
use std::alloc::Global;

fn open(
    rt: &HostRuntime,
    out: &mut String,
    kept: &mut Option<FileMedium>,
    words: &mut Words,
) -> Option<()> {
    match FileMedium::open(rt, words.next()?) {
        Ok(opened) => {
            *kept = Some(opened);
            Some(())
        }
        Err(fault) => say(out, &fault),
    }
}

fn write(alloc: Global, out: &mut String, file: &mut FileMedium, words: &mut Words) -> Option<()> {
    let offset = number::<u64>(words)?;
    let piece = bytes(alloc, words)?;
    offset.checked_add(piece.len() as u64)?;
    said(out, file.write_at(offset, piece.as_slice()))
}

fn call(alloc: Global, out: &mut String, file: &mut FileMedium, words: &mut Words) -> Option<()> {
    match words.next()? {
        "write" => write(alloc, out, file, words),
        "read" => read(alloc, out, file, words),
        "exact" => exact(alloc, out, file, words),
        "len" => len(out, file),
        "flush" => said(out, file.flush()),
        _ => None,
    }
}

pub fn answer(
    rt: &HostRuntime,
    alloc: Global,
    out: &mut String,
    kept: &mut Option<FileMedium>,
    words: &mut Words,
) -> Option<()> {
    match words.next()? {
        "open" => open(rt, out, kept, words),
        "call" => call(alloc, out, kept.as_mut()?, words),
        _ => None,
    }
}
