// Calls of the varints of pm_format.
use pm_format::{read_varint_u32, read_varint_u64, write_varint};
use rows_shared::{Words, bytes, number, said, say_bytes};
use std::alloc::Global;

fn write(alloc: Global, out: &mut String, words: &mut Words) -> Option<()> {
    let mut spelled = bytes(alloc, words)?;
    write_varint(&mut spelled, number(words)?).ok()?;
    say_bytes(alloc, out, spelled.as_slice())
}

fn read_u64(alloc: Global, out: &mut String, words: &mut Words) -> Option<()> {
    let input = bytes(alloc, words)?;
    let at = number(words)?;
    if at > input.len() {
        return None;
    }
    said(out, read_varint_u64(input.as_slice(), at))
}

fn read_u32(alloc: Global, out: &mut String, words: &mut Words) -> Option<()> {
    let input = bytes(alloc, words)?;
    let at = number(words)?;
    if at > input.len() {
        return None;
    }
    said(out, read_varint_u32(input.as_slice(), at))
}

pub fn answer(alloc: Global, out: &mut String, words: &mut Words) -> Option<()> {
    match words.next()? {
        "write" => write(alloc, out, words),
        "u64" => read_u64(alloc, out, words),
        "u32" => read_u32(alloc, out, words),
        _ => None,
    }
}
