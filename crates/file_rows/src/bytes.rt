// Sets that are read by the pages of a file whose bytes a line has.
use crate::paged::{FAULT, say_opened, say_set};
use mb_file::FileSet;
use rows_shared::{Words, bytes};
use std::alloc::Global;
use std::fmt::Write;
use tile_hash::HashAlgorithm;

// The first byte that is changed, behind the header.
const FIRST: usize = 100;

pub fn answer(alloc: Global, out: &mut String, words: &mut Words) -> Option<()> {
    let bytes = bytes(alloc, words)?;
    say_opened(alloc, out, FileSet::of_bytes(alloc, bytes.as_slice(), 8))
}

// What a file of these bytes is read as, None where it is refused or can't be read.
fn said_of(alloc: Global, bytes: &[u8]) -> Option<String> {
    let set = FileSet::of_bytes(alloc, bytes, 8).ok()?;
    let mut said = String::new(alloc);
    say_set(alloc, &mut said, set)?;
    if said.as_str() == FAULT {
        None
    } else {
        Some(said)
    }
}

// Changes a bit of a byte, or puts it back.
fn change(bytes: &mut [u8], at: usize) -> Option<()> {
    let byte = bytes.get_mut(at)?;
    *byte ^= 1 << (at % 8);
    Some(())
}

// Whether a file with a byte that is changed is refused, or read as the digest of a text begins.
fn is_right(alloc: Global, bytes: &mut [u8], at: usize, reading: &str) -> Option<bool> {
    change(bytes, at)?;
    let said = said_of(alloc, bytes);
    change(bytes, at)?;
    let Some(said) = said else {
        return Some(true);
    };
    let digest = HashAlgorithm::Md5
        .hash(alloc, said.as_str().as_bytes())
        .ok()?;
    Some(digest.as_str().starts_with(reading))
}

// Appends the bytes whose change is read otherwise than it has to be, and behind which byte that was tried last.
pub fn changed(alloc: Global, out: &mut String, words: &mut Words) -> Option<()> {
    let mut bytes = bytes(alloc, words)?;
    let mut at = FIRST;
    for run in words.next()?.split(',') {
        let (count, reading) = run.split_once('x')?;
        for _ in 0..count.parse::<u32>().ok()? {
            if !is_right(alloc, bytes.as_mut_slice(), at, reading)? {
                write!(out, "wrong {at} ").ok()?;
            }
            at = at.saturating_add(1);
        }
    }
    write!(out, "tried {at} ").ok()
}
