// Calls of a medium in memory.
use bytes::Bytes;
use pm_format::{
    Backend, BackendResponse, BytesBackend, FileBackend, FileMedium, Medium, MemMedium, ReadFault,
};
use rows_shared::{Words, bytes, number, said, say, say_bytes, texts};
use std::alloc::Global;

// What is kept from line to line.
#[derive(Drop)]
pub struct Kept {
    pub medium: MemMedium,
    pub bytes: BytesBackend,
    pub file: Option<FileBackend>,
    pub disk: Option<FileMedium>,
}

impl Kept {
    // Nothing in memory, and no file.
    pub fn new(alloc: Global) -> Kept {
        Kept {
            medium: MemMedium::new(alloc),
            bytes: BytesBackend::new(Bytes::new()),
            file: None,
            disk: None,
        }
    }
}

fn hold(alloc: Global, medium: &mut MemMedium, words: &mut Words) -> Option<()> {
    *medium = MemMedium::from_bytes(bytes(alloc, words)?);
    Some(())
}

fn fail(alloc: Global, medium: &mut MemMedium, words: &mut Words) -> Option<()> {
    let mut calls = Vec::new(alloc);
    for word in words {
        calls.push(word.parse::<u64>().ok()?).ok()?;
    }
    medium.fail_at(calls);
    Some(())
}

fn versions(alloc: Global, medium: &mut MemMedium, words: &mut Words) -> Option<()> {
    medium.set_versions(texts(alloc, words)?);
    Some(())
}

fn write(alloc: Global, out: &mut String, medium: &mut MemMedium, words: &mut Words) -> Option<()> {
    let offset = number::<u64>(words)?;
    let piece = bytes(alloc, words)?;
    offset.checked_add(piece.len() as u64)?;
    if offset > medium.as_bytes().len() as u64 {
        return None;
    }
    said(out, medium.write_at(offset, piece.as_slice()))
}

fn held(alloc: Global, out: &mut String, medium: &MemMedium) -> Option<()> {
    say_bytes(alloc, out, medium.as_bytes())
}

// A response: its version text, and its bytes.
pub fn say_response(alloc: Global, out: &mut String, response: &BackendResponse) -> Option<()> {
    say(out, &response.data_version_string)?;
    say_bytes(alloc, out, response.bytes.as_slice())
}

fn tell(alloc: Global, out: &mut String, given: Result<BackendResponse, ReadFault>) -> Option<()> {
    match given {
        Ok(response) => say_response(alloc, out, &response),
        Err(fault) => say(out, &fault),
    }
}

pub fn read<B: Backend>(
    alloc: Global,
    out: &mut String,
    backend: &mut B,
    words: &mut Words,
) -> Option<()> {
    tell(
        alloc,
        out,
        backend.read(alloc, number(words)?, number(words)?),
    )
}

pub fn exact<B: Backend>(
    alloc: Global,
    out: &mut String,
    backend: &mut B,
    words: &mut Words,
) -> Option<()> {
    tell(
        alloc,
        out,
        backend.read_exact(alloc, number(words)?, number(words)?),
    )
}

pub fn len<M: Medium>(out: &mut String, medium: &mut M) -> Option<()> {
    said(out, medium.len())
}

pub fn answer(
    alloc: Global,
    out: &mut String,
    medium: &mut MemMedium,
    words: &mut Words,
) -> Option<()> {
    match words.next()? {
        "hold" => hold(alloc, medium, words),
        "fail" => fail(alloc, medium, words),
        "versions" => versions(alloc, medium, words),
        "write" => write(alloc, out, medium, words),
        "held" => held(alloc, out, medium),
        "read" => read(alloc, out, medium, words),
        "exact" => exact(alloc, out, medium, words),
        "len" => len(out, medium),
        _ => None,
    }
}
