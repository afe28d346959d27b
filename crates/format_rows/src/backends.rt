// Calls of backends over bytes and over a file.
use crate::files;
use crate::media::{Kept, exact, read, say_response};
use bytes::Bytes;
use pm_format::{Backend, BackendResponse, BytesBackend, FileBackend};
use rows_shared::{Words, bytes, owned, say};
use std::alloc::Global;

fn hold(alloc: Global, backend: &mut BytesBackend, words: &mut Words) -> Option<()> {
    *backend = BytesBackend::new(Bytes::from_vec(bytes(alloc, words)?).ok()?);
    Some(())
}

fn open(
    rt: &HostRuntime,
    out: &mut String,
    file: &mut Option<FileBackend>,
    words: &mut Words,
) -> Option<()> {
    match FileBackend::open(rt, words.next()?) {
        Ok(opened) => {
            *file = Some(opened);
            Some(())
        }
        Err(fault) => say(out, &fault),
    }
}

fn shared(alloc: Global, words: &mut Words) -> Option<Bytes> {
    Bytes::from_vec(bytes(alloc, words)?).ok()
}

fn said_response(alloc: Global, out: &mut String, response: BackendResponse) -> Option<()> {
    say_response(alloc, out, &response)
}

// The response of some bytes.
fn plain(alloc: Global, out: &mut String, words: &mut Words) -> Option<()> {
    let plain = shared(alloc, words)?;
    said_response(alloc, out, BackendResponse::new(plain))
}

// The response of some bytes with a version text.
fn versioned(alloc: Global, out: &mut String, words: &mut Words) -> Option<()> {
    let versioned = shared(alloc, words)?;
    let version = owned(alloc, words)?;
    said_response(
        alloc,
        out,
        BackendResponse::new_with_version(versioned, version),
    )
}

fn response(alloc: Global, out: &mut String, words: &mut Words) -> Option<()> {
    plain(alloc, out, words)?;
    versioned(alloc, out, words)
}

fn reads<B: Backend>(
    alloc: Global,
    out: &mut String,
    backend: &mut B,
    words: &mut Words,
) -> Option<()> {
    match words.next()? {
        "read" => read(alloc, out, backend, words),
        "exact" => exact(alloc, out, backend, words),
        _ => None,
    }
}

pub fn answer(rt: &HostRuntime, out: &mut String, kept: &mut Kept, line: &str) -> Option<()> {
    let alloc = rt.alloc();
    let mut words: Words = line.split_whitespace();
    match words.next()? {
        "response" => response(alloc, out, &mut words),
        "hold" => hold(alloc, &mut kept.bytes, &mut words),
        "bytes" => reads(alloc, out, &mut kept.bytes, &mut words),
        "open" => open(rt, out, &mut kept.file, &mut words),
        "file" => reads(alloc, out, kept.file.as_mut()?, &mut words),
        "disk" => files::answer(rt, alloc, out, &mut kept.disk, &mut words),
        _ => None,
    }
}
