// What a check, an extraction and a server say of an archive.
use crate::archives::backend_of;
use crate::asked::Asked;
use byte_streams::{MemSink, MemSource};
use pm_format::MemMedium;
use rows_shared::{said, say};
use std::alloc::Global;
use std::fmt::Write;
use std::str;
use tile_extract::{ExtractOutcome, extract_status, run_extract};
use tile_hash::md5_text;
use tile_serve::{run_serve, serve_status};
use tile_verify::{run_verify, verify_line, verify_status};

/// Appends the digest of bytes.
pub fn say_digest(out: &mut String, bytes: &[u8]) -> Option<()> {
    let digest = md5_text(bytes);
    let text = str::from_utf8(digest.as_slice()).ok()?;
    write!(out, "{text} ").ok()
}

/// Checked whole: the status, and the line.
pub fn by_check(alloc: Global, out: &mut String, held: &[u8]) -> Option<()> {
    let mut backend = backend_of(alloc, held)?;
    let outcome = run_verify(alloc, &[], &mut backend);
    say(out, &verify_status(&outcome))?;
    let line = verify_line(alloc, &outcome).ok()?;
    say(out, &line.as_str())
}

// How it ended: how many bytes the medium has, and their digest, or the outcome and byte 97 of the medium.
fn say_part(out: &mut String, outcome: ExtractOutcome, medium: &MemMedium) -> Option<()> {
    match outcome {
        ExtractOutcome::Done(_) => {
            say(out, &medium.as_bytes().len())?;
            say_digest(out, medium.as_bytes())
        }
        outcome => {
            said(out, outcome)?;
            say(out, &medium.as_bytes().get(97))
        }
    }
}

/// A part of it to a new medium: the status, and how it ended.
pub fn by_extraction(alloc: Global, out: &mut String, held: &[u8], asked: &Asked) -> Option<()> {
    let mut source = backend_of(alloc, held)?;
    let mut medium = MemMedium::new(alloc);
    let outcome = run_extract(alloc, asked.part.as_slice(), &mut source, &mut medium);
    say(out, &extract_status(&outcome))?;
    say_part(out, outcome, &medium)
}

/// Tiles by their requests: the status, the outcome and the replies.
pub fn by_server(alloc: Global, out: &mut String, held: &[u8], asked: &Asked) -> Option<()> {
    let mut backend = backend_of(alloc, held)?;
    let requests = asked.requests.as_str().as_bytes().to_vec(alloc).ok()?;
    let mut input = MemSource::new(requests);
    let mut output = MemSink::new(alloc);
    let outcome = run_serve(
        alloc,
        asked.limits.as_slice(),
        &mut backend,
        &mut input,
        &mut output,
    );
    say(out, &serve_status(&outcome))?;
    said(out, outcome)?;
    say(out, &str::from_utf8(output.as_bytes()).ok()?)
}
