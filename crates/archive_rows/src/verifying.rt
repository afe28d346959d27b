// The check of the whole archive that is held.
use base_values::TextVal;
use pm_format::{Backend, MemMedium};
use rows_shared::{Words, number, said, say, texts};
use std::alloc::Global;
use tile_hash::{HashAlgorithm, HashStream};
use tile_header_check::{HeaderError, check_header, fault_line};
use tile_verify::{VerifyOutcome, run_verify, verify, verify_line, verify_status};

fn said_outcome(alloc: Global, out: &mut String, outcome: VerifyOutcome) -> Option<()> {
    say(out, &verify_status(&outcome))?;
    said(out, verify_line(alloc, &outcome).ok()?)
}

// The status and the line of a run with these words.
fn run<B: Backend>(
    alloc: Global,
    out: &mut String,
    backend: &mut B,
    words: &mut Words,
) -> Option<()> {
    let words = texts(alloc, words)?;
    said_outcome(alloc, out, run_verify(alloc, words.as_slice(), backend))
}

// The line of a run over bytes of which one is raised.
fn raised(alloc: Global, bytes: &[u8], at: usize, step: u8) -> Option<TextVal> {
    let (byte, behind) = bytes.get(at..)?.split_first()?;
    let mut changed = bytes.get(..at)?.to_vec(alloc).ok()?;
    changed.push(byte.wrapping_add(step)).ok()?;
    changed.extend_from_slice(behind).ok()?;
    let outcome: VerifyOutcome = run_verify(alloc, &[], &mut MemMedium::from_bytes(changed));
    verify_line(alloc, &outcome).ok()
}

// Raises each byte from a place to before another by each number from 1 to a last one: the
// digest of the lines in a row.
pub fn changes(alloc: Global, out: &mut String, bytes: &[u8], words: &mut Words) -> Option<()> {
    let first = number::<usize>(words)?;
    let end = number::<usize>(words)?;
    let last = number::<u8>(words)?;
    let mut digest = HashStream::new(HashAlgorithm::Md5);
    for at in first..end {
        for step in 0..last {
            let line = raised(alloc, bytes, at, step + 1)?;
            digest.update(line.as_str().as_bytes());
        }
    }
    said(out, digest.finish(alloc).ok()?)
}

// The line of what the header says wrong, where that is all.
fn fault<B: Backend>(alloc: Global, out: &mut String, backend: &mut B) -> Option<()> {
    match check_header(alloc, backend) {
        Err(HeaderError::Header(fault)) => said(out, fault_line(alloc, &fault).ok()?),
        _ => None,
    }
}

pub fn answer<B: Backend>(
    alloc: Global,
    out: &mut String,
    backend: &mut B,
    words: &mut Words,
) -> Option<()> {
    match words.next()? {
        "report" => said(out, verify(alloc, backend)),
        "header" => said(out, check_header(alloc, backend)),
        "fault" => fault(alloc, out, backend),
        "run" => run(alloc, out, backend, words),
        _ => None,
    }
}
