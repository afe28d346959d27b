// Requests for tiles, each of which is answered before the next one is read.
ghost use Rattle.std.specs.Prelude.{◌≤◌, IfSome};
ghost use Rattle.tile_serve.specs.Limits.{IsLimits};
ghost use Rattle.tile_serve.specs.Server.{IsTied};

use crate::TOOL;
use crate::saying::{out_of_memory, usage};
use base_values::TextVal;
use line_words::parse_number;
use pm_format::{Backend, FileBackend, status};
use program_words::{
    open_archive, say_input_fault, say_opening, say_output_fault, say_source_fault,
    tell_source_fault,
};
use std::io;
use std::io::{BufRead, BufReader, Read, Write};
use tile_command::{Asked, Subcommand};
use tile_serve::{ServeError, ServeLimits, ServeOutcome, TileServer, serve_status};

// How many bytes of a line are kept. Each request is shorter, so that the front of a longer line is no request either,
// and the line has the reply to its front.
const LONGEST: u64 = 256;

// The greatest number of directories, entries or tiles.
const MAX_COUNT: u64 = 4_294_967_295;

// What is held where no limits are given.
fn usual_limits() -> ServeLimits
    ensures { IsLimits result }
{
    ServeLimits {
        directories: 64,
        directory_entries: 1_000_000,
        tiles: 4096,
        tile_bytes: 268_435_456,
    }
}

// A number of at least 1.
fn count_of(word: &TextVal) -> Option<usize>
    ensures { IfSome result (λ n. 1 ≤ n) }
{
    let count = parse_number(word.as_str().as_bytes(), MAX_COUNT)?;
    if count == 0 {
        return None;
    }
    Some(count as usize)
}

// The limits that four words spell.
fn limits_by(
    directories: &TextVal,
    entries: &TextVal,
    tiles: &TextVal,
    bytes: &TextVal,
) -> Option<ServeLimits>
    ensures { IfSome result IsLimits }
{
    let directories = count_of(directories)?;
    let entries = parse_number(entries.as_str().as_bytes(), MAX_COUNT)?;
    let tiles = count_of(tiles)?;
    let tile_bytes = parse_number(bytes.as_str().as_bytes(), u64::MAX)?;
    Some(ServeLimits {
        directories,
        directory_entries: entries as usize,
        tiles,
        tile_bytes,
    })
}

// The limits behind the file, or those that hold where none are given.
fn limits_of(words: &[TextVal]) -> Option<ServeLimits>
    ensures { IfSome result IsLimits }
{
    match words {
        [_] => Some(usual_limits()),
        [_, directories, entries, tiles, bytes] => limits_by(directories, entries, tiles, bytes),
        _ => None,
    }
}

// Reads the next line without its line feed, as far as it is kept. False at the end of the input.
fn next_line<R: BufRead>(reader: &mut R, line: &mut Vec<u8>) -> io::Result<bool> {
    line.clear();
    let mut front = reader.by_ref().take(LONGEST);
    if front.read_until(b'\n', line)? == 0 {
        return Ok(false);
    }
    if line.last() == Some(&b'\n') {
        line.pop();
    } else {
        reader.skip_until(b'\n')?;
    }
    Ok(true)
}

// Writes a reply, all of which is out then.
fn write_reply(rt: &HostRuntime, reply: &[u8]) -> u8 {
    let mut out = rt.stdout();
    if out.write_all(reply).is_ok() && out.flush().is_ok() {
        return status::DONE;
    }
    say_output_fault(rt, TOOL);
    status::OUTPUT_FAULT
}

// Says why an archive isn't opened, or a line isn't answered.
fn unanswered(rt: &HostRuntime, path: &str, error: ServeError) -> u8 {
    match &error {
        ServeError::OutOfMemory => return out_of_memory(rt),
        ServeError::Opening(error) => say_opening(rt, TOOL, path, error),
        ServeError::Fault => say_source_fault(rt, TOOL, path),
        other => {
            let _ = eprintln!(rt; "{TOOL}: {path}: {other}");
        }
    }
    serve_status(&ServeOutcome::Refused(error))
}

// Why no further line comes: memory, or a reader that fails.
fn unread(rt: &HostRuntime, error: &io::Error) -> u8 {
    if error.kind() == io::ErrorKind::OutOfMemory {
        return out_of_memory(rt);
    }
    say_input_fault(rt, TOOL);
    status::INPUT_FAULT
}

// Answers a line.
fn serve_line<B: Backend>(
    rt: &HostRuntime,
    path: &str,
    server: &mut TileServer<'_, B>,
    line: &[u8],
) -> u8
    requires tied { IsTied B.told B.versions server.old }
    ensures tied { IsTied B.told B.versions server.new }
{
    match server.answer(line) {
        Ok(reply) => write_reply(rt, reply.as_bytes()),
        Err(error) => unanswered(rt, path, error),
    }
}

// Answers each line once it is there, to the end of the input or the first one that isn't answered.
fn serve_lines<B: Backend, R: BufRead>(
    rt: &HostRuntime,
    path: &str,
    server: &mut TileServer<'_, B>,
    reader: &mut R,
) -> u8
    requires tied { IsTied B.told B.versions server.old }
{
    let mut line = Vec::new(rt.alloc());
    'lines: for _ in 0..u64::MAX {
        match next_line(reader, &mut line) {
            Ok(true) => {}
            Ok(false) => break 'lines,
            Err(error) => return unread(rt, &error),
        }
        let status = serve_line(rt, path, server, line.as_slice());
        if status != status::DONE {
            return status;
        }
    }
    status::DONE
}

// Serves an archive that is there.
fn serve_source(rt: &HostRuntime, path: &str, limits: ServeLimits, source: &mut FileBackend) -> u8
    requires limits { IsLimits limits }
{
    let mut server = match TileServer::open(rt.alloc(), source, limits) {
        Ok(server) => server,
        Err(error) => return unanswered(rt, path, error),
    };
    match BufReader::new(rt.alloc(), rt.stdin()) {
        Ok(mut reader) => serve_lines(rt, path, &mut server, &mut reader),
        Err(_) => out_of_memory(rt),
    }
}

/// Answers requests for the tiles of an archive, a line each, until the input ends.
pub fn serve(rt: &HostRuntime, asked: &Asked) -> u8 {
    let path = asked.word(0);
    let Some(limits) = limits_of(asked.places.as_slice()) else {
        return usage(rt, Subcommand::Serve);
    };
    match open_archive(rt, path) {
        Some(mut source) => serve_source(rt, path, limits, &mut source),
        None => tell_source_fault(rt, TOOL, path, status::FAULT),
    }
}
