// Lines that one server answers, one after another.
ghost use Rattle.std.specs.Prelude.{◌≡◌, IfSome};
ghost use Rattle.tile_serve.specs.Limits.{IsLimits};
ghost use Rattle.tile_serve.specs.Server.{IsTied};

use crate::lines::{show, spelled};
use base_values::BlobVal;
use pm_format::Backend;
use rows_shared::{Words, number, said, say};
use std::alloc::Global;
use tile_serve::{ServeError, ServeLimits, TileServer};

// The four limits, where they allow a directory and a tile.
fn limits_of(words: &mut Words) -> Option<ServeLimits>
    ensures { IfSome result IsLimits }
{
    let directories = number::<usize>(words)?;
    let directory_entries = number::<usize>(words)?;
    let tiles = number::<usize>(words)?;
    let tile_bytes = number::<u64>(words)?;
    if directories == 0 || tiles == 0 {
        return None;
    }
    Some(ServeLimits {
        directories,
        directory_entries,
        tiles,
        tile_bytes,
    })
}

// A reply, or why there is none.
fn said_reply(out: &mut String, reply: Result<BlobVal, ServeError>) -> Option<()> {
    match reply {
        Ok(text) => show(out, text.as_bytes()),
        Err(error) => said(out, error),
    }
}

// Answers a line: its reply or error, and how many bytes of tiles are held then.
fn answer_line<B: Backend>(
    alloc: Global,
    out: &mut String,
    server: &mut TileServer<'_, B>,
    word: &str,
) -> Option<()>
    requires tied { IsTied B.told B.versions server.old }
    ensures tied { IsTied B.told B.versions server.new }
    ensures same_reference { server.new.backend.ghost_name ≡ server.old.backend.ghost_name }
{
    let line = spelled(alloc, word)?;
    said_reply(out, server.answer(line.as_slice()))?;
    say(out, &server.held_tile_bytes())
}

fn answer_lines<B: Backend>(
    alloc: Global,
    out: &mut String,
    server: &mut TileServer<'_, B>,
    words: &mut Words,
) -> Option<()>
    requires tied { IsTied B.told B.versions server.old }
    ensures tied { IsTied B.told B.versions server.new }
    ensures same_reference { server.new.backend.ghost_name ≡ server.old.backend.ghost_name }
{
    for word in words {
        answer_line(alloc, out, server, word)?;
    }
    Some(())
}

pub fn answer<B: Backend>(
    alloc: Global,
    out: &mut String,
    backend: &mut B,
    words: &mut Words,
) -> Option<()> {
    let limits = limits_of(words)?;
    match TileServer::open(alloc, backend, limits) {
        Ok(mut server) => answer_lines(alloc, out, &mut server, words),
        Err(error) => said(out, error),
    }
}
