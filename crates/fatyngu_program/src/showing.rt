// What an archive says of itself.
use crate::TOOL;
use crate::looking::summarise;
use crate::reading::{FileKind, kind_of};
use crate::saying::{out_of_memory, print_made, unopened, usage};
use base_values::{OutOfMemory, TextVal};
use pm_format::{DirEntry, FileBackend, status};
use pm_reader::{ReaderState, WalkState};
use program_words::{say_output_fault, say_source_fault};
use std::io;
use std::io::{BufWriter, Write};
use tile_command::{Asked, Subcommand, header_text, tilejson_text};
use tile_ids::{TileCoord, TileId};

// How many leaf directories are walked at most.
const LEAVES: u64 = 1 << 24;

// Writes the line of a tile entry.
fn write_entry<W: Write>(out: &mut W, entry: &DirEntry) -> io::Result<()> {
    let (id, run) = (entry.tile_id(), entry.run_length());
    let (offset, length) = (entry.offset(), entry.length());
    match TileId::new(id) {
        Ok(tile) => {
            let coord = TileCoord::from(tile);
            let (z, x, y) = (coord.z(), coord.x(), coord.y());
            writeln!(out, "{id} {z}/{x}/{y} {run} {offset} {length}")
        }
        Err(_) => writeln!(out, "{id} - {run} {offset} {length}"),
    }
}

// Writes the lines of all tile entries.
fn write_entries<W: Write>(
    rt: &HostRuntime,
    path: &str,
    walk: WalkState,
    source: &mut FileBackend,
    out: &mut W,
) -> u8 {
    let mut walk = walk;
    for _ in 0..u64::MAX {
        match walk.next_item(source) {
            Some(Ok(entry)) => {
                if write_entry(out, &entry).is_err() {
                    say_output_fault(rt, TOOL);
                    return status::OUTPUT_FAULT;
                }
            }
            Some(Err(error)) => return unopened(rt, path, &error),
            None => return status::DONE,
        }
    }
    status::DONE
}

// The same on standard output, with room for the lines.
fn print_entries(rt: &HostRuntime, path: &str, walk: WalkState, source: &mut FileBackend) -> u8 {
    let Ok(mut out) = BufWriter::new(rt.alloc(), rt.stdout()) else {
        return out_of_memory(rt);
    };
    let status = write_entries(rt, path, walk, source, &mut out);
    if out.flush().is_err() && status != status::OUTPUT_FAULT {
        say_output_fault(rt, TOOL);
        return status::OUTPUT_FAULT;
    }
    status
}

// Prints the metadata.
fn print_metadata(
    rt: &HostRuntime,
    path: &str,
    state: &ReaderState,
    source: &mut FileBackend,
) -> u8 {
    match state.get_metadata(source) {
        Ok(text) => print_made(rt, format!(in rt.alloc(); "{text}\n")),
        Err(error) => unopened(rt, path, &error),
    }
}

// The addresses of the tiles, of which there is one, or none.
fn addresses(rt: &HostRuntime, url: Option<&str>) -> Result<Vec<TextVal>, OutOfMemory> {
    let mut sources = Vec::new(rt.alloc());
    if let Some(url) = url {
        sources.push(TextVal::new(String::from_str(rt.alloc(), url)?))?;
    }
    Ok(sources)
}

// Prints the document.
fn print_tilejson(
    rt: &HostRuntime,
    path: &str,
    state: &ReaderState,
    source: &mut FileBackend,
    url: Option<&str>,
) -> u8 {
    let Ok(sources) = addresses(rt, url) else {
        return out_of_memory(rt);
    };
    match state.parse_tilejson(source, sources) {
        Ok(document) => match tilejson_text(rt.alloc(), &document) {
            Ok(text) => print_made(rt, format!(in rt.alloc(); "{text}\n")),
            Err(_) => out_of_memory(rt),
        },
        Err(error) => unopened(rt, path, &error),
    }
}

// Shows an archive that opens.
fn show_opened(
    rt: &HostRuntime,
    path: &str,
    state: ReaderState,
    source: &mut FileBackend,
    asked: &Asked,
) -> u8 {
    if asked.has("--entries") {
        return print_entries(rt, path, state.entries(LEAVES), source);
    }
    if asked.has("--metadata") {
        return print_metadata(rt, path, &state, source);
    }
    if asked.has("--tilejson") {
        return print_tilejson(rt, path, &state, source, asked.value("--url"));
    }
    print_made(rt, header_text(rt.alloc(), state.get_header()))
}

fn show_archive(rt: &HostRuntime, path: &str, asked: &Asked) -> u8 {
    let Ok(mut source) = FileBackend::open(rt, path) else {
        say_source_fault(rt, TOOL, path);
        return status::INPUT_FAULT;
    };
    match ReaderState::open(rt.alloc(), &mut source) {
        Ok(state) => show_opened(rt, path, state, &mut source, asked),
        Err(error) => unopened(rt, path, &error),
    }
}

// Sets have no such parts.
fn show_set(rt: &HostRuntime, path: &str, asked: &Asked) -> u8 {
    if asked.has("--entries") || asked.has("--metadata") || asked.has("--tilejson") {
        let _ = eprintln!(rt;
            "{TOOL}: {path} is no archive of the PMTiles format; of a set there are fatyngu show, fatyngu summary and fatyngu meta all"
        );
        return status::REFUSED;
    }
    summarise(rt, path)
}

// Whether words ask for more than one thing, or for an address that isn't used.
fn is_torn(asked: &Asked) -> bool {
    let (metadata, document) = (asked.has("--metadata"), asked.has("--tilejson"));
    (asked.has("--entries") && (metadata || document))
        || (metadata && document)
        || (asked.has("--url") && !document)
}

/// Prints what an archive says of itself, by the words, or the summary of a set.
pub fn show(rt: &HostRuntime, asked: &Asked) -> u8 {
    if is_torn(asked) {
        return usage(rt, Subcommand::Show);
    }
    let path = asked.word(0);
    match kind_of(rt, path) {
        Ok(FileKind::Archive) => show_archive(rt, path, asked),
        Ok(FileKind::Set) => show_set(rt, path, asked),
        Err(status) => status,
    }
}
