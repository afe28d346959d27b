// The subcommands that look at a set, or at a tile.
use crate::TOOL;
use crate::editing::store_hash;
use crate::reading::{FileKind, kind_of, load_set, read_set};
use crate::saying::{out_of_memory, print_made, printed, refused, unopened, usage};
use line_words::parse_number;
use mb_check::{AggHashType, summary, validate};
use mb_loaded::Loaded;
use mb_tables::Cell;
use pm_format::{FileBackend, status};
use pm_reader::ReaderState;
use program_words::{say_output_fault, say_source_fault};
use std::io::Write;
use tile_command::{Asked, Subcommand, agg_hash_of, names_text, summary_text};
use tile_ids::{TileCoord, TileId};

/// Prints the summary of a set.
pub fn summarise(rt: &HostRuntime, path: &str) -> u8 {
    let mut store = match read_set(rt, path, false) {
        Ok(store) => store,
        Err(status) => return status,
    };
    match summary(rt.alloc(), &mut store) {
        Ok(summary) => print_made(rt, summary_text(rt.alloc(), &summary)),
        Err(error) => refused(rt, path, &error),
    }
}

// Says that a set is sound, with its hash of all tiles where that was looked at.
fn print_valid(rt: &HostRuntime, hash: &str) -> u8 {
    if hash.is_empty() {
        return printed(rt, "valid\n");
    }
    print_made(rt, format!(in rt.alloc(); "valid, agg_tiles_hash {hash}\n"))
}

/// Tests a set, all of whose rows have to be read.
pub fn check(rt: &HostRuntime, asked: &Asked) -> u8 {
    let path = asked.word(0);
    let Some(agg_hash) = agg_hash_of(asked.value("--agg-hash")) else {
        return usage(rt, Subcommand::Validate);
    };
    if agg_hash == AggHashType::Update {
        return store_hash(rt, path);
    }
    let mut store = match read_set(rt, path, true) {
        Ok(store) => store,
        Err(status) => return status,
    };
    match validate(rt.alloc(), &mut store, agg_hash) {
        Ok(hash) => print_valid(rt, hash.as_str()),
        Err(error) => refused(rt, path, &error),
    }
}

// Prints the hash of all tiles of a set.
fn print_hash(rt: &HostRuntime, set: &Loaded) -> u8 {
    match set.aggregate(rt.alloc()) {
        Ok(hash) => print_made(rt, format!(in rt.alloc(); "{hash}\n")),
        Err(_) => out_of_memory(rt),
    }
}

/// Prints the hash of all tiles of a set, or stores it too.
pub fn hash(rt: &HostRuntime, asked: &Asked) -> u8 {
    let path = asked.word(0);
    if asked.has("--update") {
        return store_hash(rt, path);
    }
    match load_set(rt, path, true) {
        Ok(set) => print_hash(rt, &set),
        Err(status) => status,
    }
}

// Prints the text of a name of a set.
fn print_name(rt: &HostRuntime, path: &str, set: &Loaded, name: &str) -> u8 {
    match set.text(name) {
        Some(text) => print_made(rt, format!(in rt.alloc(); "{text}\n")),
        None => {
            let _ = eprintln!(rt; "{TOOL}: {path} has no text under {name}");
            status::REFUSED
        }
    }
}

/// Prints the text under a name of a set's metadata.
pub fn get(rt: &HostRuntime, path: &str, name: &str) -> u8 {
    match load_set(rt, path, false) {
        Ok(set) => print_name(rt, path, &set, name),
        Err(status) => status,
    }
}

/// Prints the metadata of a set.
pub fn all(rt: &HostRuntime, path: &str) -> u8 {
    let set = match load_set(rt, path, false) {
        Ok(set) => set,
        Err(status) => return status,
    };
    match names_text(rt.alloc(), &set) {
        Ok(text) => print_made(rt, format!(in rt.alloc(); "{text}\n")),
        Err(_) => out_of_memory(rt),
    }
}

// Writes bytes to standard output.
fn write_bytes(rt: &HostRuntime, bytes: &[u8]) -> u8 {
    let mut out = rt.stdout();
    if out.write_all(bytes).is_ok() && out.flush().is_ok() {
        return status::DONE;
    }
    say_output_fault(rt, TOOL);
    status::OUTPUT_FAULT
}

fn say_no_tile(rt: &HostRuntime, path: &str, coord: TileCoord) -> u8 {
    let (z, x, y) = (coord.z(), coord.x(), coord.y());
    let _ = eprintln!(rt; "{TOOL}: {path} has no tile {z}/{x}/{y}");
    status::REFUSED
}

// Writes a tile of an archive.
fn tile_of_archive(rt: &HostRuntime, path: &str, coord: TileCoord) -> u8 {
    let Ok(mut source) = FileBackend::open(rt, path) else {
        say_source_fault(rt, TOOL, path);
        return status::INPUT_FAULT;
    };
    let state = match ReaderState::open(rt.alloc(), &mut source) {
        Ok(state) => state,
        Err(error) => return unopened(rt, path, &error),
    };
    match state.get_tile(&mut source, TileId::from(coord)) {
        Ok(Some(bytes)) => write_bytes(rt, bytes.as_slice()),
        Ok(None) => say_no_tile(rt, path, coord),
        Err(error) => unopened(rt, path, &error),
    }
}

// Writes a tile of a set that was loaded.
fn tile_of_loaded(rt: &HostRuntime, path: &str, set: &Loaded, coord: TileCoord) -> u8 {
    match set.tile(coord) {
        Some(Cell::Blob(bytes)) => write_bytes(rt, bytes.as_bytes()),
        _ => say_no_tile(rt, path, coord),
    }
}

// Writes a tile of a set.
fn tile_of_set(rt: &HostRuntime, path: &str, coord: TileCoord) -> u8 {
    match load_set(rt, path, false) {
        Ok(set) => tile_of_loaded(rt, path, &set, coord),
        Err(status) => status,
    }
}

// The coordinate that the words are, if they are one.
fn coord_of(asked: &Asked) -> Option<TileCoord> {
    let z = parse_number(asked.word(1).as_bytes(), 31)? as u8;
    let x = parse_number(asked.word(2).as_bytes(), u64::from(u32::MAX))? as u32;
    let y = parse_number(asked.word(3).as_bytes(), u64::from(u32::MAX))? as u32;
    TileCoord::new(z, x, y).ok()
}

/// Writes the bytes of a tile.
pub fn tile(rt: &HostRuntime, asked: &Asked) -> u8 {
    let path = asked.word(0);
    let Some(coord) = coord_of(asked) else {
        let _ = eprintln!(rt;
            "{TOOL}: there is no such place: a zoom is 0 to 31, column and row are below two to the zoom"
        );
        return status::USAGE;
    };
    match kind_of(rt, path) {
        Ok(FileKind::Archive) => tile_of_archive(rt, path, coord),
        Ok(FileKind::Set) => tile_of_set(rt, path, coord),
        Err(status) => status,
    }
}
