// The files that are read: sets, and archives.
use crate::TOOL;
use crate::saying::{refused, unread};
use mb_load::load;
use mb_loaded::Loaded;
use mb_reading::{SetRead, read_file};
use mb_store::MemStore;
use pm_format::status;
use program_words::{
    SourceFile, begin_step, say_misplaced, say_source_fault, say_unnamed, source_file,
};
use std::fs::File;
use std::os::unix::fs::FileExt;

// The store of a set that was read, once what is left out of it is told.
fn told(rt: &HostRuntime, path: &str, read: SetRead, is_strict: bool) -> Result<MemStore, u8> {
    let SetRead {
        store,
        left_out: left,
    } = read;
    let counts = (left.without_number, left.too_deep, left.outside_grid);
    let first = left
        .first
        .map(|it| (it.zoom_level, it.tile_column, it.tile_row));
    let tiles = say_misplaced(rt, TOOL, path, counts, first);
    let names = say_unnamed(rt, TOOL, path, left.without_text, left.repeated_names);
    if (tiles && names) || !is_strict {
        return Ok(store);
    }
    let _ = eprintln!(rt; "{TOOL}: {path} is refused, since rows would be left out");
    Err(status::REFUSED)
}

/// Reads the set in a file; the status where it isn't read. Standard error says why, and what of it is left out,
/// which a strict reading refuses.
pub fn read_set(rt: &HostRuntime, path: &str, is_strict: bool) -> Result<MemStore, u8> {
    let step = begin_step(rt, TOOL, "reading", path);
    match read_file(rt, path) {
        Ok(read) => {
            step.end(rt, TOOL);
            told(rt, path, read, is_strict)
        }
        Err(error) => Err(unread(rt, path, &error)),
    }
}

/// Reads the set in a file, and loads it.
pub fn load_set(rt: &HostRuntime, path: &str, is_strict: bool) -> Result<Loaded, u8> {
    let mut store = read_set(rt, path, is_strict)?;
    match load(rt.alloc(), &mut store) {
        Ok(set) => Ok(set),
        Err(error) => Err(refused(rt, path, &error)),
    }
}

/// What a file is, by its first bytes.
#[derive(Clone, Copy, Debug, PartialEq, Eq)]
pub enum FileKind {
    /// An archive of the PMTiles format.
    Archive,
    /// A database of SQLite, or an empty file.
    Set,
}

// What a file is that is there.
fn kind_by_head(rt: &HostRuntime, path: &str) -> Option<FileKind> {
    let mut head = [0u8; 16];
    match File::open(rt, path).and_then(|file| file.read_at(&mut head, 0)) {
        Ok(0) => Some(FileKind::Set),
        Ok(16) if head == *b"SQLite format 3\0" => Some(FileKind::Set),
        Ok(_) if head.starts_with(b"PMTiles") => Some(FileKind::Archive),
        Ok(_) => None,
        Err(_) => Some(FileKind::Set),
    }
}

// The same, where it is either.
fn kind_or_status(rt: &HostRuntime, path: &str) -> Result<FileKind, u8> {
    if let Some(kind) = kind_by_head(rt, path) {
        return Ok(kind);
    }
    let _ = eprintln!(rt;
        "{TOOL}: {path} is neither an archive of the PMTiles format nor an SQLite database"
    );
    Err(status::NO_INPUT)
}

/// What a file is; the status where it is neither, isn't there or can't be read, which standard error says.
pub fn kind_of(rt: &HostRuntime, path: &str) -> Result<FileKind, u8> {
    let status = match source_file(rt, path) {
        SourceFile::Readable => return kind_or_status(rt, path),
        SourceFile::Missing => status::NO_INPUT,
        SourceFile::Unreadable => status::INPUT_FAULT,
    };
    say_source_fault(rt, TOOL, path);
    Err(status)
}
