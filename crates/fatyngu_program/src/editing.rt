// Sets that are changed in their file: a copy beside it is changed, and takes its place once it is whole.
use crate::TOOL;
use crate::beside::{finish, log_status, remove_log};
use crate::filling::{Edit, Journal, Unfilled, fill};
use crate::reading::read_set;
use crate::saying::{out_of_memory, print_made, refused};
use base_values::{OutOfMemory, TextVal};
use mb_store::{MbtResult, MbtType, MemStore, TileStore, detect_type};
use pm_format::status;
use program_words::{Beside, Taken, keep_access, take_over};
use sqlite::{Files, Unknown};
use sqlite_std_file::{OpenError, open};
use std::alloc::Global;
use std::fs::File;
use std::os::unix::fs::FileExt;
use std::{fs, io};
use tile_command::Asked;

// A file and its log as `sqlite` opens them. While they are held, SQLite finds the file locked.
type Held = Files<sqlite::File>;

// The layout of a set.
fn layout_of(alloc: Global, store: MemStore) -> MbtResult<MbtType> {
    let mut store = store;
    let tables = store.describe(alloc)?;
    detect_type(tables.as_slice())
}

// Copies a file into the one beside it, and tells which journal it has. The copy has to have the owner of the file.
fn copy_file(rt: &HostRuntime, from: &mut File, beside: &Beside) -> io::Result<Journal> {
    let mut journal = [0u8; 2];
    from.read_at(&mut journal, 18)?;
    let mut to = File::options().write(true).open(rt, beside.path())?;
    io::copy(from, &mut to)?;
    keep_access(&from.metadata()?, &to)?;
    Ok(journal)
}

// Says why a file isn't held.
fn unheld(rt: &HostRuntime, path: &str, error: &OpenError) -> u8 {
    let _ = match error {
        OpenError::OutOfMemory => return out_of_memory(rt),
        OpenError::Busy => {
            let _ = eprintln!(rt;
                "{TOOL}: {path} is locked by another program; try again when that has ended"
            );
            return status::REFUSED;
        }
        OpenError::HotJournal => eprintln!(rt;
            "{TOOL}: {path} has a rollback journal beside it: another program writes it, or was cut off"
        ),
        OpenError::Io(error) => eprintln!(rt;
            "{TOOL}: {path} can't be written: {error}; a file that is changed here has to be writable, and to have one name"
        ),
    };
    status::FAULT
}

// Copies a file into the one beside it, and does an edit to the copy.
fn fill_copy(
    rt: &HostRuntime,
    from: &mut File,
    beside: &Beside,
    layout: MbtType,
    edit: Edit,
) -> Result<TextVal, Unfilled> {
    match copy_file(rt, from, beside) {
        Ok(journal) => fill(rt, beside.path(), layout, edit, journal),
        Err(error) => Err(Unfilled::File(error)),
    }
}

// Does an edit to the set in a file that is held.
fn edit_held(
    rt: &HostRuntime,
    from: &mut File,
    path: &str,
    layout: MbtType,
    edit: Edit,
) -> Result<TextVal, u8> {
    match take_over(rt, TOOL, path) {
        Taken::Made(beside) => {
            // the log of a run that was stopped, whose database is gone
            remove_log(rt, beside.path());
            let filled = fill_copy(rt, from, &beside, layout, edit);
            finish(rt, &beside, path, false, filled)
        }
        Taken::There => Err(status::REFUSED),
        Taken::Failed => Err(status::FAULT),
    }
}

// Holds a file, so that no other program writes it meanwhile. It is opened before: closing it would let it go.
fn edit_at(rt: &HostRuntime, path: &str, layout: MbtType, edit: Edit) -> Result<TextVal, u8> {
    let mut from = match File::open(rt, path) {
        Ok(from) => from,
        Err(error) => return Err(unheld(rt, path, &OpenError::Io(error))),
    };
    match open(rt, path, Unknown) {
        Ok(held) => {
            // the log that the opening made, and which nobody else has open
            remove_log(rt, path);
            let answer = edit_held(rt, &mut from, path, layout, edit);
            drop(held);
            answer
        }
        Err(error) => Err(unheld(rt, path, &error)),
    }
}

// Does an edit to the set in the file that a path leads to by its links.
fn edit_named(rt: &HostRuntime, path: &str, layout: MbtType, edit: Edit) -> Result<TextVal, u8> {
    let named = match fs::canonicalize(rt, path) {
        Ok(named) => named.into_string(),
        Err(error) => return Err(unheld(rt, path, &OpenError::Io(error))),
    };
    match log_status(rt, named.as_str(), "-wal") {
        status::DONE => edit_at(rt, named.as_str(), layout, edit),
        status => Err(status),
    }
}

/// Does an edit to the set in a file, which is the old one or the new one at any time. It gives the hash that was
/// stored, and else no text; the status where it
/// isn't done, which standard error says.
pub fn edit_set(rt: &HostRuntime, path: &str, edit: Edit) -> Result<TextVal, u8> {
    let store = read_set(rt, path, true)?;
    match layout_of(rt.alloc(), store) {
        Ok(layout) => edit_named(rt, path, layout, edit),
        Err(error) => Err(refused(rt, path, &error)),
    }
}

/// The same, with the status of a run that prints nothing.
pub fn edit_silently(rt: &HostRuntime, path: &str, edit: Edit) -> u8 {
    match edit_set(rt, path, edit) {
        Ok(_) => status::DONE,
        Err(status) => status,
    }
}

/// Stores the hash of all tiles of a set, and prints it.
pub fn store_hash(rt: &HostRuntime, path: &str) -> u8 {
    match edit_set(rt, path, Edit::StoreHash) {
        Ok(hash) => print_made(rt, format!(in rt.alloc(); "{hash}\n")),
        Err(status) => status,
    }
}

// A text as one that is owned.
fn owned(rt: &HostRuntime, text: &str) -> Result<TextVal, OutOfMemory> {
    Ok(TextVal::new(String::from_str(rt.alloc(), text)?))
}

// The edit that puts a text under a name, or removes the name.
fn name_edit(rt: &HostRuntime, name: &str, value: Option<&str>) -> Result<Edit, OutOfMemory> {
    let name = owned(rt, name)?;
    match value {
        Some(value) => Ok(Edit::Put(name, owned(rt, value)?)),
        None => Ok(Edit::Remove(name)),
    }
}

/// Puts a text under a name of a set's metadata, or removes the name, by the words.
pub fn set(rt: &HostRuntime, asked: &Asked) -> u8 {
    let value = match asked.places.get(2) {
        Some(value) => Some(value.as_str()),
        None => None,
    };
    match name_edit(rt, asked.word(1), value) {
        Ok(edit) => edit_silently(rt, asked.word(0), edit),
        Err(_) => out_of_memory(rt),
    }
}

/// Puts a patch on a set, by the words.
pub fn patch(rt: &HostRuntime, asked: &Asked) -> u8 {
    match read_set(rt, asked.word(1), true) {
        Ok(patch) => edit_silently(rt, asked.word(0), Edit::Patch(patch, asked.has("--force"))),
        Err(status) => status,
    }
}
