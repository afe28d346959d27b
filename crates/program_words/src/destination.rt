// The file that a program writes an archive to.
use crate::folder::{FileId, open_folder, sync_folder};
use std::fs::{File, Metadata};
use std::io::{ErrorKind, Write};
use std::{fs, io};

/// What stood at the path of an archive before the run.
#[derive(Clone, Copy, Debug, PartialEq, Eq)]
pub enum Before {
    /// Nothing: this file was made for the run.
    Nothing(FileId),
    /// An empty file.
    Empty,
    /// A file of at least one byte.
    Full,
}

/// Makes the file at a path, or takes a regular one that is there. Nothing is changed in one that is there.
///
/// Standard error says why a path isn't taken: one that leads to no file that can be made, to anything but a regular
/// file, or to the file that standard input or output is.
pub fn take_destination(rt: &HostRuntime, tool: &str, path: &str) -> Option<Before> {
    match File::create_new(rt, path).and_then(|file| file.metadata()) {
        Ok(made) => Some(Before::Nothing(FileId::of(&made))),
        Err(error) if error.kind() == ErrorKind::AlreadyExists => take_file(rt, tool, path),
        Err(error) => {
            let _ = eprintln!(rt; "{tool}: {path}: the file can't be made: {error}");
            None
        }
    }
}

fn take_file(rt: &HostRuntime, tool: &str, path: &str) -> Option<Before> {
    let Ok(found) = fs::metadata(rt, path) else {
        let _ = eprintln!(rt;
            "{tool}: {path}: a link to nothing; give the name of a file that is new or empty"
        );
        return None;
    };
    if !found.is_file() {
        let _ = eprintln!(rt;
            "{tool}: {path}: no regular file; give the name of a file that is new or empty"
        );
        return None;
    }
    if is_file(rt, "/proc/self/fd/0", &found) || is_file(rt, "/proc/self/fd/1", &found) {
        let _ = eprintln!(rt;
            "{tool}: {path}: standard input or output is this file; give another name"
        );
        return None;
    }
    Some(if found.len() == 0 {
        Before::Empty
    } else {
        Before::Full
    })
}

/// Whether a path leads to the file of some metadata.
pub(crate) fn is_file(rt: &HostRuntime, path: &str, found: &Metadata) -> bool {
    match fs::metadata(rt, path) {
        Ok(other) => FileId::of(&other) == FileId::of(found),
        Err(_) => false,
    }
}

/// Has the system write the bytes of a file that was taken, and its name, to its disk. Whether it did;
/// standard error says why not.
pub fn sync_destination(rt: &HostRuntime, tool: &str, path: &str) -> bool {
    let synced = match sync_file(rt, path) {
        Ok(()) => open_folder(rt, path).and_then(|folder| sync_folder(&folder)),
        Err(error) => Err(error),
    };
    if let Err(error) = &synced {
        let _ = eprintln!(rt; "{tool}: {path}: the file can't be synced to its disk: {error}");
    }
    synced.is_ok()
}

fn sync_file(rt: &HostRuntime, path: &str) -> io::Result<()> {
    let file = File::options().append(true).open(rt, path)?;
    file.sync_all()
}

/// Leaves the path of a run that failed as it was before: a file that was made is removed where it is still the one
/// there, and one that was empty is emptied.
pub fn leave_destination(rt: &HostRuntime, tool: &str, path: &str, before: Before) {
    let left = match before {
        Before::Nothing(made) if made.is_at(rt, path) => fs::remove_file(rt, path),
        Before::Nothing(_) => Ok(()),
        Before::Empty => File::create(rt, path).map(|_| ()),
        Before::Full => Ok(()),
    };
    if let Err(error) = left {
        let _ = eprintln!(rt; "{tool}: {path}: what was written is still there: {error}");
    }
}

/// Says on standard error why a file that was taken can't be written, as a further write to it tells.
/// Bytes may be added to it.
pub fn say_medium_fault(rt: &HostRuntime, tool: &str, path: &str, before: Before) {
    let cause = match before {
        Before::Full => File::options().append(true).open(rt, path).map(|_| ()),
        _ => tried_write(rt, path),
    };
    let _ = match cause {
        Err(error) => eprintln!(rt; "{tool}: {path}: the archive can't be written: {error}"),
        Ok(()) => eprintln!(rt; "{tool}: {path}: the archive can't be written or read"),
    };
}

// Adds bytes to a file.
pub(crate) fn tried_write(rt: &HostRuntime, path: &str) -> io::Result<()> {
    let opened = File::options().append(true).open(rt, path);
    opened.and_then(|mut file| file.write_all(&[0u8; 4096]))
}
