// A file that is made beside the place where it is wanted, and put there once it is whole.
use crate::destination::tried_write;
use crate::folder::{FileId, open_folder, sync_folder};
use crate::locked::{Unmade, make_locked};
use crate::over::keep_access;
use std::fs::{File, Metadata, Permissions};
use std::io::ErrorKind;
use std::os::unix::fs::PermissionsExt;
use std::{fs, io};

/// A file that was made beside the place where it is wanted. Its lock tells other runs that it is written,
/// and goes with the process.
#[derive(Drop)]
pub struct Beside {
    path: String,
    file: File,
    id: FileId,
    folder: File,
}

impl Beside {
    /// The path of the file.
    pub fn path(&self) -> &str {
        self.path.as_str()
    }

    /// Lets nobody but its owner read the file or write it.
    pub(crate) fn hide(&self) -> io::Result<()> {
        self.file.set_permissions(Permissions::from_mode(0o600))
    }

    /// Gives the file the access of another one, whose place it takes.
    pub(crate) fn keep_access(&self, found: &Metadata) -> io::Result<()> {
        keep_access(found, &self.file)
    }

    /// Whether the file is still the one at its path.
    pub(crate) fn is_there(&self, rt: &HostRuntime) -> bool {
        self.id.is_at(rt, self.path())
    }

    /// Has the system write the file's bytes to its disk, where it is still the one at its path.
    pub(crate) fn sync(&self, rt: &HostRuntime) -> io::Result<()> {
        if !self.is_there(rt) {
            return Err(io::Error::from(ErrorKind::NotFound));
        }
        self.file.sync_all()
    }
}

/// What becomes of a file that is wanted at a path where none may be.
#[derive(Drop)]
pub enum Taken {
    /// An empty file was made beside the path.
    Made(Beside),
    /// Something is at one of the two paths, and stays as it is.
    There,
    /// The file can't be made.
    Failed,
}

/// What becomes of a file that is put at its path.
#[derive(Clone, Copy, Debug, PartialEq, Eq)]
pub enum Put {
    /// It is there, its bytes and its name synced.
    Done,
    /// Something came to the path meanwhile, and stays as it is.
    There,
    /// It can't be put there, or not be synced.
    Failed,
}

/// Makes an empty file beside a path, `PATH.new`, where nothing is at the path, also as a link to nothing.
/// One that a stopped run left at `PATH.new` is made anew; one that another run writes stays. Standard
/// error says why none is made.
pub fn take_beside(rt: &HostRuntime, tool: &str, path: &str) -> Taken {
    match fs::symlink_metadata(rt, path) {
        Ok(_) => {
            let _ = eprintln!(rt; "{tool}: {path} is there and stays as it is; give another name");
            Taken::There
        }
        Err(error) if error.kind() == ErrorKind::NotFound => make_beside(rt, tool, path),
        Err(error) => failed(rt, tool, path, &error),
    }
}

fn failed(rt: &HostRuntime, tool: &str, path: &str, error: &io::Error) -> Taken {
    let _ = eprintln!(rt; "{tool}: {path}: the file can't be made: {error}");
    Taken::Failed
}

/// Makes an empty file beside a path, `PATH.new`, whatever is at the path itself.
pub(crate) fn make_beside(rt: &HostRuntime, tool: &str, path: &str) -> Taken {
    let Ok(beside) = format!(in rt.alloc(); "{path}.new") else {
        return failed(rt, tool, path, &io::Error::from(ErrorKind::OutOfMemory));
    };
    let folder = match open_folder(rt, path) {
        Ok(folder) => folder,
        Err(error) => return failed(rt, tool, path, &error),
    };
    match make_locked(rt, tool, beside.as_str()) {
        Ok((file, id)) => Taken::Made(Beside {
            path: beside,
            file,
            id,
            folder,
        }),
        Err(Unmade::Held) => {
            let _ = eprintln!(rt; "{tool}: {beside} is written by another run; wait for its end");
            Taken::There
        }
        Err(Unmade::There) => {
            let _ = eprintln!(rt;
                "{tool}: {beside} is there, and can't be told from what another run writes; remove it, or give another name"
            );
            Taken::There
        }
        Err(Unmade::Failed(error)) => failed(rt, tool, path, &error),
    }
}

// Gives a file that was synced the name of a path where nothing is, in place of its own.
fn name_new(rt: &HostRuntime, beside: &Beside, path: &str) -> io::Result<()> {
    beside.sync(rt)?;
    match fs::hard_link(rt, beside.path(), path) {
        Ok(()) => fs::remove_file(rt, beside.path()),
        Err(error) if error.kind() == ErrorKind::AlreadyExists => Err(error),
        // a file system without links: between the question and the answer another file may come
        Err(_) => match fs::symlink_metadata(rt, path) {
            Ok(_) => Err(io::Error::from(ErrorKind::AlreadyExists)),
            Err(_) => fs::rename(rt, beside.path(), path),
        },
    }
}

/// Puts a file at a path where nothing is, under that name alone, once its bytes are synced, and syncs its folder.
/// Standard error says why it isn't put there.
pub fn put_beside(rt: &HostRuntime, tool: &str, beside: &Beside, path: &str) -> Put {
    let named = name_new(rt, beside, path);
    put_named(rt, tool, beside, path, named)
}

/// Syncs the folder of a file that was named, or says why it wasn't.
pub(crate) fn put_named(
    rt: &HostRuntime,
    tool: &str,
    beside: &Beside,
    path: &str,
    named: io::Result<()>,
) -> Put {
    match named {
        Ok(()) => synced(rt, tool, beside, path),
        Err(error) if error.kind() == ErrorKind::AlreadyExists => {
            let _ = eprintln!(rt; "{tool}: {path} came meanwhile, and stays as it is");
            Put::There
        }
        Err(error) => {
            let _ = eprintln!(rt; "{tool}: {path}: the file can't be put in its place: {error}");
            Put::Failed
        }
    }
}

fn synced(rt: &HostRuntime, tool: &str, beside: &Beside, path: &str) -> Put {
    match sync_folder(&beside.folder) {
        Ok(()) => Put::Done,
        Err(error) => {
            let _ = eprintln!(rt;
                "{tool}: {path} is in its place, but the folder can't be synced to its disk: {error}"
            );
            Put::Failed
        }
    }
}

/// Removes the file that was made beside a path, where it is still the one there. Standard error says
/// where it can't be removed.
pub fn remove_beside(rt: &HostRuntime, tool: &str, beside: &Beside) {
    if beside.is_there(rt) {
        remove_made(rt, tool, beside.path());
    }
}

/// Removes a file, if it is there. Standard error says where it can't be removed.
pub fn remove_made(rt: &HostRuntime, tool: &str, path: &str) {
    match fs::remove_file(rt, path) {
        Ok(()) => {}
        Err(error) if error.kind() == ErrorKind::NotFound => {}
        Err(error) => {
            let _ = eprintln!(rt; "{tool}: {path}: what was written is still there: {error}");
        }
    }
}

/// Says on standard error why a file beside a path can't be written, as a further write to it
/// tells. Bytes are added to it.
pub fn say_beside_fault(rt: &HostRuntime, tool: &str, path: &str, beside: &str) {
    let _ = match tried_write(rt, beside) {
        Err(error) => eprintln!(rt; "{tool}: {path}: the file can't be written: {error}"),
        Ok(()) => eprintln!(rt; "{tool}: {path}: the file can't be written or read"),
    };
}
