// A new file under a lock that lasts as long as the process that made it: a file that nobody holds is
// what a stopped run left.
use crate::folder::FileId;
use std::fs::{File, TryLockError};
use std::io::ErrorKind;
use std::{fs, io};

/// Why no file was made.
#[derive(Drop)]
pub(crate) enum Unmade {
    /// Another run holds the file at the path.
    Held,
    /// What is at the path is no file that can be locked.
    There,
    /// The system refuses it.
    Failed(io::Error),
}

/// Makes an empty file at a path and locks it. One that is there is removed first where nobody holds its lock, which
/// standard error says; then the new one is another file, so that further names of the old one keep what they have.
pub(crate) fn make_locked(
    rt: &HostRuntime,
    tool: &str,
    path: &str,
) -> Result<(File, FileId), Unmade> {
    match File::create_new(rt, path) {
        Ok(file) => own(rt, path, file),
        Err(error) if error.kind() == ErrorKind::AlreadyExists => replace_left(rt, tool, path),
        Err(error) => Err(Unmade::Failed(error)),
    }
}

// Locks a file that was made. Where the file system knows no locks it stays without one: then one that is
// there is never replaced.
fn own(rt: &HostRuntime, path: &str, file: File) -> Result<(File, FileId), Unmade> {
    if matches!(file.try_lock(), Err(TryLockError::WouldBlock)) {
        return Err(Unmade::Held);
    }
    let id = match file.metadata() {
        Ok(found) => FileId::of(&found),
        Err(error) => return Err(Unmade::Failed(error)),
    };
    // before it was locked, another run may have taken it for one that was left
    if id.is_at(rt, path) {
        Ok((file, id))
    } else {
        Err(Unmade::Held)
    }
}

// The file at a path, locked, where nobody else holds it.
fn lock_left(rt: &HostRuntime, path: &str) -> Result<File, Unmade> {
    match fs::symlink_metadata(rt, path) {
        Ok(found) if found.is_file() => {}
        _ => return Err(Unmade::There),
    }
    let Ok(file) = File::open(rt, path) else {
        return Err(Unmade::There);
    };
    let locked = file.try_lock();
    match locked {
        Ok(()) => {}
        Err(TryLockError::WouldBlock) => return Err(Unmade::Held),
        Err(TryLockError::Error(_)) => return Err(Unmade::There),
    }
    Ok(file)
}

// Makes a file anew at a path where a stopped run left one. The old one is held until the new one has its own lock.
fn replace_left(rt: &HostRuntime, tool: &str, path: &str) -> Result<(File, FileId), Unmade> {
    let left = lock_left(rt, path)?;
    let is_there = match left.metadata() {
        Ok(found) => FileId::of(&found).is_at(rt, path),
        Err(_) => false,
    };
    if !is_there {
        return Err(Unmade::Held);
    }
    let _ = eprintln!(rt; "{tool}: {path} was left by a run that was stopped, and is made anew");
    let made = fs::remove_file(rt, path).and_then(|()| File::create_new(rt, path));
    match made {
        Ok(file) => own(rt, path, file),
        Err(error) if error.kind() == ErrorKind::AlreadyExists => Err(Unmade::Held),
        Err(error) => Err(Unmade::Failed(error)),
    }
}
