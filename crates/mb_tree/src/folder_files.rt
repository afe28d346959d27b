// Files below a folder of the system: their list, and their bytes.
use crate::TreeError;
use base_values::{BlobVal, TextVal};
use std::alloc::Global;
use std::fs::{DirEntry, File};
use std::io::{Error, ErrorKind, Read};
use std::{fs, io};

// What is found below a root: the paths of files, and folders that are yet to be listed.
#[derive(Drop)]
struct Found {
    files: Vec<TextVal>,
    folders: Vec<TextVal>,
}

/// What a refusal of the system comes to.
pub(crate) fn refusal(error: Error) -> TreeError {
    if error.kind() == ErrorKind::OutOfMemory {
        return TreeError::OutOfMemory;
    }
    TreeError::Fault
}

/// An answer of the system, with what its refusal comes to.
pub(crate) fn done<T>(answer: io::Result<T>) -> Result<T, TreeError> {
    match answer {
        Ok(value) => Ok(value),
        Err(error) => Err(refusal(error)),
    }
}

/// The path of a name in a folder below the root, which is empty for the root itself.
pub(crate) fn joined(alloc: Global, folder: &str, name: &str) -> Result<String, TreeError> {
    let mut path = String::from_str(alloc, folder)?;
    if !folder.is_empty() && !folder.ends_with('/') {
        path.push('/')?;
    }
    path.push_str(name)?;
    Ok(path)
}

/// The path by which the system finds what lies below a root.
pub(crate) fn full_path(alloc: Global, root: &str, path: &str) -> Result<String, TreeError> {
    if root.is_empty() {
        return joined(alloc, ".", path);
    }
    joined(alloc, root, path)
}

/// Whether a path leads below the root: no part of it is empty or leads up.
pub(crate) fn is_inside(path: &str) -> bool {
    for part in path.split('/') {
        if part.is_empty() || part == "." || part == ".." {
            return false;
        }
    }
    true
}

// Whether a symbolic link leads to a file. One that leads nowhere doesn't.
fn is_linked_file(rt: &HostRuntime, path: &str) -> Result<bool, TreeError> {
    match fs::metadata(rt, path) {
        Ok(found) => Ok(found.is_file()),
        Err(error) if error.kind() == ErrorKind::OutOfMemory => Err(TreeError::OutOfMemory),
        Err(_) => Ok(false),
    }
}

// Adds an entry of a folder, if it is a file or a folder.
fn add_entry(
    rt: &HostRuntime,
    alloc: Global,
    folder: &str,
    entry: &DirEntry,
    found: &mut Found,
) -> Result<(), TreeError> {
    let kind = done(entry.file_type())?;
    let path = joined(alloc, folder, entry.file_name())?;
    if kind.is_dir() {
        found.folders.push(TextVal::new(path))?;
        return Ok(());
    }
    if kind.is_file() || (kind.is_symlink() && is_linked_file(rt, entry.path().as_str())?) {
        found.files.push(TextVal::new(path))?;
    }
    Ok(())
}

// Adds the entries of a folder.
fn list_folder(
    rt: &HostRuntime,
    alloc: Global,
    root: &str,
    folder: &str,
    found: &mut Found,
) -> Result<(), TreeError> {
    let path = full_path(alloc, root, folder)?;
    for entry in done(fs::read_dir(rt, path.as_str()))? {
        match entry {
            Ok(entry) => add_entry(rt, alloc, folder, &entry, found)?,
            Err(error) if error.kind() == ErrorKind::InvalidFilename => {}
            Err(error) => return Err(refusal(error)),
        }
    }
    Ok(())
}

/// The paths of all files below a root, in the order of their bytes.
pub(crate) fn list_all(
    rt: &HostRuntime,
    alloc: Global,
    root: &str,
) -> Result<Vec<TextVal>, TreeError> {
    let mut found = Found {
        files: Vec::new(alloc),
        folders: Vec::new(alloc),
    };
    list_folder(rt, alloc, root, "", &mut found)?;
    for _ in 0..u64::MAX {
        match found.folders.pop() {
            Some(folder) => list_folder(rt, alloc, root, folder.as_str(), &mut found)?,
            None => break,
        }
    }
    let Found {
        files: mut paths,
        folders: _,
    } = found;
    paths.sort_unstable();
    Ok(paths)
}

// All bytes of a file.
fn bytes_of(rt: &HostRuntime, alloc: Global, path: &str) -> io::Result<Vec<u8>> {
    let mut file = File::open(rt, path)?;
    let mut bytes = Vec::new(alloc);
    file.read_to_end(&mut bytes)?;
    Ok(bytes)
}

/// The bytes of the file at a path below a root.
pub(crate) fn read_file(
    rt: &HostRuntime,
    alloc: Global,
    root: &str,
    path: &str,
) -> Result<BlobVal, TreeError> {
    if !is_inside(path) {
        return Err(TreeError::Fault);
    }
    let path = full_path(alloc, root, path)?;
    Ok(BlobVal::new(done(bytes_of(rt, alloc, path.as_str()))?))
}
