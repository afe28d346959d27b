// A file that is written below a folder of the system.
use crate::TreeError;
use crate::folder_files::{done, full_path, is_inside, joined, refusal};
use std::alloc::Global;
use std::fs::File;
use std::io::{ErrorKind, Write};
use std::{fs, io};

// How many names beside a file are tried.
const NAMES_TRIED: u32 = 100;

// A file that this call made, and its path.
#[derive(Drop)]
struct Beside {
    path: String,
    file: File,
}

// A path up to its last slash, with this, and the name behind.
fn parted(path: &str) -> (&str, &str) {
    let name = match path.rsplit_once('/') {
        Some((_, name)) => name,
        None => path,
    };
    path.split_at_checked(path.len().saturating_sub(name.len()))
        .unwrap_or(("", path))
}

// Puts on the disk which names the folder of a path has.
fn sync_folder(rt: &HostRuntime, path: &str) -> io::Result<()> {
    File::open(rt, parted(path).0)?.sync_all()
}

// Makes a folder, where there is none. A link to a folder is none.
fn make_folder(rt: &HostRuntime, path: &str) -> io::Result<()> {
    match fs::create_dir(rt, path) {
        Ok(()) => sync_folder(rt, path),
        Err(error) if error.kind() == ErrorKind::AlreadyExists => {
            if fs::symlink_metadata(rt, path)?.is_dir() {
                return Ok(());
            }
            Err(error)
        }
        Err(error) => Err(error),
    }
}

// Makes the folder that ends at a slash of a path, if one stands there.
fn make_folder_at(rt: &HostRuntime, path: &str, end: usize) -> io::Result<()> {
    match path.split_at_checked(end) {
        Some((folder, rest)) if rest.starts_with('/') => make_folder(rt, folder),
        _ => Ok(()),
    }
}

// Makes a root and the folders of a path below it. The path begins with the root, and a slash.
fn make_folders(rt: &HostRuntime, root: &str, path: &str) -> io::Result<()> {
    fs::create_dir_all(rt, root)?;
    for end in root.len().saturating_add(1)..path.len() {
        make_folder_at(rt, path, end)?;
    }
    Ok(())
}

// A name beside the one at a path: `.NAME.part`, and with its number behind from 1 on.
fn beside_path(alloc: Global, path: &str, number: u32) -> Result<String, TreeError> {
    let (folder, name) = parted(path);
    let mut beside = joined(alloc, folder, ".")?;
    beside.push_str(name)?;
    beside.push_str(".part")?;
    if number != 0 {
        beside.push_str(format!(in alloc; "{number}")?.as_str())?;
    }
    Ok(beside)
}

// Makes a file beside the one at a path, by the first of the names that nothing has.
fn make_beside(rt: &HostRuntime, alloc: Global, path: &str) -> Result<Beside, TreeError> {
    for number in 0..NAMES_TRIED {
        let beside = beside_path(alloc, path, number)?;
        match File::create_new(rt, beside.as_str()) {
            Ok(file) => return Ok(Beside { path: beside, file }),
            Err(error) if error.kind() == ErrorKind::AlreadyExists => {}
            Err(error) => return Err(refusal(error)),
        }
    }
    Err(TreeError::Fault)
}

// Writes a file, and gives it its name once its bytes are on the disk.
fn write_beside(rt: &HostRuntime, beside: &mut Beside, path: &str, bytes: &[u8]) -> io::Result<()> {
    beside.file.write_all(bytes)?;
    beside.file.sync_all()?;
    fs::rename(rt, beside.path.as_str(), path)
}

// Puts a file at a path whose folder is there. Refused, the file that was made beside it is gone again.
fn put_file(rt: &HostRuntime, alloc: Global, path: &str, bytes: &[u8]) -> Result<(), TreeError> {
    let mut beside = make_beside(rt, alloc, path)?;
    let written = write_beside(rt, &mut beside, path, bytes);
    if written.is_err() {
        let _ = fs::remove_file(rt, beside.path.as_str());
    }
    done(written)
}

/// Puts a file at a path below a root, with the folders that are missing. No file is written to or removed that this
/// call didn't make, but the one at the path, which is replaced.
pub(crate) fn write_file(
    rt: &HostRuntime,
    alloc: Global,
    root: &str,
    path: &str,
    bytes: &[u8],
) -> Result<(), TreeError> {
    if !is_inside(path) {
        return Err(TreeError::Fault);
    }
    let path = full_path(alloc, root, path)?;
    done(make_folders(rt, root, path.as_str()))?;
    put_file(rt, alloc, path.as_str(), bytes)?;
    done(sync_folder(rt, path.as_str()))
}
