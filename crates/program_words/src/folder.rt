// Files by their number on the system, and the folders that they are in.
use std::fs::{File, Metadata};
use std::io::ErrorKind;
use std::os::unix::fs::MetadataExt;
use std::{fs, io};

/// Which file something is: the number of its file system, and its own there.
#[derive(Clone, Copy, Debug, PartialEq, Eq)]
pub struct FileId {
    dev: u64,
    ino: u64,
}

impl FileId {
    pub(crate) fn of(found: &Metadata) -> FileId {
        FileId {
            dev: found.dev(),
            ino: found.ino(),
        }
    }

    /// Whether it is the file at a path, where a link counts as itself.
    pub(crate) fn is_at(self, rt: &HostRuntime, path: &str) -> bool {
        match fs::symlink_metadata(rt, path) {
            Ok(found) => FileId::of(&found) == self,
            Err(_) => false,
        }
    }
}

// The path of the folder that a path's last name stands in.
fn folder_of(path: &str) -> &str {
    match path.rsplit_once('/') {
        None => ".",
        Some(("", _)) => "/",
        Some((folder, _)) => folder,
    }
}

/// Opens the folder of a path, so that it can be synced.
pub(crate) fn open_folder(rt: &HostRuntime, path: &str) -> io::Result<File> {
    File::open(rt, folder_of(path))
}

/// Has the system write the names in a folder to its disk. A file system that has no such call for
/// folders keeps them by itself.
pub(crate) fn sync_folder(folder: &File) -> io::Result<()> {
    match folder.sync_all() {
        Err(error) if error.kind() == ErrorKind::InvalidInput => Ok(()),
        done => done,
    }
}
