// What is at the path of a file that is read.
use pm_format::FileBackend;
use std::fs;
use std::fs::File;
use std::io::ErrorKind;

/// What is at the path of a file that is to be read.
#[derive(Clone, Copy, Debug, PartialEq, Eq)]
pub enum SourceFile {
    /// A regular file that opens.
    Readable,
    /// Nothing.
    Missing,
    /// Something else than a regular file, or a file that doesn't open.
    Unreadable,
}

/// What is at a path, also through links. What is no regular file isn't opened, since that may
/// wait for another program.
pub fn source_file(rt: &HostRuntime, path: &str) -> SourceFile {
    let opened = match fs::metadata(rt, path) {
        Ok(found) if found.is_file() => File::open(rt, path),
        Ok(_) => return SourceFile::Unreadable,
        Err(error) => Err(error),
    };
    match opened {
        Ok(_) => SourceFile::Readable,
        Err(error) if error.kind() == ErrorKind::NotFound => SourceFile::Missing,
        Err(_) => SourceFile::Unreadable,
    }
}

/// Opens an archive in a regular file, where one is at the path.
pub fn open_archive(rt: &HostRuntime, path: &str) -> Option<FileBackend> {
    match source_file(rt, path) {
        SourceFile::Readable => FileBackend::open(rt, path).ok(),
        _ => None,
    }
}
