// The set of a file that is opened for reading alone.
use crate::{FileError, FileSet};
use mb_reading::{DiskFile, FileRead};
use sqlite_disk::Memory;

/// The set of a file that is opened for reading alone: nothing is written to the file or beside
/// it, and no lock is taken.
#[derive(Drop)]
pub struct SetFile {
    /// The set.
    pub set: FileSet<DiskFile<Memory>>,
    file: FileRead,
}

impl SetFile {
    /// Opens the set of a file by its path. `File` where the file can't be opened or isn't a database, and the
    /// refusals of `FileSet::open`.
    pub fn open(rt: &HostRuntime, path: &str) -> Result<SetFile, FileError> {
        let (file, files, pages) = FileRead::open(rt, path)?;
        let set = FileSet::open(rt.alloc(), files, pages)?;
        Ok(SetFile { set, file })
    }

    /// The test that the file and its log stand as they stood, and that no rollback journal is beside them. A caller
    /// makes it once it has read all that it wants.
    pub fn test_still(&self, rt: &HostRuntime) -> Result<(), FileError> {
        Ok(self.file.test_still(rt)?)
    }
}
