// The set of bytes in memory.
ghost use Rattle.std.specs.Prelude.{◌≡◌, IfOk, true};
ghost use Rattle.sqlite_disk.specs.Memory.{memory_bytes};
ghost use Rattle.mb_file.specs.FilePages.{pages_of};
ghost use Rattle.mb_file.specs.Held.{HoldsTables, alone};
ghost use Rattle.mb_file.specs.Opened.{AreOf};
ghost use Rattle.mb_file.specs.Told.{tells_by_set, told_by_set};

use crate::{FileError, FileSet};
use sqlite_disk::{Disk, Files, Memory};
use std::alloc::Global;

// A file in memory with these bytes.
fn memory_of(alloc: Global, bytes: &[u8]) -> Result<Memory, FileError>
    ensures { IfOk result (λ memory. memory_bytes memory ≡ bytes.now) }
{
    let mut memory = Memory::new(alloc);
    match memory.write_at(0, bytes) {
        Ok(()) => Ok(memory),
        Err(_) => Err(FileError::OutOfMemory),
    }
}

impl FileSet<Memory> {
    /// Opens the set of the bytes of a file without a log, of whose pages so many are kept beside the bytes, which are
    /// copied.
    ///
    /// The refusals of `open`.
    pub fn of_bytes(
        alloc: Global,
        bytes: &[u8],
        cache_pages: usize,
    ) -> Result<FileSet<Memory>, FileError>
        ensures holds { IfOk result (λ set. tells_by_set true set ≡ true
            → HoldsTables (alone bytes.now) (told_by_set set)) }
        ensures found { IfOk result (λ set. AreOf (alone bytes.now)
            set.source.pages.usable (pages_of set.source.pages)) }
        ensures unfailed { IfOk result (λ set. set.faults.count ≡ 0) }
    {
        let db = memory_of(alloc, bytes)?;
        let log = Memory::new(alloc);
        FileSet::open(alloc, Files { log, db }, cache_pages)
    }
}
