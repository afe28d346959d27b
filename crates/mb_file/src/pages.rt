// The pages of a database and its log, which are only read.
ghost use Rattle.std.specs.Prelude.{◌≡◌, ◌≤◌, IfOk, IsTrue};
ghost use Rattle.sqlite_pages.specs.PageMap.{IsUsableSize};
ghost use Rattle.sqlite_pager.specs.Pager as below;
ghost use Rattle.sqlite_pager.specs.Pager.{AreUsable, image, state};
ghost use Rattle.sqlite_pool.specs.Report.{reported};
ghost use Rattle.sqlite_wal.specs.PageSize.{bytes_of};
ghost use Rattle.sqlite_wal.specs.Reads.{AreClean};
ghost use Rattle.mb_file.specs.Recovered.{IsRecovered, IsSizeOf, IsUnchanged, image_of};

use crate::FileError;
use crate::header::{states_count, usable_size};
use sqlite_disk::{Disk, Files};
use sqlite_pager::{Options, Pager};
use sqlite_pages::{Error, Pages};
use sqlite_wal::{PageSize, probe_page_size};
use std::alloc::{AllocError, Global};

// Pages without the bytes that are reserved at their end.
#[derive(Drop)]
pub(crate) struct FilePages<D: Disk> {
    pager: Pager<D>,
    usable: usize,
    ghost sized: { IsUsableSize usable },
    ghost fits: { usable ≤ (state pager).page_size },
}

// What a failed call of the pager comes to.
fn report(error: sqlite_wal::Error) -> Error
    ensures { result ≡ reported error }
{
    match error {
        sqlite_wal::Error::Io(_) | sqlite_wal::Error::Closed => Error::Io,
        sqlite_wal::Error::OutOfMemory => Error::OutOfMemory,
        sqlite_wal::Error::Full => Error::Full,
        sqlite_wal::Error::NoSuchPage | sqlite_wal::Error::Corrupt | sqlite_wal::Error::Exists => {
            Error::Corrupt
        }
    }
}

// What a refused opening comes to.
fn refused(error: sqlite_wal::Error) -> FileError {
    FileError::from(report(error))
}

// How many bytes a file has.
fn length<D: Disk>(files: &mut Files<D>) -> Result<usize, FileError>
    ensures still { IsUnchanged D.Disk files.old files.new }
{
    if !files.db.may_be_used() {
        return Err(FileError::OutOfMemory);
    }
    match files.db.len() {
        Ok(0) => Err(FileError::NotASet),
        Ok(length) => Ok(length),
        Err(_) => Err(FileError::Unread),
    }
}

// How large a page is, by the headers of the log or the file.
fn page_size<D: Disk>(files: &mut Files<D>) -> Result<PageSize, FileError>
    ensures size { IfOk result (λ size. AreClean D.Disk files.new.log files.new.db
        → IsSizeOf (image_of D.Disk files.old) (bytes_of size)) }
    ensures still { IsUnchanged D.Disk files.old files.new }
{
    if !files.log.may_be_used() || !files.db.may_be_used() {
        return Err(FileError::OutOfMemory);
    }
    match probe_page_size(files) {
        Ok(Some(size)) => Ok(size),
        Ok(None) => Err(FileError::Header),
        Err(_) => Err(FileError::Unread),
    }
}

// The size of pages, and how many of them to keep in memory: at most so many, and no more than the file has.
fn sizes<D: Disk>(files: &mut Files<D>, cache_pages: usize) -> Result<(PageSize, usize), FileError>
    ensures size { IfOk result (λ sizes. AreClean D.Disk files.new.log files.new.db
        → IsSizeOf (image_of D.Disk files.old) (bytes_of sizes.0)) }
    ensures still { IsUnchanged D.Disk files.old files.new }
{
    let length = length(files)?;
    let size = page_size(files)?;
    let pages = length / size.bytes().max(1);
    Ok((size, cache_pages.min(pages.saturating_add(1))))
}

// Finds the pages that the files stand for, and how many bytes of each are used.
fn recover<D: Disk>(pager: &mut Pager<D>) -> Result<usize, FileError>
    requires { AreUsable pager.old }
    ensures size { (state pager.new).page_size ≡ (state pager.old).page_size }
    ensures used { IfOk result (λ usable. usable ≤ (state pager.old).page_size) }
    ensures usable { IfOk result IsUsableSize }
    ensures ready { IfOk result (λ _. IsTrue (state pager.new).is_ready) }
    ensures honest { IsTrue (state pager.new).is_clean → IsTrue (state pager.old).is_clean }
    ensures found { IfOk result (λ usable. IsTrue (state pager.new).is_clean
        → IsRecovered (image pager.old) pager.new usable) }
{
    if let Err(error) = pager.recover() {
        return Err(refused(error));
    }
    if let Err(error) = pager.load(1) {
        return Err(refused(error));
    }
    let usable = usable_size(pager.loaded())?;
    if states_count(pager.loaded(), pager.page_count()) {
        Ok(usable)
    } else {
        Err(FileError::Damaged)
    }
}

// A pager of files that can be used.
fn pager_of<D: Disk + Drop>(
    alloc: Global,
    files: Files<D>,
    size: PageSize,
    cache_pages: usize,
) -> Result<Pager<D>, FileError>
    ensures usable { IfOk result AreUsable }
    ensures files { IfOk result (λ pager. below.files pager ≡ (files.log, files.db)) }
    ensures size { IfOk result (λ pager. (state pager).page_size ≡ bytes_of size) }
{
    if !files.log.may_be_used() || !files.db.may_be_used() {
        return Err(FileError::OutOfMemory);
    }
    let options = Options {
        cache_pages,
        ..Options::new(0)
    };
    match Pager::new(alloc, files, size, options) {
        Ok(pager) => Ok(pager),
        Err(_) => Err(FileError::OutOfMemory),
    }
}

impl<D: Disk + Drop> FilePages<D> {
    ghost use Rattle.mb_file.specs.FilePages.{IsReady, IsTrusted, pages_of};
    ghost use Rattle.mb_file.specs.Opened.{AreOf};

    // The pages that a file and its log stand for, of which at most so many are kept in memory once they are read.
    // Nothing but the log is written.
    pub(crate) fn open(
        alloc: Global,
        mut files: Files<D>,
        cache_pages: usize,
    ) -> Result<FilePages<D>, FileError>
        ensures ready { IfOk result IsReady }
        ensures found { IfOk result (λ it. IsTrusted it
            → AreOf (image_of D.Disk files) it.usable (pages_of it)) }
    {
        let (size, held) = match sizes(&mut files, cache_pages) {
            Ok(sizes) => sizes,
            Err(error) => return Err(error),
        };
        let mut pager = pager_of(alloc, files, size, held)?;
        match recover(&mut pager) {
            Ok(usable) => Ok(FilePages { pager, usable }),
            Err(error) => Err(error),
        }
    }
}

// The page that holds the byte by which SQLite locks a file. No tree has it.
const LOCK: usize = 0x4000_0000;

impl<D: Disk> FilePages<D> {
    ghost use Rattle.sqlite_btree.specs.Check.{MarksFree};
    ghost use Rattle.mb_file.specs.FilePages.{pages_of};

    // A flag for each page, set where no tree can have it.
    pub(crate) fn taken(&self, alloc: Global) -> Result<Vec<bool>, AllocError>
        ensures live { IsTrue (state self.now.pager).is_open
            → IfOk result (λ marks. MarksFree marks.items (pages_of self.now)) }
    {
        let lock = LOCK / self.pager.page_size().max(1) + 1;
        let mut taken = Vec::new(alloc);
        taken.push(true)?;
        for before in 0..self.pager.page_count() as usize {
            taken.push(before + 1 == lock)?;
        }
        Ok(taken)
    }
}

impl<D: Disk> Pages for FilePages<D> {
    ghost use Rattle.std.specs.Prelude.{⊤, false};
    ghost use Rattle.sqlite_pager.specs.Pager as below;
    ghost use Rattle.mb_file.specs.FilePages.{current_of, pages_of};

    ghost pages = { pages_of };

    ghost size = { λ it. it.usable };

    ghost current = { current_of };

    ghost faults = { λ it. (below.state it.pager).faults };

    ghost is_clean = { λ it. (below.state it.pager).is_clean };

    ghost is_shut = { λ it. (below.state it.pager).is_ready ≡ false };

    // It can't grow.
    ghost is_full = { λ _. ⊤ };

    ghost follows = { λ _ _. ⊤ };

    ghost follows_refl = { λ _. tt };

    ghost follows_trans = { λ _ _ _ _ _. tt };

    #[inline(always)]
    fn load(&mut self, page: u32) -> Result<(), Error> {
        match self.pager.load(page) {
            Ok(()) => Ok(()),
            Err(error) => Err(report(error)),
        }
    }

    #[inline(always)]
    fn loaded(&self) -> &[u8] {
        &self.pager.loaded()[..self.usable]
    }

    fn write(&mut self, _page: u32, _bytes: &[u8]) -> Result<(), Error> {
        Err(Error::Full)
    }

    fn allocate(&mut self) -> Result<u32, Error> {
        Err(Error::Full)
    }

    fn free(&mut self, _page: u32) -> Result<(), Error> {
        Err(Error::Full)
    }
}
