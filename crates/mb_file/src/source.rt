// What the tables of a set are read from.
ghost use Rattle.std.specs.Prelude.{◌≡◌, IfOk};
ghost use Rattle.sqlite_btree.specs.Check.{MarksFree};
ghost use Rattle.sqlite_pages.specs.Calls.{IsClean};
ghost use Rattle.mb_file.specs.FilePages.{IsReady, pages_of};

use crate::pages::FilePages;
use mb_reading::LeftOut;
use sqlite_btree::Scratch;
use sqlite_disk::Disk;
use sqlite_pages::Pages;
use std::alloc::{AllocError, Global};

#[derive(Drop)]
pub(crate) struct Source<D: Disk> {
    pub(crate) pages: FilePages<D>,
    pub(crate) scratch: Scratch,
    // A flag for each page, set where it belongs to a tree that was tested, or no tree can have it.
    pub(crate) taken: Vec<bool>,
    // Room for a record.
    pub(crate) record: Vec<u8>,
    // The key under which digests of ids are taken.
    pub(crate) secret: u64,
    // The rows that were read and left out.
    pub(crate) left_out: LeftOut,
}

impl<D: Disk + Drop> Source<D> {
    pub(crate) fn new(
        alloc: Global,
        pages: FilePages<D>,
        secret: u64,
    ) -> Result<Source<D>, AllocError>
        ensures pages { IfOk result (λ source. source.pages ≡ pages) }
        ensures secret { IfOk result (λ source. source.secret ≡ secret) }
        ensures live { IsReady pages → IsClean ⟦<FilePages<D> as Pages>⟧ pages
            → IfOk result (λ source. MarksFree source.taken.items (pages_of pages)) }
    {
        let taken = pages.taken(alloc)?;
        Ok(Source {
            pages,
            taken,
            scratch: Scratch::new(alloc),
            record: Vec::new(alloc),
            secret,
            left_out: LeftOut::NOTHING,
        })
    }
}
