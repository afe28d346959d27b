// A place in the rows of a table, in the order of their rowids.
ghost use Rattle.std.specs.Prelude.{◌≡◌, ℕ, None, Some};
ghost use Rattle.sqlite_btree.specs.Chain.{Layout};
ghost use Rattle.sqlite_btree.specs.Stored.{IsTable};
ghost use Rattle.sqlite_pages.specs.Calls.{Continues, NamesDamage};
ghost use Rattle.sqlite_pages.specs.PageMap.{PageMap};
ghost use Rattle.mb_file.specs.Cursor.{IsAmong, TakesRow, left_of, row_of, FillsEmpty};

use sqlite_btree::{Batch, Scratch, table};
use sqlite_pages::{Error, Pages};
use std::alloc::Global;

#[derive(Drop)]
pub(crate) struct Cursor {
    // The rows of one page.
    batch: Batch,
    // The least rowid that the next row can have, None past the last row.
    next: Option<i64>,
}

// Fills a batch that has no row left with the first rows from a rowid on.
fn fill_empty<P: Pages>(
    batch: &mut Batch,
    pages: &mut P,
    scratch: &mut Scratch,
    root: u32,
    next: i64,
) -> Result<(), Error>
    ensures filled { FillsEmpty P.Pages pages.old pages.new root next batch.old batch.new result }
    ensures honest { NamesDamage P.Pages pages.old pages.new ⊥ result }
    ensures kept { Continues P.Pages pages.old pages.new }
    ensures pages { P.Pages.pages pages.new ≡ P.Pages.pages pages.old }
{
    if batch.is_empty() {
        return table::fill(pages, scratch, root, next, batch);
    }
    Ok(())
}

impl Cursor {
    // Before the first row.
    pub(crate) fn new(alloc: Global) -> Cursor
        ensures first { result.next ≡ Some i64.MIN }
        ensures among { (layout : Layout) (usable : ℕ) (pages : PageMap) (rows : _)
            → IsAmong layout usable pages rows result }
        ensures left { (layout : Layout) (usable root : ℕ) (rows : _)
            → IsTable usable layout root rows → left_of result rows ≡ rows }
    {
        Cursor {
            batch: Batch::new(alloc),
            next: Some(i64::MIN),
        }
    }

    // Takes the next row, and says whether there was one. Its rowid is above all before; a row
    // of another one is damage.
    pub(crate) fn advance<P: Pages>(
        &mut self,
        pages: &mut P,
        scratch: &mut Scratch,
        root: u32,
    ) -> Result<bool, Error>
        ensures taken { TakesRow P.Pages pages.old pages.new root self.old self.new result }
        ensures honest { NamesDamage P.Pages pages.old pages.new ⊥ result }
        ensures kept { Continues P.Pages pages.old pages.new }
        ensures pages { P.Pages.pages pages.new ≡ P.Pages.pages pages.old }
    {
        let Some(next) = self.next else {
            return Ok(false);
        };
        fill_empty(&mut self.batch, pages, scratch, root, next)?;
        if !self.batch.next(pages)? {
            self.next = None;
            return Ok(false);
        }
        let rowid = self.batch.rowid();
        if rowid < next {
            return Err(Error::Corrupt);
        }
        self.next = rowid.checked_add(1);
        Ok(true)
    }

    // The rowid of the row that was taken last.
    pub(crate) fn rowid(&self) -> i64
        ensures { result ≡ (row_of self.now).0 }
    {
        self.batch.rowid()
    }

    // The record of the row that was taken last.
    pub(crate) fn record(&self) -> &[u8]
        ensures { result.now ≡ (row_of self.now).1 }
    {
        self.batch.payload()
    }
}
