// A place in the rows of a table, in the order of its tree.
ghost use Rattle.std.specs.Prelude.{◌≡◌, ℕ, false};
ghost use Rattle.sqlite_btree.specs.Chain.{Layout};
ghost use Rattle.sqlite_btree.specs.Stored.{IsTable};
ghost use Rattle.sqlite_pages.specs.Calls.{Continues};
ghost use Rattle.sqlite_pages.specs.PageMap.{PageMap};
ghost use Rattle.mb_file.specs.Course.{IsIn, PassesRow, has_key, left_in, row_in};

use crate::cursor::Cursor;
use crate::walk::Walk;
use sqlite_btree::Scratch;
use sqlite_pages::{Error, Pages};
use std::alloc::Global;

#[derive(Drop)]
pub(crate) enum Course {
    // By rowids.
    Rows(Cursor),
    // By the key of a table WITHOUT ROWID.
    Keys(Walk),
}

impl Course {
    // Before the first row.
    pub(crate) fn new(alloc: Global, is_keyed: bool) -> Course
        ensures kind { has_key result ≡ is_keyed }
        ensures among { is_keyed ≡ false
            → (layout : Layout) (usable : ℕ) (pages : PageMap) (rows : _)
            → IsIn layout usable pages rows result }
        ensures left { is_keyed ≡ false → (layout : Layout) (usable root : ℕ) (rows : _)
            → IsTable usable layout root rows → left_in result rows ≡ rows }
    {
        if is_keyed {
            Course::Keys(Walk::new(alloc))
        } else {
            Course::Rows(Cursor::new(alloc))
        }
    }

    // The same, of the same kind of table.
    pub(crate) fn anew(&self, alloc: Global) -> Course
        ensures kind { has_key result ≡ has_key self.now }
        ensures among { has_key self.now ≡ false
            → (layout : Layout) (usable : ℕ) (pages : PageMap) (rows : _)
            → IsIn layout usable pages rows result }
        ensures left { has_key self.now ≡ false → (layout : Layout) (usable root : ℕ) (rows : _)
            → IsTable usable layout root rows → left_in result rows ≡ rows }
    {
        Course::new(alloc, matches!(self, Course::Keys(_)))
    }

    // Takes the next row, and says whether there was one.
    pub(crate) fn advance<P: Pages>(
        &mut self,
        pages: &mut P,
        scratch: &mut Scratch,
        root: u32,
    ) -> Result<bool, Error>
        ensures taken { PassesRow P.Pages pages.old pages.new root self.old self.new result }
        ensures kind { has_key self.new ≡ has_key self.old }
        ensures kept { Continues P.Pages pages.old pages.new }
        ensures pages { P.Pages.pages pages.new ≡ P.Pages.pages pages.old }
    {
        match self {
            Course::Rows(cursor) => cursor.advance(pages, scratch, root),
            Course::Keys(walk) => walk.advance(pages, root),
        }
    }

    // The number of the row that was taken last, which rises from row to row: its rowid, or how many rows there were.
    pub(crate) fn number(&self) -> i64
        ensures { result ≡ (row_in self.now).0 }
    {
        match self {
            Course::Rows(cursor) => cursor.rowid(),
            Course::Keys(walk) => walk.count(),
        }
    }

    // Where that row is read again: its rowid, or the place of its cell.
    pub(crate) fn place(&self) -> i64
        ensures { has_key self.now ≡ false → result ≡ (row_in self.now).0 }
    {
        match self {
            Course::Rows(cursor) => cursor.rowid(),
            Course::Keys(walk) => walk.place(),
        }
    }

    // Its record.
    pub(crate) fn record(&self) -> &[u8]
        ensures { result.now ≡ (row_in self.now).1 }
    {
        match self {
            Course::Rows(cursor) => cursor.record(),
            Course::Keys(walk) => walk.record(),
        }
    }
}
