// A place in the rows of a table WITHOUT ROWID, in the order of its key.
ghost use Rattle.std.specs.Prelude.{◌≡◌};
ghost use Rattle.sqlite_pages.specs.Calls.{Continues};

use crate::index_cell::{append_rest, cell_place, index_node, take_local};
use sqlite_format::Node;
use sqlite_pages::{Error, Pages};
use std::alloc::Global;

// No tree of SQLite has more levels.
const DEPTH: usize = 20;

// A page between the root and a row, and how far it was passed. The steps of a leaf are its rows; those of another page
// are in turn a page below it and a row, from its first page below to its last.
#[derive(Clone, Copy, Debug)]
struct Level {
    page: u32,
    step: usize,
}

// What a step comes to.
#[derive(Clone, Copy, Debug)]
enum Turn {
    // The row of a cell.
    Row(usize),
    // A page below.
    Below(u32),
    // The end of the page.
    Up,
}

#[derive(Drop)]
pub(crate) struct Walk {
    // The pages from the root down, None before the first row.
    path: Option<Vec<Level>>,
    // A copy of the page at hand, and its number, 0 where there is none.
    page: Vec<u8>,
    number: u32,
    // How many rows were taken, where the last of them is, and its record.
    count: i64,
    place: i64,
    record: Vec<u8>,
    alloc: Global,
}

// What a step in a page comes to.
fn turn_in(node: &Node, step: usize) -> Result<Turn, Error> {
    if node.kind.leaf {
        return Ok(if step < node.count {
            Turn::Row(step)
        } else {
            Turn::Up
        });
    }
    let at = step / 2;
    let is_row = step % 2 == 1;
    if at < node.count {
        if is_row {
            return Ok(Turn::Row(at));
        }
        return match node.child(at) {
            Some(page) => Ok(Turn::Below(page)),
            None => Err(Error::Corrupt),
        };
    }
    if is_row || at > node.count {
        return Ok(Turn::Up);
    }
    Ok(Turn::Below(node.right()))
}

impl Walk {
    // Before the first row.
    pub(crate) fn new(alloc: Global) -> Walk {
        Walk {
            path: None,
            page: Vec::new(alloc),
            number: 0,
            count: 0,
            place: 0,
            record: Vec::new(alloc),
            alloc,
        }
    }

    // Copies a page, unless it is at hand.
    fn hold<P: Pages>(&mut self, pages: &mut P, page: u32) -> Result<(), Error>
        ensures kept { Continues P.Pages pages.old pages.new }
        ensures pages { P.Pages.pages pages.new ≡ P.Pages.pages pages.old }
    {
        if page < 2 {
            return Err(Error::Corrupt);
        }
        if self.number == page {
            return Ok(());
        }
        self.number = 0;
        pages.load(page)?;
        self.page.clear();
        self.page.extend_from_slice(pages.loaded())?;
        self.number = page;
        Ok(())
    }

    // The path to the page at hand, at first the root alone.
    fn take_path(&mut self, root: u32) -> Result<Vec<Level>, Error> {
        if let Some(path) = self.path.take() {
            return Ok(path);
        }
        self.count = 0;
        let mut path = Vec::new(self.alloc);
        path.push(Level {
            page: root,
            step: 0,
        })?;
        Ok(path)
    }

    // Takes the row of a cell of the page that is held.
    fn read<P: Pages>(&mut self, pages: &mut P, cell: usize) -> Result<(), Error>
        ensures kept { Continues P.Pages pages.old pages.new }
        ensures pages { P.Pages.pages pages.new ≡ P.Pages.pages pages.old }
    {
        if self.page.len() != pages.loaded().len() {
            return Err(Error::Corrupt);
        }
        let node = index_node(self.page.as_slice())?;
        let rest = take_local(&node, cell, &mut self.record)?;
        append_rest(pages, rest, &mut self.record)?;
        self.place = cell_place(self.number, cell)?;
        self.count = self.count.saturating_add(1);
        Ok(())
    }

    // What the step of a level comes to.
    fn turn<P: Pages>(&mut self, pages: &mut P, level: Level) -> Result<Turn, Error>
        ensures kept { Continues P.Pages pages.old pages.new }
        ensures pages { P.Pages.pages pages.new ≡ P.Pages.pages pages.old }
    {
        self.hold(pages, level.page)?;
        if self.page.len() != pages.loaded().len() {
            return Err(Error::Corrupt);
        }
        let node = index_node(self.page.as_slice())?;
        turn_in(&node, level.step)
    }

    // Goes on to the next row, and says whether there is one.
    fn go_on<P: Pages>(&mut self, pages: &mut P, path: &mut Vec<Level>) -> Result<bool, Error>
        ensures kept { Continues P.Pages pages.old pages.new }
        ensures pages { P.Pages.pages pages.new ≡ P.Pages.pages pages.old }
    {
        'steps: for _ in 0..u64::MAX {
            let Some(level) = path.pop() else {
                return Ok(false);
            };
            let turn = self.turn(pages, level)?;
            let passed = Level {
                page: level.page,
                step: level.step.saturating_add(1),
            };
            match turn {
                Turn::Up => {}
                Turn::Row(cell) => {
                    path.push(passed)?;
                    self.read(pages, cell)?;
                    return Ok(true);
                }
                Turn::Below(page) => {
                    path.push(passed)?;
                    if path.len() >= DEPTH {
                        return Err(Error::Corrupt);
                    }
                    path.push(Level { page, step: 0 })?;
                }
            }
        }
        Err(Error::Corrupt)
    }

    // Takes the next row, and says whether there was one. After a failure it begins at the first row.
    pub(crate) fn advance<P: Pages>(&mut self, pages: &mut P, root: u32) -> Result<bool, Error>
        ensures kept { Continues P.Pages pages.old pages.new }
        ensures pages { P.Pages.pages pages.new ≡ P.Pages.pages pages.old }
    {
        let mut path = self.take_path(root)?;
        let found = self.go_on(pages, &mut path)?;
        self.path = Some(path);
        Ok(found)
    }

    // How many rows were taken.
    pub(crate) fn count(&self) -> i64
        ensures { result ≡ self.now.count }
    {
        self.count
    }

    // The place of the row that was taken last.
    pub(crate) fn place(&self) -> i64 {
        self.place
    }

    // Its record.
    pub(crate) fn record(&self) -> &[u8]
        ensures { result.now ≡ self.now.record.items }
    {
        self.record.as_slice()
    }
}
