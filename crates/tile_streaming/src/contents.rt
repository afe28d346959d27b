// What is held of the contents of a normalised set while their bytes stay in the store.
ghost use Rattle.std.specs.Prelude.{◌≡◌, ◌++◌, ◌∷◌, [], All, false, IfOk, List, OnOk, map, option_and_then, slice_get};
ghost use Rattle.tile_streaming.specs.Common.{AreIndexed, Cell, HashAlgorithm, id_twice, MbtType, Tests};
ghost use Rattle.mb_lists.specs.Entries.{is_removed};
ghost use Rattle.tile_streaming.specs.Contents.{hollow, hollow_content, Knows, mark_of_cell, mark_under, SeesContents};
ghost use Rattle.tile_streaming.specs.RowTests.{AreFindings};
ghost use Rattle.tile_streaming.specs.declared.mark.ContentMark.{ContentMark};

use crate::content_marks::{content_mark, mark_of_cell};
use crate::mark::ContentMark;
use crate::row_tests::Findings;
use base_values::OutOfMemory;
use mb_lists::{Content, ContentList, contents_from};
use mb_store::{Cell, MbtError, MbtResult, MbtType, Row};
use std::alloc::Global;
use tile_hash::HashAlgorithm;

/// Ids of contents, with cells that hold no bytes, and the mark of each content.
#[derive(Debug, Drop)]
pub(crate) struct Known {
    pub list: ContentList,
    pub marks: Vec<Option<ContentMark>>,
}

impl Known {
    // The mark at an index, none past the end.
    fn mark_at(&self, index: usize) -> Option<ContentMark>
        ensures { result ≡ option_and_then {U = ContentMark}
            (λ mark. mark) (slice_get self.now.marks.items index) }
    {
        match self.marks.get(index) {
            Some(mark) => *mark,
            None => None,
        }
    }

    /// The mark of the contents of an id; none where the id is null, or its cell neither bytes nor null.
    pub fn mark_under(&self, id: &Cell) -> Option<ContentMark>
        requires { AreIndexed self.now.list.items.items self.now.list.live
            self.now.list.order.items }
        ensures { (contents : List (List Cell)) → Knows contents self.now
            → result ≡ mark_under contents id.now }
    {
        if id.is_null() {
            return None;
        }
        match self.list.index_of(id) {
            Some(index) => self.mark_at(index),
            None => Some(content_mark(&[])),
        }
    }
}

// A cell that holds no bytes, in the place of one of contents.
fn hollow(cell: &Cell) -> Cell
    ensures { result ≡ hollow cell.now }
{
    match cell {
        Cell::Blob(_) | Cell::Null => Cell::Null,
        _ => Cell::Other,
    }
}

// Contents without their bytes.
fn hollow_content(content: Content) -> Content
    ensures { result ≡ hollow_content content }
{
    let Content { id, cell, standing } = content;
    Content {
        id,
        cell: hollow(&cell),
        standing,
    }
}

/// What all rows of contents come to: what their tests find, and what is known of them.
#[derive(Debug, Drop)]
pub(crate) struct ReadContents {
    pub findings: Findings,
    pub known: Known,
}

/// What the tests find in rows of contents, their ids, and their marks, in their order.
#[derive(Debug, Drop)]
pub(crate) struct SeenContents {
    pub findings: Findings,
    pub items: Vec<Content>,
    pub marks: Vec<Option<ContentMark>>,
}

impl SeenContents {
    /// No rows.
    pub fn none(alloc: Global) -> SeenContents
        ensures { (layout : MbtType) (a : HashAlgorithm) → SeesContents layout a [] result }
    {
        SeenContents {
            findings: Findings::none(),
            items: Vec::new(alloc),
            marks: Vec::new(alloc),
        }
    }

    // Adds contents, but for their bytes.
    fn add(&mut self, content: Content) -> Result<(), OutOfMemory>
        ensures findings { self.new.findings ≡ self.old.findings }
        ensures ids { OnOk result
            (self.new.items.items ≡ self.old.items.items ++ hollow_content content ∷ []) }
        ensures marks { OnOk result
            (self.new.marks.items ≡ self.old.marks.items ++ mark_of_cell content.cell ∷ []) }
    {
        let mark = mark_of_cell(&content.cell);
        self.marks.push(mark)?;
        self.items.push(hollow_content(content))?;
        Ok(())
    }

    // Adds all contents of a page.
    fn add_all(&mut self, contents: Vec<Content>) -> Result<(), OutOfMemory>
        ensures findings { self.new.findings ≡ self.old.findings }
        ensures ids { OnOk result
            (self.new.items.items ≡ self.old.items.items ++ map hollow_content contents.items) }
        ensures marks { OnOk result (self.new.marks.items ≡ self.old.marks.items
            ++ map (λ c. mark_of_cell c.cell) contents.items) }
    {
        for content in contents {
            self.add(content)?;
        }
        Ok(())
    }

    /// Takes more rows.
    pub fn see(
        &mut self,
        alloc: Global,
        layout: MbtType,
        algorithm: HashAlgorithm,
        page: Vec<Row>,
    ) -> Result<(), OutOfMemory>
        ensures { (rows : List (List Cell)) → SeesContents layout algorithm rows self.old
            → OnOk result (SeesContents layout algorithm (rows ++ page.items) self.new) }
    {
        let contents = contents_from(alloc, page)?;
        self.findings
            .see_contents(alloc, layout, algorithm, &contents)?;
        self.add_all(contents)
    }

    /// What all rows come to, with the ids in their order; or the refusal of an id that stands twice.
    pub fn in_order(self, alloc: Global) -> MbtResult<ReadContents>
        requires { All (λ c. is_removed c.standing ≡ false) self.items.items }
        ensures indexed { IfOk result (λ read. AreIndexed read.known.list.items.items
            read.known.list.live read.known.list.order.items) }
        ensures tests { (layout : MbtType) (a : HashAlgorithm) (rows : List (List Cell))
            → SeesContents layout a rows self → Tests (id_twice rows) result }
        ensures findings { (layout : MbtType) (a : HashAlgorithm) (rows : List (List Cell))
            → SeesContents layout a rows self
            → IfOk result (λ read. AreFindings layout a rows [] read.findings) }
        ensures known { (layout : MbtType) (a : HashAlgorithm) (rows : List (List Cell))
            → SeesContents layout a rows self → IfOk result (λ read. Knows rows read.known) }
    {
        let SeenContents {
            findings,
            items,
            marks,
        } = self;
        let ordered = ContentList::in_order(alloc, items)?;
        match ordered {
            Some(list) => Ok(ReadContents {
                findings,
                known: Known { list, marks },
            }),
            None => Err(MbtError::NoUniquenessConstraint),
        }
    }
}
