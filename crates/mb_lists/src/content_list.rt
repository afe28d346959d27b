// Contents, and the order of those that have an id.
ghost use Rattle.std.specs.Prelude.{◌≡◌, All, Contains, IfErr, IfNone, IfOk, IfSome, None, Some, cond, false, map, option_copied, option_map, slice_get, unwrap_or};
ghost use Rattle.mb_lists.specs.Common.{cell_cmp, content_of, is_null, IsPermutation, Null};
ghost use Rattle.mb_lists.specs.Entries.{AreContentsInOrder, id_at, is_content_gone, is_removed, newest_ids};
ghost use Rattle.mb_lists.specs.FromRows.{AreIndexed, content_from, ids_from, index_by, rows_kept};
ghost use Rattle.mb_lists.specs.Keyed.{Apart, IsAt, IsGap, StandsAs, are_distinct, live_at};

use crate::entries::{
    Content, Standing, compare_id, compare_ids, compare_ids_settled, is_content_mark,
};
use base_values::OutOfMemory;
use mb_tables::{Cell, Row};
use std::alloc::Global;

/// Contents in the order in which they came, and the indexes of those that have an id in the order of their ids.
#[derive(Debug, Drop)]
pub struct ContentList {
    pub items: Vec<Content>,
    pub order: Vec<usize>,
    pub live: usize,
}

// Takes the cells of a row of contents apart.
fn content_from(row: Row) -> Content
    ensures { result ≡ content_from row }
{
    let mut cells = row.into_cells().into_iter();
    let id = cells.next().unwrap_or(Cell::Null);
    let cell = cells.next().unwrap_or(Cell::Null);
    Content {
        id,
        cell,
        standing: Standing::Kept,
    }
}

/// The contents of all rows.
pub fn contents_from(alloc: Global, rows: Vec<Row>) -> Result<Vec<Content>, OutOfMemory>
    ensures { IfOk result (λ contents. contents.items ≡ map content_from rows.items) }
{
    let mut contents = Vec::with_capacity(alloc, rows.len())?;
    for row in rows {
        contents.push(content_from(row))?;
    }
    Ok(contents)
}

// The indexes of the contents that have an id.
fn ids_of(alloc: Global, items: &[Content]) -> Result<Vec<usize>, OutOfMemory>
    ensures { IfOk result (λ order. order.items ≡ ids_from 0 items.now) }
{
    let mut order = Vec::new(alloc);
    for index in 0..items.len() {
        if !items[index].id.is_null() {
            order.push(index)?;
        }
    }
    Ok(order)
}

/// The cell of the contents at an index.
pub fn kept_cell(items: &[Content], index: usize) -> Option<&Cell>
    ensures { option_copied result ≡ option_map (λ c. c.cell) (slice_get items.now index) }
{
    match items.get(index) {
        Some(content) => Some(&content.cell),
        None => None,
    }
}

// An id that isn't null.
fn present(id: &Cell) -> Option<&Cell>
    ensures { option_copied result ≡ cond (is_null id.now) None (Some id.now) }
{
    if id.is_null() {
        return None;
    }
    Some(id)
}

/// The id of the contents at an index, if they have one.
pub fn kept_id(items: &[Content], index: usize) -> Option<&Cell>
    ensures { option_copied result ≡ cond (is_null (id_at items.now index)) None
        (Some (id_at items.now index)) }
{
    match items.get(index) {
        Some(content) => present(&content.id),
        None => None,
    }
}

// The cell of the contents at an index, and the given null past the end.
fn cell_in<'a>(items: &'a [Content], index: usize, null: &'a Cell) -> &'a Cell
    ensures { result.now ≡ unwrap_or (option_map (λ c. c.cell) (slice_get items.now index))
        null.now }
{
    match items.get(index) {
        Some(content) => &content.cell,
        None => null,
    }
}

impl ContentList {
    /// Contents with the order of their ids, and none where an id stands twice.
    pub fn in_order(alloc: Global, items: Vec<Content>) -> Result<Option<ContentList>, OutOfMemory>
        requires { All (λ c. is_removed c.standing ≡ false) items.items }
        ensures order { IfOk result
            (λ found. IfSome found (λ l. AreContentsInOrder l.items.items l.live l.order.items)) }
        ensures items { IfOk result (λ found. IfSome found (λ l. l.items.items ≡ items.items)) }
        ensures same { IfOk result
            (λ found. IfSome found (λ l. IsPermutation (ids_from 0 items.items) l.order.items)) }
        ensures twice { IfOk result
            (λ found. IfNone found
            (are_distinct cell_cmp (map (id_at items.items) (ids_from 0 items.items)) ≡ false)) }
    {
        let mut order = ids_of(alloc, &items)?;
        order.sort_unstable_by(|a, b| compare_ids(&items, *a, *b));
        if !order.is_sorted_by(|a, b| compare_ids(&items, *a, *b).is_lt()) {
            return Ok(None);
        }
        let live = order.len();
        Ok(Some(ContentList { items, order, live }))
    }

    /// Puts the indexes of contents of different ids in the order of these, the marks behind, and
    /// answers how many aren't marks.
    pub fn settle(items: &[Content], order: &mut Vec<usize>) -> usize
        requires { Apart cell_cmp (id_at items.now) order.old.items }
        ensures order { AreContentsInOrder items.now result order.new.items }
        ensures same { IsPermutation order.old.items order.new.items }
    {
        order.sort_unstable_by(|a, b| compare_ids_settled(items, *a, *b));
        order.partition_point(|index| !is_content_mark(items, *index))
    }

    /// Contents with the order of their ids, of which the latest listing counts.
    pub fn newest(items: Vec<Content>, mut order: Vec<usize>) -> Result<ContentList, OutOfMemory>
        ensures items { IfOk result (λ l. l.items.items ≡ items.items) }
        ensures order { IfOk result (λ l. AreContentsInOrder items.items l.live l.order.items) }
        ensures same { IfOk result
            (λ l. StandsAs cell_cmp (id_at items.items) (newest_ids items.items order.items)
            l.order.items) }
        ensures from { IfOk result (λ l. All (Contains order.items) l.order.items) }
    {
        order.reverse();
        order.sort_by(|a, b| compare_ids(&items, *a, *b))?;
        order.dedup_by(|a, b| compare_ids(&items, *a, *b).is_eq());
        let live = ContentList::settle(&items, &mut order);
        Ok(ContentList { items, order, live })
    }

    /// Where the index of the contents of an id is, or where it would go.
    pub(crate) fn search(&self, id: &Cell) -> Result<usize, usize>
        requires { AreContentsInOrder self.now.items.items self.now.live self.now.order.items }
        ensures found { IfOk result
            (IsAt cell_cmp (id_at self.now.items.items) self.now.live self.now.order.items id.now) }
        ensures absent { IfErr result
            (IsGap cell_cmp (id_at self.now.items.items) self.now.live self.now.order.items
            id.now) }
    {
        let items = self.items.as_slice();
        self.order[..self.live].binary_search_by(|index| compare_id(items, *index, id))
    }

    /// The index of the contents of an id.
    pub fn index_of(&self, id: &Cell) -> Option<usize>
        requires { AreContentsInOrder self.now.items.items self.now.live self.now.order.items }
        ensures { result ≡ live_at cell_cmp (id_at self.now.items.items)
            (is_content_gone self.now.items.items) id.now self.now.order.items }
    {
        match self.search(id) {
            Ok(at) => Some(self.order[at]),
            Err(_) => None,
        }
    }

    /// The contents of an id, and the given null where none has it.
    pub fn cell_of<'a>(&'a self, id: &Cell, null: &'a Cell) -> &'a Cell
        requires indexed { AreIndexed self.now.items.items self.now.live self.now.order.items }
        requires id { is_null id.now ≡ false }
        requires null { null.now ≡ Null }
        ensures { result.now ≡ content_of (rows_kept self.now.items.items) id.now }
    {
        match self.index_of(id) {
            Some(index) => cell_in(&self.items, index, null),
            None => null,
        }
    }
}
