// A stream along the rows of a set: what it owns beside the store that it reads.
ghost use Rattle.std.specs.Prelude.{◌≡◌, ◌<◌, ◌≤◌, ◌+◌, ◌-◌, ◌∷◌, [], IfOk, IfSome, None, Ok, OnErr, OnOk, false, length, true};
ghost use Rattle.mb_access.specs.Common.{contains_key, FaultsCounted, get, IsBegun, len, place_at, ReadsOnly, Tables};
ghost use Rattle.mb_access.specs.StreamSteps.{AreAllLeft, GivesCoord, GivesIndex, GivesTile, IsRowOf, StreamCauses, is_tile_row, left_at_most, left_of, loaded_by, next_row, page_size, rows_left, set_of};

use crate::finding::{coord_at, index_of, tile_copy};
use base_values::BlobVal;
use mb_lists::{cell_at, coord_of};
use mb_load::load;
use mb_loaded::Loaded;
use mb_store::{Cell, MbtError, MbtResult, MbtType, Row, StoreError, TileStore};
use std::alloc::Global;
use tile_ids::TileCoord;

/// What a stream of a set's tiles owns beside the store that it borrows: the set as it was loaded, a page of
/// rows, and how far it came.
#[derive(Drop)]
pub struct StreamState {
    pub(crate) alloc: Global,
    pub(crate) set: Loaded,
    pub(crate) page: Vec<Row>,
    pub(crate) at: usize,
    pub(crate) from: u64,
    pub(crate) rows: u64,
    pub(crate) left: usize,
    pub(crate) likely: usize,
}

// Whether a row of the table of places is one of a tile.
fn is_tile_row(layout: MbtType, row: &Row) -> bool
    ensures { result ≡ is_tile_row layout row.now }
{
    let null = Cell::Null;
    match layout {
        MbtType::Normalized { .. } => !cell_at(row, 3, &null).is_null(),
        _ => true,
    }
}

// The index of the tile of a row among those of a loaded set, where the row is one of a tile, and the set has a tile
// there. It is tried first at `likely`.
fn index_by_row(set: &Loaded, likely: usize, row: &Row) -> Option<usize>
    ensures { IsRowOf set.now.state row.now result }
{
    if !is_tile_row(set.mbt_type(), row) {
        return None;
    }
    let coord = coord_of(row)?;
    index_of(set, likely, coord)
}

// The index at which the tile of the next row is tried first: the one behind that of this row, so that rows in the
// order of their places need no search.
fn likely_after(index: Option<usize>, likely: usize) -> usize {
    match index {
        Some(index) => index.saturating_add(1),
        None => likely,
    }
}

// How many rows the page after so many has.
fn page_size(from: u64) -> u64
    ensures { result ≡ page_size from }
{
    (from / 8).max(1024)
}

impl StreamState {
    /// Loads a set, and begins a stream along the rows of its places, of as many as the store counts. It answers the
    /// refusals of `load`; the store holds what it held, whatever the answer.
    ///
    /// Over a store that tells, all tiles of the set are to come, in the order of the told rows. Over any store at most
    /// as many come as were loaded.
    pub fn start<S: TileStore>(alloc: Global, store: &mut S) -> MbtResult<StreamState>
        ensures answer { IsBegun Ok (S.tells store.old) (S.told store.old) (loaded_by result) }
        ensures items { S.tells store.old ≡ true
            → IfOk result (λ s. AreAllLeft (S.told store.old) (S.told store.old) s) }
        ensures most { IfOk result (λ s. left_at_most s ≡ len (set_of s).tiles) }
        ensures kept { ReadsOnly S.told S.tells S.faults S.steady store.old store.new }
        ensures fault { FaultsCounted S.faults store.old store.new result MbtError.StoreFault }
    {
        let set = load(alloc, store)?;
        let rows = store.count_rows(set.mbt_type().tile_table())?;
        let left = set.tile_count();
        Ok(StreamState {
            alloc,
            set,
            page: Vec::new(alloc),
            at: 0,
            from: 0,
            rows,
            left,
            likely: 0,
        })
    }

    // Whether a row is next, of the page or of the one that comes then.
    fn has_row<S: TileStore>(&mut self, store: &mut S) -> Result<bool, StoreError>
        ensures rows { S.tells store.old ≡ true → OnOk result
            (rows_left (S.told store.old) self.new ≡ rows_left (S.told store.old) self.old) }
        ensures next { IfOk result (λ there. there ≡ true
            → self.new.at < length self.new.page.items) }
        ensures none { S.tells store.old ≡ true → IfOk result (λ there. there ≡ false
            → rows_left (S.told store.old) self.new ≡ []) }
        ensures most { OnOk result
            (length self.new.page.items - self.new.at + (self.new.rows - self.new.from)
            ≤ length self.old.page.items - self.old.at + (self.old.rows - self.old.from)) }
        ensures set { self.new.set ≡ self.old.set }
        ensures left { self.new.left ≡ self.old.left }
        ensures kept { ReadsOnly S.told S.tells S.faults S.steady store.old store.new }
        ensures fault { FaultsCounted S.faults store.old store.new result StoreError.Fault }
    {
        if self.at < self.page.len() {
            return Ok(true);
        }
        if self.from >= self.rows {
            return Ok(false);
        }
        let limit = page_size(self.from).min(self.rows - self.from);
        let table = self.set.mbt_type().tile_table();
        let page = store.rows(self.alloc, table, self.from, limit)?;
        let count = page.len();
        self.from += count as u64;
        self.page = page;
        self.at = 0;
        Ok(count > 0)
    }

    // Takes the next row of the page: the index of its tile, if it has one.
    fn take_row(&mut self) -> Option<usize>
        requires { self.old.at < length self.old.page.items }
        ensures rows { (t : Tables)
            → rows_left t self.old ≡ next_row self.old ∷ rows_left t self.new }
        ensures index { IsRowOf (set_of self.old) (next_row self.old) result }
        ensures most { length self.new.page.items - self.new.at + 1
            ≡ length self.old.page.items - self.old.at }
        ensures set { self.new.set ≡ self.old.set }
        ensures left { self.new.left ≡ self.old.left }
        ensures rest { self.new.rows - self.new.from ≡ self.old.rows - self.old.from }
    {
        let index = index_by_row(&self.set, self.likely, &self.page[self.at]);
        self.at += 1;
        self.likely = likely_after(index, self.likely);
        index
    }

    // The index of the next tile, null ones included, or an error, after which none comes.
    fn next_index<S: TileStore>(&mut self, store: &mut S) -> Option<MbtResult<usize>>
        ensures items { S.tells store.old ≡ true → GivesIndex (set_of self.old).tiles
            (left_of (S.told store.old) self.old) result (left_of (S.told store.old) self.new) }
        ensures own { IfSome result (λ item. IfOk item (λ i. i < len (set_of self.old).tiles)) }
        ensures set { set_of self.new ≡ set_of self.old }
        ensures fewer { IfSome result (λ _. left_at_most self.new < left_at_most self.old) }
        ensures err { IfSome result (λ item. OnErr item (left_at_most self.new ≡ 0)) }
        ensures end { result ≡ None → left_at_most self.new ≡ 0 }
        ensures causes { StreamCauses (S.faults store.old) (S.faults store.new) result }
        ensures kept { ReadsOnly S.told S.tells S.faults S.steady store.old store.new }
    {
        while self.left > 0 {
            match self.has_row(store) {
                Ok(true) => {
                    if let Some(index) = self.take_row() {
                        self.left -= 1;
                        return Some(Ok(index));
                    }
                }
                Ok(false) => {
                    self.left = 0;
                }
                Err(error) => {
                    self.left = 0;
                    return Some(Err(error.into()));
                }
            }
        }
        None
    }

    /// The coordinate of the next tile, null ones included, or an error, after which none comes: running out of memory,
    /// or `StoreFault` where the store's count of faults rose.
    ///
    /// Rows are read a page at a time. The store holds what it held, and is to be the one that was loaded.
    pub fn next_coord<S: TileStore>(&mut self, store: &mut S) -> Option<MbtResult<TileCoord>>
        ensures items { S.tells store.old ≡ true → GivesCoord (set_of self.old).tiles
            (left_of (S.told store.old) self.old) result (left_of (S.told store.old) self.new) }
        ensures own { IfSome result (λ item. IfOk item
            (λ c. contains_key (set_of self.old).tiles (place_at c) ≡ true)) }
        ensures set { set_of self.new ≡ set_of self.old }
        ensures fewer { IfSome result (λ _. left_at_most self.new < left_at_most self.old) }
        ensures err { IfSome result (λ item. OnErr item (left_at_most self.new ≡ 0)) }
        ensures end { result ≡ None → left_at_most self.new ≡ 0 }
        ensures causes { StreamCauses (S.faults store.old) (S.faults store.new) result }
        ensures kept { ReadsOnly S.told S.tells S.faults S.steady store.old store.new }
    {
        match self.next_index(store) {
            None => None,
            Some(Err(error)) => Some(Err(error)),
            Some(Ok(index)) => Some(Ok(coord_at(&self.set, index))),
        }
    }

    /// The next tile, its coordinate with its bytes or null, or an error, as `next_coord` answers it.
    pub fn next_tile<S: TileStore>(
        &mut self,
        store: &mut S,
    ) -> Option<MbtResult<(TileCoord, Option<BlobVal>)>>
        ensures items { S.tells store.old ≡ true → GivesTile (left_of (S.told store.old) self.old)
            result (left_of (S.told store.old) self.new) }
        ensures own { IfSome result (λ item. IfOk item
            (λ e. get (set_of self.old).tiles (place_at e.0) ≡ Some e.1)) }
        ensures set { set_of self.new ≡ set_of self.old }
        ensures fewer { IfSome result (λ _. left_at_most self.new < left_at_most self.old) }
        ensures err { IfSome result (λ item. OnErr item (left_at_most self.new ≡ 0)) }
        ensures end { result ≡ None → left_at_most self.new ≡ 0 }
        ensures causes { StreamCauses (S.faults store.old) (S.faults store.new) result }
        ensures kept { ReadsOnly S.told S.tells S.faults S.steady store.old store.new }
    {
        match self.next_index(store) {
            None => None,
            Some(Err(error)) => Some(Err(error)),
            Some(Ok(index)) => match tile_copy(self.alloc, &self.set, index) {
                Ok(tile) => Some(Ok(tile)),
                Err(error) => {
                    self.left = 0;
                    Some(Err(error.into()))
                }
            },
        }
    }
}
