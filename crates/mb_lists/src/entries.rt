// What a loaded set keeps of its rows.
ghost use Rattle.std.specs.Prelude.{◌≡◌};
ghost use Rattle.mb_lists.specs.Common.{cell_cmp, nat_cmp, place_cmp, slice_cmp};
ghost use Rattle.mb_lists.specs.Clearing.{tile_mark};
ghost use Rattle.mb_lists.specs.Entries.{id_at, is_content_gone, is_gone, is_name_gone, is_removed, name_of, place_at, place_of};
ghost use Rattle.mb_lists.specs.Keyed.{behind};

use crate::tile_dates::TileDates;
use base_values::TextVal;
use mb_tables::Cell;
use std::cmp::Ordering;
use tile_ids::{TileCoord, invert_y_value};

/// What became of an entry since the set was loaded.
#[derive(Clone, Copy, Debug, PartialEq, Eq)]
pub enum Standing {
    /// It is as it was loaded.
    Kept,
    /// It was put.
    Put,
    /// It was removed: only its key counts.
    Removed,
}

/// A tile: its coordinate, the index of its contents, and in a cache its times.
#[derive(Debug, Drop)]
pub struct StoredTile {
    pub coord: TileCoord,
    pub contents: usize,
    pub dates: TileDates,
    pub standing: Standing,
}

/// Contents: those of one id, or of one tile where the layout has no ids.
#[derive(Debug, Drop)]
pub struct Content {
    pub id: Cell,
    pub cell: Cell,
    pub standing: Standing,
}

/// A text or null under its name.
#[derive(Debug, Drop)]
pub struct StoredName {
    pub name: TextVal,
    pub value: Cell,
    pub standing: Standing,
}

/// The order of two coordinates by zoom, column and row counted from the bottom.
pub(crate) fn compare_places(a: TileCoord, b: TileCoord) -> Ordering
    ensures { result ≡ place_cmp (place_at a) (place_at b) }
{
    let (zoom, other_zoom) = (a.z(), b.z());
    let row = invert_y_value(zoom, a.y());
    let other_row = invert_y_value(other_zoom, b.y());
    zoom.cmp(&other_zoom)
        .then(a.x().cmp(&b.x()))
        .then(row.cmp(&other_row))
}

/// The order of the id of the contents at an index and another id.
pub(crate) fn compare_id(contents: &[Content], index: usize, id: &Cell) -> Ordering
    ensures { result ≡ cell_cmp (id_at contents.now index) id.now }
{
    match contents.get(index) {
        Some(content) => content.id.cmp(id),
        None => Cell::Null.cmp(id),
    }
}

/// The order of the ids of the contents at two indexes.
pub(crate) fn compare_ids(contents: &[Content], index: usize, other: usize) -> Ordering
    ensures { result ≡ cell_cmp (id_at contents.now index) (id_at contents.now other) }
{
    match contents.get(other) {
        Some(content) => compare_id(contents, index, &content.id),
        None => compare_id(contents, index, &Cell::Null),
    }
}

/// Whether the contents at an index are only a mark.
pub(crate) fn is_content_mark(contents: &[Content], index: usize) -> bool
    ensures { result ≡ is_content_gone contents.now index }
{
    match contents.get(index) {
        Some(content) => content.standing.is_removed(),
        None => false,
    }
}

/// The order of the contents at two indexes by their ids, marks behind the others.
pub(crate) fn compare_ids_settled(contents: &[Content], index: usize, other: usize) -> Ordering
    ensures { result ≡ behind cell_cmp (id_at contents.now) (is_content_gone contents.now) index
        other }
{
    let mark = is_content_mark(contents, index);
    let other_mark = is_content_mark(contents, other);
    mark.cmp(&other_mark)
        .then(compare_ids(contents, index, other))
}

impl Standing {
    // Whether only the key counts.
    fn is_removed(self) -> bool
        ensures { result ≡ is_removed self }
    {
        matches!(self, Standing::Removed)
    }
}

impl StoredTile {
    /// The mark of a removed tile.
    pub fn mark(coord: TileCoord) -> StoredTile
        ensures { result ≡ tile_mark coord }
    {
        StoredTile {
            coord,
            contents: 0,
            dates: TileDates::none(),
            standing: Standing::Removed,
        }
    }

    /// Whether it is only a mark.
    pub(crate) fn is_mark(&self) -> bool
        ensures { result ≡ is_gone self.now }
    {
        self.standing.is_removed()
    }

    /// The order of two tiles by their places, marks behind the others.
    pub(crate) fn compare_settled(&self, other: &StoredTile) -> Ordering
        ensures { result ≡ behind place_cmp place_of is_gone self.now other.now }
    {
        let (mark, other_mark) = (self.is_mark(), other.is_mark());
        mark.cmp(&other_mark)
            .then(compare_places(self.coord, other.coord))
    }
}

impl StoredName {
    /// Whether it is only a mark.
    pub(crate) fn is_mark(&self) -> bool
        ensures { result ≡ is_name_gone self.now }
    {
        self.standing.is_removed()
    }

    /// The order of two entries by their names, marks behind the others.
    pub(crate) fn compare_settled(&self, other: &StoredName) -> Ordering
        ensures { result ≡ behind (slice_cmp nat_cmp) name_of is_name_gone self.now other.now }
    {
        let (mark, other_mark) = (self.is_mark(), other.is_mark());
        mark.cmp(&other_mark).then(self.name.cmp(&other.name))
    }
}
