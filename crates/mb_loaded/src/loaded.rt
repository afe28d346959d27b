// A loaded set.
ghost use Rattle.std.specs.Prelude.{◌≡◌, ◌<◌, IfSome, option_copied, option_map, slice_get};
ghost use Rattle.mb_loaded.specs.Common.{blob_cell, entries, get, len, place_at, text_at, text_cell};

use base_values::TextVal;
use mb_lists::{ContentList, NameList, TileDates, TileList, kept_cell, kept_id};
use mb_store::{Cell, MbtType, PatchType};
use std::marker::Model;
use tile_hash::HashAlgorithm;
use tile_ids::TileCoord;

/// A set of tiles as it was loaded: its tiles in the order of their places, its metadata in the order of the names'
/// bytes, and in a normalised set its contents by id.
#[derive(Drop)]
pub struct Loaded {
    pub(crate) layout: MbtType,
    pub(crate) algorithm: HashAlgorithm,
    pub(crate) patch_type: Option<PatchType>,
    pub(crate) contents: ContentList,
    pub(crate) tiles: TileList,
    pub(crate) names: NameList,
}

impl Model for Loaded {
    ghost use Rattle.std.specs.Prelude.{All};
    ghost use Rattle.mb_loaded.specs.Held.{Held};
    ghost use Rattle.mb_loaded.specs.HeldCode.{held_code};
    ghost use Rattle.mb_loaded.specs.Common.{AreContentsInOrder, AreInOrder, AreNamesInOrder, HasId, IsDated, IsName, IsTile};
    ghost use Rattle.mb_loaded.specs.HeldEntries.{held_of};

    ghost Value = { Held };

    ghost coded = { held_code };

    ghost view = { λ l. held_of l.layout l.algorithm l.patch_type
        l.contents.items.items l.contents.order.items l.tiles.items.items l.names.items.items };

    ghost invariant = { λ l. AreInOrder l.tiles.live l.tiles.items.items
        × All (IsTile l.contents.items.items) l.tiles.items.items
        × AreContentsInOrder l.contents.items.items l.contents.live l.contents.order.items
        × AreNamesInOrder l.names.live l.names.items.items
        × All IsName l.names.items.items
        × All (HasId l.contents.items.items) l.contents.order.items
        × All (IsDated l.layout) l.tiles.items.items };
}

// The three times, if there are any.
fn fields_of(dates: &TileDates) -> Option<(&Cell, &Cell, &Cell)>
    ensures { option_map
        (λ cells. record { fetched = cells.0.now; expires = cells.1.now; etag = cells.2.now })
        result ≡ dates.now }
{
    match dates.get() {
        Some(dates) => Some((&dates.fetched, &dates.expires, &dates.etag)),
        None => None,
    }
}

impl Loaded {
    /// The layout of the set.
    pub fn mbt_type(&self) -> MbtType
        ensures { result ≡ self.now.state.layout }
    {
        self.layout
    }

    /// The algorithm of its digests.
    pub fn algorithm(&self) -> HashAlgorithm
        ensures { result ≡ self.now.state.algorithm }
    {
        self.algorithm
    }

    /// The kind of the patches of tiles that its tables describe, if they do.
    pub fn patch_type(&self) -> Option<PatchType>
        ensures { result ≡ self.now.state.patch_type }
    {
        self.patch_type
    }

    /// The contents of a tile, bytes or null. None where there is no tile, as at zoom 31.
    pub fn tile(&self, coord: TileCoord) -> Option<&Cell>
        ensures { option_copied result ≡ option_map blob_cell
            (get self.now.state.tiles (place_at coord)) }
    {
        match self.tiles.get(coord) {
            Some(tile) => kept_cell(&self.contents.items, tile.contents),
            None => None,
        }
    }

    /// How many tiles there are, null ones included.
    pub fn tile_count(&self) -> usize
        ensures { result ≡ len self.now.state.tiles }
    {
        self.tiles.live
    }

    /// The tile at an index below `tile_count`, in the order of zoom, column and row counted from the
    /// bottom, with its bytes or null.
    pub fn tile_at(&self, index: usize) -> (TileCoord, &Cell)
        requires { index < len self.now.state.tiles }
        ensures { IfSome (slice_get (entries self.now.state.tiles) index)
            (λ e. (e.0 ≡ place_at result.0) × (blob_cell e.1 ≡ result.1.now)) }
    {
        let tile = &self.tiles.items[index];
        (tile.coord, &self.contents.items[tile.contents].cell)
    }

    /// The id of a tile of a normalised set. None where there is no tile, and in the other layouts.
    pub fn id_of(&self, coord: TileCoord) -> Option<&Cell>
        ensures { option_copied result ≡ get self.now.state.ids (place_at coord) }
    {
        match self.tiles.get(coord) {
            Some(tile) => kept_id(&self.contents.items, tile.contents),
            None => None,
        }
    }

    /// When the tile of a row of a cache was fetched, when it expires, and its version: numbers or null, and a text or
    /// null. None where there is no tile, and in the other layouts.
    pub fn cache_fields(&self, coord: TileCoord) -> Option<(&Cell, &Cell, &Cell)>
        ensures { option_map
            (λ cells. record { fetched = cells.0.now; expires = cells.1.now; etag = cells.2.now })
            result ≡ get self.now.state.dates (place_at coord) }
    {
        match self.tiles.get(coord) {
            Some(tile) => fields_of(&tile.dates),
            None => None,
        }
    }

    /// The contents of an id of a normalised set, whether a tile has it or not: a cell of any kind where none has it.
    /// None for an id without contents, and in the other layouts.
    pub fn content(&self, id: &Cell) -> Option<&Cell>
        ensures { option_copied result ≡ get self.now.state.contents id.now }
    {
        match self.contents.index_of(id) {
            Some(index) => kept_cell(&self.contents.items, index),
            None => None,
        }
    }

    /// The metadata of a name, a text or null. None where there is none.
    pub fn metadata(&self, name: &str) -> Option<&Cell>
        ensures { option_copied result ≡ option_map text_cell
            (get self.now.state.metadata name.now) }
    {
        match self.names.get(name) {
            Some(entry) => Some(&entry.value),
            None => None,
        }
    }

    /// The text of a name of metadata. None where there is none, or null.
    pub fn text(&self, name: &str) -> Option<&TextVal>
        ensures { option_copied result ≡ text_at self.now.state.metadata name.now }
    {
        match self.metadata(name) {
            Some(Cell::Text(text)) => Some(text),
            _ => None,
        }
    }

    /// How many names the metadata has.
    pub fn metadata_count(&self) -> usize
        ensures { result ≡ len self.now.state.metadata }
    {
        self.names.live
    }

    /// The name and value at an index below `metadata_count`, in the order of the names' bytes.
    pub fn metadata_at(&self, index: usize) -> (&str, &Cell)
        requires { index < len self.now.state.metadata }
        ensures { IfSome (slice_get (entries self.now.state.metadata) index)
            (λ e. (e.0 ≡ result.0.now) × (text_cell e.1 ≡ result.1.now)) }
    {
        let entry = &self.names.items[index];
        (entry.name.as_str(), &entry.value)
    }
}
