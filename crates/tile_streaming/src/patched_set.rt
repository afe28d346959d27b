// A set of which marks are held, and some of whose tiles are held whole.
ghost use Rattle.std.specs.Prelude.{◌≡◌, is_some, option_copied, option_map};
ghost use Rattle.mb_lists.specs.Entries.{blob_cell};
ghost use Rattle.mb_tables.specs.declared.cell.Cell.TheVariants.{Null};
ghost use Rattle.tile_streaming.specs.Common.{get};
ghost use Rattle.tile_streaming.specs.Finding.{place_with};
ghost use Rattle.tile_streaming.specs.PatchedSet.{bytes_in, held_bytes};

use crate::MarkedSet;
use crate::finding::{bytes_of, row_bytes};
use mb_loaded::Loaded;
use mb_store::{Cell, Row};
use tile_ids::{TileCoord, TileId};

/// A set of which marks are held. The contents of the tiles that patches put are held too, and the others stay in the
/// store of the base.
#[derive(Drop)]
pub(crate) struct PatchedSet {
    /// The marks of all tiles, with the layout of the base.
    pub marked: MarkedSet,
    /// The tiles that patches put.
    pub over: Loaded,
}

/// The contents of the tile whose place has an id, if a loaded set has one.
pub(crate) fn tile_under(set: &Loaded, id: TileId) -> Option<&Cell>
    ensures { option_copied result ≡ option_map blob_cell
        (get set.now.state.tiles (place_with id)) }
{
    set.tile(TileCoord::from(id))
}

impl PatchedSet {
    /// Whether the contents of a tile are held.
    pub(crate) fn holds(&self, id: TileId) -> bool
        ensures { result ≡ is_some (get self.now.over.state.tiles (place_with id)) }
    {
        tile_under(&self.over, id).is_some()
    }

    /// The bytes of a tile whose contents are held, none of another one.
    pub(crate) fn held_bytes(&self, id: TileId) -> &[u8]
        ensures { result.now ≡ held_bytes self.now.over.state.tiles id }
    {
        match tile_under(&self.over, id) {
            Some(cell) => bytes_of(cell),
            None => &[],
        }
    }

    /// The bytes of a tile: those in a row that was found, or where none is needed those that are held. `null` stands
    /// for a cell that is missing.
    pub(crate) fn bytes_in<'a>(
        &'a self,
        id: TileId,
        row: &'a Option<Row>,
        null: &'a Cell,
    ) -> &'a [u8]
        requires { null.now ≡ Null }
        ensures { result.now ≡ bytes_in self.now id row.now }
    {
        match row {
            Some(row) => row_bytes(self.marked.layout, row, null),
            None => self.held_bytes(id),
        }
    }
}
