// The ids that a layout gives the tiles of a set.
ghost use Rattle.std.specs.Prelude.{◌≡◌, ◌<◌, IfOk, Some, length, map, slice_get};
ghost use Rattle.mb_loaded.specs.GivenIds.{cell_id, content_id, ids_given};

use crate::Loaded;
use crate::adding::id_for;
use base_values::OutOfMemory;
use mb_lists::{Content, StoredTile};
use mb_store::{Cell, MbtType};
use std::alloc::Global;
use std::marker::Model;
use tile_hash::HashAlgorithm;

/// The ids that a layout gives the tiles of a set, in the order of their places: one id for each of the set's contents,
/// however many tiles have them. Null for null, and in layouts without ids.
#[derive(Drop)]
pub struct GivenIds {
    ids: Vec<Cell>,
    tiles: Vec<usize>,
}

impl Model for GivenIds {
    ghost use Rattle.std.specs.Prelude.{◌<◌, All, List, length};
    ghost use Rattle.mb_loaded.specs.Common.{Cell, cell_code, coded_list};
    ghost use Rattle.mb_loaded.specs.GivenIds.{ids_at};

    ghost Value = { List Cell };

    ghost coded = { coded_list cell_code };

    ghost view = { λ l. ids_at l.ids.items l.tiles.items };

    ghost invariant = { λ l. All (λ i. i < length l.ids.items) l.tiles.items };
}

impl GivenIds {
    /// The id of the tile at an index in the order of places, or null.
    pub fn at(&self, index: usize) -> &Cell
        requires { index < length self.now }
        ensures { slice_get self.now index ≡ Some result.now }
    {
        &self.ids[self.tiles[index]]
    }
}

// The id that a layout gives contents.
fn cell_id(
    alloc: Global,
    layout: MbtType,
    algorithm: HashAlgorithm,
    cell: &Cell,
) -> Result<Cell, OutOfMemory>
    ensures { IfOk result (λ id. id ≡ cell_id layout algorithm cell.now) }
{
    match cell {
        Cell::Blob(bytes) => id_for(alloc, layout, algorithm, bytes.as_bytes()),
        _ => Ok(Cell::Null),
    }
}

// The ids that a layout gives each of these contents.
fn content_ids(
    alloc: Global,
    layout: MbtType,
    algorithm: HashAlgorithm,
    contents: &[Content],
) -> Result<Vec<Cell>, OutOfMemory>
    ensures { IfOk result (λ ids. ids.items ≡ map (content_id layout algorithm) contents.now) }
{
    let mut ids = Vec::with_capacity(alloc, contents.len())?;
    for content in contents {
        ids.push(cell_id(alloc, layout, algorithm, &content.cell)?)?;
    }
    Ok(ids)
}

// The indexes of the contents of tiles.
fn content_indexes(alloc: Global, tiles: &[StoredTile]) -> Result<Vec<usize>, OutOfMemory>
    ensures { IfOk result (λ indexes. indexes.items ≡ map (λ t. t.contents) tiles.now) }
{
    let mut indexes = Vec::with_capacity(alloc, tiles.len())?;
    for tile in tiles {
        indexes.push(tile.contents)?;
    }
    Ok(indexes)
}

impl Loaded {
    /// The ids that a layout gives the tiles by an algorithm: in a normalised one the digests of their bytes. Each of
    /// the contents is digested once, however many tiles have them, and none for a layout without ids.
    pub fn ids_for(
        &self,
        alloc: Global,
        layout: MbtType,
        algorithm: HashAlgorithm,
    ) -> Result<GivenIds, OutOfMemory>
        ensures { IfOk result (λ ids. ids ≡ ids_given layout algorithm self.now.state.tiles) }
    {
        let ids = content_ids(alloc, layout, algorithm, &self.contents.items)?;
        let tiles = content_indexes(alloc, &self.tiles.items[..self.tiles.live])?;
        Ok(GivenIds { ids, tiles })
    }
}
