// Tiles of another set that are put, each of its contents copied once.
ghost use Rattle.std.specs.Prelude.{◌≡◌, ◌<◌, All, IfOk, List, OnOk, false, length, map, replicate};
ghost use Rattle.mb_loaded.specs.Copying.{Adds, Edits, IsCopied, IsCopying, Puts, Removes, id_of, tile_copied, tiles_copied};
ghost use Rattle.mb_loaded.specs.FromLast.{tiles_put};
ghost use Rattle.mb_loaded.specs.GivenIds.{cell_id, ids_given};
ghost use Rattle.mb_loaded.specs.Common.{Blob, Content, content_at, is_gone, is_null, IsTile};

use crate::adding::{add_content, dates_for, list_id};
use crate::{Editing, GivenIds, Loaded};
use base_values::{BlobVal, OutOfMemory};
use mb_lists::{Content, Standing, StoredTile};
use mb_store::{Cell, MbtType};
use std::alloc::{AllocError, Global};
use tile_hash::HashAlgorithm;
use tile_ids::TileCoord;

/// The lists of an opened set to which tiles of another come. For each of the other set's contents there is one more
/// than the index of their copy, and 0 while there is none.
#[derive(Drop)]
pub(crate) struct Copying {
    pub layout: MbtType,
    pub algorithm: HashAlgorithm,
    pub contents: Vec<Content>,
    pub order: Vec<usize>,
    pub tiles: Vec<StoredTile>,
    pub copies: Vec<usize>,
}

// Adds a copy of bytes under an id, and answers its index.
fn add_copy(copying: &mut Copying, bytes: &BlobVal, id: &Cell) -> Result<usize, OutOfMemory>
    ensures { IfOk result (λ i. Adds i id.now bytes.now copying.old copying.new) }
{
    let alloc = *copying.contents.allocator();
    let content = Content {
        id: id.try_clone(alloc)?,
        cell: Cell::Blob(bytes.try_clone(alloc)?),
        standing: Standing::Put,
    };
    let index = add_content(&mut copying.contents, content)?;
    Ok(index)
}

// The index of the copy of the other set's contents at an index, which is made where there is none yet.
fn copied(
    copying: &mut Copying,
    index: usize,
    bytes: &BlobVal,
    id: &Cell,
) -> Result<usize, OutOfMemory>
    requires within { index < length copying.old.copies.items }
    requires id { id.now ≡ cell_id copying.old.layout copying.old.algorithm (Blob bytes.now) }
    ensures { (others : List Content) → IsCopying others copying.old
        → (content_at others index).cell ≡ Blob bytes.now → IfOk result
        (λ i. IsCopied others i bytes.now copying.old copying.new) }
{
    let known = copying.copies[index];
    if known > 0 {
        return Ok(known - 1);
    }
    let copy = add_copy(copying, bytes, id)?;
    copying.copies[index] = copy + 1;
    Ok(copy)
}

/// Puts the contents at an index at a coordinate, in a cache without times, and lists them unless their id is null.
pub(crate) fn put_at(
    copying: &mut Copying,
    coord: TileCoord,
    index: usize,
    is_null: bool,
) -> Result<(), OutOfMemory>
    ensures { OnOk result (Puts coord index is_null copying.old copying.new) }
{
    let alloc = *copying.contents.allocator();
    let dates = dates_for(alloc, copying.layout)?;
    copying.order.reserve(1)?;
    list_id(&mut copying.order, is_null, index);
    copying.tiles.push(StoredTile {
        coord,
        contents: index,
        dates,
        standing: Standing::Put,
    })?;
    Ok(())
}

/// Removes the tile at a coordinate.
pub(crate) fn remove_at(copying: &mut Copying, coord: TileCoord) -> Result<(), OutOfMemory>
    ensures { OnOk result (Removes coord copying.old copying.new) }
{
    copying.tiles.push(StoredTile::mark(coord))?;
    Ok(())
}

// Copies one tile: bytes are put at its coordinate, and null clears it.
fn copy_tile(
    copying: &mut Copying,
    others: &[Content],
    tile: &StoredTile,
    id: &Cell,
) -> Result<(), OutOfMemory>
    requires copying { IsCopying others.now copying.old }
    requires whole { IsTile others.now tile.now }
    requires live { is_gone tile.now ≡ false }
    requires id { id.now ≡ id_of copying.old.layout copying.old.algorithm others.now tile.now }
    ensures copying { OnOk result (IsCopying others.now copying.new) }
    ensures edits { OnOk result (Edits (tile_copied others.now tile.now) copying.old copying.new) }
{
    match &others[tile.contents].cell {
        Cell::Blob(bytes) => {
            let copy = copied(copying, tile.contents, bytes, id)?;
            put_at(copying, tile.coord, copy, id.is_null())?;
            Ok(())
        }
        _ => {
            remove_at(copying, tile.coord)?;
            Ok(())
        }
    }
}

// Copies tiles, from the last to the first.
fn copy_tiles(
    copying: &mut Copying,
    others: &[Content],
    tiles: &[StoredTile],
    ids: &GivenIds,
) -> Result<(), OutOfMemory>
    requires copying { IsCopying others.now copying.old }
    requires whole { All (IsTile others.now) tiles.now }
    requires live { All (λ t. is_gone t ≡ false) tiles.now }
    requires ids { ids.now ≡ map (id_of copying.old.layout copying.old.algorithm others.now)
        tiles.now }
    ensures copying { OnOk result (IsCopying others.now copying.new) }
    ensures edits { OnOk result
        (Edits (tiles_copied others.now tiles.now) copying.old copying.new) }
{
    let mut left = tiles.len();
    while left > 0 {
        left -= 1;
        copy_tile(copying, others, &tiles[left], ids.at(left))?;
    }
    Ok(())
}

/// So many contents without a copy.
pub(crate) fn no_copies(alloc: Global, count: usize) -> Result<Vec<usize>, AllocError>
    ensures { IfOk result (λ copies. copies.items ≡ replicate count 0) }
{
    vec![in alloc; 0; count]
}

impl Editing {
    /// Puts the tiles of another set, from the last to the first: bytes at their coordinate, under the ids that the
    /// set's layout gives them, and null clears it. Each of the other set's contents is copied once, however many of
    /// its tiles have them, and none is digested.
    pub fn put_tiles(self, other: &Loaded, ids: &GivenIds) -> Result<Editing, OutOfMemory>
        requires { ids.now ≡ ids_given self.state.layout self.state.algorithm
            other.now.state.tiles }
        ensures { IfOk result (λ set. set ≡ tiles_put self other.now.state.tiles) }
    {
        let Editing {
            layout,
            algorithm,
            patch_type,
            contents,
            order,
            tiles,
            names,
        } = self;
        let copies = no_copies(*contents.allocator(), other.contents.items.len())?;
        let mut copying = Copying {
            layout,
            algorithm,
            contents,
            order,
            tiles,
            copies,
        };
        let live = &other.tiles.items[..other.tiles.live];
        copy_tiles(&mut copying, &other.contents.items, live, ids)?;
        let Copying {
            layout,
            algorithm,
            contents,
            order,
            tiles,
            copies: _,
        } = copying;
        Ok(Editing {
            layout,
            algorithm,
            patch_type,
            contents,
            order,
            tiles,
            names,
        })
    }
}
