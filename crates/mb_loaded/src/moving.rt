// Tiles of another set that are put, each of its contents moved.
ghost use Rattle.std.specs.Prelude.{◌≡◌, ◌<◌, ◌+◌, All, IfOk, List, OnOk, false, length, map, set};
ghost use Rattle.mb_loaded.specs.Copying.{Adds, Edits, IsCopied, IsCopying, id_of, tile_copied, tiles_copied};
ghost use Rattle.mb_loaded.specs.FromLast.{tiles_put};
ghost use Rattle.mb_loaded.specs.GivenIds.{cell_id, ids_given};
ghost use Rattle.mb_loaded.specs.Moving.{AreLeft};
ghost use Rattle.mb_loaded.specs.Common.{Blob, Content, content_at, is_gone, IsTile};

use crate::adding::add_content;
use crate::copying::{Copying, no_copies, put_at, remove_at};
use crate::taking::take_content;
use crate::{Editing, GivenIds, Loaded};
use base_values::{BlobVal, OutOfMemory};
use mb_lists::{Content, ContentList, Standing, StoredTile, TileList};
use mb_store::Cell;

// Adds bytes under an id, and answers their index.
fn add_moved(copying: &mut Copying, bytes: BlobVal, id: &Cell) -> Result<usize, OutOfMemory>
    ensures { IfOk result (λ i. Adds i id.now bytes copying.old copying.new) }
{
    let alloc = *copying.contents.allocator();
    let content = Content {
        id: id.try_clone(alloc)?,
        cell: Cell::Blob(bytes),
        standing: Standing::Put,
    };
    let index = add_content(&mut copying.contents, content)?;
    Ok(index)
}

// Adds the bytes of the other set's contents at an index, and notes where they stand.
fn moved(
    copying: &mut Copying,
    index: usize,
    bytes: BlobVal,
    id: &Cell,
) -> Result<usize, OutOfMemory>
    requires { index < length copying.old.copies.items }
    ensures copied { (others : List Content) → IsCopying others copying.old
        → id.now ≡ cell_id copying.old.layout copying.old.algorithm (Blob bytes)
        → (content_at others index).cell ≡ Blob bytes
        → IfOk result (λ i. IsCopied others i bytes copying.old copying.new) }
    ensures noted { IfOk result
        (λ i. copying.new.copies.items ≡ set copying.old.copies.items index (i + 1)) }
{
    let copy = add_moved(copying, bytes, id)?;
    copying.copies[index] = copy + 1;
    Ok(copy)
}

// Moves one tile: bytes are put at its coordinate, and null clears it.
fn move_tile(
    copying: &mut Copying,
    others: &mut Vec<Content>,
    tile: &StoredTile,
    id: &Cell,
) -> Result<(), OutOfMemory>
    requires within { tile.now.contents < length copying.old.copies.items }
    requires each { length others.old.items ≡ length copying.old.copies.items }
    requires live { is_gone tile.now ≡ false }
    ensures { (first : List Content) → IsCopying first copying.old
        → AreLeft first others.old.items copying.old.copies.items → IsTile first tile.now
        → id.now ≡ id_of copying.old.layout copying.old.algorithm first tile.now
        → OnOk result (IsCopying first copying.new
        × AreLeft first others.new.items copying.new.copies.items
        × Edits (tile_copied first tile.now) copying.old copying.new) }
{
    let known = copying.copies[tile.contents];
    if known > 0 {
        return put_at(copying, tile.coord, known - 1, id.is_null());
    }
    let Content {
        id: _,
        cell,
        standing: _,
    } = take_content(others, tile.contents);
    match cell {
        Cell::Blob(bytes) => {
            let copy = moved(copying, tile.contents, bytes, id)?;
            put_at(copying, tile.coord, copy, id.is_null())
        }
        _ => remove_at(copying, tile.coord),
    }
}

// Moves tiles, from the last to the first.
fn move_tiles(
    copying: &mut Copying,
    others: &mut Vec<Content>,
    tiles: &[StoredTile],
    ids: &GivenIds,
) -> Result<(), OutOfMemory>
    requires copying { IsCopying others.old.items copying.old }
    requires left { AreLeft others.old.items others.old.items copying.old.copies.items }
    requires whole { All (IsTile others.old.items) tiles.now }
    requires live { All (λ t. is_gone t ≡ false) tiles.now }
    requires ids { ids.now ≡ map (id_of copying.old.layout copying.old.algorithm others.old.items)
        tiles.now }
    ensures edits { OnOk result (Edits (tiles_copied others.old.items tiles.now) copying.old
        copying.new) }
    ensures copying { OnOk result (IsCopying others.old.items copying.new) }
{
    let mut left = tiles.len();
    while left > 0 {
        left -= 1;
        move_tile(copying, others, &tiles[left], ids.at(left))?;
    }
    Ok(())
}

// Makes room for so many contents and tiles more, so that no list is held twice while it grows.
fn make_room(
    contents: &mut Vec<Content>,
    tiles: &mut Vec<StoredTile>,
    more_contents: usize,
    more_tiles: usize,
) -> Result<(), OutOfMemory>
    ensures contents { contents.new.items ≡ contents.old.items }
    ensures tiles { tiles.new.items ≡ tiles.old.items }
{
    contents.reserve(more_contents)?;
    tiles.reserve(more_tiles)?;
    Ok(())
}

impl Editing {
    /// Puts the tiles of another set, as `put_tiles` does, and lets that set go: each of its contents is moved, however
    /// many of its tiles have them.
    pub fn move_tiles(self, other: Loaded, ids: &GivenIds) -> Result<Editing, OutOfMemory>
        requires { ids.now ≡ ids_given self.state.layout self.state.algorithm other.state.tiles }
        ensures { IfOk result (λ set. set ≡ tiles_put self other.state.tiles) }
    {
        let Editing {
            layout,
            algorithm,
            patch_type,
            mut contents,
            order,
            mut tiles,
            names,
        } = self;
        let Loaded {
            layout: _,
            algorithm: _,
            patch_type: _,
            contents: given,
            tiles: moving,
            names: _,
        } = other;
        let ContentList {
            items: mut others,
            order: _,
            live: _,
        } = given;
        let TileList {
            items: moving,
            live,
        } = moving;
        let copies = no_copies(*contents.allocator(), others.len())?;
        make_room(&mut contents, &mut tiles, others.len(), live)?;
        let mut copying = Copying {
            layout,
            algorithm,
            contents,
            order,
            tiles,
            copies,
        };
        move_tiles(&mut copying, &mut others, &moving[..live], ids)?;
        let Copying {
            layout,
            algorithm,
            contents,
            order,
            tiles,
            copies: _,
        } = copying;
        Ok(Editing {
            layout,
            algorithm,
            patch_type,
            contents,
            order,
            tiles,
            names,
        })
    }
}
