// Bytes that are put at several coordinates, kept once.
ghost use Rattle.std.specs.Prelude.{◌≡◌, ◌++◌, OnErr, OnOk, length, map, take};
ghost use Rattle.mb_loaded.specs.Edits.{with_tiles};
ghost use Rattle.mb_loaded.specs.Sharing.{tile_with};
ghost use Rattle.mb_loaded.specs.Common.{place_at};

use crate::Editing;
use crate::adding::{dates_for, id_for, list_id};
use base_values::{BlobVal, OutOfMemory};
use mb_lists::{Content, Standing, StoredTile};
use mb_store::{Cell, MbtType};
use tile_ids::TileCoord;

// Adds a tile at each of these coordinates, with the contents at an index, in a cache without times. Refused, some of
// them stand behind those that there were.
fn push_tiles(
    tiles: &mut Vec<StoredTile>,
    layout: MbtType,
    coords: &[TileCoord],
    contents: usize,
) -> Result<(), OutOfMemory>
    ensures ok { OnOk result
        (tiles.new.items ≡ tiles.old.items ++ map (tile_with layout contents) coords.now) }
    ensures err { OnErr result (take (length tiles.old.items) tiles.new.items ≡ tiles.old.items) }
{
    let alloc = *tiles.allocator();
    tiles.reserve(coords.len())?;
    for coord in coords {
        tiles.push(StoredTile {
            coord: *coord,
            contents,
            dates: dates_for(alloc, layout)?,
            standing: Standing::Put,
        })?;
    }
    Ok(())
}

// Adds a tile at each of these coordinates, with the contents at an index, in a cache without times.
// Refused, all is as it was.
fn put_at_each(
    tiles: &mut Vec<StoredTile>,
    layout: MbtType,
    coords: &[TileCoord],
    contents: usize,
) -> Result<(), OutOfMemory>
    ensures ok { OnOk result
        (tiles.new.items ≡ tiles.old.items ++ map (tile_with layout contents) coords.now) }
    ensures err { OnErr result (tiles.new.items ≡ tiles.old.items) }
{
    let count = tiles.len();
    let done = push_tiles(tiles, layout, coords, contents);
    if done.is_err() {
        tiles.truncate(count);
    }
    done
}

impl Editing {
    /// Puts the same bytes at each of these coordinates, from the first to the last: in a normalised set under their
    /// digest by the set's algorithm, in a cache without times. However many coordinates there are, the bytes are
    /// kept once and digested once.
    pub fn set_tiles(&mut self, coords: &[TileCoord], bytes: BlobVal) -> Result<(), OutOfMemory>
        ensures ok { OnOk result
            (self.new ≡ with_tiles self.old (map place_at coords.now) bytes) }
        ensures err { OnErr result (self.new ≡ self.old) }
    {
        if coords.is_empty() {
            return Ok(());
        }
        let alloc = *self.contents.allocator();
        let id = id_for(alloc, self.layout, self.algorithm, bytes.as_bytes())?;
        self.order.reserve(1)?;
        self.contents.reserve(1)?;
        let contents = self.contents.len();
        put_at_each(&mut self.tiles, self.layout, coords, contents)?;
        list_id(&mut self.order, id.is_null(), contents);
        self.contents.push_reserved(Content {
            id,
            cell: Cell::Blob(bytes),
            standing: Standing::Put,
        });
        Ok(())
    }
}
