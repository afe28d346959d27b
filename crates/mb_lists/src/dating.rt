// Tiles that get other times.
ghost use Rattle.std.specs.Prelude.{◌≡◌, ◌<◌, ◌++◌, OnErr, OnOk, length, option_map, set, slice_index_or};
ghost use Rattle.mb_lists.specs.Dating.{Redates, dated_last, last_at, redated};
ghost use Rattle.mb_lists.specs.Entries.{AreInOrder, is_gone, place_at, place_of};
ghost use Rattle.mb_lists.specs.Keyed.{live_at};
ghost use Rattle.mb_lists.specs.declared.entries.StoredTile.{StoredTile};
ghost use Rattle.mb_lists.specs.Common.{place_cmp};

use crate::dates::Dates;
use crate::entries::{Standing, StoredTile, compare_places};
use crate::tile_dates::TileDates;
use crate::tile_list::TileList;
use base_values::OutOfMemory;
use tile_ids::TileCoord;

// Gives a tile other times, if it has any, and counts it as put.
fn redate(tile: &mut StoredTile, dates: Dates)
    ensures { tile.new ≡ redated dates tile.old }
{
    tile.dates.put(dates);
    tile.standing = Standing::Put;
}

// The same of the tile at an index.
fn redate_at(items: &mut Vec<StoredTile>, at: usize, dates: Dates)
    requires { at < length items.old.items }
    ensures { (d : StoredTile)
        → items.new.items ≡ set items.old.items at
        (redated dates (slice_index_or items.old.items at d)) }
{
    redate(&mut items[at], dates);
}

// The index of the contents of the last of these tiles that is at a coordinate, a mark included.
fn last_contents(tiles: &[StoredTile], coord: TileCoord) -> Option<usize>
    ensures { result ≡ option_map (λ t. t.contents) (last_at (place_at coord) tiles.now) }
{
    let mut left = tiles.len();
    while left > 0 {
        left -= 1;
        let tile = &tiles[left];
        if compare_places(coord, tile.coord).is_eq() {
            return Some(tile.contents);
        }
    }
    None
}

/// Adds a tile at a coordinate with the contents of the last one there, and with these times; none where no tile is
/// there. It looks back from the last tile on.
pub fn push_dated(
    tiles: &mut Vec<StoredTile>,
    coord: TileCoord,
    dates: TileDates,
) -> Result<(), OutOfMemory>
    ensures ok { OnOk result (tiles.new.items ≡ tiles.old.items ++ dated_last coord dates
        tiles.old.items) }
    ensures err { OnErr result (tiles.new.items ≡ tiles.old.items) }
{
    match last_contents(tiles, coord) {
        Some(contents) => {
            tiles.push(StoredTile {
                coord,
                contents,
                dates,
                standing: Standing::Put,
            })?;
            Ok(())
        }
        None => Ok(()),
    }
}

impl TileList {
    /// Gives the tile at a coordinate other times in the place of its own, if it has any, and counts it as
    /// put. It takes no memory.
    pub fn redate(&mut self, coord: TileCoord, dates: Dates)
        requires { AreInOrder self.old.live self.old.items.items }
        ensures order { AreInOrder self.new.live self.new.items.items }
        ensures dated { Redates dates
            (live_at place_cmp place_of is_gone (place_at coord) self.old.items.items)
            self.old.items.items self.new.items.items }
    {
        if let Ok(at) = self.search(coord) {
            redate_at(&mut self.items, at, dates);
        }
    }
}
