// Tiles in the order of their places, with marks of removed ones behind.
ghost use Rattle.std.specs.Prelude.{◌≡◌, All, IfErr, IfNone, IfOk, IfSome, false, map, option_copied};
ghost use Rattle.mb_lists.specs.Common.{IsPermutation, place_cmp};
ghost use Rattle.mb_lists.specs.Entries.{AreInOrder, is_gone, place_at, place_of};
ghost use Rattle.mb_lists.specs.Keyed.{IsAt, IsGap, are_distinct, live_at};

use crate::entries::{StoredTile, compare_places};
use base_values::OutOfMemory;
use tile_ids::TileCoord;

/// Tiles in the order of their places, `live` of them, and behind them the marks.
#[derive(Debug, Drop)]
pub struct TileList {
    pub items: Vec<StoredTile>,
    pub live: usize,
}

impl TileList {
    ghost use Rattle.std.specs.Prelude.{◌≡◌, All, Contains, IfErr, IfNone, IfOk, IfSome, false, map, option_copied};
    ghost use Rattle.mb_lists.specs.Common.{IsPermutation, place_cmp};
    ghost use Rattle.mb_lists.specs.Entries.{AreInOrder, is_gone, newest_tiles, place_at, place_of};
    ghost use Rattle.mb_lists.specs.Keyed.{Apart, IsAt, IsGap, StandsAs, are_distinct, live_at};

    /// Tiles in the order of their places, and none where two have one place.
    pub fn in_order(mut items: Vec<StoredTile>) -> Option<TileList>
        requires { All (λ t. is_gone t ≡ false) items.items }
        ensures order { IfSome result (λ l. AreInOrder l.live l.items.items) }
        ensures same { IfSome result (λ l. IsPermutation items.items l.items.items) }
        ensures twice { IfNone result (are_distinct place_cmp (map place_of items.items) ≡ false) }
    {
        items.sort_unstable_by(|a, b| compare_places(a.coord, b.coord));
        if !items.is_sorted_by(|a, b| compare_places(a.coord, b.coord).is_lt()) {
            return None;
        }
        let live = items.len();
        Some(TileList { items, live })
    }

    /// Puts tiles of different places in their order, the marks behind them, and answers how many aren't marks.
    pub fn settle(items: &mut Vec<StoredTile>) -> usize
        requires { Apart place_cmp place_of items.old.items }
        ensures order { AreInOrder result items.new.items }
        ensures same { IsPermutation items.old.items items.new.items }
    {
        items.sort_unstable_by(|a, b| a.compare_settled(b));
        items.partition_point(|tile| !tile.is_mark())
    }

    /// The latest tile of each place, in order.
    pub fn newest(mut items: Vec<StoredTile>) -> Result<TileList, OutOfMemory>
        ensures order { IfOk result (λ l. AreInOrder l.live l.items.items) }
        ensures same { IfOk result
            (λ l. StandsAs place_cmp place_of (newest_tiles items.items) l.items.items) }
        ensures from { IfOk result (λ l. All (Contains items.items) l.items.items) }
    {
        items.reverse();
        items.sort_by(|a, b| compare_places(a.coord, b.coord))?;
        items.dedup_by(|a, b| compare_places(a.coord, b.coord).is_eq());
        let live = TileList::settle(&mut items);
        Ok(TileList { items, live })
    }

    /// Where the tile at a coordinate is, or where it would go.
    pub(crate) fn search(&self, coord: TileCoord) -> Result<usize, usize>
        requires { AreInOrder self.now.live self.now.items.items }
        ensures found { IfOk result
            (IsAt place_cmp place_of self.now.live self.now.items.items (place_at coord)) }
        ensures absent { IfErr result (IsGap place_cmp place_of self.now.live self.now.items.items
            (place_at coord)) }
    {
        self.items[..self.live].binary_search_by(|tile| compare_places(tile.coord, coord))
    }

    /// The tile at a coordinate.
    pub fn get(&self, coord: TileCoord) -> Option<&StoredTile>
        requires { AreInOrder self.now.live self.now.items.items }
        ensures { option_copied result ≡ live_at place_cmp place_of is_gone (place_at coord)
            self.now.items.items }
    {
        match self.search(coord) {
            Ok(at) => Some(&self.items[at]),
            Err(_) => None,
        }
    }
}
