// What a cache keeps of each tile in memory: when it expires, and where it stands.
ghost use Rattle.std.specs.Prelude.{◌≡◌};
ghost use Rattle.mb_cache.specs.Entries.{entry_at, is_expired_entry, place_in};
ghost use Rattle.mb_cache.specs.Common.{place_at, tile_key};

use crate::UnixSeconds;
use mb_store::{Cell, RowKey};
use std::cmp::Ordering;
use tile_ids::{TileCoord, invert_y_value};

/// A tile of a cache, without its contents: 24 bytes. Entries are ordered by their expiries, those that never expire
/// last, and then by zoom, column and row from the bottom.
#[derive(Clone, Copy, Debug)]
pub(crate) struct Entry {
    // 0 where the tile expires, and 1 where it never does
    pub group: u8,
    // when it expires, in seconds since 1970; 0 where it never does
    pub expires: i64,
    pub zoom: u8,
    pub column: u32,
    // the row from the bottom
    pub row: u32,
}

impl PartialEq for Entry {
    ghost use Rattle.mb_cache.specs.Common.{eq_by_cmp, eq_by_cmp_equiv, partial_equiv_from_equiv};
    ghost use Rattle.mb_cache.specs.EntryOrder.{entry_cmp, entries_total};

    ghost eq = { eq_by_cmp entry_cmp };

    ghost laws = { partial_equiv_from_equiv (eq_by_cmp_equiv entries_total) };

    fn eq(&self, other: &Self) -> bool {
        self.cmp(other).is_eq()
    }
}

impl Eq for Entry {
    ghost use Rattle.mb_cache.specs.Common.{eq_by_cmp_equiv};
    ghost use Rattle.mb_cache.specs.EntryOrder.{entries_total};

    ghost laws = { eq_by_cmp_equiv entries_total };
}

impl PartialOrd for Entry {
    ghost use Rattle.std.specs.Prelude.{Some};
    ghost use Rattle.mb_cache.specs.Common.{partial_order_from_total};
    ghost use Rattle.mb_cache.specs.EntryOrder.{entry_cmp, entries_total};

    ghost partial_cmp = { λ x y. Some (entry_cmp x y) };

    ghost laws = { partial_order_from_total entries_total };

    fn partial_cmp(&self, other: &Self) -> Option<Ordering> {
        Some(self.cmp(other))
    }
}

impl Ord for Entry {
    ghost use Rattle.std.specs.Prelude.{refl};
    ghost use Rattle.mb_cache.specs.EntryOrder.{entry_cmp, entries_total};

    ghost cmp = { entry_cmp };

    ghost total = { entries_total };

    ghost matches_partial_cmp = { λ x y. refl };

    ghost matches_eq = { λ x y. refl };

    fn cmp(&self, other: &Self) -> Ordering {
        self.group
            .cmp(&other.group)
            .then(self.expires.cmp(&other.expires))
            .then(self.zoom.cmp(&other.zoom))
            .then(self.column.cmp(&other.column))
            .then(self.row.cmp(&other.row))
    }
}

impl Entry {
    /// The entry of a place whose expiry is in a cell.
    pub fn at(coord: TileCoord, expires: &Cell) -> Entry
        ensures { result ≡ entry_at (place_at coord) expires.now }
    {
        let zoom = coord.z();
        let column = coord.x();
        let row = invert_y_value(zoom, coord.y());
        match expires {
            Cell::Int(expires) => Entry {
                group: 0,
                expires: *expires,
                zoom,
                column,
                row,
            },
            _ => Entry {
                group: 1,
                expires: 0,
                zoom,
                column,
                row,
            },
        }
    }

    /// The key of its row.
    pub fn key(&self) -> RowKey
        ensures { result ≡ tile_key (place_in self.now) }
    {
        RowKey::Tile {
            zoom: self.zoom,
            column: self.column,
            row: self.row,
        }
    }

    /// Whether it expires before a moment.
    pub fn is_expired(&self, now: UnixSeconds) -> bool
        ensures { result ≡ is_expired_entry now self.now }
    {
        self.group == 0 && self.expires < now.0
    }
}
