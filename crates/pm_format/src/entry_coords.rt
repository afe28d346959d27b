// The ids of an entry's run.
ghost use Rattle.std.specs.Prelude.{◌≡◌};

use crate::DirEntry;
use std::marker::Model;
use tile_ids::TileId;

/// The ids of an entry's run, in order. Contracts see it as the list of those that are left.
#[derive(Drop)]
pub struct DirEntryCoordsIter<'a> {
    entry: &'a DirEntry,
    taken: u32,
}

impl<'a> Model for DirEntryCoordsIter<'a> {
    ghost use Rattle.std.specs.Prelude.{◌+◌, ◌-◌, ◌≤◌, ℕ, List};
    ghost use Rattle.pm_format.specs.Common.{MAX_TILE_ID, range_with_len};

    ghost Value = { List ℕ };

    ghost view = { λ s. range_with_len (s.entry.now.tile_id + s.taken)
        (s.entry.now.run_length - s.taken) };

    ghost invariant = { λ s. (s.taken ≤ s.entry.now.run_length)
        × (s.entry.now.tile_id + s.entry.now.run_length ≤ MAX_TILE_ID + 1) };
}

impl<'a> DirEntryCoordsIter<'a> {
    ghost use Rattle.std.specs.Prelude.{◌+◌, ◌≤◌};
    ghost use Rattle.pm_format.specs.Common.{MAX_TILE_ID, range_with_len};

    // All ids of the run.
    pub(crate) fn new(entry: &'a DirEntry) -> DirEntryCoordsIter<'a>
        requires { entry.now.tile_id + entry.now.run_length ≤ MAX_TILE_ID + 1 }
        ensures { result ≡ range_with_len entry.now.tile_id entry.now.run_length }
    {
        DirEntryCoordsIter { entry, taken: 0 }
    }
}

impl<'a> Iterator for DirEntryCoordsIter<'a> {
    ghost use Rattle.std.specs.Iterator.{YieldsFirst, item_count};

    type Item = TileId;

    ghost next_gives = { YieldsFirst (λ s. s) };

    ghost remaining = { item_count (λ s. s) };

    fn next(&mut self) -> Option<TileId> {
        if self.taken == self.entry.run_length {
            return None;
        }
        let Ok(id) = TileId::new(self.entry.tile_id + u64::from(self.taken)) else {
            unreachable!();
        };
        self.taken += 1;
        Some(id)
    }
}
