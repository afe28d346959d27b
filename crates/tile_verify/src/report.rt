// What a sound archive has.
ghost use Rattle.std.specs.Prelude.{◌≡◌, length, map};
ghost use Rattle.std.specs.List.{dedup};
ghost use Rattle.tile_verify.specs.Tiles.{addressed_by, range_of_part, report_by, same_range};

use crate::walk::Met;

/// What a sound archive has. A count past `u64::MAX` is `u64::MAX`.
#[derive(Clone, Copy, Debug, PartialEq, Eq)]
pub struct VerifyReport {
    /// How many leaf entries there are in all directories.
    pub directories: u64,
    /// How many ids have a tile: the sum of the runs.
    pub addressed: u64,
    /// How many tile entries there are.
    pub entries: u64,
    /// How many different ranges the tile entries have, by offset and length, empty ones included.
    pub contents: u64,
}

impl Met {
    /// The report of all that was met.
    pub fn report(self) -> VerifyReport
        ensures { result ≡ report_by self.directories self.tiles.items }
    {
        let Met {
            directories,
            mut tiles,
            ids: _,
        } = self;
        let addressed = addressed(&tiles);
        let entries = tiles.len() as u64;
        tiles.sort_unstable_by_key(|tile| (tile.0, tile.1));
        VerifyReport {
            directories,
            addressed,
            entries,
            contents: count_changes(&tiles),
        }
    }
}

// The sum of the runs.
fn addressed(tiles: &[(u64, u32, u32)]) -> u64
    ensures { result ≡ addressed_by tiles.now }
{
    let mut sum: u64 = 0;
    let mut rest = tiles;
    while let Some((tile, others)) = rest.split_first() {
        sum = sum.saturating_add(u64::from(tile.2));
        rest = others;
    }
    sum
}

// How often the range changes from one part to the next, the first one counted: in the order of ranges, how many
// different ones there are.
fn count_changes(parts: &[(u64, u32, u32)]) -> u64
    ensures { result ≡ length (dedup same_range (map range_of_part parts.now)) }
{
    let Some((first, others)) = parts.split_first() else {
        return 0;
    };
    let mut count = 1;
    let mut last = (first.0, first.1);
    let mut rest = others;
    while let Some((part, others)) = rest.split_first() {
        let range = (part.0, part.1);
        if range != last {
            count += 1;
        }
        last = range;
        rest = others;
    }
    count
}
