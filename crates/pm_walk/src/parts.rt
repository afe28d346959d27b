// The parts of tile entries that lie in intervals.
ghost use Rattle.std.specs.Prelude.{◌≡◌, ◌≢◌, ◌+◌, ◌≤◌, [], ◌∷◌, MatchOption, OnOk};
ghost use Rattle.pm_walk.specs.Common.{MAX_TILE_ID};
ghost use Rattle.pm_walk.specs.Collected.{Collected};
ghost use Rattle.pm_walk.specs.Parts.{clip};
ghost use Rattle.pm_walk.specs.Steps.{AddsParts};
ghost use Rattle.pm_walk.specs.Taker.{Holds};

use crate::TakesEntries;
use crate::taker::Collecting;
use base_values::OutOfMemory;
use bytes::Bytes;
use pm_format::DirEntry;

// The part of a run that lies in an interval.
fn clip(entry: DirEntry, interval: (u64, u64)) -> Option<DirEntry>
    requires run { entry.run_length ≢ 0 }
    requires within { entry.tile_id + entry.run_length ≤ MAX_TILE_ID + 1 }
    ensures { MatchOption result (clip entry interval ≡ [])
        (λ part. clip entry interval ≡ part ∷ []) }
{
    let first = entry.tile_id().max(interval.0);
    let last = (entry.tile_id() + u64::from(entry.run_length() - 1)).min(interval.1);
    if last < first {
        return None;
    }
    let count = last - first + 1;
    Some(DirEntry::new(first, entry.offset(), entry.length(), count as u32))
}

/// Collects the parts of a tile entry, whose run is one of tiles. An entry without a byte has none.
pub(crate) fn add_entry<T: TakesEntries>(
    collecting: &mut Collecting<T>,
    intervals: &[(u64, u64)],
    entry: DirEntry,
) -> Result<(), OutOfMemory>
    requires run { entry.run_length ≢ 0 }
    requires within { entry.tile_id + entry.run_length ≤ MAX_TILE_ID + 1 }
    ensures { (c : Collected) → Holds T.holds collecting.old.taker collecting.old.room c
        → OnOk result (AddsParts T.holds intervals.now entry c
        collecting.new.taker collecting.new.room) }
{
    if entry.length() == 0 {
        return Ok(());
    }
    let mut rest = intervals;
    while let Some((interval, others)) = rest.split_first() {
        if let Some(part) = clip(entry, *interval) {
            collecting.add_part(part, Bytes::new())?;
        }
        rest = others;
    }
    Ok(())
}
