// The walk along the directories that are met, each read once.
ghost use Rattle.std.specs.Prelude.{◌≡◌, ◌≢◌, ◌+◌, ◌≤◌, true, IfSome, IfOk, IfErr};
ghost use Rattle.pm_walk.specs.Common.{header_of, ReadsOnly};
ghost use Rattle.pm_walk.specs.Collected.{Collected};
ghost use Rattle.pm_walk.specs.Collecting.{MeetReads, StopCauses, WalkStands};
ghost use Rattle.pm_walk.specs.Intervals.{stays_within};
ghost use Rattle.pm_walk.specs.Steps.{MeetsEntry, WalksAll};
ghost use Rattle.pm_walk.specs.Taker.{Holds};
ghost use Rattle.pm_walk.specs.Walk.{below, end_before, entry_walk, fits_depth, rises, stands};

use crate::intervals::{is_below, meets, stays_within};
use crate::taker::Collecting;
use crate::taking::take;
use crate::{Extent, TakesEntries, WalkError};
use pm_format::{Backend, DirEntry, Directory, PmtError};
use pm_reader::ReaderState;

// Whether an entry's id is above that of the one before it.
fn rises(before: Option<DirEntry>, id: u64) -> bool
    ensures { result ≡ rises before id }
{
    match before {
        None => true,
        Some(before) => before.tile_id() < id,
    }
}

// Whether behind a leaf entry there may be a leaf.
fn fits_depth(left: u32, entry: DirEntry) -> bool
    ensures { result ≡ fits_depth left entry }
{
    if entry.is_leaf() { left != 0 } else { true }
}

// The tests of an entry.
fn stands(
    left: u32,
    before: Option<DirEntry>,
    low: u64,
    limit: Option<u64>,
    end: Option<u64>,
    entry: DirEntry,
) -> bool
    ensures { result ≡ stands left before low limit end entry }
{
    let id = entry.tile_id();
    if !rises(before, id) || id < low || !is_below(limit, id) {
        return false;
    }
    stays_within(end, id, entry.run_length()) && fits_depth(left, entry)
}

// Where the range of an entry ends: at the id of the first of those behind it, or where that of its directory does.
fn end_of(others: &[DirEntry], limit: Option<u64>) -> Option<u64>
    ensures { result ≡ end_before others.now limit }
{
    match others.first() {
        Some(next) => Some(next.tile_id()),
        None => limit,
    }
}

// An entry that passes its tests: the leaf that it leads to, still to be walked, or none where it is a
// tile or its leaf isn't met.
fn meet<B: Backend, T: TakesEntries>(
    extent: Extent,
    state: &ReaderState,
    intervals: &[(u64, u64)],
    collecting: &mut Collecting<T>,
    backend: &mut B,
    entry: DirEntry,
    end: Option<u64>,
    left: u32,
) -> Result<Option<Directory>, WalkError>
    requires fits { fits_depth left entry ≡ true }
    ensures meets { (c : Collected) → Holds T.holds collecting.old.taker collecting.old.room c
        → MeetsEntry T.holds extent (B.told backend.old) (header_of state.now) intervals.now left
        entry end c collecting.new.taker collecting.new.room result }
    ensures deep { IfOk result (λ leaf. IfSome leaf (λ _. left ≢ 0)) }
    ensures causes { IfErr result (StopCauses extent (B.faults backend.old)
        (B.faults backend.new)) }
    ensures still { WalkStands (B.faults backend.old) (B.faults backend.new) result }
    ensures kept { ReadsOnly B.told B.versions B.faults B.steady backend.old backend.new }
    ensures reads { IfSome (B.told backend.old)
        (λ b. MeetReads (entry_walk extent (below extent left
        (header_of state.now) b intervals.now) (header_of state.now) b intervals.now entry end)
        (B.reads backend.old) (B.reads backend.new) result) }
{
    if !entry.is_leaf() {
        return match take(extent, state, intervals, collecting, backend, entry) {
            Ok(()) => Ok(None),
            Err(error) => Err(error),
        };
    }
    if !meets(extent, intervals, entry.tile_id(), end) {
        return Ok(None);
    }
    match state.read_directory(backend, entry.offset(), entry.length()) {
        Ok(leaf) => Ok(Some(leaf)),
        Err(error) => Err(WalkError::Archive(error)),
    }
}

/// Walks a directory and the leaves below it that are met, at most so many deep: each entry is tested, a tile is
/// collected, and a leaf that is met is read and walked whole before the next entry.
pub(crate) fn walk<B: Backend, T: TakesEntries>(
    extent: Extent,
    state: &ReaderState,
    intervals: &[(u64, u64)],
    collecting: &mut Collecting<T>,
    backend: &mut B,
    low: u64,
    limit: Option<u64>,
    left: u32,
    directory: &Directory,
) -> Result<(), WalkError>
    ensures walks { (c : Collected) → Holds T.holds collecting.old.taker collecting.old.room c
        → WalksAll T.holds extent (B.told backend.old) (header_of state.now) intervals.now left low
        limit directory.now c collecting.new.taker collecting.new.room
        (B.reads backend.old) (B.reads backend.new) result }
    ensures causes { IfErr result (StopCauses extent (B.faults backend.old)
        (B.faults backend.new)) }
    ensures still { WalkStands (B.faults backend.old) (B.faults backend.new) result }
    ensures kept { ReadsOnly B.told B.versions B.faults B.steady backend.old backend.new }
{
    let mut before = None;
    let mut rest = directory.entries();
    while let Some((first, others)) = rest.split_first() {
        let entry = *first;
        let end = end_of(others, limit);
        if !stands(left, before, low, limit, end, entry) {
            return Err(WalkError::Archive(PmtError::InvalidEntry));
        }
        before = Some(entry);
        rest = others;
        match meet(
            extent, state, intervals, collecting, backend, entry, end, left,
        ) {
            Ok(None) => {}
            Ok(Some(leaf)) => {
                let id = entry.tile_id();
                if let Err(error) = walk(
                    extent,
                    state,
                    intervals,
                    collecting,
                    backend,
                    id,
                    end,
                    left - 1,
                    &leaf,
                ) {
                    return Err(error);
                }
            }
            Err(error) => return Err(error),
        }
    }
    Ok(())
}
