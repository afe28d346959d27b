// A tile entry that is met: tested, and collected.
ghost use Rattle.std.specs.Prelude.{◌≡◌, ◌≢◌, ◌+◌, ◌≤◌, ℕ, List, Option, [], IfSome, IfOk, IfErr};
ghost use Rattle.pm_walk.specs.Common.{Header, header_of, ReadsOnly};
ghost use Rattle.pm_walk.specs.Collected.{Collected};
ghost use Rattle.pm_walk.specs.Collecting.{StopCauses, WalkStands};
ghost use Rattle.pm_walk.specs.Steps.{TakesTile};
ghost use Rattle.pm_walk.specs.Taker.{Holds};
ghost use Rattle.pm_walk.specs.Taking.{IsTaken, Takes, behind_range};
ghost use Rattle.pm_walk.specs.Walk.{tile_reads};

use crate::parts::add_entry;
use crate::taker::{Collecting, room_behind};
use crate::testing::{run_refusal, test_range};
use crate::{Extent, TakesEntries, WalkError};
use bytes::Bytes;
use pm_format::{Backend, DirEntry, PmtError};
use pm_reader::ReaderState;

// Why a tile entry of the whole isn't collected, if it isn't, but for its range.
fn refusal_behind(room: Option<u64>, entry: DirEntry) -> Option<WalkError>
    requires run { entry.run_length ≢ 0 }
    ensures answer { result ≡ behind_range room entry }
    ensures causes { (before now : ℕ) → IfSome result (StopCauses Extent.Whole before now) }
{
    if let Some(error) = run_refusal(entry) {
        return Some(error);
    }
    if entry.length() == 0 || room_behind(room, entry.run_length()).is_some() {
        return None;
    }
    Some(WalkError::TooManyTiles)
}

// The contents of a tile entry of the whole that passes its tests, or none where it is empty. They are read in the
// place of the test of its range; where there are none, or where another test fails, no bytes are read at its end.
fn read_whole<B: Backend>(
    state: &ReaderState,
    backend: &mut B,
    room: Option<u64>,
    entry: DirEntry,
) -> Result<Option<Bytes>, WalkError>
    requires run { entry.run_length ≢ 0 }
    ensures answer { IfSome (B.told backend.old)
        (λ b. Takes room (header_of state.now) b entry result) }
    ensures taken { IfOk result (IsTaken room entry) }
    ensures causes { IfErr result (StopCauses Extent.Whole (B.faults backend.old)
        (B.faults backend.new)) }
    ensures still { WalkStands (B.faults backend.old) (B.faults backend.new) result }
    ensures kept { ReadsOnly B.told B.versions B.faults B.steady backend.old backend.new }
    ensures reads { B.reads backend.new ≤ B.reads backend.old + 1 }
{
    let refusal = refusal_behind(room, entry);
    if refusal.is_none() && entry.length() != 0 {
        return match state.read_contents(backend, entry.offset(), entry.length()) {
            Ok(contents) => Ok(Some(contents)),
            Err(error) => Err(WalkError::Archive(error)),
        };
    }
    if let Err(error) = test_range(state, backend, entry) {
        return Err(WalkError::Archive(error));
    }
    match refusal {
        None => Ok(None),
        Some(error) => Err(error),
    }
}

// A tile entry where the whole is walked.
fn take_whole<B: Backend, T: TakesEntries>(
    state: &ReaderState,
    collecting: &mut Collecting<T>,
    backend: &mut B,
    entry: DirEntry,
) -> Result<(), WalkError>
    requires run { entry.run_length ≢ 0 }
    ensures takes { (c : Collected) → Holds T.holds collecting.old.taker collecting.old.room c
        → TakesTile T.holds Extent.Whole (B.told backend.old) (header_of state.now) [] entry c
        collecting.new.taker collecting.new.room result }
    ensures causes { IfErr result (StopCauses Extent.Whole (B.faults backend.old)
        (B.faults backend.new)) }
    ensures still { WalkStands (B.faults backend.old) (B.faults backend.new) result }
    ensures kept { ReadsOnly B.told B.versions B.faults B.steady backend.old backend.new }
    ensures reads { B.reads backend.new ≤ B.reads backend.old + 1 }
{
    match read_whole(state, backend, collecting.room, entry) {
        Ok(Some(contents)) => match collecting.add_part(entry, contents) {
            Ok(()) => Ok(()),
            Err(_) => Err(WalkError::Archive(PmtError::OutOfMemory)),
        },
        Ok(None) => Ok(()),
        Err(error) => Err(error),
    }
}

// A tile entry where a part is walked.
fn take_parts<T: TakesEntries>(
    intervals: &[(u64, u64)],
    collecting: &mut Collecting<T>,
    entry: DirEntry,
) -> Result<(), WalkError>
    requires run { entry.run_length ≢ 0 }
    ensures takes { (told : Option (List ℕ)) (h : Header) (c : Collected)
        → Holds T.holds collecting.old.taker collecting.old.room c
        → TakesTile T.holds Extent.Within told h intervals.now entry c
        collecting.new.taker collecting.new.room result }
    ensures causes { (before now : ℕ) → IfErr result (StopCauses Extent.Within before now) }
{
    if !entry.run_in_range() {
        return Err(WalkError::Archive(PmtError::InvalidEntry));
    }
    match add_entry(collecting, intervals, entry) {
        Ok(()) => Ok(()),
        Err(_) => Err(WalkError::Archive(PmtError::OutOfMemory)),
    }
}

/// A tile entry, tested and collected: where a part is walked, the parts of a run of tiles; where the whole is walked,
/// the entry with its contents.
pub(crate) fn take<B: Backend, T: TakesEntries>(
    extent: Extent,
    state: &ReaderState,
    intervals: &[(u64, u64)],
    collecting: &mut Collecting<T>,
    backend: &mut B,
    entry: DirEntry,
) -> Result<(), WalkError>
    requires run { entry.run_length ≢ 0 }
    ensures takes { (c : Collected) → Holds T.holds collecting.old.taker collecting.old.room c
        → TakesTile T.holds extent (B.told backend.old) (header_of state.now) intervals.now entry c
        collecting.new.taker collecting.new.room result }
    ensures causes { IfErr result (StopCauses extent (B.faults backend.old)
        (B.faults backend.new)) }
    ensures still { WalkStands (B.faults backend.old) (B.faults backend.new) result }
    ensures kept { ReadsOnly B.told B.versions B.faults B.steady backend.old backend.new }
    ensures reads { B.reads backend.new ≤ B.reads backend.old + tile_reads extent }
{
    match extent {
        Extent::Within => take_parts(intervals, collecting, entry),
        Extent::Whole => take_whole(state, collecting, backend, entry),
    }
}
