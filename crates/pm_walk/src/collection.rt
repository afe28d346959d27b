// The tile entries of an archive that opens.
ghost use Rattle.std.specs.Prelude.{◌≡◌, ◌≤◌, ◌+◌, true, [], None, Ok, Err, IfSome, IfOk, IfErr, is_some};
ghost use Rattle.pm_walk.specs.Common.{header_of, ReadsOnly, root_of};
ghost use Rattle.pm_walk.specs.Collecting.{AllLieIn, AreOrdered, StopCauses, WalkStands};
ghost use Rattle.pm_walk.specs.Gathered.{HoldsGiven, IsGathered};
ghost use Rattle.pm_walk.specs.Gathering.{Gathers};
ghost use Rattle.pm_walk.specs.Intervals.{AreApart};
ghost use Rattle.pm_walk.specs.Parts.{tile_count};
ghost use Rattle.pm_walk.specs.Walk.{all_walked, walked};

use crate::taker::Collecting;
use crate::walk::walk;
use crate::{Extent, TakesEntries, WalkError};
use base_values::OutOfMemory;
use bytes::Bytes;
use pm_format::{Backend, DirEntry};
use pm_reader::{MAX_LEAVES, ReaderState};
use std::alloc::Global;

// What has taken all parts, where there was room for all of them.
fn all_of<T: Drop>(collecting: Collecting<T>) -> Result<T, WalkError>
    ensures ok { IfOk result (λ taker. (taker ≡ collecting.taker)
        × (is_some collecting.room ≡ true)) }
    ensures err { IfErr result (λ e. (e ≡ WalkError.TooManyTiles) × (collecting.room ≡ None)) }
{
    let Collecting { taker, room } = collecting;
    if room.is_none() {
        return Err(WalkError::TooManyTiles);
    }
    Ok(taker)
}

// Gives what a walk from the root collects.
fn gather<B: Backend, T: TakesEntries + Drop>(
    extent: Extent,
    state: &ReaderState,
    backend: &mut B,
    intervals: &[(u64, u64)],
    taker: T,
    max_tiles: u64,
) -> Result<T, WalkError>
    requires begun { T.holds taker [] [] }
    ensures gathered { IfOk result (IsGathered T.holds extent (B.told backend.old)
        (header_of state.now) (root_of state.now) intervals.now max_tiles) }
    ensures refused { IfSome (B.told backend.old) (λ b. IfErr result (λ x.
        Gathers extent (walked extent 6 (header_of state.now) b intervals.now 0 None
        (root_of state.now)) intervals.now max_tiles (Err x))) }
    ensures causes { IfErr result (StopCauses extent (B.faults backend.old)
        (B.faults backend.new)) }
    ensures still { WalkStands (B.faults backend.old) (B.faults backend.new) result }
    ensures kept { ReadsOnly B.told B.versions B.faults B.steady backend.old backend.new }
    ensures reads { IfSome (B.told backend.old) (λ b. B.reads backend.new
        ≤ B.reads backend.old + (walked extent 6 (header_of state.now) b intervals.now 0 None
        (root_of state.now)).reads) }
{
    let mut collecting = Collecting {
        taker,
        room: Some(max_tiles),
    };
    let root = state.root();
    match walk(
        extent,
        state,
        intervals,
        &mut collecting,
        backend,
        0,
        None,
        MAX_LEAVES,
        root,
    ) {
        Ok(()) => {}
        Err(error) => return Err(error),
    }
    match all_of(collecting) {
        Ok(taker) => Ok(taker),
        Err(error) => Err(error),
    }
}

// The parts of a walk, as a list.
#[derive(Drop)]
struct PartList {
    parts: Vec<DirEntry>,
}

impl TakesEntries for PartList {
    ghost use Rattle.std.specs.Prelude.{◌≡◌};

    ghost holds = { λ t es cs. t.parts.items ≡ es };

    fn take_entry(&mut self, entry: DirEntry, contents: Bytes) -> Result<(), OutOfMemory> {
        let _ = contents;
        self.parts.push(entry)?;
        Ok(())
    }
}

// No part yet.
fn no_parts(alloc: Global) -> PartList
    ensures { result.parts.items ≡ [] }
{
    PartList {
        parts: Vec::new(alloc),
    }
}

/// The parts of the tile entries of an archive that opened that lie in intervals, in order of their ids: offsets count
/// from the data part, lengths are bytes. Entries without a byte are left out.
///
/// The intervals are given by their first and last ids, in order and apart; leaves that can't have one of these ids
/// aren't read. The directories are walked in order, and each leaf is read once, and walked whole, where its entry
/// stands. The first failing test at the first failing entry is answered. These are: `InvalidEntry` where an entry's id
/// isn't above that before it, lies outside its directory's range, or its run passes the end of its own range, and for
/// a leaf behind six others; `PastEnd` where a leaf passes the end; `InvalidEntry` for a leaf that doesn't decode, and
/// for a tile entry whose run passes the ids of tiles. `TooManyTiles` comes where no other refusal does.
/// `Archive(Reading(Fault))` comes only where the count of faults rose.
pub fn collect<B: Backend>(
    alloc: Global,
    state: &ReaderState,
    backend: &mut B,
    intervals: &[(u64, u64)],
    max_tiles: u64,
) -> Result<Vec<DirEntry>, WalkError>
    ensures gathered { IfSome (B.told backend.old) (λ b. IfOk result (λ parts.
        Gathers Extent.Within (walked Extent.Within 6 (header_of state.now) b intervals.now 0 None
        (root_of state.now)) intervals.now max_tiles (Ok parts.items))) }
    ensures refused { IfSome (B.told backend.old) (λ b. IfErr result (λ x.
        Gathers Extent.Within (walked Extent.Within 6 (header_of state.now) b intervals.now 0 None
        (root_of state.now)) intervals.now max_tiles (Err x))) }
    ensures ordered { AreApart 0 intervals.now
        → IfOk result (λ parts. AreOrdered 0 parts.items None) }
    ensures few { IfOk result (λ parts. tile_count parts.items ≤ max_tiles) }
    ensures within { IfOk result (λ parts. AllLieIn intervals.now parts.items) }
    ensures causes { IfErr result (StopCauses Extent.Within (B.faults backend.old)
        (B.faults backend.new)) }
    ensures still { WalkStands (B.faults backend.old) (B.faults backend.new) result }
    ensures kept { ReadsOnly B.told B.versions B.faults B.steady backend.old backend.new }
    ensures reads { IfSome (B.told backend.old) (λ b. B.reads backend.new
        ≤ B.reads backend.old + (walked Extent.Within 6 (header_of state.now) b intervals.now 0
        None (root_of state.now)).reads) }
{
    let none = no_parts(alloc);
    match gather(Extent::Within, state, backend, intervals, none, max_tiles) {
        Ok(list) => Ok(list.parts),
        Err(error) => Err(error),
    }
}

/// Gives the tile entries of a whole archive that opened, with their contents, in order of their ids, to what takes
/// them, and answers what has taken all. Entries without a byte are left out.
///
/// The directories are walked as by `collect`, but all of them. A tile entry is tested, in this order, for `PastEnd`,
/// `InvalidTileId`, `TooDeep` and `TooManyTiles`, for the last two unless it is empty. Each costs one read: its
/// contents are read once it has passed the other tests, and given away at once; where it fails one of them or is
/// empty, no bytes are read at the end of its range. So what is given has at most so many tiles, also where the walk is
/// refused behind it, and what has taken a part of the entries is let go then. Where it wants memory, the walk ends.
pub fn take_entries<B: Backend, T: TakesEntries + Drop>(
    state: &ReaderState,
    backend: &mut B,
    taker: T,
    max_tiles: u64,
) -> Result<T, WalkError>
    requires begun { T.holds taker [] [] }
    ensures given { IfOk result (HoldsGiven T.holds (B.told backend.old) (header_of state.now)
        (root_of state.now) max_tiles) }
    ensures refused { IfSome (B.told backend.old) (λ b. IfErr result (λ x.
        Gathers Extent.Whole (all_walked b (header_of state.now, root_of state.now)) [] max_tiles
        (Err x))) }
    ensures causes { IfErr result (StopCauses Extent.Whole (B.faults backend.old)
        (B.faults backend.new)) }
    ensures still { WalkStands (B.faults backend.old) (B.faults backend.new) result }
    ensures kept { ReadsOnly B.told B.versions B.faults B.steady backend.old backend.new }
    ensures reads { IfSome (B.told backend.old) (λ b. B.reads backend.new ≤ B.reads backend.old
        + (all_walked b (header_of state.now, root_of state.now)).reads) }
{
    match gather(Extent::Whole, state, backend, &[], taker, max_tiles) {
        Ok(taker) => Ok(taker),
        Err(error) => Err(error),
    }
}
