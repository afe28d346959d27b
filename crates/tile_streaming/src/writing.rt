// The archive of marks, written to a medium with one content at a time.
ghost use Rattle.std.specs.Prelude.{◌≡◌, ◌<◌, ◌^◌, ℕ, List, [], All, Option, false, true, length, IfSome, IfOk, MatchOption, OnOk, OnErr};
ghost use Rattle.pm_writer.specs.Adding.{WhereWrites, WritesSome};
ghost use Rattle.tile_streaming.specs.Common.{add_to, AddFits, CanBeWritten, has_failed, IsEmpty, IsHidden, IsPlain, KeepsMedium, Options, OptionsFit, ReadsOnly, Took, Writes, xxh3_64};
ghost use Rattle.tile_streaming.specs.Adding.{AreAdded, HaveLengths, IsAddedFor, IsTaken, adds_of};
ghost use Rattle.tile_streaming.specs.Part.{part_in};
ghost use Rattle.tile_streaming.specs.PatchedSet.{bytes_in, stored_in};
ghost use Rattle.tile_streaming.specs.Sizing.{overflow_of};
ghost use Rattle.tile_streaming.specs.Stands.{BaseStands, MediumStands};
ghost use Rattle.tile_streaming.specs.Stored.{IsStored};
ghost use Rattle.tile_streaming.specs.Written.{AddsCauses, IsChanged, StepCauses, WrittenLeaves};

use crate::error::of_writer;
use crate::finding::marked_row;
use crate::part::chosen_marks;
use crate::patched_set::PatchedSet;
use crate::{Mark, StreamError};
use mb_store::{Cell, Row, TileStore};
use pm_format::Medium;
use pm_writer::{ArchivePlaces, PmTilesWriter, WriterState};
use std::alloc::Global;
use tile_extract::IdIntervals;

// Adds the contents of a mark, whose digest they have, under its id: those in a row, or those that the set holds.
fn add_row<M: Medium>(
    set: &PatchedSet,
    mark: &Mark,
    row: &Option<Row>,
    state: &mut WriterState,
    medium: &mut M,
) -> Result<(), StreamError>
    requires writes { WritesSome (M.told medium.old) state.old }
    requires alive { has_failed state.old ≡ false }
    requires digest { mark.now.digest ≡ xxh3_64 (bytes_in set.now mark.now.id row.now) }
    ensures added { WhereWrites (M.told medium.old) state.old (λ o adds. OnOk result
        (IsTaken o adds mark.now.id (bytes_in set.now mark.now.id row.now)
        (M.told medium.old) (M.told medium.new) state.new)) }
    ensures hidden { OnErr result (IfSome (M.told medium.new) IsHidden) }
    ensures alive { OnOk result (has_failed state.new ≡ false) }
    ensures causes { WhereWrites (M.told medium.old) state.old (λ o adds.
        ((taken : List ℕ) → length taken ≡ length (bytes_in set.now mark.now.id row.now)
        → AddFits o adds mark.now.id taken)
        → AddsCauses (M.faults medium.old) (M.faults medium.new) result) }
    ensures kept { KeepsMedium M.told M.versions M.reads M.faults M.steady medium.old medium.new }
    ensures still { MediumStands (M.faults medium.old) (M.faults medium.new) result }
{
    let null = Cell::Null;
    let bytes = set.bytes_in(mark.id, row, &null);
    match state.add_raw_tile_with_digest(medium, mark.id, mark.digest, bytes) {
        Ok(()) => Ok(()),
        Err(error) => Err(of_writer(error)),
    }
}

// Adds the contents of a mark, where it has at least one byte.
fn add_mark<S: TileStore, M: Medium>(
    alloc: Global,
    store: &mut S,
    set: &PatchedSet,
    mark: &Mark,
    state: &mut WriterState,
    medium: &mut M,
) -> Result<(), StreamError>
    requires writes { WritesSome (M.told medium.old) state.old }
    requires alive { has_failed state.old ≡ false }
    requires short { mark.now.is_long ≡ false }
    ensures added { WhereWrites (M.told medium.old) state.old (λ o adds. OnOk result
        (IsAddedFor o adds (S.tells store.old) (stored_in set.now (S.told store.old)) mark.now
        (M.told medium.old) (M.told medium.new) state.new)) }
    ensures hidden { OnErr result (IfSome (M.told medium.new) IsHidden) }
    ensures alive { OnOk result (has_failed state.new ≡ false) }
    ensures causes { WhereWrites (M.told medium.old) state.old (λ o adds.
        ((taken : List ℕ) → length taken ≡ mark.now.length → 0 < mark.now.length
        → AddFits o adds mark.now.id taken)
        → StepCauses (IsChanged (S.tells store.old) (stored_in set.now (S.told store.old)) mark.now)
        (S.faults store.old) (S.faults store.new) (M.faults medium.old) (M.faults medium.new)
        result) }
    ensures store_kept { ReadsOnly S.told S.tells S.faults S.steady store.old store.new }
    ensures medium_kept { KeepsMedium M.told M.versions M.reads M.faults M.steady
        medium.old medium.new }
    ensures store_still { BaseStands (S.faults store.old) (S.faults store.new) result }
    ensures medium_still { MediumStands (M.faults medium.old) (M.faults medium.new) result }
{
    if mark.length == 0 {
        return Ok(());
    }
    let row = marked_row(alloc, store, set, mark)?;
    add_row(set, mark, &row, state, medium)
}

// Adds the contents of marks to an archive that is begun.
fn add_marks<S: TileStore, M: Medium>(
    alloc: Global,
    store: &mut S,
    set: &PatchedSet,
    marks: &[Mark],
    state: &mut WriterState,
    medium: &mut M,
) -> Result<(), StreamError>
    requires begun { (o : Options) × Writes o (M.told medium.old) state.old []
        × (length o.metadata < 2 ^ 63) }
    requires alive { has_failed state.old ≡ false }
    requires size { overflow_of marks.now ≡ false }
    requires stored { S.tells store.old ≡ true
        → All (IsStored (stored_in set.now (S.told store.old))) marks.now }
    ensures added { (o : Options) → Writes o (M.told medium.old) state.old []
        → OnOk result (AreAdded o (S.tells store.old) (stored_in set.now (S.told store.old))
        marks.now (M.told medium.old) (M.told medium.new) state.new) }
    ensures hidden { OnErr result (IfSome (M.told medium.new) IsHidden) }
    ensures alive { OnOk result (has_failed state.new ≡ false) }
    ensures causes { StepCauses (S.tells store.old ≡ false) (S.faults store.old)
        (S.faults store.new) (M.faults medium.old) (M.faults medium.new) result }
    ensures store_kept { ReadsOnly S.told S.tells S.faults S.steady store.old store.new }
    ensures medium_kept { KeepsMedium M.told M.versions M.reads M.faults M.steady
        medium.old medium.new }
    ensures store_still { BaseStands (S.faults store.old) (S.faults store.new) result }
    ensures medium_still { MediumStands (M.faults medium.old) (M.faults medium.new) result }
{
    for mark in marks {
        add_mark(alloc, store, set, mark, state, medium)?;
    }
    Ok(())
}

// Writes the archive of marks of a set with options to an empty medium.
fn write_marked<S: TileStore, M: Medium>(
    alloc: Global,
    store: &mut S,
    set: &PatchedSet,
    marks: &[Mark],
    options: &PmTilesWriter,
    medium: &mut M,
) -> Result<ArchivePlaces, StreamError>
    requires empty { IsEmpty (M.told medium.old) }
    requires plain { IsPlain options.now }
    requires metadata { length options.now.metadata < 2 ^ 63 }
    requires size { overflow_of marks.now ≡ false }
    requires can { (contents : List (List ℕ)) → HaveLengths marks.now contents
        → CanBeWritten options.now (adds_of marks.now contents) }
    requires stored { S.tells store.old ≡ true
        → All (IsStored (stored_in set.now (S.told store.old))) marks.now }
    ensures leaves { WrittenLeaves options.now (S.tells store.old)
        (stored_in set.now (S.told store.old)) marks.now
        (M.told medium.old) (M.told medium.new) result }
    ensures causes { StepCauses (S.tells store.old ≡ false) (S.faults store.old)
        (S.faults store.new) (M.faults medium.old) (M.faults medium.new) result }
    ensures store_kept { ReadsOnly S.told S.tells S.faults S.steady store.old store.new }
    ensures medium_kept { KeepsMedium M.told M.versions M.reads M.faults M.steady
        medium.old medium.new }
    ensures store_still { BaseStands (S.faults store.old) (S.faults store.new) result }
    ensures medium_still { MediumStands (M.faults medium.old) (M.faults medium.new) result }
{
    let mut state = match options.start(alloc, medium) {
        Ok(state) => state,
        Err(error) => return Err(of_writer(error)),
    };
    state.reserve(marks.len())?;
    add_marks(alloc, store, set, marks, &mut state, medium)?;
    match state.finalize(medium) {
        Ok(places) => Ok(places),
        Err(error) => Err(of_writer(error)),
    }
}

/// Writes the archive of a part of a set with options to an empty medium. The options label directories `None`, and
/// `found` are the marks of the part, where they aren't all.
///
/// A fault comes only where the count of faults of the store or of the medium rose, and `StoreChanged` only over a
/// store that tells nothing; no other refusal comes but want of memory. After each of them no part of an archive is
/// shown.
pub(crate) fn write_part<S: TileStore, M: Medium>(
    alloc: Global,
    store: &mut S,
    set: &PatchedSet,
    part: &Option<IdIntervals>,
    found: &Option<Vec<Mark>>,
    options: &PmTilesWriter,
    medium: &mut M,
) -> Result<ArchivePlaces, StreamError>
    requires kept { MatchOption found.now
        (part_in part.now set.now.marked ≡ set.now.marked.marks.items)
        (λ kept. part_in part.now set.now.marked ≡ kept.items) }
    requires empty { IsEmpty (M.told medium.old) }
    requires plain { IsPlain options.now }
    requires metadata { length options.now.metadata < 2 ^ 63 }
    requires size { overflow_of (part_in part.now set.now.marked) ≡ false }
    requires can { (contents : List (List ℕ))
        → HaveLengths (part_in part.now set.now.marked) contents
        → CanBeWritten options.now (adds_of (part_in part.now set.now.marked) contents) }
    requires stored { S.tells store.old ≡ true
        → All (IsStored (stored_in set.now (S.told store.old)))
        (part_in part.now set.now.marked) }
    ensures leaves { WrittenLeaves options.now (S.tells store.old)
        (stored_in set.now (S.told store.old)) (part_in part.now set.now.marked)
        (M.told medium.old) (M.told medium.new) result }
    ensures causes { StepCauses (S.tells store.old ≡ false) (S.faults store.old)
        (S.faults store.new) (M.faults medium.old) (M.faults medium.new) result }
    ensures store_kept { ReadsOnly S.told S.tells S.faults S.steady store.old store.new }
    ensures medium_kept { KeepsMedium M.told M.versions M.reads M.faults M.steady
        medium.old medium.new }
    ensures store_still { BaseStands (S.faults store.old) (S.faults store.new) result }
    ensures medium_still { MediumStands (M.faults medium.old) (M.faults medium.new) result }
{
    let marks = chosen_marks(found, set);
    write_marked(alloc, store, set, marks, options, medium)
}
