// The archive of a set, written to a medium.
ghost use Rattle.std.specs.Prelude.{◌≡◌, ◌<◌, ℕ, List, [], Option, false, length, IfSome, IfOk, OnOk, OnErr};
ghost use Rattle.tile_bridge.specs.Common.{archive, IsHidden, IsHiddenOr, KeepsMedium, len, Options, places_of, TookAll};
ghost use Rattle.pm_format.specs.declared.compression.Compression.TheVariants as compression;
ghost use Rattle.pm_writer.specs.Writing.{Writes, has_failed};
ghost use Rattle.tile_bridge.specs.Adds.{AreWithin, shown};
ghost use Rattle.tile_bridge.specs.Writing.{CanBeWritten, WriteCauses};

use crate::adds::{Add, tile_bytes};
use base_values::OutOfMemory;
use mb_loaded::Loaded;
use pm_format::{Medium, PmtResult};
use pm_writer::{ArchivePlaces, PmTilesWriter, WriterState};
use std::alloc::Global;

// How many adds are looked at together.
const BLOCK: usize = 64;

// Whether an add goes on the run of the one before it. The first bytes are compared before the ids, which tell most
// often, so that the contents of a block are asked for side by side.
fn goes_on(set: &Loaded, before: &Add, add: &Add) -> bool
    requires before { before.now.index < len set.now.state.tiles }
    requires add { add.now.index < len set.now.state.tiles }
{
    let bytes = tile_bytes(set, add.index);
    let others = tile_bytes(set, before.index);
    bytes.first() == others.first() && add.id.value() == before.id.value() + 1 && bytes == others
}

// How many entries adds need: one for each that doesn't go on a run.
fn count_entries(set: &Loaded, adds: &[Add]) -> usize
    requires { AreWithin set.now.state.tiles adds.now }
{
    let mut count = 0;
    for index in 0..adds.len() {
        if index == 0 || !goes_on(set, &adds[index - 1], &adds[index]) {
            count += 1;
        }
    }
    count
}

// Makes room for the entries of all adds before the first, and for those of each block before it, where there is none.
// It reads the contents of the block on the way, so that they come from memory side by side and not one after another.
fn make_room(
    state: &mut WriterState,
    set: &Loaded,
    adds: &[Add],
    index: usize,
) -> Result<(), OutOfMemory>
    requires index { index < length adds.now }
    requires within { AreWithin set.now.state.tiles adds.now }
    ensures same { (o : Options) (told : Option (List ℕ)) (done : List (ℕ × List ℕ))
        → Writes o told state.old done → Writes o told state.new done }
    ensures alive { has_failed state.new ≡ has_failed state.old }
{
    if index % BLOCK != 0 {
        return Ok(());
    }
    let rest = &adds[index..];
    let count = count_entries(set, &rest[..rest.len().min(BLOCK)]);
    state.reserve(if index == 0 { adds.len() } else { count })
}

// Adds the tiles of a set to an archive that is begun.
fn add_all<M: Medium>(
    state: &mut WriterState,
    medium: &mut M,
    set: &Loaded,
    adds: &[Add],
) -> PmtResult<()>
    requires begun { (o : Options) × Writes o (M.told medium.old) state.old []
        × CanBeWritten o (shown set.now.state.tiles adds.now) }
    requires within { AreWithin set.now.state.tiles adds.now }
    requires alive { has_failed state.old ≡ false }
    ensures added { (o : Options) → Writes o (M.told medium.old) state.old []
        → OnOk result ((taken : List (ℕ × List ℕ))
        × TookAll (M.told medium.old) (shown set.now.state.tiles adds.now) taken
        × Writes o (M.told medium.new) state.new taken) }
    ensures hidden { OnErr result (IfSome (M.told medium.new) IsHidden) }
    ensures alive { OnOk result (has_failed state.new ≡ false) }
    ensures causes { WriteCauses (M.faults medium.old) (M.faults medium.new) result }
    ensures kept { KeepsMedium M.told M.versions M.reads M.faults M.steady medium.old medium.new }
    ensures still { OnOk result (M.faults medium.new ≡ M.faults medium.old) }
{
    for (index, add) in adds.iter().enumerate() {
        make_room(state, set, adds, index)?;
        state.add_raw_tile_by_id(medium, add.id, tile_bytes(set, add.index))?;
    }
    Ok(())
}

/// Writes the archive of a set's adds with options to an empty medium. The options label directories `None`.
///
/// `Reading(Fault)` comes only where the medium's count of faults rose, and no other refusal comes but `OutOfMemory`.
/// After each of them no part of an archive is shown: the label of directories isn't written, or the whole archive
/// stands. Over a medium that tells nothing the places are those of what the writer takes the adds for.
pub(crate) fn write_archive<M: Medium>(
    alloc: Global,
    options: &PmTilesWriter,
    set: &Loaded,
    adds: &[Add],
    medium: &mut M,
) -> PmtResult<ArchivePlaces>
    requires empty { IfSome (M.told medium.old) (λ b. b ≡ []) }
    requires plain { options.now.internal_compression ≡ compression.None }
    requires fit { CanBeWritten options.now (shown set.now.state.tiles adds.now) }
    requires within { AreWithin set.now.state.tiles adds.now }
    ensures bytes { OnOk result (IfSome (M.told medium.new) (λ b. b ≡ archive options.now
        (shown set.now.state.tiles adds.now))) }
    ensures places { IfOk result (λ p. (taken : List (ℕ × List ℕ)) × TookAll (M.told medium.old)
        (shown set.now.state.tiles adds.now) taken × (p ≡ places_of options.now taken)) }
    ensures shown { IfSome (M.told medium.new) (IsHiddenOr (archive options.now
        (shown set.now.state.tiles adds.now))) }
    ensures causes { WriteCauses (M.faults medium.old) (M.faults medium.new) result }
    ensures kept { KeepsMedium M.told M.versions M.reads M.faults M.steady medium.old medium.new }
    ensures still { OnOk result (M.faults medium.new ≡ M.faults medium.old) }
{
    let mut state = options.start(alloc, medium)?;
    add_all(&mut state, medium, set, adds)?;
    state.finalize(medium)
}
