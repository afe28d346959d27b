// The set that is converted: the marks of its tiles, and the contents of those that patches put.
ghost use Rattle.std.specs.Prelude.{◌≡◌, ◌++◌, ◌<◌, ◌∷◌, ℕ, Bool, map, IfErr, IfOk, IfSome, IsErrOf, OnOk, slice_get};
ghost use Rattle.std.specs.FinMap.{len};
ghost use Rattle.std.specs.List.Sorted.{IsNonDecreasingBy, IsPermutation};
ghost use Rattle.tile_bridge.specs.Stands.{StoresStand};
ghost use Rattle.tile_bridge.specs.Stores.{AreOnlyRead, Refuses, RoseAt};
ghost use Rattle.tile_streaming.specs.Common.{entries, ReadsOnly, State, Tables};
ghost use Rattle.tile_streaming.specs.Marks.{IsMarkedAs, mark_of};
ghost use Rattle.tile_streaming.specs.Overlaid.{StandsFor};
ghost use Rattle.tile_streaming.specs.PatchedSet.{stored_in};
ghost use Rattle.tile_streaming.specs.Streaming.{begun_due, IsHeldOf};

use crate::beginning::read_base;
use crate::content_marks::content_mark;
use crate::finding::bytes_of;
use crate::ordering::sort_by_id;
use crate::overlaid::Overlaid;
use crate::patched_set::PatchedSet;
use crate::patching::patch_all;
use crate::rest::Rest;
use crate::row_marks::mark_at;
use crate::{Mark, MarkedSet};
use base_values::OutOfMemory;
use mb_loaded::Loaded;
use mb_store::TileStore;
use set_options::SetNames;
use std::alloc::Global;
use tile_bridge::ConvertError;

// The mark of a tile of a loaded set, by its index.
fn held_mark(over: &Loaded, index: usize) -> Mark
    requires { index < len over.now.state.tiles }
    ensures { IfSome (slice_get (entries over.now.state.tiles) index) (λ e. result ≡ mark_of e) }
{
    let (coord, cell) = over.tile_at(index);
    mark_at(coord, content_mark(bytes_of(cell)))
}

// Adds the marks of the tiles of a loaded set, in their order.
fn add_held(marks: &mut Vec<Mark>, over: &Loaded) -> Result<(), OutOfMemory>
    ensures { OnOk result (marks.new.items
        ≡ marks.old.items ++ map mark_of (entries over.now.state.tiles)) }
{
    marks.reserve(over.tile_count())?;
    for index in 0..over.tile_count() {
        marks.push(held_mark(over, index))?;
    }
    Ok(())
}

// Marks by rising id with those of the tiles of a loaded set, by rising id.
fn all_marks(rest: Vec<Mark>, over: &Loaded) -> Result<Vec<Mark>, OutOfMemory>
    ensures same { IfOk result (λ marks. IsPermutation
        (rest.items ++ map mark_of (entries over.now.state.tiles)) marks.items) }
    ensures rising { IsNonDecreasingBy (λ m. m.id) rest.items
        → IfOk result (λ marks. IsNonDecreasingBy (λ m. m.id) marks.items) }
{
    if over.tile_count() == 0 {
        return Ok(rest);
    }
    let mut marks = rest;
    add_held(&mut marks, over)?;
    sort_by_id(&mut marks);
    Ok(marks)
}

// The set that a base is with its patches.
fn settle(alloc: Global, set: Overlaid) -> Result<PatchedSet, OutOfMemory>
    ensures over { IfOk result (λ x. x.over ≡ set.over) }
    ensures layout { IfOk result (λ x. x.marked.layout ≡ set.rest.layout) }
    ensures held { (tells : Bool) (told : Tables) (s : State) → StandsFor tells told set s
        → IfOk result (λ x. IsMarkedAs s x.marked) }
{
    let Overlaid { over, rest } = set;
    let Rest {
        layout,
        marks,
        is_whole: _,
    } = rest;
    let names = SetNames::of_set(alloc, &over)?;
    let marks = all_marks(marks, &over)?;
    let algorithm = over.algorithm();
    Ok(PatchedSet {
        marked: MarkedSet {
            layout,
            algorithm,
            names,
            marks,
        },
        over,
    })
}

/// The set that is converted: the base is read, and its patches follow in their order, each let go before the next one.
pub(crate) fn resolve<S: TileStore, P: TileStore>(
    alloc: Global,
    base: &mut S,
    patches: &mut Vec<P>,
    force: bool,
) -> Result<PatchedSet, ConvertError>
    ensures held { IfOk result (λ set. IsHeldOf (begun_due S.tells S.told P.tells P.told base.old
        patches.old.items force) (S.tells base.old) (stored_in set (S.told base.old)) set.marked) }
    ensures refused { IfErr result (Refuses (begun_due S.tells S.told P.tells P.told base.old
        patches.old.items force)) }
    ensures patches { AreOnlyRead P.tells P.told P.faults P.steady
        patches.old.items patches.new.items }
    ensures base_kept { ReadsOnly S.told S.tells S.faults S.steady base.old base.new }
    ensures still { StoresStand (S.faults base.old ∷ map P.faults patches.old.items)
        (S.faults base.new ∷ map P.faults patches.new.items) result }
    ensures fault { (p : ℕ) → IsErrOf result (ConvertError.StoreFault p)
        → RoseAt p (S.faults base.old ∷ map P.faults patches.old.items)
        (S.faults base.new ∷ map P.faults patches.new.items) }
{
    let set = read_base(alloc, base)?;
    let set = patch_all(alloc, base, set, patches, force)?;
    Ok(settle(alloc, set)?)
}
