// Patches of a base of which marks are held, one after another.
ghost use Rattle.std.specs.Prelude.{◌≡◌, ◌∷◌, ℕ, false, filter, map, not, IfErr, IfOk, IsErrOf, None, OnOk, true};
ghost use Rattle.mb_edit.specs.PatchingOrder.{bytes_put, may_patch};
ghost use Rattle.mb_edit.specs.Step.{state_patched};
ghost use Rattle.mb_load.specs.LoadedFrom.{IsLoadable};
ghost use Rattle.tile_bridge.specs.Stands.{StoresStand};
ghost use Rattle.tile_bridge.specs.Stores.{AreOnlyRead, due_patch, due_patches, Refuses, RoseAt};
ghost use Rattle.tile_streaming.specs.Collisions.{collided};
ghost use Rattle.tile_streaming.specs.Common.{contains_key, ReadsOnly, State};
ghost use Rattle.tile_streaming.specs.Finding.{place_with};
ghost use Rattle.tile_streaming.specs.Overlaid.{StandsFor};
ghost use Rattle.tile_streaming.specs.Patching.{BaseEnds, due_step, if_told, IsAfter, IsNext, NamesFirst, PatchEnds};

use crate::Mark;
use crate::overlaid::Overlaid;
use crate::patched_set::tile_under;
use crate::refusing::{refuse, test_apart};
use crate::rest::Rest;
use mb_edit::patch_loaded;
use mb_loaded::Loaded;
use mb_store::TileStore;
use std::alloc::Global;
use tile_bridge::{ConvertError, load_at};

// Whether a patch has no tile at the place of a mark.
fn is_left(patch: &Loaded, mark: &Mark) -> bool
    ensures { result ≡ not (contains_key patch.now.state.tiles (place_with mark.now.id)) }
{
    tile_under(patch, mark.id).is_none()
}

// Lets go the marks of places that a patch has.
fn keep_left(marks: &mut Vec<Mark>, patch: &Loaded)
    ensures { marks.new.items ≡ filter
        (λ m. not (contains_key patch.now.state.tiles (place_with m.id))) marks.old.items }
{
    marks.retain(|mark| is_left(patch, mark));
}

// What is left of a base after a patch.
fn left_of(rest: Rest, patch: &Loaded) -> Rest
    ensures layout { result.layout ≡ rest.layout }
    ensures marks { result.marks.items ≡ filter
        (λ m. not (contains_key patch.now.state.tiles (place_with m.id))) rest.marks.items }
    ensures whole { result.is_whole ≡ false }
{
    let Rest {
        layout,
        marks,
        is_whole: _,
    } = rest;
    let mut marks = marks;
    keep_left(&mut marks, patch);
    Rest {
        layout,
        marks,
        is_whole: false,
    }
}

// A set after a patch that is loaded, of what that makes of the tiles that are held. Its contents don't collide with
// those of the base.
fn put_over<S: TileStore>(
    alloc: Global,
    base: &mut S,
    over: Loaded,
    rest: Rest,
    patch: &Loaded,
    place: u64,
) -> Result<Overlaid, ConvertError>
    ensures set { IfOk result (λ x. (x.over ≡ over) × (x.rest.layout ≡ rest.layout)
        × (x.rest.marks.items ≡ filter
        (λ m. not (contains_key patch.now.state.tiles (place_with m.id))) rest.marks.items)
        × (x.rest.is_whole ≡ false)) }
    ensures apart { S.tells base.old ≡ true → OnOk result (collided (S.told base.old) rest
        over.state.algorithm None (bytes_put patch.now.state.tiles) ≡ None) }
    ensures refused { IfErr result (NamesFirst place (S.tells base.old) (S.told base.old) rest
        over.state.algorithm None (bytes_put patch.now.state.tiles)) }
    ensures kept { ReadsOnly S.told S.tells S.faults S.steady base.old base.new }
    ensures still { OnOk result (S.faults base.new ≡ S.faults base.old) }
    ensures ends { IfErr result (BaseEnds place (S.faults base.old) (S.faults base.new)) }
{
    match test_apart(alloc, base, &rest, over.algorithm(), patch, place) {
        Ok(()) => Ok(Overlaid {
            over,
            rest: left_of(rest, patch),
        }),
        Err(error) => Err(error),
    }
}

// A set after a patch that is loaded.
fn overlay<S: TileStore>(
    alloc: Global,
    base: &mut S,
    set: Overlaid,
    patch: &Loaded,
    place: u64,
    force: bool,
) -> Result<Overlaid, ConvertError>
    requires { IsLoadable patch.now.state }
    ensures layout { IfOk result (λ x. x.rest.layout ≡ set.rest.layout) }
    ensures may { (s : State) → StandsFor (S.tells base.old) (S.told base.old) set s
        → OnOk result (may_patch force s patch.now.state ≡ None) }
    ensures stands { (s : State) → StandsFor (S.tells base.old) (S.told base.old) set s
        → IfOk result (λ x. StandsFor (S.tells base.old) (S.told base.old) x
        (state_patched s patch.now.state)) }
    ensures refused { (s : State) → StandsFor (S.tells base.old) (S.told base.old) set s
        → IfErr result (Refuses (if_told (S.tells base.old)
        (due_step force place s patch.now.state))) }
    ensures kept { ReadsOnly S.told S.tells S.faults S.steady base.old base.new }
    ensures still { OnOk result (S.faults base.new ≡ S.faults base.old) }
    ensures ends { IfErr result (BaseEnds place (S.faults base.old) (S.faults base.new)) }
{
    let Overlaid { over, rest } = set;
    let algorithm = over.algorithm();
    match patch_loaded(alloc, over, patch, force) {
        Ok(over) => put_over(alloc, base, over, rest, patch, place),
        Err(error) => Err(refuse(alloc, base, &rest, algorithm, patch, place, error)),
    }
}

// A set after the patch at a place.
fn patch_at<S: TileStore, P: TileStore>(
    alloc: Global,
    base: &mut S,
    set: Overlaid,
    patch: &mut P,
    place: u64,
    force: bool,
) -> Result<Overlaid, ConvertError>
    ensures layout { IfOk result (λ x. x.rest.layout ≡ set.rest.layout) }
    ensures next { (s : State) → StandsFor (S.tells base.old) (S.told base.old) set s
        → IfOk result (IsNext force (P.tells patch.old) (P.told patch.old) (S.tells base.old)
        (S.told base.old) s) }
    ensures refused { (s : State) → StandsFor (S.tells base.old) (S.told base.old) set s
        → IfErr result (Refuses (if_told (S.tells base.old)
        (due_patch force place s (P.tells patch.old) (P.told patch.old)))) }
    ensures kept { ReadsOnly P.told P.tells P.faults P.steady patch.old patch.new }
    ensures base_kept { ReadsOnly S.told S.tells S.faults S.steady base.old base.new }
    ensures still { OnOk result (P.faults patch.new ≡ P.faults patch.old) }
    ensures base_still { OnOk result (S.faults base.new ≡ S.faults base.old) }
    ensures ends { IfErr result (PatchEnds place (S.faults base.old) (S.faults base.new)
        (P.faults patch.old) (P.faults patch.new)) }
{
    match load_at(alloc, patch, place) {
        Ok(patch) => overlay(alloc, base, set, &patch, place, force),
        Err(error) => Err(error),
    }
}

/// The patches of a base, one after another, each of which is let go before the next one. The first has place 1.
pub(crate) fn patch_all<S: TileStore, P: TileStore>(
    alloc: Global,
    base: &mut S,
    set: Overlaid,
    patches: &mut Vec<P>,
    force: bool,
) -> Result<Overlaid, ConvertError>
    requires { (s : State) × StandsFor (S.tells base.old) (S.told base.old) set s }
    ensures after { (s : State) → StandsFor (S.tells base.old) (S.told base.old) set s
        → IfOk result (IsAfter force (map P.tells patches.old.items)
        (map P.told patches.old.items) (S.tells base.old) (S.told base.old) s) }
    ensures refused { (s : State) → StandsFor (S.tells base.old) (S.told base.old) set s
        → IfErr result (Refuses (if_told (S.tells base.old)
        (due_patches force 1 s (map P.tells patches.old.items)
        (map P.told patches.old.items)))) }
    ensures layout { IfOk result (λ x. x.rest.layout ≡ set.rest.layout) }
    ensures read { AreOnlyRead P.tells P.told P.faults P.steady
        patches.old.items patches.new.items }
    ensures kept { ReadsOnly S.told S.tells S.faults S.steady base.old base.new }
    ensures still { StoresStand (S.faults base.old ∷ map P.faults patches.old.items)
        (S.faults base.new ∷ map P.faults patches.new.items) result }
    ensures fault { (p : ℕ) → IsErrOf result (ConvertError.StoreFault p)
        → RoseAt p (S.faults base.old ∷ map P.faults patches.old.items)
        (S.faults base.new ∷ map P.faults patches.new.items) }
{
    let mut now = set;
    for index in 0..patches.len() {
        let next = patch_at(
            alloc,
            base,
            now,
            &mut patches[index],
            index as u64 + 1,
            force,
        )?;
        now = next;
    }
    Ok(now)
}
