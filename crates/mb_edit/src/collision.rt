// The test that contents which a patch puts into a normalised set have ids of their own.
ghost use Rattle.std.specs.Prelude.{◌≡◌, ◌∷◌, IfOk, IfSome, OnOk, List, ℕ, Some, cond, not, option_copied, true};
ghost use Rattle.std.specs.BTreeMap.{get as marked};
ghost use Rattle.mb_edit.specs.Common.{bytes_eq, Cell, cell_cmp, cons_option, digest, entries, get, ids_given, is_eq, is_normalized, Tests};
ghost use Rattle.mb_edit.specs.Collision.{collides, collision, is_other};
ghost use Rattle.mb_edit.specs.Marks.{AreMarked, bytes_of};
ghost use Rattle.mb_edit.specs.PatchingOrder.{bytes_put, id_collides};

use base_values::{BlobVal, OutOfMemory};
use mb_loaded::{GivenIds, Loaded};
use mb_store::{Cell, MbtError, MbtResult};
use std::alloc::Global;
use std::collections::BTreeMap;

/// What is known of the contents that are put under an id: the index of a tile of the patch that has them,
/// and whether they collide.
#[derive(Clone, Copy, Debug, PartialEq, Eq)]
pub(crate) struct Mark {
    pub index: usize,
    pub collides: bool,
}

/// The contents that were met, by their ids, and the index of the last one met that collides.
#[derive(Drop)]
pub(crate) struct Marks {
    pub by_id: BTreeMap<Cell, Mark>,
    pub first: usize,
}

/// The bytes of the tile of a patch at an index. None where it has null, and past the end.
pub(crate) fn bytes_at(patch: &Loaded, index: usize) -> Option<&BlobVal>
    ensures { option_copied result ≡ bytes_of (entries patch.now.state.tiles) index }
{
    if index >= patch.tile_count() {
        return None;
    }
    match patch.tile_at(index) {
        (_, Cell::Blob(bytes)) => Some(bytes),
        _ => None,
    }
}

// Whether the set has other contents under an id than these bytes.
fn stands_for_other(base: &Loaded, id: &Cell, bytes: &BlobVal) -> bool
    ensures { result ≡ is_other bytes.now (get base.now.state.contents id.now) }
{
    match base.content(id) {
        None => false,
        Some(Cell::Blob(stored)) => stored.as_bytes() != bytes.as_bytes(),
        Some(_) => true,
    }
}

// Whether the tile of a patch at an index has other bytes.
fn has_other(patch: &Loaded, index: usize, bytes: &BlobVal) -> bool
    ensures { IfSome (bytes_of (entries patch.now.state.tiles) index)
        (λ met. result ≡ not (bytes_eq met bytes.now)) }
{
    match bytes_at(patch, index) {
        None => false,
        Some(met) => met.as_bytes() != bytes.as_bytes(),
    }
}

// Whether bytes collide under their id, by what was met before.
fn collides_with(base: &Loaded, patch: &Loaded, marks: &Marks, id: &Cell, bytes: &BlobVal) -> bool
    ensures { (put : List (List ℕ)) → id.now ≡ Cell.Text (digest base.now.state.algorithm bytes.now)
        → AreMarked (digest base.now.state.algorithm) base.now.state.contents
        (entries patch.now.state.tiles) put marks.now
        → result ≡ collides (digest base.now.state.algorithm) base.now.state.contents
        (bytes.now ∷ put) bytes.now }
{
    match marks.by_id.get(id) {
        None => stands_for_other(base, id, bytes),
        Some(mark) => mark.collides || has_other(patch, mark.index, bytes),
    }
}

// Puts a mark in place of the one of its id.
fn put_mark(by_id: &mut BTreeMap<Cell, Mark>, id: Cell, mark: Mark) -> Result<(), OutOfMemory>
    ensures { OnOk result ((q : Cell)
        → marked cell_cmp by_id.new q ≡ cond (is_eq (cell_cmp id q)) (Some mark)
        (marked cell_cmp by_id.old q)) }
{
    by_id.insert(id, mark)?;
    Ok(())
}

// Meets one more tile, in front of those that were met, by the id of its bytes.
fn meet(
    alloc: Global,
    base: &Loaded,
    patch: &Loaded,
    index: usize,
    id: &Cell,
    marks: &mut Marks,
) -> Result<(), OutOfMemory>
    requires { IfSome (bytes_of (entries patch.now.state.tiles) index)
        (λ bytes. id.now ≡ Cell.Text (digest base.now.state.algorithm bytes)) }
    ensures { OnOk result ((put : List (List ℕ))
        → AreMarked (digest base.now.state.algorithm) base.now.state.contents
        (entries patch.now.state.tiles) put marks.old
        → AreMarked (digest base.now.state.algorithm) base.now.state.contents
        (entries patch.now.state.tiles)
        (cons_option (bytes_of (entries patch.now.state.tiles) index) put) marks.new) }
{
    let Some(bytes) = bytes_at(patch, index) else {
        return Ok(());
    };
    let collides = collides_with(base, patch, marks, id, bytes);
    let id = id.try_clone(alloc)?;
    put_mark(&mut marks.by_id, id, Mark { index, collides })?;
    if collides {
        marks.first = index;
    }
    Ok(())
}

// The test that no contents which a patch puts have the id of others, by the ids of its tiles.
fn test_contents(alloc: Global, base: &Loaded, patch: &Loaded, ids: &GivenIds) -> MbtResult<()>
    requires normalised { is_normalized base.now.state.layout ≡ true }
    requires ids { ids.now ≡ ids_given base.now.state.layout base.now.state.algorithm
        patch.now.state.tiles }
    ensures { Tests (collision (digest base.now.state.algorithm) base.now.state.contents
        (bytes_put patch.now.state.tiles)) result }
{
    let mut left = patch.tile_count();
    let mut marks = Marks {
        by_id: BTreeMap::new(alloc),
        first: left,
    };
    while left > 0 {
        left -= 1;
        meet(alloc, base, patch, left, ids.at(left), &mut marks)?;
    }
    let Some(bytes) = bytes_at(patch, marks.first) else {
        return Ok(());
    };
    let id = base.algorithm().hash(alloc, bytes.as_bytes())?;
    Err(MbtError::IdCollision { id })
}

// The test of the ids that a set gives a patch's tiles, where the set has ids.
fn test_given(alloc: Global, base: &Loaded, patch: &Loaded, ids: &GivenIds) -> MbtResult<()>
    requires { ids.now ≡ ids_given base.now.state.layout base.now.state.algorithm
        patch.now.state.tiles }
    ensures { Tests (id_collides base.now.state.layout base.now.state.algorithm
        base.now.state.contents (bytes_put patch.now.state.tiles)) result }
{
    if base.mbt_type().is_normalized() {
        return test_contents(alloc, base, patch, ids);
    }
    Ok(())
}

/// The test of the ids of contents that a patch puts, where the set has ids, and the ids that the set gives the patch's
/// tiles. Each of the patch's contents is digested once.
pub(crate) fn test_ids(alloc: Global, base: &Loaded, patch: &Loaded) -> MbtResult<GivenIds>
    ensures tests { Tests
        (id_collides base.now.state.layout base.now.state.algorithm base.now.state.contents
        (bytes_put patch.now.state.tiles)) result }
    ensures ids { IfOk result
        (λ ids. ids ≡ ids_given base.now.state.layout base.now.state.algorithm
        patch.now.state.tiles) }
{
    let ids = patch.ids_for(alloc, base.mbt_type(), base.algorithm())?;
    test_given(alloc, base, patch, &ids)?;
    Ok(ids)
}
