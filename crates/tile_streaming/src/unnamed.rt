// Which digests no tile of a base names that is left of it.
ghost use Rattle.std.specs.Prelude.{◌≡◌, ◌&&◌, ◌||◌, List, ℕ, IfOk, not, OnOk, true};
ghost use Rattle.std.specs.BTreeSet.{contains};
ghost use Rattle.mb_edit.specs.Common.{Text};
ghost use Rattle.tile_streaming.specs.Collisions.{has_named, is_named_at, stands_under};
ghost use Rattle.tile_streaming.specs.Common.{FaultsCounted, ReadsOnly};
ghost use Rattle.tile_streaming.specs.Finding.{tile_told};
ghost use Rattle.tile_streaming.specs.Suspects.{by_bytes, is_among};

use crate::Mark;
use crate::finding::key_at;
use crate::rest::Rest;
use base_values::{OutOfMemory, TextVal};
use mb_lists::cell_at;
use mb_store::{Cell, MbtType, Row, StoreError, TileStore};
use std::alloc::Global;
use std::collections::BTreeSet;
use tile_ids::TileCoord;

// The row that a store has for a mark's tile.
fn find_tile<S: TileStore>(
    alloc: Global,
    base: &mut S,
    layout: MbtType,
    mark: &Mark,
) -> Result<Option<Row>, StoreError>
    ensures answer { S.tells base.old ≡ true
        → IfOk result (λ row. row ≡ tile_told layout (S.told base.old) mark.now.id) }
    ensures kept { ReadsOnly S.told S.tells S.faults S.steady base.old base.new }
    ensures fault { FaultsCounted S.faults base.old base.new result StoreError.Fault }
{
    let key = key_at(TileCoord::from(mark.id));
    Ok(base.find(alloc, layout.tile_table(), &key)?)
}

// Takes the digest that a row names, if it names one, out of some.
fn take_out(row: &Row, digests: &mut BTreeSet<TextVal>)
    ensures { (d : List ℕ) → contains by_bytes digests.new d
        ≡ (contains by_bytes digests.old d && not (has_named (Text d) row.now)) }
{
    let null = Cell::Null;
    match cell_at(row, 3, &null) {
        Cell::Text(text) => {
            digests.remove(text);
        }
        _ => {}
    }
}

// Takes the digest that a mark's tile names out of some.
fn take_named<S: TileStore>(
    alloc: Global,
    base: &mut S,
    layout: MbtType,
    mark: &Mark,
    digests: &mut BTreeSet<TextVal>,
) -> Result<(), StoreError>
    ensures left { S.tells base.old ≡ true → OnOk result
        ((d : List ℕ) → contains by_bytes digests.new d ≡ (contains by_bytes digests.old d
        && not (is_named_at layout (S.told base.old) (Text d) mark.now))) }
    ensures kept { ReadsOnly S.told S.tells S.faults S.steady base.old base.new }
    ensures fault { FaultsCounted S.faults base.old base.new result StoreError.Fault }
{
    let found = find_tile(alloc, base, layout, mark)?;
    match found {
        Some(row) => take_out(&row, digests),
        None => {}
    }
    Ok(())
}

// Some digests as a set.
fn set_of(alloc: Global, digests: &[TextVal]) -> Result<BTreeSet<TextVal>, OutOfMemory>
    ensures { IfOk result (λ set. (d : List ℕ) → contains by_bytes set d ≡ is_among digests.now d) }
{
    let mut set = BTreeSet::new(alloc);
    for digest in digests {
        set.insert(digest.try_clone(alloc)?)?;
    }
    Ok(set)
}

/// Those of some digests of which no contents stand: before the first patch none of them, and then those that no tile
/// names that is left of the base. Each such tile is read once.
pub(crate) fn unnamed<S: TileStore>(
    alloc: Global,
    base: &mut S,
    rest: &Rest,
    digests: &[TextVal],
) -> Result<BTreeSet<TextVal>, StoreError>
    ensures answer { S.tells base.old ≡ true → IfOk result (λ unnamed. (d : List ℕ)
        → is_among digests.now d ≡ true → contains by_bytes unnamed d
        ≡ not (stands_under (S.told base.old) rest.now (Text d))) }
    ensures kept { ReadsOnly S.told S.tells S.faults S.steady base.old base.new }
    ensures fault { FaultsCounted S.faults base.old base.new result StoreError.Fault }
{
    if rest.is_whole {
        return Ok(BTreeSet::new(alloc));
    }
    let mut unnamed = set_of(alloc, digests)?;
    for mark in &rest.marks {
        take_named(alloc, base, rest.layout, mark, &mut unnamed)?;
    }
    Ok(unnamed)
}
