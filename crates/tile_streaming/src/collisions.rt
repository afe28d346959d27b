// Contents of a base with which those of a patch may collide. They are looked up in its store, one after another.
ghost use Rattle.std.specs.Prelude.{◌≡◌, ◌||◌, ◌++◌, [], find, length, List, ℕ, IfOk, IfSome, is_some, not, OnOk, Option, true};
ghost use Rattle.std.specs.BTreeSet.{contains};
ghost use Rattle.std.specs.List.{cons_option};
ghost use Rattle.mb_edit.specs.Collision.{is_other};
ghost use Rattle.mb_edit.specs.Common.{Blob, cell_eq, digest, ids_given, Text};
ghost use Rattle.mb_edit.specs.PatchingOrder.{bytes_put};
ghost use Rattle.mb_lists.specs.Entries.{blob_cell};
ghost use Rattle.tile_streaming.specs.Collisions.{collided, content_told, first_taken, id_told, is_known};
ghost use Rattle.tile_streaming.specs.Suspects.{by_bytes, suspect_of, suspects};
ghost use Rattle.tile_streaming.specs.Layouts.{has_digests};
ghost use Rattle.tile_streaming.specs.Common.{cell_at, entries, FaultsCounted, MbtType, option_map, ReadsOnly};

use crate::layouts::has_digests;
use crate::rest::Rest;
use crate::unnamed::unnamed;
use base_values::{BlobVal, OutOfMemory, TextVal};
use mb_lists::cell_at;
use mb_loaded::{GivenIds, Loaded, id_key};
use mb_store::{Cell, Row, StoreError, TableName, TileStore};
use std::alloc::Global;
use std::collections::BTreeSet;
use tile_hash::HashAlgorithm;

// The row of the contents that a store has under an id.
fn find_id<S: TileStore>(alloc: Global, base: &mut S, id: &Cell) -> Result<Option<Row>, StoreError>
    ensures answer { S.tells base.old ≡ true
        → IfOk result (λ row. row ≡ id_told (S.told base.old) id.now) }
    ensures kept { ReadsOnly S.told S.tells S.faults S.steady base.old base.new }
    ensures fault { FaultsCounted S.faults base.old base.new result StoreError.Fault }
{
    match id_key(alloc, id)? {
        Some(key) => Ok(base.find(alloc, TableName::Images, &key)?),
        None => Ok(None),
    }
}

// Whether a cell has other contents than bytes.
fn differs(cell: &Cell, bytes: &BlobVal) -> bool
    ensures { result ≡ not (cell_eq cell.now (Blob bytes.now)) }
{
    match cell {
        Cell::Blob(stored) => stored.as_bytes() != bytes.as_bytes(),
        _ => true,
    }
}

// Whether a row of contents, if there is one, has others than bytes.
fn is_other(row: &Option<Row>, bytes: &BlobVal) -> bool
    ensures { result ≡ is_other bytes.now (option_map (cell_at 1) row.now) }
{
    let null = Cell::Null;
    match row {
        Some(row) => differs(cell_at(row, 1, &null), bytes),
        None => false,
    }
}

// Whether a digest is the one that is known to collide.
fn is_known(known: &Option<TextVal>, digest: &TextVal) -> bool
    ensures { result ≡ is_known known.now digest.now }
{
    match known {
        Some(known) => known.as_str() == digest.as_str(),
        None => false,
    }
}

// Whether the base has other contents under an id than bytes.
fn has_other<S: TileStore>(
    alloc: Global,
    base: &mut S,
    bytes: &BlobVal,
    id: &Cell,
) -> Result<bool, StoreError>
    ensures answer { S.tells base.old ≡ true
        → IfOk result (λ is. is ≡ is_other bytes.now (content_told (S.told base.old) id.now)) }
    ensures kept { ReadsOnly S.told S.tells S.faults S.steady base.old base.new }
    ensures fault { FaultsCounted S.faults base.old base.new result StoreError.Fault }
{
    let row = find_id(alloc, base, id)?;
    Ok(is_other(&row, bytes))
}

// The digest of the contents of a patch's tile, where they may collide: it is the one that is known to, or the base has
// others under it.
fn suspect_at<S: TileStore>(
    alloc: Global,
    base: &mut S,
    known: &Option<TextVal>,
    cell: &Cell,
    id: &Cell,
) -> Result<Option<TextVal>, StoreError>
    ensures answer { (a : HashAlgorithm) (bytes : Option (List ℕ)) → blob_cell bytes ≡ cell.now
        → IfSome bytes (λ b. id.now ≡ Text (digest a b)) → S.tells base.old ≡ true
        → IfOk result (λ text. text ≡ suspect_of (S.told base.old) a known.now bytes) }
    ensures kept { ReadsOnly S.told S.tells S.faults S.steady base.old base.new }
    ensures fault { FaultsCounted S.faults base.old base.new result StoreError.Fault }
{
    let (Cell::Blob(bytes), Cell::Text(text)) = (cell, id) else {
        return Ok(None);
    };
    if !is_known(known, text) && !has_other(alloc, base, bytes, id)? {
        return Ok(None);
    }
    Ok(Some(text.try_clone(alloc)?))
}

fn push_some(digests: &mut Vec<TextVal>, found: Option<TextVal>) -> Result<(), OutOfMemory>
    ensures { OnOk result (digests.new.items ≡ digests.old.items ++ cons_option found []) }
{
    match found {
        Some(text) => digests.push(text)?,
        None => {}
    }
    Ok(())
}

// The digests of such contents of a patch, in the order of its places.
fn suspects<S: TileStore>(
    alloc: Global,
    base: &mut S,
    patch: &Loaded,
    ids: &GivenIds,
    known: &Option<TextVal>,
) -> Result<Vec<TextVal>, StoreError>
    requires counted { length ids.now ≡ length (entries patch.now.state.tiles) }
    ensures answer { (l : MbtType) (a : HashAlgorithm) → has_digests l ≡ true
        → ids.now ≡ ids_given l a patch.now.state.tiles → S.tells base.old ≡ true
        → IfOk result (λ digests. digests.items
        ≡ suspects (S.told base.old) a known.now (bytes_put patch.now.state.tiles)) }
    ensures kept { ReadsOnly S.told S.tells S.faults S.steady base.old base.new }
    ensures fault { FaultsCounted S.faults base.old base.new result StoreError.Fault }
{
    let mut digests = Vec::new(alloc);
    for index in 0..patch.tile_count() {
        let (_, cell) = patch.tile_at(index);
        let found = suspect_at(alloc, base, known, cell, ids.at(index))?;
        push_some(&mut digests, found)?;
    }
    Ok(digests)
}

// Whether a digest is the one that is known to collide, or isn't among those that no tile names.
fn stands(known: &Option<TextVal>, unnamed: &BTreeSet<TextVal>, digest: &TextVal) -> bool
    ensures { result ≡ (is_known known.now digest.now
        || not (contains by_bytes unnamed.now digest.now)) }
{
    is_known(known, digest) || !unnamed.contains(digest)
}

// The first of some digests of which that is so.
fn first_standing(
    alloc: Global,
    digests: &[TextVal],
    known: &Option<TextVal>,
    unnamed: &BTreeSet<TextVal>,
) -> Result<Option<TextVal>, OutOfMemory>
    ensures { IfOk result (λ text. text
        ≡ find (λ d. is_known known.now d || not (contains by_bytes unnamed.now d)) digests.now) }
{
    for digest in digests {
        if stands(known, unnamed, digest) {
            return Ok(Some(digest.try_clone(alloc)?));
        }
    }
    Ok(None)
}

// The digest of the first contents of a patch, in the order of its places, that have the digest that is known to
// collide, or under whose digest other contents of the base stand. The tiles that are left of the base are read once,
// and only where it has others under one.
fn first_taken<S: TileStore>(
    alloc: Global,
    base: &mut S,
    rest: &Rest,
    algorithm: HashAlgorithm,
    patch: &Loaded,
    known: &Option<TextVal>,
) -> Result<Option<TextVal>, StoreError>
    requires digests { has_digests rest.now.layout ≡ true }
    ensures answer { S.tells base.old ≡ true → IfOk result (λ text. text
        ≡ first_taken (S.told base.old) rest.now algorithm known.now
        (bytes_put patch.now.state.tiles)) }
    ensures kept { ReadsOnly S.told S.tells S.faults S.steady base.old base.new }
    ensures fault { FaultsCounted S.faults base.old base.new result StoreError.Fault }
{
    let ids = patch.ids_for(alloc, rest.layout, algorithm)?;
    let found = suspects(alloc, base, patch, &ids, known)?;
    let digests = found.as_slice();
    if digests.is_empty() {
        return Ok(None);
    }
    let unnamed = unnamed(alloc, base, rest, digests)?;
    Ok(first_standing(alloc, digests, known, &unnamed)?)
}

/// The digest that the refusal of a patch names whose contents collide with those of a base, or with others under the
/// one that is known to collide: that of the first of them in the order of its places. Where contents don't stand under
/// their digests, it is the one that is known.
pub(crate) fn collided<S: TileStore>(
    alloc: Global,
    base: &mut S,
    rest: &Rest,
    algorithm: HashAlgorithm,
    patch: &Loaded,
    known: Option<TextVal>,
) -> Result<Option<TextVal>, StoreError>
    ensures answer { S.tells base.old ≡ true → IfOk result (λ text. text
        ≡ collided (S.told base.old) rest.now algorithm known (bytes_put patch.now.state.tiles)) }
    ensures known { is_some known ≡ true → IfOk result (λ text. is_some text ≡ true) }
    ensures kept { ReadsOnly S.told S.tells S.faults S.steady base.old base.new }
    ensures fault { FaultsCounted S.faults base.old base.new result StoreError.Fault }
{
    if !has_digests(rest.layout) {
        return Ok(known);
    }
    let first = first_taken(alloc, base, rest, algorithm, patch, &known)?;
    match first {
        Some(text) => Ok(Some(text)),
        None => Ok(known),
    }
}
