// The hash of all tiles of a marked set, with one content at a time.
ghost use Rattle.std.specs.Prelude.{◌≡◌, ◌<◌, ◌++◌, ℕ, List, [], All, Some, false, true, length, IfOk, OnOk};
ghost use Rattle.tile_hash.specs.HashStream.{HasTaken};
ghost use Rattle.tile_streaming.specs.Common.{HashAlgorithm, in_hexadecimal, place_at, ReadsOnly, tile_text};
ghost use Rattle.tile_streaming.specs.Hashing.{AreHashed, IsHashed, IsHashOf};
ghost use Rattle.tile_streaming.specs.PatchedSet.{stored_in};
ghost use Rattle.tile_streaming.specs.Spots.{marks_at};
ghost use Rattle.tile_streaming.specs.Stands.{BaseStands};
ghost use Rattle.tile_streaming.specs.Stored.{IsStored};
ghost use Rattle.tile_streaming.specs.Streaming.{IsHeld};
ghost use Rattle.tile_streaming.specs.Written.{FindCauses, IsChanged};

use crate::finding::marked_row;
use crate::mark_facts::is_empty;
use crate::patched_set::PatchedSet;
use crate::spots::{Spot, in_place_order};
use crate::{Mark, StreamError};
use base_values::TextVal;
use itoa::Buffer;
use mb_store::{Cell, TileStore};
use std::alloc::Global;
use tile_hash::{HashAlgorithm, HashStream};
use tile_ids::{TileCoord, invert_y_value};

// The algorithm whose digests are the same number in hexadecimal.
fn in_hexadecimal(algorithm: HashAlgorithm) -> HashAlgorithm
    ensures { result ≡ in_hexadecimal algorithm }
{
    match algorithm {
        HashAlgorithm::Fnv1aDecimal => HashAlgorithm::Fnv1a,
        other => other,
    }
}

// Hashes the zoom, column and row of a tile in decimal, the row counted from the bottom, and its bytes.
#[tactic(auto, using(mb_loaded::proofs::AggregateLemmas::four_parts))]
fn hash_tile(stream: &mut HashStream, coord: TileCoord, bytes: &[u8])
    ensures { (a : HashAlgorithm) (before : List ℕ) → HasTaken a stream.old before
        → HasTaken a stream.new (before ++ tile_text (place_at coord, Some bytes.now)) }
{
    let zoom = coord.z();
    let line = invert_y_value(zoom, coord.y());
    stream.update(Buffer::new().format(zoom).as_bytes());
    stream.update(Buffer::new().format(coord.x()).as_bytes());
    stream.update(Buffer::new().format(line).as_bytes());
    stream.update(bytes);
}

// Hashes the tile of a mark, whose contents are read again where they have at least one byte.
fn hash_mark<S: TileStore>(
    alloc: Global,
    store: &mut S,
    set: &PatchedSet,
    mark: &Mark,
    stream: &mut HashStream,
) -> Result<(), StreamError>
    ensures hashed { (a : HashAlgorithm) (before : List ℕ) → HasTaken a stream.old before
        → OnOk result (IsHashed (S.tells store.old) (stored_in set.now (S.told store.old)) a before
        mark.now stream.new) }
    ensures causes { FindCauses (IsChanged (S.tells store.old)
        (stored_in set.now (S.told store.old)) mark.now)
        (S.faults store.old) (S.faults store.new) result }
    ensures kept { ReadsOnly S.told S.tells S.faults S.steady store.old store.new }
    ensures still { BaseStands (S.faults store.old) (S.faults store.new) result }
{
    let coord = TileCoord::from(mark.id);
    if is_empty(mark) {
        hash_tile(stream, coord, &[]);
        return Ok(());
    }
    let row = marked_row(alloc, store, set, mark)?;
    let null = Cell::Null;
    hash_tile(stream, coord, set.bytes_in(mark.id, &row, &null));
    Ok(())
}

// Hashes the tiles of marks in the order of spots.
fn hash_spots<S: TileStore>(
    alloc: Global,
    store: &mut S,
    set: &PatchedSet,
    marks: &[Mark],
    spots: &[Spot],
    stream: &mut HashStream,
) -> Result<(), StreamError>
    requires within { All (λ s. s.index < length marks.now) spots.now }
    requires stored { S.tells store.old ≡ true
        → All (IsStored (stored_in set.now (S.told store.old))) marks.now }
    ensures hashed { (a : HashAlgorithm) → HasTaken a stream.old []
        → OnOk result (AreHashed (S.tells store.old) (stored_in set.now (S.told store.old))
        a (marks_at marks.now spots.now) stream.new) }
    ensures causes { FindCauses (S.tells store.old ≡ false)
        (S.faults store.old) (S.faults store.new) result }
    ensures kept { ReadsOnly S.told S.tells S.faults S.steady store.old store.new }
    ensures still { BaseStands (S.faults store.old) (S.faults store.new) result }
{
    for spot in spots {
        hash_mark(alloc, store, set, &marks[spot.index], stream)?;
    }
    Ok(())
}

/// The hash of all tiles of a marked set, by its algorithm: of their numbers in decimal and their bytes, by zoom,
/// column, and row counted from the bottom. Contents that aren't held are read again, one after another, and take no
/// more memory than the longest, beside 16 bytes for each tile.
///
/// A fault comes only where the store's count of faults rose, and `StoreChanged` only over a store that tells nothing;
/// no other refusal comes but want of memory.
pub(crate) fn hash_marked<S: TileStore>(
    alloc: Global,
    store: &mut S,
    set: &PatchedSet,
) -> Result<TextVal, StreamError>
    requires held { IsHeld (S.tells store.old) (stored_in set.now (S.told store.old))
        set.now.marked }
    ensures hash { IfOk result (IsHashOf (S.tells store.old)
        (stored_in set.now (S.told store.old)) set.now.marked) }
    ensures causes { FindCauses (S.tells store.old ≡ false)
        (S.faults store.old) (S.faults store.new) result }
    ensures kept { ReadsOnly S.told S.tells S.faults S.steady store.old store.new }
    ensures still { BaseStands (S.faults store.old) (S.faults store.new) result }
{
    let marks = set.marked.marks.as_slice();
    if marks.is_empty() {
        return Ok(set.marked.algorithm.hash(alloc, &[])?);
    }
    let spots = in_place_order(alloc, marks)?;
    let mut stream = HashStream::new(in_hexadecimal(set.marked.algorithm));
    hash_spots(alloc, store, set, marks, &spots, &mut stream)?;
    Ok(stream.finish(alloc)?)
}
