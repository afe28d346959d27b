// The hash of all tiles of a set: as it is stored, as it is computed, and whether these agree.
ghost use Rattle.mb_check.specs.Common.{Answers, FaultsCounted, IsBegun, ReadsOnly, text_at};
ghost use Rattle.std.specs.Prelude.{◌≡◌, ◌≢◌, Err, IfOk};
ghost use Rattle.mb_check.specs.AggregateHash.{algorithm_answer, checked_answer, hash_answer, stored_answer};

use base_values::{OutOfMemory, TextVal};
use mb_load::load;
use mb_loaded::Loaded;
use mb_store::{AGG_TILES_HASH, MbtError, MbtResult, TileStore};
use std::alloc::Global;
use tile_hash::HashAlgorithm;

/// A copy of the text of a name of metadata, None where there is none, or null.
pub(crate) fn text_of(
    alloc: Global,
    set: &Loaded,
    name: &str,
) -> Result<Option<TextVal>, OutOfMemory>
    ensures { IfOk result (λ text. text ≡ text_at set.now.state.metadata name.now) }
{
    match set.text(name) {
        Some(text) => Ok(Some(text.try_clone(alloc)?)),
        None => Ok(None),
    }
}

// The stored hash of a loaded set.
fn stored_hash(alloc: Global, set: &Loaded) -> MbtResult<Option<TextVal>>
    ensures answer { Answers (stored_answer set.now.state) result }
    ensures fault { result ≢ Err MbtError.StoreFault }
{
    Ok(text_of(alloc, set, AGG_TILES_HASH)?)
}

// The hash of a loaded set by an algorithm.
fn hash_by(alloc: Global, set: &Loaded, algorithm: HashAlgorithm) -> MbtResult<TextVal>
    ensures answer { Answers (hash_answer algorithm set.now.state) result }
    ensures fault { result ≢ Err MbtError.StoreFault }
{
    Ok(set.aggregate_by(alloc, algorithm)?)
}

// The hash of a loaded set, which has to be the stored one.
fn checked_hash(alloc: Global, set: &Loaded) -> MbtResult<TextVal>
    ensures answer { Answers (checked_answer set.now.state) result }
    ensures fault { result ≢ Err MbtError.StoreFault }
{
    let computed = set.aggregate(alloc)?;
    let Some(stored) = set.text(AGG_TILES_HASH) else {
        return Err(MbtError::AggHashValueNotFound);
    };
    if *stored == computed {
        return Ok(computed);
    }
    let stored = stored.try_clone(alloc)?;
    Err(MbtError::AggHashMismatch { computed, stored })
}

/// The algorithm of a set's digests: that which its metadata names, MD5 where it names none.
///
/// It answers the refusals of `load`. The store holds what it held, whatever the answer.
pub fn get_hash_algorithm<S: TileStore>(alloc: Global, store: &mut S) -> MbtResult<HashAlgorithm>
    ensures answer { IsBegun algorithm_answer (S.tells store.old) (S.told store.old) result }
    ensures kept { ReadsOnly S.told S.tells S.faults S.steady store.old store.new }
    ensures fault { FaultsCounted S.faults store.old store.new result MbtError.StoreFault }
{
    let set = load(alloc, store)?;
    Ok(set.algorithm())
}

/// The hash of all tiles that a set's metadata has under `agg_tiles_hash`, as it is stored. None
/// where there is none, or null.
///
/// It answers the refusals of `load`. The store holds what it held, whatever the answer.
pub fn get_agg_tiles_hash<S: TileStore>(alloc: Global, store: &mut S) -> MbtResult<Option<TextVal>>
    ensures answer { IsBegun stored_answer (S.tells store.old) (S.told store.old) result }
    ensures kept { ReadsOnly S.told S.tells S.faults S.steady store.old store.new }
    ensures fault { FaultsCounted S.faults store.old store.new result MbtError.StoreFault }
{
    let set = load(alloc, store)?;
    stored_hash(alloc, &set)
}

/// The hash of all tiles of a set by an algorithm, whatever is stored: of the zoom, the column and the row of each tile
/// in decimal and its bytes, one tile after another in the order of zoom, column and row counted from the bottom. Null
/// adds no bytes. In hexadecimal, also for `Fnv1aDecimal`; a set without tiles has the digest of no bytes, which is
/// decimal for that algorithm.
///
/// It answers the refusals of `load`. The store holds what it held, whatever the answer.
pub fn calc_agg_tiles_hash<S: TileStore>(
    alloc: Global,
    store: &mut S,
    algorithm: HashAlgorithm,
) -> MbtResult<TextVal>
    ensures answer { IsBegun (hash_answer algorithm) (S.tells store.old) (S.told store.old) result }
    ensures kept { ReadsOnly S.told S.tells S.faults S.steady store.old store.new }
    ensures fault { FaultsCounted S.faults store.old store.new result MbtError.StoreFault }
{
    let set = load(alloc, store)?;
    hash_by(alloc, &set, algorithm)
}

/// The hash of all tiles of a set by its own algorithm, which has to be the one that its metadata
/// has under `agg_tiles_hash`.
///
/// It answers the refusals of `load`; then `AggHashValueNotFound` where none is stored, or null; then `AggHashMismatch`
/// with both where they differ. The store holds what it held, whatever the answer.
pub fn check_agg_tiles_hashes<S: TileStore>(alloc: Global, store: &mut S) -> MbtResult<TextVal>
    ensures answer { IsBegun checked_answer (S.tells store.old) (S.told store.old) result }
    ensures kept { ReadsOnly S.told S.tells S.faults S.steady store.old store.new }
    ensures fault { FaultsCounted S.faults store.old store.new result MbtError.StoreFault }
{
    let set = load(alloc, store)?;
    checked_hash(alloc, &set)
}
