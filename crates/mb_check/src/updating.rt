// Storing the computed hash of all tiles.
ghost use Rattle.mb_check.specs.Common.{FaultsCounted, IsBegun, Keeps, with_name};
ghost use Rattle.std.specs.Prelude.{◌≡◌, Some, true, IfOk, OnErr, OnOk};
ghost use Rattle.mb_check.specs.AggregateHash.{own_hash_answer};
ghost use Rattle.mb_check.specs.Updated.{IsUpdated, held_hashed};

use base_values::{OutOfMemory, TextVal};
use mb_load::{commit_loaded, load};
use mb_loaded::{Editing, Loaded};
use mb_store::{AGG_TILES_HASH, Cell, HASH_ALGORITHM, MbtError, MbtResult, TileStore};
use std::alloc::Global;

// Puts a text under a name.
fn put_text(alloc: Global, edits: &mut Editing, name: &str, value: &str) -> Result<(), OutOfMemory>
    ensures { OnOk result (edits.new ≡ with_name edits.old name.now (Some value.now)) }
{
    let name = TextVal::new(String::from_str(alloc, name)?);
    let value = TextVal::new(String::from_str(alloc, value)?);
    edits.set_metadata(name, Cell::Text(value))
}

// A loaded set with a hash of all tiles and the name of its algorithm in its metadata.
fn with_hash(alloc: Global, set: Loaded, hash: &TextVal) -> Result<Loaded, OutOfMemory>
    ensures { IfOk result (λ h. h ≡ held_hashed set hash.now) }
{
    let algorithm = set.algorithm();
    let mut edits = set.edit();
    put_text(alloc, &mut edits, AGG_TILES_HASH, hash.as_str())?;
    put_text(alloc, &mut edits, HASH_ALGORITHM, algorithm.as_str())?;
    edits.settle()
}

/// Stores the computed hash of all tiles under `agg_tiles_hash` and the name of its algorithm, which is that of the
/// set, under `hash_algorithm`, in one commit. It gives the hash.
///
/// It answers the refusals of `load`; refused, the store holds what it held. After Ok the set loads again, as it was
/// but for these two names; all other rows stay as they were.
pub fn update_agg_tiles_hash<S: TileStore>(alloc: Global, store: &mut S) -> MbtResult<TextVal>
    ensures answer { IsBegun own_hash_answer (S.tells store.old) (S.told store.old) result }
    ensures updated { S.tells store.old ≡ true
        → OnOk result (IsUpdated (S.told store.old) (S.told store.new)) }
    ensures refused { OnErr result (S.told store.new ≡ S.told store.old) }
    ensures kept { Keeps S.tells S.faults S.steady store.old store.new }
    ensures fault { FaultsCounted S.faults store.old store.new result MbtError.StoreFault }
{
    let set = load(alloc, store)?;
    let hash = set.aggregate(alloc)?;
    let updated = with_hash(alloc, set, &hash)?;
    commit_loaded(alloc, store, &updated)?;
    Ok(hash)
}
