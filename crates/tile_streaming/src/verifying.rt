// The hash of a marked set, where it is asked for, and its test against the stored one.
ghost use Rattle.std.specs.Prelude.{◌≡◌, ◌≢◌, ◌||◌, Err, false, is_some, IfErr, IfOk, IfSome, Some, true};
ghost use Rattle.std.specs.Str.{bytes_eq};
ghost use Rattle.tile_streaming.specs.Common.{is_free, ReadsOnly};
ghost use Rattle.tile_streaming.specs.Hashing.{HashCauses, IsHashOf, stored_hash};
ghost use Rattle.tile_streaming.specs.PatchedSet.{stored_in};
ghost use Rattle.tile_streaming.specs.Stands.{BaseStands};
ghost use Rattle.tile_streaming.specs.Streaming.{IsHeld};

use crate::StreamError;
use crate::error::of_store;
use crate::hashing::hash_marked;
use crate::patched_set::PatchedSet;
use base_values::TextVal;
use mb_store::{AGG_TILES_HASH, MbtError, MbtResult, TileStore};
use std::alloc::Global;

// A computed hash, which has to be the stored one.
fn same_hash(alloc: Global, stored: &TextVal, computed: TextVal) -> MbtResult<TextVal>
    ensures computed { IfOk result (λ text. text ≡ computed) }
    ensures stored { IfOk result (λ text. text ≡ stored.now) }
    ensures refused { IfErr result (λ e. is_free e ≡ false
        → e ≡ MbtError.AggHashMismatch computed stored.now) }
    ensures differ { IfErr result (λ e. bytes_eq stored.now computed ≡ false) }
    ensures fault { result ≢ Err MbtError.StoreFault }
{
    if *stored == computed {
        return Ok(computed);
    }
    let stored = stored.try_clone(alloc)?;
    Err(MbtError::AggHashMismatch { computed, stored })
}

// The hash of a marked set, which has to be the stored one. Where none is stored, no content is read.
fn verified_hash<S: TileStore>(
    alloc: Global,
    store: &mut S,
    set: &PatchedSet,
) -> Result<TextVal, StreamError>
    requires held { IsHeld (S.tells store.old) (stored_in set.now (S.told store.old))
        set.now.marked }
    ensures hash { IfOk result (IsHashOf (S.tells store.old)
        (stored_in set.now (S.told store.old)) set.now.marked) }
    ensures stored { IfOk result (λ text. stored_hash set.now.marked ≡ Some text) }
    ensures causes { HashCauses true (S.tells store.old) (stored_in set.now (S.told store.old))
        set.now.marked (S.faults store.old) (S.faults store.new) result }
    ensures kept { ReadsOnly S.told S.tells S.faults S.steady store.old store.new }
    ensures still { BaseStands (S.faults store.old) (S.faults store.new) result }
{
    let Some(stored) = set.marked.names.text(AGG_TILES_HASH) else {
        return Err(of_store(MbtError::AggHashValueNotFound));
    };
    let computed = hash_marked(alloc, store, set)?;
    match same_hash(alloc, stored, computed) {
        Ok(text) => Ok(text),
        Err(error) => Err(of_store(error)),
    }
}

/// The hash of a marked set, where it is to be verified or wanted for itself. Where it is to be verified, the stored
/// one has to be there and the same: else `AggHashValueNotFound` or `AggHashMismatch` comes at place 0.
pub(crate) fn hash_for<S: TileStore>(
    alloc: Global,
    store: &mut S,
    set: &PatchedSet,
    verify: bool,
    hash: bool,
) -> Result<Option<TextVal>, StreamError>
    requires held { IsHeld (S.tells store.old) (stored_in set.now (S.told store.old))
        set.now.marked }
    ensures hash { IfOk result (λ text. IfSome text
        (IsHashOf (S.tells store.old) (stored_in set.now (S.told store.old)) set.now.marked)) }
    ensures asked { IfOk result (λ text. is_some text ≡ verify || hash) }
    ensures stored { verify ≡ true → IfOk result (λ text. stored_hash set.now.marked ≡ text) }
    ensures causes { HashCauses verify (S.tells store.old) (stored_in set.now (S.told store.old))
        set.now.marked (S.faults store.old) (S.faults store.new) result }
    ensures kept { ReadsOnly S.told S.tells S.faults S.steady store.old store.new }
    ensures still { BaseStands (S.faults store.old) (S.faults store.new) result }
{
    if verify {
        return Ok(Some(verified_hash(alloc, store, set)?));
    }
    if hash {
        return Ok(Some(hash_marked(alloc, store, set)?));
    }
    Ok(None)
}
