// The stores of a conversion are loaded.
ghost use Rattle.std.specs.Prelude.{◌≡◌, ◌≢◌, ℕ, true, Err, IfErr, IfOk, IsErrOf, Ok, OnOk};
ghost use Rattle.tile_bridge.specs.Common.{IsLoadable, IsLoadedFrom, NamesAlgorithm, nothing_edited, ReadsOnly, Rose, state_of, told_of};
ghost use Rattle.tile_bridge.specs.Patching.{HoldsState};
ghost use Rattle.tile_bridge.specs.Stands.{IsAt};
ghost use Rattle.tile_bridge.specs.Stores.{Refuses, due_at, refusal_at};

use crate::ConvertError;
use mb_load::{load, load_owned};
use mb_loaded::Loaded;
use mb_store::{MbtError, MemStore, TileStore};
use std::alloc::Global;

/// The conversion's word for the error of the store at a place: 0 is the base, k the k-th patch.
pub fn of_store(place: u64, error: MbtError) -> ConvertError
    ensures { result ≡ refusal_at place error }
{
    match error {
        MbtError::StoreFault => ConvertError::StoreFault { place },
        MbtError::OutOfMemory => ConvertError::OutOfMemory,
        error => ConvertError::Store { place, error },
    }
}

/// Loads the store at a place: 0 is the base, k the k-th patch.
pub fn load_at<S: TileStore>(
    alloc: Global,
    store: &mut S,
    place: u64,
) -> Result<Loaded, ConvertError>
    ensures edited { IfOk result (λ set. set.edited ≡ nothing_edited) }
    ensures refused { IfErr result (Refuses (due_at place (S.tells store.old) (S.told store.old))) }
    ensures state { IfOk result (λ set. S.tells store.old ≡ true
        → state_of (S.told store.old) ≡ Ok set.state) }
    ensures holds { IfOk result (λ set. HoldsState (S.tells store.old) (S.told store.old)
        set.state) }
    ensures loaded { S.tells store.old ≡ true
        → IfOk result (λ set. IsLoadedFrom (S.told store.old) set) }
    ensures whole { IfOk result (λ set. IsLoadable set.state) }
    ensures named { IfOk result (λ set. NamesAlgorithm set.state) }
    ensures kept { ReadsOnly S.told S.tells S.faults S.steady store.old store.new }
    ensures placed { IfErr result (IsAt place) }
    ensures still { OnOk result (S.faults store.new ≡ S.faults store.old) }
    ensures fault { (p : ℕ) → IsErrOf result (ConvertError.StoreFault p)
        → (p ≡ place) × Rose (S.faults store.old) (S.faults store.new) }
{
    match load(alloc, store) {
        Ok(set) => Ok(set),
        Err(error) => Err(of_store(place, error)),
    }
}

/// Loads a base in memory that is let go.
pub(crate) fn load_base(alloc: Global, base: MemStore) -> Result<Loaded, ConvertError>
    ensures refused { IfErr result (Refuses (due_at 0 true (told_of base))) }
    ensures state { IfOk result (λ set. state_of (told_of base) ≡ Ok set.state) }
    ensures fault { (p : ℕ) → result ≢ Err (ConvertError.StoreFault p) }
{
    match load_owned(alloc, base) {
        Ok(set) => Ok(set),
        Err(error) => Err(of_store(0, error)),
    }
}
