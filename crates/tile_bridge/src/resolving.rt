// The set that is converted.
ghost use Rattle.std.specs.Prelude.{◌≡◌, ◌≢◌, ◌∷◌, ℕ, cond, false, true, Err, IfErr, IfOk, IsErrOf, None, Ok, Some, map};
ghost use Rattle.tile_bridge.specs.Common.{aggregate, is_free, ReadsOnly, told_of};
ghost use Rattle.tile_bridge.specs.Outcome.{due, overflows, tested, unverified};
ghost use Rattle.tile_bridge.specs.Patching.{IsHeldFrom};
ghost use Rattle.tile_bridge.specs.Stands.{StoresStand};
ghost use Rattle.tile_bridge.specs.Stores.{AreOnlyRead, IsDue, Refuses, RoseAt};

use crate::adds::is_overflow;
use crate::loading::{load_at, load_base, of_store};
use crate::patching::patch_all;
use crate::{ConvertError, ConvertOptions};
use base_values::TextVal;
use mb_loaded::Loaded;
use mb_store::{AGG_TILES_HASH, MbtError, MbtResult, MemStore, TileStore};
use std::alloc::Global;

// The aggregate hash of a set, which has to be the stored one.
fn verified_hash(alloc: Global, set: &Loaded) -> MbtResult<TextVal>
    ensures aggregate { IfOk result (λ text. text ≡ aggregate set.now.state.algorithm
        set.now.state.tiles) }
    ensures right { IfOk result (λ text. unverified set.now.state ≡ None) }
    ensures refused { IfErr result (λ e. is_free e ≡ false → unverified set.now.state ≡ Some e) }
    ensures fault { result ≢ Err MbtError.StoreFault }
{
    let computed = set.aggregate(alloc)?;
    let Some(stored) = set.text(AGG_TILES_HASH) else {
        return Err(MbtError::AggHashValueNotFound);
    };
    if *stored == computed {
        return Ok(computed);
    }
    let stored = stored.try_clone(alloc)?;
    Err(MbtError::AggHashMismatch { computed, stored })
}

// The aggregate hash of a set; the stored one has to be that, where it is to be verified.
fn hash_of(alloc: Global, set: &Loaded, verify: bool) -> Result<TextVal, ConvertError>
    ensures aggregate { IfOk result (λ text. text ≡ aggregate set.now.state.algorithm
        set.now.state.tiles) }
    ensures right { IfOk result (λ text. cond verify (unverified set.now.state) None ≡ None) }
    ensures refused { IfErr result (λ e. Refuses (Some (tested verify set.now.state)) e) }
    ensures fault { (p : ℕ) → result ≢ Err (ConvertError.StoreFault p) }
{
    if verify {
        return match verified_hash(alloc, set) {
            Ok(text) => Ok(text),
            Err(error) => Err(of_store(0, error)),
        };
    }
    Ok(set.aggregate(alloc)?)
}

// What is tested of a set before it is converted: its stored aggregate hash, where that is to be verified, and its
// size. Gives the aggregate hash.
fn test_set(alloc: Global, set: &Loaded, verify: bool) -> Result<TextVal, ConvertError>
    ensures state { IfOk result (λ text. tested verify set.now.state ≡ Ok set.now.state) }
    ensures aggregate { IfOk result (λ text. text ≡ aggregate set.now.state.algorithm
        set.now.state.tiles) }
    ensures size { IfOk result (λ text. overflows set.now.state.tiles ≡ false) }
    ensures refused { IfErr result (Refuses (Some (tested verify set.now.state))) }
    ensures fault { (p : ℕ) → result ≢ Err (ConvertError.StoreFault p) }
{
    let aggregate = hash_of(alloc, set, verify)?;
    if is_overflow(set) {
        return Err(ConvertError::IndexEntryOverflow);
    }
    Ok(aggregate)
}

/// The set that is converted and its aggregate hash: the base is loaded, its patches follow in their order, and what
/// comes of them is tested.
pub(crate) fn resolve<S: TileStore, P: TileStore>(
    alloc: Global,
    base: &mut S,
    patches: &mut Vec<P>,
    options: &ConvertOptions,
) -> Result<(Loaded, TextVal), ConvertError>
    ensures state { IfOk result (λ set. IsDue (due S.tells S.told P.tells P.told base.old
        patches.old.items options.now) set.0.state) }
    ensures aggregate { IfOk result (λ set. set.1 ≡ aggregate set.0.state.algorithm
        set.0.state.tiles) }
    ensures size { IfOk result (λ set. overflows set.0.state.tiles ≡ false) }
    ensures refused { IfErr result (Refuses (due S.tells S.told P.tells P.told base.old
        patches.old.items options.now)) }
    ensures held { IfOk result (λ set. IsHeldFrom options.now.force options.now.verify
        (S.tells base.old) (S.told base.old) (map P.tells patches.old.items)
        (map P.told patches.old.items) set.0) }
    ensures patches { AreOnlyRead P.tells P.told P.faults P.steady
        patches.old.items patches.new.items }
    ensures base_kept { ReadsOnly S.told S.tells S.faults S.steady base.old base.new }
    ensures still { StoresStand (S.faults base.old ∷ map P.faults patches.old.items)
        (S.faults base.new ∷ map P.faults patches.new.items) result }
    ensures fault { (p : ℕ) → IsErrOf result (ConvertError.StoreFault p)
        → RoseAt p (S.faults base.old ∷ map P.faults patches.old.items)
        (S.faults base.new ∷ map P.faults patches.new.items) }
{
    let set = load_at(alloc, base, 0)?;
    let set = patch_all(alloc, set, patches, options.force)?;
    let aggregate = test_set(alloc, &set, options.verify)?;
    Ok((set, aggregate))
}

/// The same of a base in memory that is let go, at place 0. Only patches fail.
pub(crate) fn resolve_owned<P: TileStore>(
    alloc: Global,
    base: MemStore,
    patches: &mut Vec<P>,
    options: &ConvertOptions,
) -> Result<(Loaded, TextVal), ConvertError>
    ensures state { IfOk result (λ set. IsDue (due (λ _. true) told_of P.tells P.told base
        patches.old.items options.now) set.0.state) }
    ensures aggregate { IfOk result (λ set. set.1 ≡ aggregate set.0.state.algorithm
        set.0.state.tiles) }
    ensures size { IfOk result (λ set. overflows set.0.state.tiles ≡ false) }
    ensures refused { IfErr result (Refuses (due (λ _. true) told_of P.tells P.told base
        patches.old.items options.now)) }
    ensures patches { AreOnlyRead P.tells P.told P.faults P.steady
        patches.old.items patches.new.items }
    ensures still { StoresStand (0 ∷ map P.faults patches.old.items)
        (0 ∷ map P.faults patches.new.items) result }
    ensures fault { (p : ℕ) → IsErrOf result (ConvertError.StoreFault p)
        → RoseAt p (0 ∷ map P.faults patches.old.items) (0 ∷ map P.faults patches.new.items) }
{
    let set = load_base(alloc, base)?;
    let set = patch_all(alloc, set, patches, options.force)?;
    let aggregate = test_set(alloc, &set, options.verify)?;
    Ok((set, aggregate))
}
