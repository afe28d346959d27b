// Patches that are refused, and the digest that a refusal of contents that collide names.
ghost use Rattle.std.specs.Prelude.{◌≡◌, ◌≢◌, IfErr, None, OnOk, Some, true};
ghost use Rattle.mb_edit.specs.PatchingOrder.{bytes_put};
ghost use Rattle.tile_streaming.specs.Collisions.{collided};
ghost use Rattle.tile_streaming.specs.Common.{ReadsOnly};
ghost use Rattle.tile_streaming.specs.Patching.{BaseEnds, NamesAnother, NamesFirst, of_base};

use crate::collisions::collided;
use crate::rest::Rest;
use base_values::TextVal;
use mb_loaded::Loaded;
use mb_store::{MbtError, StoreError, TileStore};
use std::alloc::Global;
use tile_bridge::{ConvertError, of_store};
use tile_hash::HashAlgorithm;

// The conversion's word for the error of a look-up in the base.
fn of_base(error: StoreError) -> ConvertError
    ensures { result ≡ of_base error }
{
    match error {
        StoreError::Fault => ConvertError::StoreFault { place: 0 },
        StoreError::OutOfMemory => ConvertError::OutOfMemory,
    }
}

/// The test that no contents of the patch at a place collide with others of its base.
pub(crate) fn test_apart<S: TileStore>(
    alloc: Global,
    base: &mut S,
    rest: &Rest,
    algorithm: HashAlgorithm,
    patch: &Loaded,
    place: u64,
) -> Result<(), ConvertError>
    ensures apart { S.tells base.old ≡ true → OnOk result (collided (S.told base.old) rest.now
        algorithm None (bytes_put patch.now.state.tiles) ≡ None) }
    ensures refused { IfErr result (NamesFirst place (S.tells base.old) (S.told base.old) rest.now
        algorithm None (bytes_put patch.now.state.tiles)) }
    ensures kept { ReadsOnly S.told S.tells S.faults S.steady base.old base.new }
    ensures still { OnOk result (S.faults base.new ≡ S.faults base.old) }
    ensures ends { IfErr result (BaseEnds place (S.faults base.old) (S.faults base.new)) }
{
    match collided(alloc, base, rest, algorithm, patch, None) {
        Ok(None) => Ok(()),
        Ok(Some(id)) => Err(ConvertError::Store {
            place,
            error: MbtError::IdCollision { id },
        }),
        Err(error) => Err(of_base(error)),
    }
}

// The refusal of a patch at a place whose contents collide under a digest, with each other or with those of former
// patches: others may collide with the base before them.
fn refuse_collision<S: TileStore>(
    alloc: Global,
    base: &mut S,
    rest: &Rest,
    algorithm: HashAlgorithm,
    patch: &Loaded,
    place: u64,
    id: TextVal,
) -> ConvertError
    ensures refused { NamesFirst place (S.tells base.old) (S.told base.old) rest.now algorithm
        (Some id) (bytes_put patch.now.state.tiles) result }
    ensures kept { ReadsOnly S.told S.tells S.faults S.steady base.old base.new }
    ensures ends { BaseEnds place (S.faults base.old) (S.faults base.new) result }
{
    match collided(alloc, base, rest, algorithm, patch, Some(id)) {
        Ok(Some(id)) => ConvertError::Store {
            place,
            error: MbtError::IdCollision { id },
        },
        Ok(None) => unreachable!(),
        Err(error) => of_base(error),
    }
}

/// The refusal of the patch at a place, where what is held over its base refuses it.
pub(crate) fn refuse<S: TileStore>(
    alloc: Global,
    base: &mut S,
    rest: &Rest,
    algorithm: HashAlgorithm,
    patch: &Loaded,
    place: u64,
    error: MbtError,
) -> ConvertError
    requires { error ≢ MbtError.StoreFault }
    ensures refused { NamesAnother place (S.tells base.old) (S.told base.old) rest.now algorithm
        (bytes_put patch.now.state.tiles) error result }
    ensures kept { ReadsOnly S.told S.tells S.faults S.steady base.old base.new }
    ensures ends { BaseEnds place (S.faults base.old) (S.faults base.new) result }
{
    match error {
        MbtError::IdCollision { id } => {
            refuse_collision(alloc, base, rest, algorithm, patch, place, id)
        }
        error => of_store(place, error),
    }
}
