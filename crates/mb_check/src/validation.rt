// Validation of a set.
ghost use Rattle.mb_check.specs.Common.{FaultsCounted, IsBegun, Keeps, ReadsOnly};
ghost use Rattle.std.specs.Prelude.{◌≡◌, ◌≢◌, true, OnErr, OnOk};
ghost use Rattle.mb_check.specs.Validation.{IsLeft, hash_type_words, validated};

use crate::{check_agg_tiles_hashes, update_agg_tiles_hash};
use base_values::TextVal;
use mb_load::load;
use mb_store::{MbtError, MbtResult, TileStore};
use std::alloc::Global;
use std::fmt;

/// What a validation does with the hash of all tiles in a set's metadata.
#[derive(Clone, Copy, Debug, PartialEq, Eq)]
pub enum AggHashType {
    /// It has to be the computed one.
    Verify,
    /// The computed one is stored.
    Update,
    /// It isn't looked at.
    Off,
}

impl Default for AggHashType {
    ghost use Rattle.mb_check.specs.declared.validation.AggHashType.TheVariants.{Verify};

    ghost is_default = { λ kind. kind ≡ Verify };

    fn default() -> AggHashType {
        AggHashType::Verify
    }
}

impl AggHashType {
    // Its words in lower case.
    fn words(self) -> &'static str
        ensures { result.now ≡ hash_type_words self }
    {
        match self {
            AggHashType::Verify => "verify",
            AggHashType::Update => "update",
            AggHashType::Off => "off",
        }
    }
}

impl fmt::Display for AggHashType {
    ghost use Rattle.std.specs.Prelude.{Some};
    ghost use Rattle.mb_check.specs.Validation.{hash_type_words};

    ghost output = { λ t. Some (hash_type_words t) };

    fn fmt<W: fmt::Write>(&self, f: &mut fmt::Formatter<W>) -> fmt::Result {
        let words = self.words();
        write!(f, "{words}")
    }
}

// No text, of a set that loads.
fn load_alone<S: TileStore>(alloc: Global, store: &mut S) -> MbtResult<TextVal>
    ensures answer { IsBegun (validated AggHashType.Off) (S.tells store.old) (S.told store.old)
        result }
    ensures kept { ReadsOnly S.told S.tells S.faults S.steady store.old store.new }
    ensures fault { FaultsCounted S.faults store.old store.new result MbtError.StoreFault }
{
    let _set = load(alloc, store)?;
    Ok(TextVal::new(String::new(alloc)))
}

/// Tests the rows of a set, each stored digest, and then its hash of all tiles as is wanted: `check_agg_tiles_hashes`,
/// `update_agg_tiles_hash`, or nothing. It gives the hash, and no text where nothing is done with it.
///
/// It answers the refusals of `load`; to verify, `AggHashValueNotFound` and `AggHashMismatch` follow. Refused, the
/// store holds what it held; it does so always but for an update.
pub fn validate<S: TileStore>(
    alloc: Global,
    store: &mut S,
    agg_hash: AggHashType,
) -> MbtResult<TextVal>
    ensures answer { IsBegun (validated agg_hash) (S.tells store.old) (S.told store.old) result }
    ensures left { S.tells store.old ≡ true
        → OnOk result (IsLeft agg_hash (S.told store.old) (S.told store.new)) }
    ensures read { agg_hash ≢ AggHashType.Update → S.told store.new ≡ S.told store.old }
    ensures refused { OnErr result (S.told store.new ≡ S.told store.old) }
    ensures kept { Keeps S.tells S.faults S.steady store.old store.new }
    ensures fault { FaultsCounted S.faults store.old store.new result MbtError.StoreFault }
{
    match agg_hash {
        AggHashType::Verify => check_agg_tiles_hashes(alloc, store),
        AggHashType::Update => update_agg_tiles_hash(alloc, store),
        AggHashType::Off => load_alone(alloc, store),
    }
}
