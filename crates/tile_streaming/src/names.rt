// The names of a set, and the algorithm that they name.
ghost use Rattle.std.specs.Prelude.{◌≡◌, true, IfOk};
ghost use Rattle.tile_streaming.specs.Common.{FaultsCounted, Metadata, ReadsOnly, Tests};
ghost use Rattle.tile_streaming.specs.RowTests.{IsNamedBy, names_refused};

use mb_constraints::algorithm_by;
use mb_store::{HASH_ALGORITHM, MbtResult, Row, StoreError, TableName, TileStore};
use set_options::SetNames;
use std::alloc::Global;
use tile_hash::HashAlgorithm;

/// The names of a set, and the algorithm that they name.
#[derive(Debug, Drop)]
pub(crate) struct Named {
    pub algorithm: HashAlgorithm,
    pub names: SetNames,
}

/// All rows of metadata.
pub(crate) fn read_metadata<S: TileStore>(
    alloc: Global,
    store: &mut S,
) -> Result<Vec<Row>, StoreError>
    ensures answer { S.tells store.old ≡ true
        → IfOk result (λ rows. rows.items ≡ (S.told store.old).rows Metadata) }
    ensures kept { ReadsOnly S.told S.tells S.faults S.steady store.old store.new }
    ensures fault { FaultsCounted S.faults store.old store.new result StoreError.Fault }
{
    let count = store.count_rows(TableName::Metadata)?;
    store.rows(alloc, TableName::Metadata, 0, count)
}

/// The names of rows of metadata with the algorithm that they name, or the first refusal of the tests over these rows.
pub(crate) fn named_in(alloc: Global, rows: Vec<Row>) -> MbtResult<Named>
    ensures tests { Tests (names_refused rows.items) result }
    ensures named { IfOk result (IsNamedBy rows.items) }
{
    let names = SetNames::of_rows(alloc, rows)?;
    match algorithm_by(alloc, names.text(HASH_ALGORITHM)) {
        Ok(algorithm) => Ok(Named { algorithm, names }),
        Err(refusal) => Err(refusal),
    }
}

/// The algorithm to test digests with: another one where there is a refusal, which then comes before that of a digest.
pub(crate) fn algorithm_or(named: &MbtResult<Named>) -> HashAlgorithm
    ensures { IfOk named.now (λ n. result ≡ n.algorithm) }
{
    match named {
        Ok(named) => named.algorithm,
        Err(_) => HashAlgorithm::Md5,
    }
}
