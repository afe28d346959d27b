// The rows of a cache, read in pages, each of which is let go before the next.
ghost use Rattle.std.specs.Prelude.{◌≡◌, ◌≤◌, ◌-◌, ◌++◌, Some, false, true, IfErr, IfOk, List, OnOk, length, take};
ghost use Rattle.mb_cache.specs.Seen.{SeesRows};
ghost use Rattle.mb_cache.specs.Common.{Cache, Cell, FaultsCounted, is_free, Metadata, ReadsOnly, tile_kind_wrong, TileCache};

use crate::seen_rows::SeenRows;
use mb_store::{MbtError, MbtResult, Row, StoreError, TableName, TileStore};
use std::alloc::Global;

/// How many rows of tiles a page has at most.
const PAGE: u64 = 64;

// How many rows the next page has, of so many that are left.
fn page_size(left: u64) -> u64
    ensures within { result ≤ left }
    ensures some { 1 ≤ left → 1 ≤ result }
    ensures most { result ≤ 64 }
{
    left.min(PAGE)
}

// How many rows are left behind a page: none behind one that is shorter than was asked for.
fn left_after(left: u64, asked: u64, read: u64) -> u64
    requires { asked ≤ left }
    ensures whole { asked ≤ read → result ≡ left - asked }
    ensures within { result ≤ left - asked }
{
    if read < asked { 0 } else { left - asked }
}

// Reads the next page of so many rows of which so many are left, and answers how many are left behind it.
fn read_page<S: TileStore>(
    alloc: Global,
    store: &mut S,
    seen: &mut SeenRows,
    count: u64,
    left: u64,
) -> MbtResult<u64>
    requires { left ≤ count }
    ensures seen { S.tells store.old ≡ true → count ≡ length ((S.told store.old).rows TileCache) →
        SeesRows (take (count - left) ((S.told store.old).rows TileCache)) seen.old →
        IfOk result (λ rest. SeesRows
        (take (count - rest) ((S.told store.old).rows TileCache)) seen.new) }
    ensures more { (rows : List (List Cell)) → SeesRows rows seen.old →
        OnOk result ((more : List (List Cell)) × SeesRows (rows ++ more) seen.new) }
    ensures fewer { IfOk result (λ rest. rest ≤ left - 1) }
    ensures refused { S.tells store.old ≡ true →
        IfErr result (λ e. is_free e ≡ false →
        tile_kind_wrong Cache ((S.told store.old).rows TileCache) ≡ Some e) }
    ensures kind { IfErr result (λ e. is_free e ≡ false → e ≡ MbtError.InvalidDataFormat) }
    ensures kept { ReadsOnly S.told S.tells S.faults S.steady store.old store.new }
    ensures fault { FaultsCounted S.faults store.old store.new result MbtError.StoreFault }
{
    let asked = page_size(left);
    let page = store.rows(alloc, TableName::TileCache, count - left, asked)?;
    seen.see(alloc, &page)?;
    Ok(left_after(left, asked, page.len() as u64))
}

/// What all rows of a cache come to, as many as the store counts. A page that is shorter than was
/// asked for is the last one.
pub(crate) fn read_rows<S: TileStore>(alloc: Global, store: &mut S) -> MbtResult<SeenRows>
    ensures seen { S.tells store.old ≡ true →
        IfOk result (SeesRows ((S.told store.old).rows TileCache)) }
    ensures own { IfOk result (λ seen. (rows : List (List Cell)) × SeesRows rows seen) }
    ensures refused { S.tells store.old ≡ true →
        IfErr result (λ e. is_free e ≡ false →
        tile_kind_wrong Cache ((S.told store.old).rows TileCache) ≡ Some e) }
    ensures kind { IfErr result (λ e. is_free e ≡ false → e ≡ MbtError.InvalidDataFormat) }
    ensures kept { ReadsOnly S.told S.tells S.faults S.steady store.old store.new }
    ensures fault { FaultsCounted S.faults store.old store.new result MbtError.StoreFault }
{
    let count = store.count_rows(TableName::TileCache)?;
    let mut seen = SeenRows::none(alloc);
    let mut left = read_page(alloc, store, &mut seen, count, count)?;
    while left > 0 {
        left = read_page(alloc, store, &mut seen, count, left)?;
    }
    Ok(seen)
}

/// The rows of metadata.
pub(crate) fn read_metadata<S: TileStore>(
    alloc: Global,
    store: &mut S,
) -> Result<Vec<Row>, StoreError>
    ensures answer { S.tells store.old ≡ true →
        IfOk result (λ rows. rows.items ≡ (S.told store.old).rows Metadata) }
    ensures kept { ReadsOnly S.told S.tells S.faults S.steady store.old store.new }
    ensures fault { FaultsCounted S.faults store.old store.new result StoreError.Fault }
{
    let count = store.count_rows(TableName::Metadata)?;
    store.rows(alloc, TableName::Metadata, 0, count)
}
