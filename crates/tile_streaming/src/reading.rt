// The rows of contents and of tiles, read in pages, each of which is let go before the next.
ghost use Rattle.std.specs.Prelude.{◌≡◌, ◌+◌, [], true, IfErr, IfOk, List, OnOk, length, nat_le, take};
ghost use Rattle.tile_streaming.specs.Common.{AreIndexed, Cell, FaultsCounted, is_free, ReadsOnly, tile_table};
ghost use Rattle.tile_streaming.specs.Contents.{HasSeen, Knows, SeesContents};
ghost use Rattle.tile_streaming.specs.RowTests.{AreFindings};
ghost use Rattle.tile_streaming.specs.Seen.{SeesRows, SeesTold};

use crate::contents::{Known, SeenContents};
use crate::row_tests::Findings;
use crate::seen_rows::SeenRows;
use mb_store::{MbtError, MbtResult, MbtType, TableName, TileStore};
use std::alloc::Global;
use tile_hash::HashAlgorithm;

/// How many rows a page has at most.
const PAGE: u64 = 512;

/// How many pages are asked for at most: those of 2^64 rows, which no table has.
const MOST_PAGES: u64 = 1 << 55;

// Reads the page of a table of contents from a row on, behind those before it. Whether it is a whole one.
fn read_content_page<S: TileStore>(
    alloc: Global,
    store: &mut S,
    seen: &mut SeenContents,
    table: TableName,
    layout: MbtType,
    algorithm: HashAlgorithm,
    from: u64,
) -> MbtResult<bool>
    ensures seen { SeesTold (SeesContents layout algorithm) (S.tells store.old)
        (take from ((S.told store.old).rows table)) seen.old
        → OnOk result (SeesTold (SeesContents layout algorithm) (S.tells store.old)
        (take (from + PAGE) ((S.told store.old).rows table)) seen.new) }
    ensures whole { S.tells store.old ≡ true → IfOk result
        (λ whole. whole ≡ nat_le (from + PAGE) (length ((S.told store.old).rows table))) }
    ensures free { IfErr result (λ e. is_free e ≡ true) }
    ensures kept { ReadsOnly S.told S.tells S.faults S.steady store.old store.new }
    ensures fault { FaultsCounted S.faults store.old store.new result MbtError.StoreFault }
{
    let page = store.rows(alloc, table, from, PAGE)?;
    let whole = page.len() as u64 >= PAGE;
    seen.see(alloc, layout, algorithm, page)?;
    Ok(whole)
}

// What all rows of a table of contents come to.
fn read_content_table<S: TileStore>(
    alloc: Global,
    store: &mut S,
    table: TableName,
    layout: MbtType,
    algorithm: HashAlgorithm,
) -> MbtResult<SeenContents>
    ensures seen { IfOk result (SeesTold (SeesContents layout algorithm) (S.tells store.old)
        ((S.told store.old).rows table)) }
    ensures free { IfErr result (λ e. is_free e ≡ true) }
    ensures kept { ReadsOnly S.told S.tells S.faults S.steady store.old store.new }
    ensures fault { FaultsCounted S.faults store.old store.new result MbtError.StoreFault }
{
    let mut seen = SeenContents::none(alloc);
    for page in 0..MOST_PAGES {
        let from = page * PAGE;
        let whole = read_content_page(alloc, store, &mut seen, table, layout, algorithm, from)?;
        if !whole {
            return Ok(seen);
        }
    }
    Ok(seen)
}

/// What all rows of contents of a layout come to; one that isn't normalised has none.
pub(crate) fn read_contents<S: TileStore>(
    alloc: Global,
    store: &mut S,
    layout: MbtType,
    algorithm: HashAlgorithm,
) -> MbtResult<SeenContents>
    ensures seen { IfOk result
        (HasSeen layout algorithm (S.tells store.old) (S.told store.old)) }
    ensures free { IfErr result (λ e. is_free e ≡ true) }
    ensures kept { ReadsOnly S.told S.tells S.faults S.steady store.old store.new }
    ensures fault { FaultsCounted S.faults store.old store.new result MbtError.StoreFault }
{
    match layout.normalized_schema() {
        Some(schema) => read_content_table(alloc, store, schema.contents(), layout, algorithm),
        None => Ok(SeenContents::none(alloc)),
    }
}

// Reads the page of rows of tiles from a row on, behind those before it. Whether it is a whole one.
fn read_page<S: TileStore>(
    alloc: Global,
    store: &mut S,
    seen: &mut SeenRows,
    layout: MbtType,
    algorithm: HashAlgorithm,
    known: &Known,
    from: u64,
) -> MbtResult<bool>
    requires { AreIndexed known.now.list.items.items known.now.list.live
        known.now.list.order.items }
    ensures seen { (contents : List (List Cell)) → Knows contents known.now
        → SeesTold (SeesRows layout algorithm contents) (S.tells store.old)
        (take from ((S.told store.old).rows (tile_table layout))) seen.old
        → OnOk result (SeesTold (SeesRows layout algorithm contents) (S.tells store.old)
        (take (from + PAGE) ((S.told store.old).rows (tile_table layout))) seen.new) }
    ensures whole { S.tells store.old ≡ true → IfOk result
        (λ whole. whole ≡ nat_le (from + PAGE)
        (length ((S.told store.old).rows (tile_table layout)))) }
    ensures free { IfErr result (λ e. is_free e ≡ true) }
    ensures kept { ReadsOnly S.told S.tells S.faults S.steady store.old store.new }
    ensures fault { FaultsCounted S.faults store.old store.new result MbtError.StoreFault }
{
    let page = store.rows(alloc, layout.tile_table(), from, PAGE)?;
    seen.see(alloc, layout, algorithm, known, &page)?;
    Ok(page.len() as u64 >= PAGE)
}

/// What all rows of tiles come to, behind what was found in contents: of whole pages, and of the first one that has
/// fewer rows than were asked for.
pub(crate) fn read_rows<S: TileStore>(
    alloc: Global,
    store: &mut S,
    layout: MbtType,
    algorithm: HashAlgorithm,
    known: &Known,
    findings: Findings,
) -> MbtResult<SeenRows>
    requires { AreIndexed known.now.list.items.items known.now.list.live
        known.now.list.order.items }
    ensures seen { (contents : List (List Cell)) → Knows contents known.now
        → AreFindings layout algorithm contents [] findings → IfOk result
        (SeesTold (SeesRows layout algorithm contents) (S.tells store.old)
        ((S.told store.old).rows (tile_table layout))) }
    ensures free { IfErr result (λ e. is_free e ≡ true) }
    ensures kept { ReadsOnly S.told S.tells S.faults S.steady store.old store.new }
    ensures fault { FaultsCounted S.faults store.old store.new result MbtError.StoreFault }
{
    let mut seen = SeenRows::behind(alloc, findings);
    for page in 0..MOST_PAGES {
        let whole = read_page(
            alloc,
            store,
            &mut seen,
            layout,
            algorithm,
            known,
            page * PAGE,
        )?;
        if !whole {
            return Ok(seen);
        }
    }
    Ok(seen)
}
