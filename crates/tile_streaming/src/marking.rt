// The marks of a set, read page by page.
ghost use Rattle.std.specs.Prelude.{◌≡◌, true};
ghost use Rattle.tile_streaming.specs.Common.{FaultsCounted, ReadsOnly, Tables};
ghost use Rattle.tile_streaming.specs.Marks.{IsMarked};
ghost use Rattle.tile_streaming.specs.Seen.{AreMarkedFrom};

use crate::contents::ReadContents;
use crate::described::layout_in;
use crate::mark::MarkedSet;
use crate::names::{algorithm_or, named_in, read_metadata};
use crate::reading::{read_contents, read_rows};
use mb_store::{MbtError, MbtResult, MbtType, TileStore};
use std::alloc::Global;

// The marked set of a layout, or the first refusal of the tests over its rows.
fn marked_set<S: TileStore>(alloc: Global, store: &mut S, layout: MbtType) -> MbtResult<MarkedSet>
    ensures marked { AreMarkedFrom layout (S.tells store.old) (S.told store.old) result }
    ensures kept { ReadsOnly S.told S.tells S.faults S.steady store.old store.new }
    ensures fault { FaultsCounted S.faults store.old store.new result MbtError.StoreFault }
{
    let metadata = read_metadata(alloc, store)?;
    let named = named_in(alloc, metadata);
    let algorithm = algorithm_or(&named);
    let seen = read_contents(alloc, store, layout, algorithm)?;
    let ReadContents { findings, known } = seen.in_order(alloc)?;
    let rows = read_rows(alloc, store, layout, algorithm, &known, findings)?;
    rows.settle(layout, named)
}

/// The marks of a set, or the first refusal of the tests of loading, in their order. Rows are read by pages, those of
/// the contents of a normalised set first, and the contents of a page are let go with it.
///
/// The refusals, and what of a store that tells nothing, are those of `mb_load::load`.
pub fn read_marks<S: TileStore>(alloc: Global, store: &mut S) -> MbtResult<MarkedSet>
    ensures answer { S.tells store.old ≡ true → IsMarked (S.told store.old) result }
    ensures own { (t : Tables) × IsMarked t result }
    ensures kept { ReadsOnly S.told S.tells S.faults S.steady store.old store.new }
    ensures fault { FaultsCounted S.faults store.old store.new result MbtError.StoreFault }
{
    let descriptions = store.describe(alloc)?;
    let layout = layout_in(&descriptions)?;
    marked_set(alloc, store, layout)
}
