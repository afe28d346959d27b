// The tiles of the rows of each layout.
ghost use Rattle.std.specs.Prelude.{◌≡◌, All, IfOk, None, [], false};
ghost use Rattle.mb_load.specs.Common.{AreIndexed, bad_tile, contents_by_id, contents_held, first_refused, is_normalized, Kept, missing_reference, rows_kept};
ghost use Rattle.mb_load.specs.RowTiles.{AreTilesOf};

use base_values::OutOfMemory;
use mb_lists::{ContentList, RowTiles, cache_tiles, flat_tiles, named_tiles};
use mb_store::{MbtType, Row};
use std::alloc::Global;

/// The tiles of rows that passed their tests, with their contents.
pub(crate) fn tiles_of(
    alloc: Global,
    layout: MbtType,
    contents: ContentList,
    rows: Vec<Row>,
) -> Result<RowTiles, OutOfMemory>
    requires indexed { AreIndexed contents.items.items contents.live contents.order.items }
    requires fresh { All (λ c. c.standing ≡ Kept) contents.items.items }
    requires none { is_normalized layout ≡ false → contents.items.items ≡ [] }
    requires pass { first_refused (bad_tile layout (rows_kept contents.items.items)) rows.items
        ≡ None }
    requires there { first_refused (missing_reference layout (rows_kept contents.items.items))
        rows.items ≡ None }
    ensures tiles { IfOk result
        (λ t. AreTilesOf layout (rows_kept contents.items.items) rows.items t.contents.items.items
        t.tiles.items) }
    ensures indexed { IfOk result
        (λ t. AreIndexed t.contents.items.items t.contents.live t.contents.order.items) }
    ensures fresh { IfOk result (λ t. All (λ c. c.standing ≡ Kept) t.contents.items.items) }
    ensures held { IfOk result
        (λ t. contents_held t.contents.items.items t.contents.order.items ≡ contents_by_id
        (rows_kept contents.items.items)) }
{
    match layout {
        MbtType::Flat => {
            let flat = flat_tiles(alloc, rows)?;
            Ok(flat)
        }
        MbtType::FlatWithHash => {
            let hashed = flat_tiles(alloc, rows)?;
            Ok(hashed)
        }
        MbtType::Cache => {
            let cached = cache_tiles(alloc, rows)?;
            Ok(cached)
        }
        MbtType::Normalized { .. } => {
            let named = named_tiles(alloc, contents, rows)?;
            Ok(named)
        }
    }
}
