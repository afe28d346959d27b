// A set from the tiles and names that are kept of its rows.
ghost use Rattle.std.specs.Prelude.{◌≡◌, All, IfNone, IfSome, false, is_some, map, true};
ghost use Rattle.mb_loaded.specs.Common.{are_distinct, AreNamesInOrder, IsDated, IsName, Kept, place_cmp, place_of, tile_value};
ghost use Rattle.mb_loaded.specs.HeldEntries.{held_of};
ghost use Rattle.mb_lists.specs.FromRows.{AreIndexed};

use crate::Loaded;
use mb_lists::{NameList, RowTiles, TileList};
use mb_store::{MbtType, PatchType};
use tile_hash::HashAlgorithm;

/// The set of these tiles with their contents, and of these names; none where two tiles have one place. Tiles come in
/// any order, as they were loaded; contents and names are in order.
pub fn set_of(
    layout: MbtType,
    algorithm: HashAlgorithm,
    patch_type: Option<PatchType>,
    rows: RowTiles,
    names: NameList,
) -> Option<Loaded>
    requires indexed { AreIndexed rows.contents.items.items rows.contents.live
        rows.contents.order.items }
    requires whole { All (λ t. is_some (tile_value rows.contents.items.items t) ≡ true)
        rows.tiles.items }
    requires kept { All (λ t. t.standing ≡ Kept) rows.tiles.items }
    requires dated { All (IsDated layout) rows.tiles.items }
    requires names { AreNamesInOrder names.live names.items.items }
    requires texts { All IsName names.items.items }
    ensures held { IfSome result
        (λ l. l ≡ held_of layout algorithm patch_type rows.contents.items.items
        rows.contents.order.items rows.tiles.items names.items.items) }
    ensures apart { IfSome result
        (λ l. are_distinct place_cmp (map place_of rows.tiles.items) ≡ true) }
    ensures twice { IfNone result (are_distinct place_cmp (map place_of rows.tiles.items) ≡ false) }
{
    let RowTiles { contents, tiles } = rows;
    match TileList::in_order(tiles) {
        Some(tiles) => Some(Loaded {
            layout,
            algorithm,
            patch_type,
            contents,
            tiles,
            names,
        }),
        None => None,
    }
}
