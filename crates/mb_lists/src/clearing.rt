// Items that come to their place, and leave it, in the memory that there is.
ghost use Rattle.std.specs.Prelude.{◌≡◌, ◌<◌, ◌≤◌, ◌+◌, ◌++◌, ◌∷◌, [], IfSome, length, position, slice_index_or, vec_capacity, vec_len};
ghost use Rattle.mb_lists.specs.Common.{cell_cmp, insert, nat_cmp, place_cmp, remove, slice_cmp};
ghost use Rattle.mb_lists.specs.Clearing.{name_mark, tile_mark, unmarked};
ghost use Rattle.mb_lists.specs.Entries.{id_at, name_of, place_at, place_of};
ghost use Rattle.mb_lists.specs.Keyed.{at_key};
ghost use Rattle.mb_lists.specs.declared.entries.StoredName.{StoredName};

use crate::entries::{Content, Standing, StoredName, StoredTile, compare_ids, compare_places};
use mb_tables::Cell;
use tile_ids::TileCoord;

/// Puts an item at an index below `live`, in place of its mark if it has one, which is counted from `live` on.
pub(crate) fn put_at<T: Drop>(
    items: &mut Vec<T>,
    live: usize,
    mark: Option<usize>,
    at: usize,
    item: T,
)
    requires place { at ≤ live }
    requires bound { live ≤ length items.old.items }
    requires mark { IfSome mark (λ j. live + j < length items.old.items) }
    requires room { vec_len items.old < vec_capacity items.old }
    ensures { items.new.items ≡ insert (unmarked live mark items.old.items) at item }
{
    if let Some(mark) = mark {
        items.remove(live + mark);
    }
    if items.insert(at, item).is_err() {
        prove!(false);
    }
}

/// Takes the tile at a coordinate out, and puts its mark behind the others.
pub(crate) fn mark_tile(items: &mut Vec<StoredTile>, at: usize, coord: TileCoord)
    requires { at < length items.old.items }
    ensures { items.new.items ≡ remove items.old.items at ++ tile_mark coord ∷ [] }
{
    items.remove(at);
    if items.push(StoredTile::mark(coord)).is_err() {
        prove!(false);
    }
}

/// Takes an entry out, and puts its mark behind the others.
pub(crate) fn mark_name(items: &mut Vec<StoredName>, at: usize)
    requires { at < length items.old.items }
    ensures { (d : StoredName)
        → items.new.items ≡ remove items.old.items at ++ name_mark
        (slice_index_or items.old.items at d).name ∷ [] }
{
    let mut entry = items.remove(at);
    entry.value = Cell::Null;
    entry.standing = Standing::Removed;
    if items.push(entry).is_err() {
        prove!(false);
    }
}

/// The first of these tiles that is at a coordinate.
pub(crate) fn tile_position(tiles: &[StoredTile], coord: TileCoord) -> Option<usize>
    ensures { result ≡ position (at_key place_cmp place_of (place_at coord)) tiles.now }
{
    tiles
        .iter()
        .position(|tile| compare_places(coord, tile.coord).is_eq())
}

/// The first of these entries that has a name.
pub(crate) fn name_position(names: &[StoredName], name: &str) -> Option<usize>
    ensures { result ≡ position (at_key (slice_cmp nat_cmp) name_of name.now) names.now }
{
    names
        .iter()
        .position(|entry| name.cmp(entry.name.as_str()).is_eq())
}

/// The first of these contents that has the id of the contents at an index.
pub(crate) fn id_position(contents: &[Content], order: &[usize], index: usize) -> Option<usize>
    ensures { result ≡ position (at_key cell_cmp (id_at contents.now) (id_at contents.now index))
        order.now }
{
    order
        .iter()
        .position(|other| compare_ids(contents, index, *other).is_eq())
}
