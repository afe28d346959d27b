// Contents that no tile has any more.
ghost use Rattle.std.specs.Prelude.{◌≡◌, ◌≤◌, ◌∷◌, [], false, length, not, take, true};
ghost use Rattle.mb_lists.specs.Common.{cell_cmp, is_lt, IsPartitionPoint, IsPermutation, IsSortedBy};
ghost use Rattle.mb_lists.specs.Dropping.{has_id, is_unnamed, marked, marked_unnamed};
ghost use Rattle.mb_lists.specs.Entries.{id_at, is_gone};
ghost use Rattle.mb_lists.specs.Keyed.{behind};

use crate::entries::{Content, Standing, StoredTile, compare_id, compare_ids};
use mb_tables::Cell;
use std::cmp::Ordering;

// The order of two tiles by the ids of their contents, marks behind the others.
fn compare_named(contents: &[Content], tile: &StoredTile, other: &StoredTile) -> Ordering
    ensures { result ≡ behind cell_cmp
        (λ t. id_at contents.now t.contents) is_gone tile.now other.now }
{
    let (mark, other_mark) = (tile.is_mark(), other.is_mark());
    mark.cmp(&other_mark)
        .then(compare_ids(contents, tile.contents, other.contents))
}

/// Puts tiles in the order of the ids of their contents, the marks behind them, and answers how many aren't marks.
pub fn sort_named(contents: &[Content], tiles: &mut Vec<StoredTile>) -> usize
    ensures order { IsSortedBy
        (λ x y. is_lt (cell_cmp (id_at contents.now x.contents) (id_at contents.now y.contents)))
        (take result tiles.new.items) }
    ensures same { IsPermutation tiles.old.items tiles.new.items }
    ensures bound { result ≤ length tiles.new.items }
    ensures point { IsPartitionPoint (λ t. not (is_gone t) ≡ true)
        (λ t. not (is_gone t) ≡ false) tiles.new.items result }
{
    tiles.sort_unstable_by(|a, b| compare_named(contents, a, b));
    tiles.partition_point(|tile| !tile.is_mark())
}

// Whether one of these tiles, which stand in the order of their ids, has the id.
fn has_id(contents: &[Content], tiles: &[StoredTile], id: &Cell) -> bool
    requires { IsSortedBy
        (λ x y. is_lt (cell_cmp (id_at contents.now x.contents) (id_at contents.now y.contents)))
        tiles.now }
    ensures { result ≡ has_id contents.now tiles.now id.now }
{
    tiles
        .binary_search_by(|tile| compare_id(contents, tile.contents, id))
        .is_ok()
}

// Whether no tile has the id of the contents at an index.
fn is_unnamed(contents: &[Content], tiles: &[StoredTile], index: usize) -> bool
    requires { IsSortedBy
        (λ x y. is_lt (cell_cmp (id_at contents.now x.contents) (id_at contents.now y.contents)))
        tiles.now }
    ensures { result ≡ is_unnamed contents.now tiles.now index }
{
    match contents.get(index) {
        Some(content) => !has_id(contents, tiles, &content.id),
        None => !has_id(contents, tiles, &Cell::Null),
    }
}

// Makes the contents at an index a mark.
fn mark(contents: &mut [Content], index: usize)
    ensures { contents.new ≡ marked contents.old index }
{
    if index < contents.len() {
        contents[index].standing = Standing::Removed;
    }
}

// Makes the contents at an index a mark, if no tile has their id.
fn mark_unnamed(contents: &mut [Content], tiles: &[StoredTile], index: usize)
    requires { IsSortedBy
        (λ x y. is_lt (cell_cmp (id_at contents.old x.contents) (id_at contents.old y.contents)))
        tiles.now }
    ensures { contents.new ≡ marked_unnamed tiles.now contents.old (index ∷ []) }
{
    if is_unnamed(contents, tiles, index) {
        mark(contents, index);
    }
}

/// Makes all of these contents marks whose ids no tile has.
pub fn mark_all(contents: &mut [Content], order: &[usize], tiles: &[StoredTile])
    requires { IsSortedBy
        (λ x y. is_lt (cell_cmp (id_at contents.old x.contents) (id_at contents.old y.contents)))
        tiles.now }
    ensures { contents.new ≡ marked_unnamed tiles.now contents.old order.now }
{
    for index in order {
        mark_unnamed(contents, tiles, *index);
    }
}
