// Lists of a set that is let go, which give their room back while they are spent.
ghost use Rattle.std.specs.Prelude.{◌≡◌, ◌<◌, ◌≤◌, ◌++◌, ℕ, List, None, Some, [], length, nat_lt, option_to_list, slice_get, true};
ghost use Rattle.mb_loaded.specs.Taking.{AreUnspent, IsSpent};
ghost use Rattle.mb_loaded.specs.Common.{Content};

use mb_lists::{Content, StoredTile, kept_id};
use std::collections::VecDeque;

/// Takes the first of the tiles that are left. Their room is given back once half of it is free.
pub(crate) fn next_tile(tiles: &mut VecDeque<StoredTile>) -> Option<StoredTile>
    ensures first { tiles.old.items ≡ option_to_list result ++ tiles.new.items }
    ensures none { result ≡ None → tiles.new.items ≡ [] }
{
    let tile = tiles.pop_front();
    if tiles.len() <= tiles.capacity() / 2 {
        tiles.shrink_to_fit();
    }
    tile
}

// Whether the last use of the contents at an index is by a tile before another index.
fn is_past(last: &[usize], at: usize, index: usize) -> bool
    ensures { (m : ℕ) → slice_get last.now at ≡ Some m → result ≡ nat_lt m index }
{
    match last.get(at) {
        Some(tile) => *tile < index,
        None => true,
    }
}

// Whether the contents at an index have no id, and no tile from another index on is put with them.
fn is_spent(contents: &[Content], last: &[usize], at: usize, index: usize) -> bool
    ensures { result ≡ true → IsSpent contents.now last.now at index }
{
    match kept_id(contents, at) {
        Some(_) => false,
        None => is_past(last, at, index),
    }
}

// How many contents there are without those at the end that are spent before the tile at an index.
fn unspent_count(contents: &[Content], last: &[usize], index: usize) -> usize
    ensures { (k : ℕ) → result ≤ k → k < length contents.now
        → IsSpent contents.now last.now k index }
{
    let mut left = contents.len();
    while left > 0 {
        if !is_spent(contents, last, left - 1, index) {
            return left;
        }
        left -= 1;
    }
    left
}

// Gives the room of contents back once half of it is free.
fn give_back(contents: &mut Vec<Content>)
    ensures { contents.new.items ≡ contents.old.items }
{
    if contents.len() <= contents.capacity() / 2 {
        contents.shrink_to_fit();
    }
}

/// Takes the contents at the end off their list that are spent before the tile at an index.
pub(crate) fn drop_spent(contents: &mut Vec<Content>, last: &[usize], index: usize)
    ensures { (first : List Content) → AreUnspent first contents.old.items last.now index
        → AreUnspent first contents.new.items last.now index }
{
    let left = unspent_count(contents.as_slice(), last, index);
    contents.truncate(left);
    give_back(contents);
}
