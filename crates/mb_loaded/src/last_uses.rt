// The last tile that is put with each of the contents.
ghost use Rattle.std.specs.Prelude.{◌≡◌, ◌≢◌, ◌<◌, All, IfOk, length, set};
ghost use Rattle.mb_loaded.specs.Taking.{AreLast};
ghost use Rattle.mb_loaded.specs.Common.{Put};

use base_values::OutOfMemory;
use mb_lists::{Standing, StoredTile};
use std::alloc::{AllocError, Global};

// A first index for each of so many contents.
fn no_uses(alloc: Global, count: usize) -> Result<Vec<usize>, AllocError>
    ensures { IfOk result (λ last. length last.items ≡ count) }
{
    vec![in alloc; 0; count]
}

// Notes the index of a tile with its contents, if it is put.
fn note_use(last: &mut Vec<usize>, index: usize, tile: &StoredTile)
    requires { tile.now.standing ≡ Put → tile.now.contents < length last.old.items }
    ensures put { tile.now.standing ≡ Put
        → last.new.items ≡ set last.old.items tile.now.contents index }
    ensures others { tile.now.standing ≢ Put → last.new.items ≡ last.old.items }
    ensures each { length last.new.items ≡ length last.old.items }
{
    if let Standing::Put = tile.standing {
        last[tile.contents] = index;
    }
}

/// For each of so many contents the index of the last tile that is put with them.
pub(crate) fn last_uses(
    alloc: Global,
    count: usize,
    tiles: &[StoredTile],
) -> Result<Vec<usize>, OutOfMemory>
    requires { All (λ t. t.standing ≡ Put → t.contents < count) tiles.now }
    ensures { IfOk result (λ last. AreLast tiles.now last.items) }
{
    let mut last = no_uses(alloc, count)?;
    let mut index = 0;
    while index < tiles.len() {
        note_use(&mut last, index, &tiles[index]);
        index += 1;
    }
    Ok(last)
}
