//! Laws of batches.
ghost use Rattle.std.specs.Prelude.{◌≡◌, ◌++◌, List, map, reverse};
ghost use Rattle.mb_insert.specs.Common.{entries, from_entries, TileSet};
ghost use Rattle.mb_edit.specs.Patched.{patched};
ghost use Rattle.mb_insert.specs.Batch.{entry_of, put_of};
ghost use Rattle.mb_insert.specs.declared.new_tile.NewTile.{NewTile};

use crate::CopyDuplicateMode;

/// In mode `Override` a set afterwards has the batch over it: at each place the last of the batch, else what it had.
pub fn over_the_set()
    ensures { (tiles : TileSet) (batch : List NewTile)
        → patched tiles (put_of CopyDuplicateMode.Override tiles batch) ≡ from_entries
        (map entry_of (reverse batch) ++ entries tiles) }
{}

/// In the other modes it has the batch under it: at each place what it had, null too, else the first of the batch.
pub fn under_the_set()
    ensures ignore { (tiles : TileSet) (batch : List NewTile)
        → patched tiles (put_of CopyDuplicateMode.Ignore tiles batch) ≡ from_entries
        (entries tiles ++ map entry_of batch) }
    ensures abort { (tiles : TileSet) (batch : List NewTile)
        → patched tiles (put_of CopyDuplicateMode.Abort tiles batch) ≡ from_entries
        (entries tiles ++ map entry_of batch) }
{}
