//! Laws of patches, and of tiles that are put.
ghost use Rattle.std.specs.Prelude.{◌≡◌, None, Some, false, true};
ghost use Rattle.mb_edit.specs.Common.{contains_key, get, Held, IsLoadedFrom, IsOnBoard, NamesAlgorithm, nothing_edited, Place, Tables, TileSet};
ghost use Rattle.mb_edit.specs.Patched.{patched, patched_at};
ghost use Rattle.mb_edit.specs.Put.{may_put, tiles_put};
ghost use Rattle.mb_edit.specs.PutTables.{ArePut};
ghost use Rattle.mb_load.specs.Committing.{MakesChanges};
ghost use Rattle.mb_store.specs.Store.{IsSound};

/// A patched set has at each place the bytes of the patch where that has bytes, no tile where it
/// has null, else what it had.
pub fn patched_at_each_place()
    ensures { (tiles patch : TileSet) (place : Place) → get (patched tiles patch) place ≡ patched_at
        (λ bytes. Some (Some bytes)) (get patch place) (get tiles place) }
{}

/// A patch that is made twice makes what it makes once.
pub fn patched_twice()
    ensures { (tiles patch : TileSet) → patched (patched tiles patch) patch ≡ patched tiles patch }
{}

/// A place that the patch doesn't name keeps what it has.
pub fn unnamed_places_stay()
    ensures { (tiles patch : TileSet) (place : Place) → contains_key patch place ≡ false
        → get (patched tiles patch) place ≡ get tiles place }
{}

/// What a commit makes of the tables that a set was loaded from, after tiles were put into it.
pub fn put_tiles_committed()
    ensures { (h : Held) (tiles : TileSet) (old new : Tables) → h.edited ≡ nothing_edited
        → IsLoadedFrom old h → NamesAlgorithm h.state
        → ((p : Place) → contains_key tiles p ≡ true → IsOnBoard p) → may_put h.state tiles ≡ None
        → IsSound new → MakesChanges (tiles_put h tiles) old new → ArePut tiles h.state old new }
{}
