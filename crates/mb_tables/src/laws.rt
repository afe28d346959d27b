//! Laws of the definitions that contracts of tile sets speak of.
ghost use Rattle.std.specs.Prelude.{◌≡◌, if◌then◌else◌, None};
ghost use Rattle.mb_tables.specs.Common.{find, get};
ghost use Rattle.mb_tables.specs.declared.kind.MbtType.{MbtType};
ghost use Rattle.mb_tables.specs.Table.{Tables};
ghost use Rattle.mb_tables.specs.Tiles.{Place, TileSet, is_solid, pairs_of, place_cmp, solid, tiles_of};

/// The set of tiles that tables hold has at each place the contents of the first row there.
pub fn tiles_at_each_place()
    ensures { (layout : MbtType) (t : Tables) (place : Place)
        → get (tiles_of layout t) place ≡ find place_cmp place (pairs_of layout t) }
{}

/// The solid part of a set has at each place what the set has there, where that is at least one byte.
pub fn solid_at_each_place()
    ensures { (t : TileSet) (place : Place)
        → get (solid t) place ≡ (if is_solid (get t place) then get t place else None) }
{}
