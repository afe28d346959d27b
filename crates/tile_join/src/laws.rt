//! Laws of joining.
ghost use Rattle.std.specs.Prelude.{◌≡◌, ℕ, List, Option, Some};
ghost use Rattle.tile_extract.specs.declared.part.TilePart.{TilePart};
ghost use Rattle.tile_join.specs.Common.{canon, FinMap, get, nat_cmp, Options};
ghost use Rattle.tile_join.specs.Join.{IsJoin, joined};
ghost use Rattle.tile_join.specs.Parts.{ArePartsOf, AreUsual, AreWith, Cover};

/// Where archives are the parts of one, by intervals that have an id of each of its tiles, joining them gives its map
/// again. The parts may share ids; where they are apart, each tile comes from the one part that has it.
pub fn parts_joined()
    ensures { (map : ℕ → Option (List ℕ)) (bs : List (List ℕ)) (parts : List TilePart)
        → ArePartsOf map bs parts → Cover map parts → (id : ℕ) → joined bs id ≡ map id }
{}

/// Where these archives also say the same of themselves, with directories labelled `None` and leaves of the usual number
/// of entries, what a join of them leaves is the one archive of that map which says it: the bytes that a conversion of
/// all tiles writes, where each of them is that of a part.
pub fn parts_make_the_whole()
    ensures { (o : Options) (tiles : FinMap nat_cmp (List ℕ)) (bs : List (List ℕ))
        (parts : List TilePart) (most : ℕ) (b : List ℕ) → AreUsual o → AreWith o bs
        → ArePartsOf (get tiles) bs parts → Cover (get tiles) parts → IsJoin (Some bs) most b
        → b ≡ canon o tiles }
{}
