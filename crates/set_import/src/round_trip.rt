//! Laws of archives that are imported and exported again.
ghost use Rattle.std.specs.Prelude.{◌≡◌, ℕ, List};
ghost use Rattle.set_import.specs.Common.{empty, FinMap, get, HasTilesOf, State, state_put, TileSet};
ghost use Rattle.std.specs.Ordering.{nat_cmp};
ghost use Rattle.pm_format.specs.LookUp.{archive_map};
ghost use Rattle.pm_format.specs.Options.{Options};
ghost use Rattle.pm_writer.specs.Archive.{canon};
ghost use Rattle.tile_bridge.specs.Convert.{HoldsExactly, IsArchiveOf};

/// A set that had no tiles before an archive was imported into it has an archive with the same
/// tiles under the same ids.
pub fn imported_and_exported()
    ensures { (b c : List ℕ) (s : State) (tiles : TileSet) → s.tiles ≡ empty → HasTilesOf b tiles
        → HoldsExactly c (state_put s tiles).tiles
        → (id : ℕ) → archive_map c id ≡ archive_map b id }
{}

/// That archive is the one of its options and of the tiles of the first; so an archive that is written so, and
/// imported, is written again with the same bytes.
pub fn exported_as_it_was()
    ensures map { (b c : List ℕ) (s : State) (tiles : TileSet) (o : Options)
        (by_id : FinMap nat_cmp (List ℕ))
        → s.tiles ≡ empty → HasTilesOf b tiles → IsArchiveOf c o (state_put s tiles).tiles
        → ((id : ℕ) → get by_id id ≡ archive_map b id) → c ≡ canon o by_id }
    ensures same { (b c : List ℕ) (s : State) (tiles : TileSet) (o : Options)
        (by_id : FinMap nat_cmp (List ℕ))
        → s.tiles ≡ empty → HasTilesOf b tiles → IsArchiveOf c o (state_put s tiles).tiles
        → ((id : ℕ) → get by_id id ≡ archive_map b id) → b ≡ canon o by_id → c ≡ b }
{}
