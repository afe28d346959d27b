//! Laws of sets that are made of archives.
ghost use Rattle.std.specs.Prelude.{◌≡◌, ℕ, List, [], Some};
ghost use Rattle.set_import.specs.Common.{IsSound, Tables};
ghost use Rattle.set_import.specs.Filling.{IsMade};
ghost use Rattle.set_import.specs.NewSet.{IsNewSet};

/// What `import_as_said` makes in a store that described nothing loads as a flat set, with exactly the tiles of the
/// archive and exactly the names of what the archive says of itself.
pub fn new_sets_load()
    ensures { (b : List ℕ) (old new : Tables) (n : ℕ) → IsSound old → old.descriptions ≡ []
        → IsMade (Some b) old new n → IsNewSet b new }
{}
