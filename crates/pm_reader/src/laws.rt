//! Laws of look-ups.
ghost use Rattle.std.specs.Prelude.{◌≡◌, ℕ, suc, ◌+◌, Bool, List, IsOk};
ghost use Rattle.pm_reader.specs.Common.{archive_tile, Entry, Header};
ghost use Rattle.pm_format.specs.Options.{Options};
ghost use Rattle.pm_format.specs.Sound.{Sound};
ghost use Rattle.pm_format.specs.WellFormed.{WellFormed};
ghost use Rattle.pm_reader.specs.Archives.{UsesOneLength};
ghost use Rattle.pm_reader.specs.Walk.{along, levels};

/// In a sound archive each look-up ends well: with a tile, or with none.
pub fn sound_answers()
    ensures { (b : List ℕ) (t : ℕ) → Sound b → IsOk (archive_tile b t) }
{}

/// In a well-formed archive each leaf offset is used with one length, so that a cache changes no answer.
pub fn archives_are_cacheable()
    ensures { (b : List ℕ) (o : Options) (clustered : Bool) → WellFormed b o clustered
        → UsesOneLength b }
{}

/// A walk doesn't reach deeper levels than its budget: more of them change nothing.
pub fn levels_are_enough()
    ensures { (h : Header) (b : List ℕ) (root : List Entry) (budget more : ℕ)
        → along h b budget (levels (suc budget + more) h b root) ≡ along h b budget
        (levels (suc budget) h b root) }
{}
