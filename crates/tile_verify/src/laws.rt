//! Laws of the first break.
ghost use Rattle.std.specs.Prelude.{◌≡◌, List, ℕ, None, Ok};
ghost use Rattle.tile_verify.specs.Common.{Opened, opened, Sound};
ghost use Rattle.tile_verify.specs.FirstBreak.{first_break};

/// There is no first break exactly where an archive is sound.
pub fn unbroken_where_sound()
    ensures sound { (b : List ℕ) (o : Opened) → opened b ≡ Ok o → first_break b o ≡ None → Sound b }
    ensures unbroken { (b : List ℕ) (o : Opened) → opened b ≡ Ok o → Sound b
        → first_break b o ≡ None }
{}
