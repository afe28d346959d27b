//! Laws of what archives say of themselves.
ghost use Rattle.std.specs.Prelude.{◌≡◌, ℤ, Some, false};
ghost use Rattle.mb_loaded.specs.State.{State};
ghost use Rattle.pm_format.specs.Options.{Options};
ghost use Rattle.set_options.specs.ArchiveJson.{archive_data};
ghost use Rattle.set_options.specs.DegreesText.{IsWithin, degrees_text};
ghost use Rattle.set_options.specs.Degrees.{degrees_of};
ghost use Rattle.set_options.specs.OptionsOfSet.{AreOptionsOfSet};
ghost use Rattle.serde_json.specs.Written.{has_float};

/// The text of degrees, up to 180 of them, is read by `set_options` as the number that it was made of.
pub fn degrees_are_read_back()
    ensures { (z : ℤ) → IsWithin z → degrees_of (degrees_text z) ≡ Some z }
{}

/// A set whose metadata has no floating-point numbers gives its archive one set of options.
pub fn sets_give_options_once()
    ensures { (s : State) (x y : Options) → has_float (archive_data s.metadata) ≡ false
        → AreOptionsOfSet s x → AreOptionsOfSet s y → x ≡ y }
{}
