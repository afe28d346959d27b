//! Laws of caches.
ghost use Rattle.std.specs.Prelude.{List};
ghost use Rattle.mb_cache.specs.declared.entries.Entry.{Entry};
ghost use Rattle.mb_cache.specs.Opening.{Opens};
ghost use Rattle.mb_cache.specs.State.{Agrees};
ghost use Rattle.mb_cache.specs.Common.{Tables};

/// Tables that agree with a cache open again: only running out of memory and faults of their store may refuse them.
/// Each call of a cache leaves such tables, refused or not.
pub fn opens_again()
    ensures { (t : Tables) (es : List Entry) → Agrees t es → Opens t }
{}
