// What counts where a tile is there already.
ghost use Rattle.std.specs.Prelude.{◌≡◌};
ghost use Rattle.mb_insert.specs.Mode.{mode_words};

use std::fmt;

/// What counts where a set, or a batch, has a coordinate already.
#[derive(Clone, Copy, Debug, PartialEq, Eq)]
pub enum CopyDuplicateMode {
    /// The new tile, and of several the last.
    Override,
    /// The tile that is there, and of several new ones the first.
    Ignore,
    /// None: the call is refused.
    Abort,
}

impl CopyDuplicateMode {
    // Its word in lower case.
    fn words(self) -> &'static str
        ensures { result.now ≡ mode_words self }
    {
        match self {
            CopyDuplicateMode::Override => "override",
            CopyDuplicateMode::Ignore => "ignore",
            CopyDuplicateMode::Abort => "abort",
        }
    }
}

impl fmt::Display for CopyDuplicateMode {
    ghost use Rattle.std.specs.Prelude.{Some};
    ghost use Rattle.mb_insert.specs.Mode.{mode_words};

    ghost output = { λ m. Some (mode_words m) };

    fn fmt<W: fmt::Write>(&self, f: &mut fmt::Formatter<W>) -> fmt::Result {
        let words = self.words();
        write!(f, "{words}")
    }
}
