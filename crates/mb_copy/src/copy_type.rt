// What of a set is copied.
ghost use Rattle.std.specs.Prelude.{◌≡◌};
ghost use Rattle.mb_copy.specs.CopyWords.{copies_metadata, copies_tiles, copy_words};

use std::fmt;

/// What of a set is copied.
#[derive(Clone, Copy, Debug, PartialEq, Eq, Hash)]
pub enum CopyType {
    /// Its tiles and its metadata.
    All,
    /// Its metadata alone.
    Metadata,
    /// Its tiles alone.
    Tiles,
}

impl Default for CopyType {
    ghost use Rattle.mb_copy.specs.declared.copy_type.CopyType.TheVariants.{All};

    ghost is_default = { λ copy. copy ≡ All };

    fn default() -> CopyType {
        CopyType::All
    }
}

impl CopyType {
    /// Whether tiles are copied.
    pub fn copy_tiles(self) -> bool
        ensures { result ≡ copies_tiles self }
    {
        matches!(self, CopyType::All | CopyType::Tiles)
    }

    /// Whether metadata is copied.
    pub fn copy_metadata(self) -> bool
        ensures { result ≡ copies_metadata self }
    {
        matches!(self, CopyType::All | CopyType::Metadata)
    }

    // Its word in lower case.
    fn words(self) -> &'static str
        ensures { result.now ≡ copy_words self }
    {
        match self {
            CopyType::All => "all",
            CopyType::Metadata => "metadata",
            CopyType::Tiles => "tiles",
        }
    }
}

impl fmt::Display for CopyType {
    ghost use Rattle.std.specs.Prelude.{Some};
    ghost use Rattle.mb_copy.specs.CopyWords.{copy_words};

    ghost output = { λ t. Some (copy_words t) };

    fn fmt<W: fmt::Write>(&self, f: &mut fmt::Formatter<W>) -> fmt::Result {
        let words = self.words();
        write!(f, "{words}")
    }
}
