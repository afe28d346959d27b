// Kinds of patches.
ghost use Rattle.std.specs.Prelude.{◌≡◌};
ghost use Rattle.mb_tables.specs.PatchType.{patch_text};
ghost use Rattle.mb_tables.specs.PatchType.{cli_patch_words, patch_of, patch_words};

use std::fmt;

/// How a patch of tiles holds the differences.
#[derive(Clone, Copy, Debug, PartialEq, Eq)]
pub enum PatchType {
    /// Differences of tiles that are decoded as gzip first, in the table `bsdiffrawgz`.
    BinDiffGz,
    /// Differences of tiles as they are, in the table `bsdiffraw`.
    BinDiffRaw,
}

impl PatchType {
    // Its words in lower case.
    fn words(self) -> &'static str
        ensures { result.now ≡ patch_words self }
    {
        match self {
            PatchType::BinDiffGz => "bin-diff-gz",
            PatchType::BinDiffRaw => "bin-diff-raw",
        }
    }
}

/// The table that holds the differences of a patch of this kind.
pub fn get_bsdiff_tbl_name(patch_type: PatchType) -> &'static str
    ensures { result.now ≡ patch_text patch_type }
{
    match patch_type {
        PatchType::BinDiffGz => "bsdiffrawgz",
        PatchType::BinDiffRaw => "bsdiffraw",
    }
}

impl fmt::Display for PatchType {
    ghost use Rattle.std.specs.Prelude.{Some};
    ghost use Rattle.mb_tables.specs.PatchType.{patch_words};

    ghost output = { λ t. Some (patch_words t) };

    fn fmt<W: fmt::Write>(&self, f: &mut fmt::Formatter<W>) -> fmt::Result {
        let words = self.words();
        write!(f, "{words}")
    }
}

/// The kinds of patches that a command line names.
#[derive(Clone, Copy, Debug, PartialEq, Eq)]
pub enum PatchTypeCli {
    /// Whole tiles.
    Whole,
    /// Differences of tiles that are decoded as gzip first.
    BinDiffGz,
    /// Differences of tiles as they are.
    BinDiffRaw,
}

impl Default for PatchTypeCli {
    ghost use Rattle.mb_tables.specs.declared.patch_type.PatchTypeCli.TheVariants.{Whole};

    ghost is_default = { λ kind. kind ≡ Whole };

    fn default() -> PatchTypeCli {
        PatchTypeCli::Whole
    }
}

impl PatchTypeCli {
    /// The kind of the same name; None for whole tiles.
    pub fn patch_type(self) -> Option<PatchType>
        ensures { result ≡ patch_of self }
    {
        match self {
            PatchTypeCli::Whole => None,
            PatchTypeCli::BinDiffGz => Some(PatchType::BinDiffGz),
            PatchTypeCli::BinDiffRaw => Some(PatchType::BinDiffRaw),
        }
    }

    // Its words in lower case.
    fn words(self) -> &'static str
        ensures { result.now ≡ cli_patch_words self }
    {
        match self {
            PatchTypeCli::Whole => "whole",
            PatchTypeCli::BinDiffGz => "bin-diff-gz",
            PatchTypeCli::BinDiffRaw => "bin-diff-raw",
        }
    }
}

impl fmt::Display for PatchTypeCli {
    ghost use Rattle.std.specs.Prelude.{Some};
    ghost use Rattle.mb_tables.specs.PatchType.{cli_patch_words};

    ghost output = { λ t. Some (cli_patch_words t) };

    fn fmt<W: fmt::Write>(&self, f: &mut fmt::Formatter<W>) -> fmt::Result {
        let words = self.words();
        write!(f, "{words}")
    }
}
