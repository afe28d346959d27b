// The bytes of a content, as a key of an ordered map.
ghost use Rattle.std.specs.Prelude.{◌≡◌, IfOk};

use std::alloc::{AllocError, Global};
use std::cmp::Ordering;
use std::marker::Model;

/// The bytes of a content, which are compared as lists of numbers.
#[derive(Drop)]
pub struct Content {
    bytes: Vec<u8>,
}

impl Model for Content {
    ghost use Rattle.std.specs.Prelude.{ℕ, List};

    ghost Value = { List ℕ };

    ghost view = { λ c. c.bytes.items };
}

impl Content {
    /// A copy of these bytes.
    pub fn new(alloc: Global, bytes: &[u8]) -> Result<Content, AllocError>
        ensures { IfOk result (λ c. c ≡ bytes.now) }
    {
        Ok(Content {
            bytes: Vec::from_slice(alloc, bytes)?,
        })
    }

    /// The bytes themselves.
    pub fn as_bytes(&self) -> &[u8]
        ensures { result.now ≡ self.now }
    {
        self.bytes.as_slice()
    }
}

impl PartialEq for Content {
    ghost use Rattle.pm_contents.specs.Common.{bytes_eq, nat_list_eq_equiv};
    ghost use Rattle.std.specs.Cmp.{partial_equiv_from_equiv};

    ghost eq = { bytes_eq };

    ghost laws = { partial_equiv_from_equiv nat_list_eq_equiv };

    fn eq(&self, other: &Self) -> bool {
        self.as_bytes() == other.as_bytes()
    }
}

impl Eq for Content {
    ghost use Rattle.pm_contents.specs.Common.{nat_list_eq_equiv};

    ghost laws = { nat_list_eq_equiv };
}

impl PartialOrd for Content {
    ghost use Rattle.std.specs.Prelude.{Some};
    ghost use Rattle.pm_contents.specs.Common.{texts_po};
    ghost use Rattle.pm_contents.specs.Contents.{content_cmp};

    ghost partial_cmp = { λ x y. Some (content_cmp x y) };

    ghost laws = { texts_po };

    fn partial_cmp(&self, other: &Self) -> Option<Ordering> {
        Some(self.cmp(other))
    }
}

impl Ord for Content {
    ghost use Rattle.std.specs.Prelude.{refl};
    ghost use Rattle.pm_contents.specs.Common.{nat_list_cmp_total, texts_ties};
    ghost use Rattle.pm_contents.specs.Contents.{content_cmp};

    ghost cmp = { content_cmp };

    ghost total = { nat_list_cmp_total };

    ghost matches_partial_cmp = { λ x y. refl };

    ghost matches_eq = { texts_ties };

    fn cmp(&self, other: &Self) -> Ordering {
        self.as_bytes().cmp(other.as_bytes())
    }
}
