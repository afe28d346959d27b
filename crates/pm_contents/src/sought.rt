// What bytes were found as among contents.
ghost use Rattle.std.specs.Prelude.{◌≡◌, is_none};
ghost use Rattle.pm_contents.specs.Sought.{place_sought};

use crate::Content;

/// What bytes were found as.
#[derive(Drop)]
pub enum Sought {
    /// A content that begins at this place.
    Known(u64),
    /// None of the contents, and none of them has this digest of theirs.
    First(u64),
    /// None of the contents, but another one has their digest.
    Other(Content),
}

impl Sought {
    /// Whether they are none of the contents.
    pub fn is_new(&self) -> bool
        ensures { result ≡ is_none (place_sought self.now) }
    {
        !matches!(self, Sought::Known(_))
    }
}
