// Entries whose bytes may be longer than an entry of a directory can say.
ghost use Rattle.std.specs.Prelude.{◌≡◌};
ghost use Rattle.pm_format.specs.Directory.{Entry, wide_as};

use crate::DirEntry;

/// An entry whose length isn't bound by 2^32 yet, so that directories can be laid out before it is tested.
#[derive(Clone, Copy, Debug, PartialEq, Eq)]
pub struct WideEntry {
    /// The first id.
    pub tile_id: u64,
    /// Where the bytes begin.
    pub offset: u64,
    /// How many bytes there are.
    pub length: u64,
    /// How many ids in a row there are, or 0 at a leaf entry.
    pub run_length: u32,
}

/// What can be written as an entry of a directory.
pub trait AsWide {
    /// The entry.
    ghost entry: { Self → Entry };

    /// Its numbers.
    fn wide(&self) -> WideEntry
        ensures { wide_as result ≡ entry self.now };
}

impl AsWide for WideEntry {
    ghost use Rattle.pm_format.specs.Directory.{wide_as};

    ghost entry = { wide_as };

    fn wide(&self) -> WideEntry {
        *self
    }
}

impl AsWide for DirEntry {
    ghost entry = { λ e. e };

    fn wide(&self) -> WideEntry {
        WideEntry {
            tile_id: self.tile_id,
            offset: self.offset,
            length: u64::from(self.length),
            run_length: self.run_length,
        }
    }
}
