// Directories: entries whose ids don't fall.
ghost use Rattle.std.specs.Prelude.{◌≡◌, ◌*◌, length};
ghost use Rattle.pm_format.specs.Directory.{IdsDontFall};

mod decode;
mod encode;
mod search;

use crate::DirEntry;
pub use decode::offset_by;
pub use encode::encode_entries;
pub use search::covering;
use std::fmt;
use std::marker::Model;

/// A directory of an archive: entries whose ids don't fall (PMTiles specification version 3, directories).
#[derive(Drop)]
pub struct Directory {
    entries: Vec<DirEntry>,
}

impl Model for Directory {
    ghost use Rattle.std.specs.Prelude.{List};
    ghost use Rattle.pm_format.specs.Directory.{Entry, IdsDontFall};

    ghost Value = { List Entry };

    ghost view = { λ d. d.entries.items };

    ghost invariant = { λ d. IdsDontFall d.entries.items };
}

impl Directory {
    /// The directory of these entries.
    pub fn from_entries(entries: Vec<DirEntry>) -> Directory
        requires { IdsDontFall entries.items }
        ensures { result ≡ entries.items }
    {
        Directory { entries }
    }

    /// The entries, in their order.
    pub fn entries(&self) -> &[DirEntry]
        ensures value { result.now ≡ self.now }
        ensures ordered { IdsDontFall self.now }
    {
        self.entries.as_slice()
    }

    /// How many bytes the entries take in memory: 24 for each.
    pub fn get_approx_byte_size(&self) -> usize
        ensures { result ≡ 24 * length self.now }
    {
        byte_size(self.entries())
    }
}

fn byte_size(entries: &[DirEntry]) -> usize
    ensures { result ≡ 24 * length entries.now }
{
    24 * entries.len()
}

impl fmt::Debug for Directory {
    fn fmt<W: fmt::Write>(&self, f: &mut fmt::Formatter<W>) -> fmt::Result {
        write!(f, "Directory [entries: {}]", self.entries.len())
    }
}
