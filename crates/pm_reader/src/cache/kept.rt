// Directories in a cache, with what each of them weighs.
ghost use Rattle.std.specs.Prelude.{◌≡◌};

use bounded_lru::Weigh;
use pm_format::Directory;
use std::marker::Model;

/// A directory in a cache. It weighs as much as it has entries.
#[derive(Drop)]
pub(crate) struct KeptDirectory {
    directory: Directory,
}

impl Model for KeptDirectory {
    ghost use Rattle.std.specs.Prelude.{List};
    ghost use Rattle.pm_reader.specs.Common.{Entry};

    ghost Value = { List Entry };

    ghost view = { λ k. k.directory };
}

impl KeptDirectory {
    pub(crate) fn new(directory: Directory) -> KeptDirectory
        ensures { result ≡ directory }
    {
        KeptDirectory { directory }
    }

    pub(crate) fn directory(&self) -> &Directory
        ensures { result.now ≡ self.now }
    {
        &self.directory
    }
}

impl Weigh for KeptDirectory {
    ghost use Rattle.std.specs.Prelude.{length};

    ghost weight = { length };

    fn weigh(&self) -> u64 {
        self.directory.entries().len() as u64
    }
}
