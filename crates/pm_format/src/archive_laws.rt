// Laws of whole archives: facts about their definitions, as contracts of functions that do nothing.
ghost use Rattle.std.specs.Prelude.{◌≡◌, ◌≤◌, Bool, length, Ok, Some};
ghost use Rattle.pm_format.specs.Directory.{dir_of, dir_bytes};
ghost use Rattle.pm_format.specs.Header.{HeaderFits};
ghost use Rattle.pm_format.specs.Opened.{opened};
ghost use Rattle.pm_format.specs.Options.{Options};
ghost use Rattle.pm_format.specs.WellFormed.{Parts, archive_bytes, header_of};

use crate::MAX_ROOT;

/// What is laid out as an archive opens with its header and root.
pub fn laid_archive_opens()
    ensures { (o : Options) (clustered : Bool) (p : Parts) → HeaderFits (header_of o clustered p)
        → length (dir_bytes p.root) ≤ MAX_ROOT → dir_of (dir_bytes p.root) ≡ Some p.root
        → opened (archive_bytes o clustered p) ≡ Ok (header_of o clustered p, p.root) }
{}
