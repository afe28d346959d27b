// Disks of which each answer is true.
ghost use Rattle.std.specs.Prelude.{◌≡◌, Bool, true, false, IsTrue, refl};

use mb_reading::DiskFile;
use sqlite_disk::{Disk, Memory};

/// A disk of which it is known whether each of its answers is true. Over one of which they are, a set tells its rows.
pub trait TrueDisk: Disk {
    /// Whether each answer is true.
    ghost is_true: { Bool };

    /// Then no wrong answer is ever taken as true.
    ghost clean: { (disk : Self) → is_true ≡ true → IsTrue (Self.Disk.is_clean disk) };
}

/// Bytes in memory are read as they are.
impl TrueDisk for Memory {
    ghost is_true = { true };

    ghost clean = { λ disk _. refl };
}

/// A file may be changed while it is read.
impl<D: Disk> TrueDisk for DiskFile<D> {
    ghost use Rattle.std.proofs.lemmas.Bool.{false≢true};

    ghost is_true = { false };

    ghost clean = { λ disk is. absurd (false≢true is) };
}
