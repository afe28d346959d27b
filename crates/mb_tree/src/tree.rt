// Trees of files.
ghost use Rattle.std.specs.Prelude.{◌≡◌, ℕ, Bool, Some, true, IfOk, OnErr, OnOk};
ghost use Rattle.mb_tree.specs.Common.{contains_key, FaultsCounted, get, insert, Keeps, ReadsOnly};
ghost use Rattle.mb_tree.specs.Files.{Files, paths_of};

use base_values::{BlobVal, OutOfMemory, TextVal};
use mb_store::MbtError;
use std::alloc::{AllocError, AllocFailed, Global};
use thiserror::Error;

/// Why a call of a tree is refused.
#[derive(Clone, Copy, Debug, PartialEq, Eq, Error)]
pub enum TreeError {
    /// The tree failed, and its count of faults rose.
    #[error("tree fault")]
    Fault,
    /// The call found no memory.
    #[error("out of memory")]
    OutOfMemory,
}

impl From<OutOfMemory> for TreeError {
    ghost use Rattle.mb_tree.specs.declared.tree.TreeError.TheVariants.{OutOfMemory};

    ghost from_gives = { λ _ e. e ≡ OutOfMemory };

    fn from(_: OutOfMemory) -> Self {
        TreeError::OutOfMemory
    }
}

impl From<AllocError> for TreeError {
    ghost use Rattle.mb_tree.specs.declared.tree.TreeError.TheVariants.{OutOfMemory};

    ghost from_gives = { λ _ e. e ≡ OutOfMemory };

    fn from(_: AllocError) -> Self {
        TreeError::OutOfMemory
    }
}

impl<T: Drop> From<AllocFailed<T>> for TreeError {
    ghost use Rattle.mb_tree.specs.declared.tree.TreeError.TheVariants.{OutOfMemory};

    ghost from_gives = { λ _ e. e ≡ OutOfMemory };

    fn from(_: AllocFailed<T>) -> Self {
        TreeError::OutOfMemory
    }
}

impl From<TreeError> for MbtError {
    ghost use Rattle.mb_tree.specs.Errors.{of_tree};

    ghost from_gives = { λ t e. e ≡ of_tree t };

    fn from(error: TreeError) -> Self {
        match error {
            TreeError::Fault => MbtError::TreeFault,
            TreeError::OutOfMemory => MbtError::OutOfMemory,
        }
    }
}

/// A tree of files, as a folder or files in memory. A path is a text of names parted by `/`.
///
/// A tree may tell contracts which files it has. Whether it tells never changes. It counts its faults,
/// and the count never falls.
pub trait TileTree {
    /// Whether the tree tells which files it has.
    ghost tells: { Self → Bool };

    /// Its files, where it tells them.
    ghost told: { Self → Files };

    /// How often it failed.
    ghost faults: { Self → ℕ };

    /// No call from here on fails.
    ghost steady: { Self → Type 0 };

    /// The paths of all files, in the order of their bytes.
    fn list(&mut self, alloc: Global) -> Result<Vec<TextVal>, TreeError>
        ensures answer { tells self.old ≡ true →
            IfOk result (λ paths. paths.items ≡ paths_of (told self.old)) }
        ensures kept { ReadsOnly told tells faults steady self.old self.new }
        ensures fault { FaultsCounted faults self.old self.new result TreeError.Fault };

    /// The bytes of the file at a path, which is there.
    fn read(&mut self, alloc: Global, path: &str) -> Result<BlobVal, TreeError>
        requires { tells self.old ≡ true → contains_key (told self.old) path.now ≡ true }
        ensures answer { tells self.old ≡ true →
            IfOk result (λ bytes. get (told self.old) path.now ≡ Some bytes) }
        ensures kept { ReadsOnly told tells faults steady self.old self.new }
        ensures fault { FaultsCounted faults self.old self.new result TreeError.Fault };

    /// Puts bytes at a path, in place of the file that is there. Refused, the tree has the files that it had.
    fn write(&mut self, alloc: Global, path: &str, bytes: &[u8]) -> Result<(), TreeError>
        ensures ok { tells self.old ≡ true →
            OnOk result (told self.new ≡ insert (told self.old) path.now bytes.now) }
        ensures err { OnErr result (told self.new ≡ told self.old) }
        ensures kept { Keeps tells faults steady self.old self.new }
        ensures fault { FaultsCounted faults self.old self.new result TreeError.Fault };
}
