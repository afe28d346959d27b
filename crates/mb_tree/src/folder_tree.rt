// A tree of files below a folder of the system.
ghost use Rattle.std.specs.Prelude.{◌≡◌, ◌≤◌, IfOk, IsErrOf, OnOk};
ghost use Rattle.mb_tree.specs.Common.{empty, Rose};

use crate::folder_files::{list_all, read_file};
use crate::folder_writing::write_file;
use crate::{TileTree, TreeError};
use base_values::{BlobVal, OutOfMemory, TextVal};
use std::alloc::Global;

/// A tree of the files below a folder, its root. It tells nothing, and counts its faults.
///
/// Files are listed in all folders below the root. A symbolic link to a file counts as that file, and one to a folder
/// isn't followed, so that there are no cycles. Names that aren't UTF-8, links to nothing, and what is neither a file
/// nor a folder are passed over. A root that is missing or no folder is a fault of `list`, and an entry that is gone
/// when it is read is a fault too.
///
/// A file that is written is whole or not there: its bytes go to a file that is made beside it, are put on the disk,
/// and that file is renamed. It has the first of the names `.NAME.part`, `.NAME.part1`, .. `.NAME.part99` that nothing
/// has; there is a fault where all are taken, and what has one of them stays. Refused, it is gone again. At last the
/// folder is put on the disk with its names; where that alone fails, the fault comes with the file in its place. A run
/// that is stopped may leave the file beside.
///
/// Folders that are missing are made, the root too. Nothing is written outside the root: a path with a part that is
/// empty, `.` or `..` is a fault, and so is one through a symbolic link.
#[derive(Drop)]
pub struct FolderTree {
    runtime: HostRuntime,
    root: TextVal,
    faults: u64,
}

impl FolderTree {
    /// The tree below a folder, which needn't be there. The empty text is the folder in which the program runs.
    pub fn new(rt: &HostRuntime, alloc: Global, root: &str) -> Result<FolderTree, OutOfMemory>
        ensures faults { IfOk result (λ tree. ⟦<FolderTree as TileTree>⟧.faults tree ≡ 0) }
    {
        Ok(FolderTree {
            runtime: *rt,
            root: TextVal::new(String::from_str(alloc, root)?),
            faults: 0,
        })
    }
}

// The answer of a call, of which a fault is counted.
fn counted<T>(faults: &mut u64, answer: Result<T, TreeError>) -> Result<T, TreeError>
    ensures faults { faults.old ≤ faults.new }
    ensures fault { IsErrOf result TreeError.Fault → Rose faults.old faults.new }
    ensures still { OnOk result (faults.new ≡ faults.old) }
{
    match answer {
        Ok(value) => Ok(value),
        Err(TreeError::OutOfMemory) => Err(TreeError::OutOfMemory),
        Err(TreeError::Fault) => {
            *faults = faults.saturating_add(1);
            Err(TreeError::Fault)
        }
    }
}

impl TileTree for FolderTree {
    ghost use Rattle.std.specs.Prelude.{false};
    ghost use Rattle.mb_tree.specs.Common.{empty};

    ghost tells = { λ _. false };

    ghost told = { λ _. empty };

    ghost faults = { λ t. t.faults };

    ghost steady = { λ _. ⊥ };

    fn list(&mut self, alloc: Global) -> Result<Vec<TextVal>, TreeError> {
        let answer = list_all(&self.runtime, alloc, self.root.as_str());
        counted(&mut self.faults, answer)
    }

    fn read(&mut self, alloc: Global, path: &str) -> Result<BlobVal, TreeError> {
        let answer = read_file(&self.runtime, alloc, self.root.as_str(), path);
        counted(&mut self.faults, answer)
    }

    fn write(&mut self, alloc: Global, path: &str, bytes: &[u8]) -> Result<(), TreeError> {
        let answer = write_file(&self.runtime, alloc, self.root.as_str(), path, bytes);
        counted(&mut self.faults, answer)
    }
}
