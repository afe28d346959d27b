// A tree of files in memory.
ghost use Rattle.std.specs.Prelude.{◌≡◌, ◌↔◌, ◌≤◌, [], Some, true, IfOk, IsErrOf, OnErr, OnOk};
ghost use Rattle.std.specs.BTreeMap.{keys};
ghost use Rattle.mb_tree.specs.Common.{contains_key, empty, FaultsCounted, get, insert};
ghost use Rattle.base_values.specs.FailingCalls.{called, next_fails};
ghost use Rattle.mb_tree.specs.Files.{files_of_list, paths_of};

use crate::{TileTree, TreeError};
use base_values::{BlobVal, FailingCalls, OutOfMemory, TextVal};
use std::alloc::Global;
use std::collections::BTreeMap;

/// A tree of files in memory. A file is found, and put, by a number of comparisons that grows as the
/// logarithm of the number of files.
#[derive(Debug, Drop)]
pub struct MemTree {
    files: BTreeMap<TextVal, BlobVal>,
    failing: FailingCalls,
}

// A text of its own.
fn owned(alloc: Global, text: &str) -> Result<TextVal, OutOfMemory>
    ensures { IfOk result (λ copy. copy ≡ text.now) }
{
    Ok(TextVal::new(String::from_str(alloc, text)?))
}

// The paths of files in their order.
fn paths_in(alloc: Global, files: &BTreeMap<TextVal, BlobVal>) -> Result<Vec<TextVal>, OutOfMemory>
    ensures { IfOk result (λ paths. paths.items ≡ paths_of (files_of_list files.now.entries)) }
{
    let mut paths = Vec::with_capacity(alloc, files.len())?;
    for path in files.keys() {
        paths.push(path.try_clone(alloc)?)?;
    }
    Ok(paths)
}

// A copy of the bytes at a path that has a file.
fn copy_at(
    alloc: Global,
    files: &BTreeMap<TextVal, BlobVal>,
    path: &TextVal,
) -> Result<BlobVal, OutOfMemory>
    requires { contains_key (files_of_list files.now.entries) path.now ≡ true }
    ensures { IfOk result (λ bytes. get (files_of_list files.now.entries) path.now ≡ Some bytes) }
{
    match files.get(path) {
        Some(bytes) => bytes.try_clone(alloc),
        None => unreachable!(),
    }
}

// Puts a copy of bytes at a path.
fn put(
    alloc: Global,
    files: &mut BTreeMap<TextVal, BlobVal>,
    path: &str,
    bytes: &[u8],
) -> Result<(), OutOfMemory>
    ensures ok { OnOk result (files_of_list files.new.entries
        ≡ insert (files_of_list files.old.entries) path.now bytes.now) }
    ensures err { OnErr result (files_of_list files.new.entries ≡ files_of_list files.old.entries) }
{
    let path = owned(alloc, path)?;
    let bytes = BlobVal::new(Vec::from_slice(alloc, bytes)?);
    files.insert(path, bytes)?;
    Ok(())
}

#[tactic(auto, unfolding(crate::specs::MemTree::told_of, crate::specs::MemTree::failing_of, crate::specs::MemTree::faults_of, crate::specs::MemTree::IsSteady))]
impl MemTree {
    ghost use Rattle.mb_tree.specs.MemTree.{told_of, failing_of, faults_of, IsSteady};

    /// A tree without files. No call of it fails.
    pub fn new(alloc: Global) -> MemTree
        ensures told { told_of result ≡ empty }
        ensures faults { faults_of result ≡ 0 }
        ensures calls { (failing_of result).calls ≡ 0 }
        ensures steady { IsSteady result }
    {
        MemTree {
            files: BTreeMap::new(alloc),
            failing: FailingCalls::none(alloc),
        }
    }

    /// From here on the calls of the tree with these numbers fail, counted from 1 over all calls that
    /// this tree has been asked.
    pub fn fail_at(&mut self, calls: Vec<u64>)
        ensures told { told_of self.new ≡ told_of self.old }
        ensures faults { faults_of self.new ≡ faults_of self.old }
        ensures failing { failing_of self.new ≡ record (failing_of self.old) { listed = calls } }
        ensures steady { IsSteady self.new ↔ (calls.items ≡ []) }
    {
        self.failing.fail_at(calls);
    }
}

#[tactic(auto, unfolding(crate::specs::MemTree::told_of, crate::specs::MemTree::failing_of, crate::specs::MemTree::faults_of, crate::specs::MemTree::IsSteady))]
impl TileTree for MemTree {
    ghost use Rattle.std.specs.Prelude.{true};
    ghost use Rattle.mb_tree.specs.MemTree.{told_of, failing_of, faults_of, IsSteady};

    ghost tells = { λ _. true };

    ghost told = { told_of };

    ghost faults = { faults_of };

    ghost steady = { IsSteady };

    fn list(&mut self, alloc: Global) -> Result<Vec<TextVal>, TreeError>
        ensures answer { IfOk result (λ paths. paths.items ≡ paths_of (told_of self.old)) }
        ensures told { told_of self.new ≡ told_of self.old }
        ensures fails { IsErrOf result TreeError.Fault ↔ (next_fails (failing_of self.old) ≡ true) }
        ensures after { failing_of self.new ≡ called (failing_of self.old) }
        ensures faults { faults_of self.old ≤ faults_of self.new }
        ensures fault { FaultsCounted faults_of self.old self.new result TreeError.Fault }
        ensures steady { IsSteady self.old → IsSteady self.new }
        ensures calm { IsSteady self.old → faults_of self.new ≡ faults_of self.old }
    {
        if self.failing.fails() {
            return Err(TreeError::Fault);
        }
        Ok(paths_in(alloc, &self.files)?)
    }

    fn read(&mut self, alloc: Global, path: &str) -> Result<BlobVal, TreeError>
        requires { contains_key (told_of self.old) path.now ≡ true }
        ensures answer { IfOk result (λ bytes. get (told_of self.old) path.now ≡ Some bytes) }
        ensures told { told_of self.new ≡ told_of self.old }
        ensures fails { IsErrOf result TreeError.Fault ↔ (next_fails (failing_of self.old) ≡ true) }
        ensures after { failing_of self.new ≡ called (failing_of self.old) }
        ensures faults { faults_of self.old ≤ faults_of self.new }
        ensures fault { FaultsCounted faults_of self.old self.new result TreeError.Fault }
        ensures steady { IsSteady self.old → IsSteady self.new }
        ensures calm { IsSteady self.old → faults_of self.new ≡ faults_of self.old }
    {
        if self.failing.fails() {
            return Err(TreeError::Fault);
        }
        let path = owned(alloc, path)?;
        Ok(copy_at(alloc, &self.files, &path)?)
    }

    fn write(&mut self, alloc: Global, path: &str, bytes: &[u8]) -> Result<(), TreeError>
        ensures ok { OnOk result (told_of self.new ≡ insert (told_of self.old) path.now bytes.now) }
        ensures err { OnErr result (told_of self.new ≡ told_of self.old) }
        ensures fails { IsErrOf result TreeError.Fault ↔ (next_fails (failing_of self.old) ≡ true) }
        ensures after { failing_of self.new ≡ called (failing_of self.old) }
        ensures faults { faults_of self.old ≤ faults_of self.new }
        ensures fault { FaultsCounted faults_of self.old self.new result TreeError.Fault }
        ensures steady { IsSteady self.old → IsSteady self.new }
        ensures calm { IsSteady self.old → faults_of self.new ≡ faults_of self.old }
    {
        if self.failing.fails() {
            return Err(TreeError::Fault);
        }
        put(alloc, &mut self.files, path, bytes)?;
        Ok(())
    }
}
