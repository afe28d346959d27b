// A walk along all entries, by a queue of directories.
ghost use Rattle.std.specs.Prelude.{◌≡◌, ◌≤◌, ◌<◌, ◌+◌, ◌^◌, ◌++◌, ℕ, List, [], None, true, false, length, IfSome, IfErr, OnOk, OnErr};
ghost use Rattle.pm_reader.specs.Common.{leaf_of, option_to_list, FaultsStand};
ghost use Rattle.pm_reader.specs.Answers.{Gives, LookUpCauses};
ghost use Rattle.pm_reader.specs.Opening.{OpensAs};
ghost use Rattle.pm_reader.specs.Reads.{GrewBetween, ReadsOnly, reads_done};
ghost use Rattle.pm_reader.specs.Walk.{walk};
ghost use Rattle.pm_reader.specs.WalkSteps.{Enters, IsRefused, Spends, WalkCauses, Yields, budget_of, has_ended, left_at_most, left_of, queue_of, StepStands};

use crate::ReaderState;
use crate::leaves::read_leaf;
use pm_format::{Backend, DirEntry, Directory, Header, PmtError, PmtResult};
use std::alloc::Global;
use std::collections::VecDeque;

/// What a walk owns beside the backend that it borrows: the directory that it is in, those that follow, and
/// the units that are left.
#[derive(Drop)]
pub struct WalkState {
    pub(crate) alloc: Global,
    pub(crate) header: Header,
    pub(crate) current: Directory,
    pub(crate) at: usize,
    pub(crate) leaves: VecDeque<Directory>,
    pub(crate) budget: u64,
    pub(crate) ended: bool,
}

impl ReaderState {
    /// The walk along all entries, with a budget of so many leaves.
    pub fn entries(self, budget: u64) -> WalkState
        ensures items { (b : List ℕ) → OpensAs b self → left_of b result ≡ walk b budget }
        ensures budget { budget_of result ≡ budget }
        ensures goes { has_ended result ≡ false }
    {
        let ReaderState {
            alloc,
            header,
            root,
            version: _,
        } = self;
        WalkState {
            alloc,
            header,
            current: root,
            at: 0,
            leaves: VecDeque::new(alloc),
            budget,
            ended: false,
        }
    }
}

impl WalkState {
    // Takes the first entry from the queue.
    fn pop(&mut self) -> Option<DirEntry>
        ensures queue { queue_of self.old ≡ option_to_list result ++ queue_of self.new }
        ensures none { result ≡ None → queue_of self.new ≡ [] }
        ensures header { self.new.header ≡ self.old.header }
        ensures budget { self.new.budget ≡ self.old.budget }
        ensures ended { self.new.ended ≡ self.old.ended }
    {
        while self.at >= self.current.entries().len() {
            self.current = self.leaves.pop_front()?;
            self.at = 0;
        }
        let entry = self.current.entries()[self.at];
        self.at += 1;
        Some(entry)
    }

    // Spends a unit on the leaf of an entry, whose entries go to the end of the queue.
    fn enter<B: Backend>(&mut self, backend: &mut B, leaf: DirEntry) -> PmtResult<()>
        requires { 0 < self.old.budget }
        ensures ok { OnOk result (IfSome (B.told backend.old)
            (λ b. Enters self.old.header b leaf (queue_of self.old) (queue_of self.new))) }
        ensures refused { IfErr result
            (λ e. IfSome (B.told backend.old) (λ b. IsRefused self.old.header b leaf e)) }
        ensures small { length (queue_of self.new) < length (queue_of self.old) + 2 ^ 64 }
        ensures header { self.new.header ≡ self.old.header }
        ensures budget { self.new.budget + 1 ≡ self.old.budget }
        ensures ended { self.new.ended ≡ self.old.ended }
        ensures causes { LookUpCauses (B.faults backend.old) (B.faults backend.new) result }
        ensures still { FaultsStand (B.faults backend.old) (B.faults backend.new) result }
        ensures kept { ReadsOnly B.told B.versions B.faults B.steady backend.old backend.new }
        ensures reads { GrewBetween (B.reads backend.old) (B.reads backend.new) (reads_done result)
            1 }
    {
        self.budget -= 1;
        let directory = read_leaf(self.alloc, backend, &self.header, leaf)?;
        self.append(directory)
    }

    // Puts a directory to the end of the queue.
    fn append(&mut self, directory: Directory) -> PmtResult<()>
        ensures ok { OnOk result (queue_of self.new ≡ queue_of self.old ++ directory) }
        ensures err { IfErr result
            (λ e. (e ≡ PmtError.OutOfMemory) × (queue_of self.new ≡ queue_of self.old)) }
        ensures small { length directory < 2 ^ 64 }
        ensures header { self.new.header ≡ self.old.header }
        ensures budget { self.new.budget ≡ self.old.budget }
        ensures ended { self.new.ended ≡ self.old.ended }
    {
        let count = directory.entries().len();
        if count > 0 {
            self.leaves.push_back(directory)?;
        }
        Ok(())
    }

    /// The next item of the walk: an entry of a tile, or an error, after which the walk ends. A unit that is
    /// spent takes one read of a leaf, or at most one where that leaf is refused. `BudgetSpent` comes only where
    /// no unit is left and a leaf entry is next. Leaves are read once each, and not kept. The backend is to be
    /// the one that was opened.
    pub fn next_item<B: Backend>(&mut self, backend: &mut B) -> Option<PmtResult<DirEntry>>
        ensures items { IfSome (B.told backend.old)
            (λ b. Yields (left_of b self.old) result (left_of b self.new)) }
        ensures causes { WalkCauses (B.faults backend.old) (B.faults backend.new) result }
        ensures still { StepStands (B.faults backend.old) (B.faults backend.new) result }
        ensures spends { Spends (budget_of self.old) (budget_of self.new) (B.reads backend.old)
            (B.reads backend.new) result }
        ensures ends { IfSome result (λ item. OnErr item (has_ended self.new ≡ true)) }
        ensures most { left_at_most self.new ≤ left_at_most self.old }
        ensures fewer { IfSome result (λ _. left_at_most self.new < left_at_most self.old) }
        ensures kept { ReadsOnly B.told B.versions B.faults B.steady backend.old backend.new }
    {
        if self.ended {
            return None;
        }
        while let Some(entry) = self.pop() {
            if !entry.is_leaf() {
                return Some(Ok(entry));
            }
            if self.budget == 0 {
                self.ended = true;
                return Some(Err(PmtError::BudgetSpent));
            }
            if let Err(error) = self.enter(backend, entry) {
                self.ended = true;
                return Some(Err(error));
            }
        }
        None
    }
}
