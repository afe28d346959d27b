// Which calls of an object in memory fail.
ghost use Rattle.std.specs.Prelude.{◌≡◌, ◌≤◌, ◌↔◌, [], false, IsTrue, Contains};
ghost use Rattle.base_values.specs.Counts.{one_more};
ghost use Rattle.base_values.specs.FailingCalls.{next_fails, called};

use std::alloc::Global;

/// The calls of an object in memory that fail, by their numbers from 1, how many were made, and
/// how many of them failed.
#[derive(Debug, Drop)]
pub struct FailingCalls {
    /// The numbers of the calls that fail.
    pub listed: Vec<u64>,
    /// How many calls were made. It stands still at the end of `u64`.
    pub calls: u64,
    /// How many of them failed.
    pub faults: u64,
}

impl FailingCalls {
    /// No call was made, and none is listed.
    pub fn none(alloc: Global) -> FailingCalls
        ensures listed { result.listed.items ≡ [] }
        ensures calls { result.calls ≡ 0 }
        ensures faults { result.faults ≡ 0 }
    {
        FailingCalls {
            listed: Vec::new(alloc),
            calls: 0,
            faults: 0,
        }
    }

    /// Lists other calls. What was counted stays.
    pub fn fail_at(&mut self, calls: Vec<u64>)
        ensures { self.new ≡ record self.old { listed = calls } }
    {
        self.listed = calls;
    }

    /// Counts a call. Whether it fails, which is counted too.
    pub fn fails(&mut self) -> bool
        ensures fails { result ≡ next_fails self.old }
        ensures listed { IsTrue result ↔ Contains self.old.listed.items (one_more self.old.calls) }
        ensures after { self.new ≡ called self.old }
        ensures grows { self.old.faults ≤ self.new.faults }
        ensures calm { self.old.listed.items ≡ [] → result ≡ false }
    {
        self.calls = self.calls.saturating_add(1);
        let fails = self.listed.contains(&self.calls);
        if fails {
            self.faults = self.faults.saturating_add(1);
        }
        fails
    }
}
