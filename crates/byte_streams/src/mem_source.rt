// A source in memory. The calls that are listed fail.
ghost use Rattle.std.specs.Prelude.{◌≡◌, ◌↔◌, ◌≤◌, [], drop, is_err, Ok, Some, vec_len};
ghost use Rattle.byte_streams.specs.Common.{called, next_fails};
ghost use Rattle.byte_streams.specs.Streams.{CountsRead, ReadTakes};

use crate::{Source, SourceFault};
use base_values::FailingCalls;

/// A source whose bytes lie in memory. It tells them, and fails only where it is made to.
#[derive(Drop)]
pub struct MemSource {
    bytes: Vec<u8>,
    place: usize,
    failing: FailingCalls,
    taken: u64,
    ghost in_range: { place ≤ vec_len bytes },
}

impl MemSource {
    ghost use Rattle.byte_streams.specs.MemSource.{failing_of};

    /// A source of these bytes.
    pub fn new(bytes: Vec<u8>) -> MemSource
        ensures left { ⟦<MemSource as Source>⟧.left result ≡ Some bytes.items }
        ensures faults { ⟦<MemSource as Source>⟧.faults result ≡ 0 }
        ensures taken { ⟦<MemSource as Source>⟧.taken result ≡ 0 }
        ensures steady { ⟦<MemSource as Source>⟧.steady result }
        ensures failing { (failing_of result).listed.items ≡ [] }
        ensures calls { (failing_of result).calls ≡ 0 }
    {
        let alloc = *bytes.allocator();
        MemSource {
            bytes,
            place: 0,
            failing: FailingCalls::none(alloc),
            taken: 0,
        }
    }

    /// Makes the calls of these numbers fail, counted from 1 over all calls of this source.
    pub fn fail_at(&mut self, calls: Vec<u64>)
        ensures left { ⟦<MemSource as Source>⟧.left self.new
            ≡ ⟦<MemSource as Source>⟧.left self.old }
        ensures faults { ⟦<MemSource as Source>⟧.faults self.new
            ≡ ⟦<MemSource as Source>⟧.faults self.old }
        ensures taken { ⟦<MemSource as Source>⟧.taken self.new
            ≡ ⟦<MemSource as Source>⟧.taken self.old }
        ensures steady { ⟦<MemSource as Source>⟧.steady self.new ↔ (calls.items ≡ []) }
        ensures failing { failing_of self.new ≡ record (failing_of self.old) { listed = calls } }
    {
        self.failing.fail_at(calls);
    }

    // Takes the next bytes, as many as there are and the buffer has.
    fn take(&mut self, buffer: &mut [u8]) -> usize
        ensures takes { ReadTakes
            (⟦<MemSource as Source>⟧.left self.old)
            (⟦<MemSource as Source>⟧.left self.new) (Ok result) buffer.new }
        ensures counts { CountsRead
            (⟦<MemSource as Source>⟧.taken self.old)
            (⟦<MemSource as Source>⟧.taken self.new) (Ok result) }
        ensures failing { failing_of self.new ≡ failing_of self.old }
    {
        let count = buffer.len().min(self.bytes.len() - self.place);
        buffer[..count].copy_from_slice(&self.bytes[self.place..self.place + count]);
        self.place += count;
        self.taken = self.taken.saturating_add(count as u64);
        count
    }
}

impl Source for MemSource {
    ghost use Rattle.byte_streams.specs.MemSource.{failing_of};

    ghost left = { λ s. Some (drop s.place s.bytes.items) };

    ghost faults = { λ s. s.failing.faults };

    ghost taken = { λ s. s.taken };

    ghost steady = { λ s. s.failing.listed.items ≡ [] };

    fn read(&mut self, buffer: &mut [u8]) -> Result<usize, SourceFault>
        ensures takes { ReadTakes
            (⟦<MemSource as Source>⟧.left self.old)
            (⟦<MemSource as Source>⟧.left self.new) result buffer.new }
        ensures counts { CountsRead
            (⟦<MemSource as Source>⟧.taken self.old)
            (⟦<MemSource as Source>⟧.taken self.new) result }
        ensures fails { is_err result ≡ next_fails (failing_of self.old) }
        ensures after { failing_of self.new ≡ called (failing_of self.old) }
        ensures faults { (failing_of self.old).faults ≤ (failing_of self.new).faults }
    {
        if self.failing.fails() {
            return Err(SourceFault);
        }
        Ok(self.take(buffer))
    }
}
