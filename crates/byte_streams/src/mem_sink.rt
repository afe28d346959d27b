// A sink in memory. The calls that are listed fail.
ghost use Rattle.std.specs.Prelude.{◌≡◌, ◌↔◌, ◌≤◌, [], IsErrOf, IsTrue, Some};
ghost use Rattle.byte_streams.specs.Common.{called, next_fails};
ghost use Rattle.byte_streams.specs.MemSink.{failing_of};
ghost use Rattle.byte_streams.specs.Streams.{WriteAppends};

use crate::{Sink, SinkFault};
use base_values::FailingCalls;
use std::alloc::Global;

/// A sink whose bytes lie in memory. It tells them, and fails only where it is made to.
#[derive(Drop)]
pub struct MemSink {
    bytes: Vec<u8>,
    failing: FailingCalls,
}

impl MemSink {
    /// A sink that holds nothing yet.
    pub fn new(alloc: Global) -> MemSink
        ensures held { ⟦<MemSink as Sink>⟧.held result ≡ Some [] }
        ensures faults { ⟦<MemSink as Sink>⟧.faults result ≡ 0 }
        ensures steady { ⟦<MemSink as Sink>⟧.steady result }
        ensures failing { (failing_of result).listed.items ≡ [] }
        ensures calls { (failing_of result).calls ≡ 0 }
    {
        MemSink {
            bytes: Vec::new(alloc),
            failing: FailingCalls::none(alloc),
        }
    }

    /// The bytes that it holds.
    pub fn as_bytes(&self) -> &[u8]
        ensures { ⟦<MemSink as Sink>⟧.held self.now ≡ Some result.now }
    {
        self.bytes.as_slice()
    }

    /// Makes the calls of these numbers fail, counted from 1 over all calls of this sink.
    pub fn fail_at(&mut self, calls: Vec<u64>)
        ensures held { ⟦<MemSink as Sink>⟧.held self.new ≡ ⟦<MemSink as Sink>⟧.held self.old }
        ensures faults { ⟦<MemSink as Sink>⟧.faults self.new ≡ ⟦<MemSink as Sink>⟧.faults self.old }
        ensures steady { ⟦<MemSink as Sink>⟧.steady self.new ↔ (calls.items ≡ []) }
        ensures failing { failing_of self.new ≡ record (failing_of self.old) { listed = calls } }
    {
        self.failing.fail_at(calls);
    }
}

impl Sink for MemSink {
    ghost held = { λ s. Some s.bytes.items };

    ghost faults = { λ s. s.failing.faults };

    ghost steady = { λ s. s.failing.listed.items ≡ [] };

    fn write(&mut self, piece: &[u8]) -> Result<usize, SinkFault>
        ensures appends { WriteAppends
            (⟦<MemSink as Sink>⟧.held self.old)
            (⟦<MemSink as Sink>⟧.held self.new) result piece.now }
        ensures fails { IsErrOf result SinkFault.Fault ↔ IsTrue (next_fails (failing_of self.old)) }
        ensures after { failing_of self.new ≡ called (failing_of self.old) }
        ensures faults { (failing_of self.old).faults ≤ (failing_of self.new).faults }
    {
        if self.failing.fails() {
            return Err(SinkFault::Fault);
        }
        match self.bytes.extend_from_slice(piece) {
            Ok(()) => Ok(piece.len()),
            Err(_) => Err(SinkFault::OutOfMemory),
        }
    }
}
