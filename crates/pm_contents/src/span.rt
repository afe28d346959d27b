// Where a content lies among the bytes of all contents, and what a medium answers there.
ghost use Rattle.std.specs.Prelude.{◌≡◌, ◌≢◌, ◌≤◌, ◌<◌, ◌+◌, ◌^◌, true, drop, length, IfSome, IfOk, IsErrOf, OnOk};
ghost use Rattle.pm_contents.specs.Common.{bytes_eq, IsWithin, ReadsOnly, Rose};
ghost use Rattle.pm_contents.specs.Contents.{in_span};
ghost use Rattle.pm_contents.specs.Span.{Stood, same_by};

use byte_media::{BackendResponse, Medium, ReadFault, WriteFault};
use std::alloc::Global;

/// Where a content lies among the bytes of all contents.
#[derive(Clone, Copy, Debug)]
pub(crate) struct Span {
    pub(crate) place: u64,
    pub(crate) length: u64,
}

// Whether bytes are those that a medium answered. A range that it doesn't have is another content, and a
// fault is that of a write.
fn is_same(answer: Result<BackendResponse, ReadFault>, bytes: &[u8]) -> Result<bool, WriteFault>
    ensures { result ≡ same_by answer bytes.now }
{
    match answer {
        Ok(response) => Ok(response.bytes.as_slice() == bytes),
        Err(ReadFault::PastEnd | ReadFault::Short { .. }) => Ok(false),
        Err(ReadFault::Fault) => Err(WriteFault::Fault),
        Err(ReadFault::OutOfMemory) => Err(WriteFault::OutOfMemory),
    }
}

impl Span {
    /// Whether a medium, on which the contents lie from a place on, answers these bytes for the span. Only a span
    /// of as many bytes is read.
    pub(crate) fn has<M: Medium>(
        self,
        alloc: Global,
        medium: &mut M,
        from: u64,
        bytes: &[u8],
    ) -> Result<bool, WriteFault>
        requires fits { from + self.place < 2 ^ 64 }
        requires within { IfSome
            (M.told medium.old) (IsWithin (from + (self.place + self.length))) }
        ensures same { IfSome
            (M.told medium.old) (λ b. IfOk result
            (λ same. same ≡ bytes_eq (in_span (drop from b) self) bytes.now)) }
        ensures size { IfOk result (λ same. same ≡ true → self.length ≡ length bytes.now) }
        ensures asked { Stood (M.reads medium.old) (M.reads medium.new)
            → self.length ≢ length bytes.now }
        ensures quiet { self.length ≢ length bytes.now → M.reads medium.new ≡ M.reads medium.old }
        ensures cause { IsErrOf result WriteFault.Fault
            → Rose (M.faults medium.old) (M.faults medium.new) }
        ensures still { OnOk result (M.faults medium.new ≡ M.faults medium.old) }
        ensures counted { M.reads medium.old ≤ M.reads medium.new }
        ensures reads { M.reads medium.new ≤ M.reads medium.old + 1 }
        ensures kept { ReadsOnly M.told M.versions M.faults M.steady medium.old medium.new }
    {
        if self.length != bytes.len() as u64 {
            return Ok(false);
        }
        is_same(
            medium.read_exact(alloc, from + self.place, self.length),
            bytes,
        )
    }
}
