// A backend over bytes in memory that are shared.
ghost use Rattle.std.specs.Prelude.{◌≡◌, Some, None};

use crate::{Backend, BackendResponse, ReadFault};
use bytes::Bytes;
use std::alloc::Global;

/// A backend over bytes in memory. It tells them, answers parts of them without copying, never fails
/// and has no version texts.
#[derive(Drop)]
pub struct BytesBackend {
    bytes: Bytes,
    reads: u64,
}

impl BytesBackend {
    /// The backend over these bytes.
    pub fn new(bytes: Bytes) -> BytesBackend
        ensures told { ⟦<BytesBackend as Backend>⟧.told result ≡ Some bytes }
        ensures versions { ⟦<BytesBackend as Backend>⟧.versions result ≡ Some (λ _. None) }
        ensures steady { ⟦<BytesBackend as Backend>⟧.steady result }
        ensures faults { ⟦<BytesBackend as Backend>⟧.faults result ≡ 0 }
        ensures reads { ⟦<BytesBackend as Backend>⟧.reads result ≡ 0 }
    {
        BytesBackend { bytes, reads: 0 }
    }
}

impl Backend for BytesBackend {
    ghost told = { λ b. Some b.bytes };

    ghost versions = { λ _. Some (λ _. None) };

    ghost faults = { λ _. 0 };

    ghost reads = { λ b. b.reads };

    ghost steady = { λ _. Unit {0} };

    fn read(
        &mut self,
        _alloc: Global,
        offset: u64,
        length: u64,
    ) -> Result<BackendResponse, ReadFault> {
        self.reads = self.reads.saturating_add(1);
        let at = offset as usize;
        if at > self.bytes.len() {
            return Err(ReadFault::PastEnd);
        }
        let most = self.bytes.len() - at;
        let count = (length as usize).min(most);
        Ok(BackendResponse::new(self.bytes.slice(at..at + count)?))
    }

    fn read_exact(
        &mut self,
        _alloc: Global,
        offset: u64,
        length: u64,
    ) -> Result<BackendResponse, ReadFault> {
        self.reads = self.reads.saturating_add(1);
        let at = offset as usize;
        if at > self.bytes.len() {
            return Err(ReadFault::PastEnd);
        }
        let most = self.bytes.len() - at;
        let count = length as usize;
        if count > most {
            return Err(ReadFault::PastEnd);
        }
        Ok(BackendResponse::new(self.bytes.slice(at..at + count)?))
    }
}
