// A backend that counts its calls.
use byte_media::{Backend, BackendResponse, MemMedium, ReadFault};
use std::alloc::Global;

/// A medium in memory, and how often it was read.
#[derive(Drop)]
pub struct Counted {
    pub medium: MemMedium,
    pub calls: u64,
}

impl Counted {
    /// The backend over this medium, not read yet.
    pub fn new(medium: MemMedium) -> Counted {
        Counted { medium, calls: 0 }
    }
}

impl Backend for Counted {
    ghost told = { λ s. ⟦<MemMedium as Backend>⟧.told s.medium };

    ghost versions = { λ s. ⟦<MemMedium as Backend>⟧.versions s.medium };

    ghost faults = { λ s. ⟦<MemMedium as Backend>⟧.faults s.medium };

    ghost reads = { λ s. ⟦<MemMedium as Backend>⟧.reads s.medium };

    ghost steady = { λ s. ⟦<MemMedium as Backend>⟧.steady s.medium };

    fn read(
        &mut self,
        alloc: Global,
        offset: u64,
        length: u64,
    ) -> Result<BackendResponse, ReadFault> {
        self.calls = self.calls.saturating_add(1);
        self.medium.read(alloc, offset, length)
    }

    fn read_exact(
        &mut self,
        alloc: Global,
        offset: u64,
        length: u64,
    ) -> Result<BackendResponse, ReadFault> {
        self.calls = self.calls.saturating_add(1);
        self.medium.read_exact(alloc, offset, length)
    }
}
