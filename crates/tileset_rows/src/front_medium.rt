// A medium that keeps what is written to its first 16,384 bytes alone, and how long it is. It tells nothing.
ghost use Rattle.std.specs.Prelude.{◌≡◌, None, IfErr};

use pm_format::{Backend, BackendResponse, Medium, MediumFault, MemMedium, ReadFault, WriteFault};
use std::alloc::Global;

// How many bytes are kept: those that are read where an archive is opened.
const KEPT: u64 = 16_384;

#[derive(Drop)]
pub struct FrontMedium {
    front: MemMedium,
    length: u64,
    reads: u64,
}

impl FrontMedium {
    /// A medium of no bytes.
    pub fn new(alloc: Global) -> FrontMedium {
        FrontMedium {
            front: MemMedium::new(alloc),
            length: 0,
            reads: 0,
        }
    }
}

// Writes to the front, where there is no gap before a piece.
fn write_front(front: &mut MemMedium, offset: u64, piece: &[u8]) -> Result<(), WriteFault>
    ensures { IfErr result (λ e. e ≡ WriteFault.OutOfMemory) }
{
    if offset > front.as_bytes().len() as u64 {
        return Err(WriteFault::OutOfMemory);
    }
    match front.write_at(offset, piece) {
        Ok(()) => Ok(()),
        Err(_) => Err(WriteFault::OutOfMemory),
    }
}

impl Backend for FrontMedium {
    ghost told = { λ _. None };

    ghost versions = { λ _. None };

    ghost faults = { λ _. 0 };

    ghost reads = { λ m. m.reads };

    ghost steady = { λ _. ⊥ };

    fn read(
        &mut self,
        alloc: Global,
        offset: u64,
        length: u64,
    ) -> Result<BackendResponse, ReadFault> {
        self.reads = self.reads.saturating_add(1);
        match self.front.read(alloc, offset, length) {
            Ok(response) => Ok(response),
            Err(_) => Err(ReadFault::OutOfMemory),
        }
    }

    fn read_exact(
        &mut self,
        alloc: Global,
        offset: u64,
        length: u64,
    ) -> Result<BackendResponse, ReadFault> {
        self.reads = self.reads.saturating_add(1);
        match self.front.read_exact(alloc, offset, length) {
            Ok(response) => Ok(response),
            Err(ReadFault::PastEnd) => Err(ReadFault::PastEnd),
            Err(_) => Err(ReadFault::OutOfMemory),
        }
    }
}

impl Medium for FrontMedium {
    fn len(&mut self) -> Result<u64, MediumFault> {
        Ok(self.length)
    }

    fn write_at(&mut self, offset: u64, piece: &[u8]) -> Result<(), WriteFault> {
        self.length = self.length.max(offset.saturating_add(piece.len() as u64));
        if offset >= KEPT {
            return Ok(());
        }
        let room = (KEPT - offset) as usize;
        let kept = &piece[..piece.len().min(room)];
        write_front(&mut self.front, offset, kept)
    }
}
