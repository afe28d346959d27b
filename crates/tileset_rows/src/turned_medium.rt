// A medium that tells nothing. One byte of it is read with all its bits turned over.
ghost use Rattle.std.specs.Prelude.{None};

use bytes::Bytes;
use pm_format::{Backend, BackendResponse, Medium, MediumFault, MemMedium, ReadFault, WriteFault};
use std::alloc::Global;

// The place of that byte: the first one behind metadata of two bytes.
const PLACE: u64 = 16386;

#[derive(Drop)]
pub struct TurnedMedium {
    medium: MemMedium,
    reads: u64,
}

impl TurnedMedium {
    pub fn new(alloc: Global) -> TurnedMedium {
        TurnedMedium {
            medium: MemMedium::new(alloc),
            reads: 0,
        }
    }
}

// Turns over the bits of the byte, where it is among those from an offset on.
fn turn(bytes: &mut [u8], offset: u64) {
    let Some(at) = PLACE.checked_sub(offset) else {
        return;
    };
    if let Some(byte) = bytes.get_mut(at as usize) {
        *byte = !*byte;
    }
}

fn turned(alloc: Global, offset: u64, bytes: Bytes) -> Option<Bytes> {
    let mut copy = bytes.as_slice().to_vec(alloc).ok()?;
    turn(copy.as_mut_slice(), offset);
    Bytes::from_vec(copy).ok()
}

impl Backend for TurnedMedium {
    ghost told = { λ _. None };

    ghost versions = { λ _. None };

    ghost faults = { λ _. 0 };

    ghost reads = { λ m. m.reads };

    ghost steady = { λ _. ⊥ };

    fn read(
        &mut self,
        alloc: Global,
        offset: u64,
        length: u64,
    ) -> Result<BackendResponse, ReadFault> {
        self.reads = self.reads.saturating_add(1);
        match self.medium.read(alloc, offset, length) {
            Ok(response) => match turned(alloc, offset, response.bytes) {
                Some(bytes) if bytes.len() as u64 <= length => Ok(BackendResponse::new(bytes)),
                _ => Err(ReadFault::OutOfMemory),
            },
            Err(_) => Err(ReadFault::OutOfMemory),
        }
    }

    fn read_exact(
        &mut self,
        alloc: Global,
        offset: u64,
        length: u64,
    ) -> Result<BackendResponse, ReadFault> {
        self.reads = self.reads.saturating_add(1);
        match self.medium.read_exact(alloc, offset, length) {
            Ok(response) => match turned(alloc, offset, response.bytes) {
                Some(bytes) if bytes.len() as u64 == length => Ok(BackendResponse::new(bytes)),
                _ => Err(ReadFault::OutOfMemory),
            },
            Err(ReadFault::PastEnd) => Err(ReadFault::PastEnd),
            Err(_) => Err(ReadFault::OutOfMemory),
        }
    }
}

impl Medium for TurnedMedium {
    fn len(&mut self) -> Result<u64, MediumFault> {
        Ok(0)
    }

    fn write_at(&mut self, offset: u64, piece: &[u8]) -> Result<(), WriteFault> {
        if offset > self.medium.as_bytes().len() as u64 {
            return Err(WriteFault::OutOfMemory);
        }
        match self.medium.write_at(offset, piece) {
            Ok(()) => Ok(()),
            Err(_) => Err(WriteFault::OutOfMemory),
        }
    }
}
