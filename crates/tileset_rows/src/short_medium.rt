// A medium that keeps nothing of what is written, and tells nothing. It opens as the front of another one, and ranges
// are read one byte short.
ghost use Rattle.std.specs.Prelude.{None};

use bytes::Bytes;
use pm_format::{Backend, BackendResponse, Medium, MediumFault, ReadFault, WriteFault};
use std::alloc::Global;

#[derive(Drop)]
pub struct ShortMedium {
    front: Bytes,
    reads: u64,
}

impl ShortMedium {
    pub fn new(front: Bytes) -> ShortMedium {
        ShortMedium { front, reads: 0 }
    }
}

impl Backend for ShortMedium {
    ghost told = { λ _. None };

    ghost versions = { λ _. None };

    ghost faults = { λ _. 0 };

    ghost reads = { λ m. m.reads };

    ghost steady = { λ _. ⊥ };

    fn read(
        &mut self,
        _alloc: Global,
        _offset: u64,
        length: u64,
    ) -> Result<BackendResponse, ReadFault> {
        self.reads = self.reads.saturating_add(1);
        if self.front.len() as u64 > length {
            return Ok(BackendResponse::new(Bytes::new()));
        }
        Ok(BackendResponse::new(self.front.clone()?))
    }

    fn read_exact(
        &mut self,
        alloc: Global,
        offset: u64,
        length: u64,
    ) -> Result<BackendResponse, ReadFault> {
        if length == 0 {
            return self.read(alloc, offset, length);
        }
        self.reads = self.reads.saturating_add(1);
        Err(ReadFault::Short {
            asked: length,
            got: length - 1,
        })
    }
}

impl Medium for ShortMedium {
    fn len(&mut self) -> Result<u64, MediumFault> {
        Ok(0)
    }

    fn write_at(&mut self, _offset: u64, _piece: &[u8]) -> Result<(), WriteFault> {
        Ok(())
    }
}
