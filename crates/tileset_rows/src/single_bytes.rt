// A source that gives one byte at a time, and a sink that takes one. They tell nothing.
ghost use Rattle.std.specs.Prelude.{◌≤◌, None, vec_len};

use std::alloc::Global;
use tileset::{Sink, SinkFault, Source, SourceFault};

#[derive(Drop)]
pub struct SingleBytesSource {
    bytes: Vec<u8>,
    place: usize,
    taken: u64,
    ghost in_range: { place ≤ vec_len bytes },
}

impl SingleBytesSource {
    pub fn new(bytes: Vec<u8>) -> SingleBytesSource {
        SingleBytesSource {
            bytes,
            place: 0,
            taken: 0,
        }
    }
}

impl Source for SingleBytesSource {
    ghost left = { λ _. None };

    ghost faults = { λ _. 0 };

    ghost taken = { λ s. s.taken };

    ghost steady = { λ _. ⊥ };

    fn read(&mut self, buffer: &mut [u8]) -> Result<usize, SourceFault> {
        if buffer.is_empty() || self.place == self.bytes.len() {
            return Ok(0);
        }
        buffer[0] = self.bytes[self.place];
        self.place += 1;
        self.taken = self.taken.saturating_add(1);
        Ok(1)
    }
}

#[derive(Drop)]
pub struct SingleBytesSink {
    bytes: Vec<u8>,
}

impl SingleBytesSink {
    pub fn new(alloc: Global) -> SingleBytesSink {
        SingleBytesSink {
            bytes: Vec::new(alloc),
        }
    }

    pub fn as_bytes(&self) -> &[u8] {
        self.bytes.as_slice()
    }
}

impl Sink for SingleBytesSink {
    ghost held = { λ _. None };

    ghost faults = { λ _. 0 };

    ghost steady = { λ _. ⊥ };

    fn write(&mut self, piece: &[u8]) -> Result<usize, SinkFault> {
        match piece.first() {
            None => Ok(0),
            Some(byte) => match self.bytes.push(*byte) {
                Ok(()) => Ok(1),
                Err(_) => Err(SinkFault::OutOfMemory),
            },
        }
    }
}
