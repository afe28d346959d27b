// Any reader and writer of std. They tell nothing, and count their faults.
ghost use Rattle.std.specs.Prelude.{◌≡◌, ◌≤◌, ◌<◌, None, length, IfSome};

use crate::{Sink, SinkFault, Source, SourceFault};
use std::io::{ErrorKind, Read, Write};

/// A source over a reader of std. It tells nothing. An interrupted read is tried again.
#[derive(Drop)]
pub struct StdSource<R> {
    reader: R,
    faults: u64,
    taken: u64,
}

impl<R: Read> StdSource<R> {
    /// A source over this reader.
    pub fn new(reader: R) -> StdSource<R>
        ensures faults { result.faults ≡ 0 }
        ensures taken { result.taken ≡ 0 }
    {
        StdSource {
            reader,
            faults: 0,
            taken: 0,
        }
    }
}

// The number of bytes that a read gave, where none failed.
fn read_some<R: Read>(reader: &mut R, buffer: &mut [u8]) -> Option<usize>
    ensures { IfSome result (λ count. count ≤ length buffer.new) }
{
    for _ in 0..u64::MAX {
        match reader.read(buffer) {
            Ok(count) => return Some(count),
            Err(e) => {
                if e.kind() != ErrorKind::Interrupted {
                    break;
                }
            }
        }
    }
    None
}

impl<R: Read> Source for StdSource<R> {
    ghost left = { λ _. None };

    ghost faults = { λ s. s.faults };

    ghost taken = { λ s. s.taken };

    ghost steady = { λ _. ⊥ };

    fn read(&mut self, buffer: &mut [u8]) -> Result<usize, SourceFault> {
        let Some(count) = read_some(&mut self.reader, buffer) else {
            self.faults = self.faults.saturating_add(1);
            return Err(SourceFault);
        };
        self.taken = self.taken.saturating_add(count as u64);
        Ok(count)
    }
}

/// A sink over a writer of std. It tells nothing. An interrupted write is tried again, and taking no byte is a fault.
#[derive(Drop)]
pub struct StdSink<W> {
    writer: W,
    faults: u64,
}

impl<W: Write> StdSink<W> {
    /// A sink over this writer.
    pub fn new(writer: W) -> StdSink<W>
        ensures { result.faults ≡ 0 }
    {
        StdSink { writer, faults: 0 }
    }
}

// The number of bytes that a write took, where none failed.
fn write_some<W: Write>(writer: &mut W, piece: &[u8]) -> Option<usize>
    ensures some { IfSome result (λ count. 0 < count) }
    ensures bound { IfSome result (λ count. count ≤ length piece.now) }
{
    for _ in 0..u64::MAX {
        match writer.write(piece) {
            Ok(0) => break,
            Ok(count) => return Some(count),
            Err(e) => {
                if e.kind() != ErrorKind::Interrupted {
                    break;
                }
            }
        }
    }
    None
}

impl<W: Write> Sink for StdSink<W> {
    ghost held = { λ _. None };

    ghost faults = { λ s. s.faults };

    ghost steady = { λ _. ⊥ };

    fn write(&mut self, piece: &[u8]) -> Result<usize, SinkFault> {
        if piece.is_empty() {
            return Ok(0);
        }
        let Some(count) = write_some(&mut self.writer, piece) else {
            self.faults = self.faults.saturating_add(1);
            return Err(SinkFault::Fault);
        };
        Ok(count)
    }
}
