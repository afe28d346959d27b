// A medium that tells nothing: a range is read as it was set up, whatever was written.
ghost use Rattle.std.specs.Prelude.{◌≡◌, None};
ghost use Rattle.byte_media.specs.Media.{ReadExactCauses};

use byte_media::{Backend, BackendResponse, Medium, MediumFault, MemMedium, ReadFault, WriteFault};
use std::alloc::Global;

/// What a range is read as.
#[derive(Clone, Copy)]
pub enum Mode {
    /// What was written there.
    True,
    /// What was written last.
    Last,
    /// Nothing: it lies past the end.
    Past,
    /// A byte less.
    Short,
    /// What was written there, but for one read, which is answered by two numbers: how many bytes were asked for, or
    /// said to be, and how many came.
    Numbers {
        read: u64,
        asked: Option<u64>,
        got: u64,
    },
}

/// What was written, how it is read, and how often it was.
#[derive(Drop)]
pub struct Mute {
    medium: MemMedium,
    mode: Mode,
    pub reads: u64,
}

// An answer to a read of so many bytes, by two numbers that differ.
fn short(length: u64, asked: u64, got: u64) -> Result<BackendResponse, ReadFault>
    ensures { ReadExactCauses 0 0 length result }
{
    if asked == got {
        return Err(ReadFault::PastEnd);
    }
    Err(ReadFault::Short { asked, got })
}

impl Mute {
    /// A medium of no bytes.
    pub fn new(alloc: Global, mode: Mode) -> Mute {
        let medium = MemMedium::new(alloc);
        Mute {
            medium,
            mode,
            reads: 0,
        }
    }

    /// A medium in which these bytes were written.
    pub fn holding(alloc: Global, bytes: &[u8], mode: Mode) -> Option<Mute> {
        let medium = MemMedium::from_bytes(bytes.to_vec(alloc).ok()?);
        Some(Mute {
            medium,
            mode,
            reads: 0,
        })
    }

    // What is written in a range.
    fn kept(
        &mut self,
        alloc: Global,
        offset: u64,
        length: u64,
    ) -> Result<BackendResponse, ReadFault>
        ensures answer { ReadExactCauses 0 0 length result }
        ensures reads { self.new.reads ≡ self.old.reads }
    {
        match self.medium.read_exact(alloc, offset, length) {
            Ok(response) => Ok(response),
            Err(ReadFault::PastEnd) => Err(ReadFault::PastEnd),
            Err(_) => Err(ReadFault::OutOfMemory),
        }
    }

    // One that is answered by numbers, where it is this one.
    fn numbered(
        &mut self,
        alloc: Global,
        offset: u64,
        length: u64,
        read: u64,
        numbers: (Option<u64>, u64),
    ) -> Result<BackendResponse, ReadFault>
        ensures answer { ReadExactCauses 0 0 length result }
        ensures reads { self.new.reads ≡ self.old.reads }
    {
        if self.reads != read {
            return self.kept(alloc, offset, length);
        }
        short(length, numbers.0.unwrap_or(length), numbers.1)
    }
}

impl Backend for Mute {
    ghost told = { λ _. None };

    ghost versions = { λ _. None };

    ghost faults = { λ _. 0 };

    ghost reads = { λ m. m.reads };

    ghost steady = { λ _. ⊥ };

    fn read(
        &mut self,
        alloc: Global,
        offset: u64,
        length: u64,
    ) -> Result<BackendResponse, ReadFault> {
        self.reads = self.reads.saturating_add(1);
        match self.medium.read(alloc, offset, length) {
            Ok(response) => Ok(response),
            Err(_) => Err(ReadFault::OutOfMemory),
        }
    }

    fn read_exact(
        &mut self,
        alloc: Global,
        offset: u64,
        length: u64,
    ) -> Result<BackendResponse, ReadFault> {
        self.reads = self.reads.saturating_add(1);
        match self.mode {
            Mode::True => self.kept(alloc, offset, length),
            Mode::Last => {
                let end = self.medium.as_bytes().len() as u64;
                self.kept(alloc, end.saturating_sub(length), length)
            }
            Mode::Past => Err(ReadFault::PastEnd),
            Mode::Short => short(length, length, length.saturating_sub(1)),
            Mode::Numbers { read, asked, got } => {
                self.numbered(alloc, offset, length, read, (asked, got))
            }
        }
    }
}

impl Medium for Mute {
    fn len(&mut self) -> Result<u64, MediumFault> {
        Ok(0)
    }

    fn write_at(&mut self, offset: u64, piece: &[u8]) -> Result<(), WriteFault> {
        if offset > self.medium.as_bytes().len() as u64 {
            return Err(WriteFault::OutOfMemory);
        }
        match self.medium.write_at(offset, piece) {
            Ok(()) => Ok(()),
            Err(_) => Err(WriteFault::OutOfMemory),
        }
    }
}
