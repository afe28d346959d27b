// A medium over a file of the system.
ghost use Rattle.std.specs.Prelude.{◌≡◌, ◌≤◌, ◌+◌, ◌<◌, ◌^◌, IfOk, IfErr, IfSome, OnOk, OnErr, MatchOption, None, length, vec_len};
ghost use Rattle.std.specs.Io.KnownBytes.{Appends};
ghost use Rattle.byte_media.specs.Common.{Grew, Rose};
ghost use Rattle.byte_media.specs.Media.{EndsBelow, IsPart};

use crate::{Backend, BackendResponse, FileBackend, Medium, MediumFault, ReadFault, WriteFault};
use bytes::Bytes;
use std::alloc::{AllocError, Global};
use std::fs::File;
use std::io::{Seek, SeekFrom, Write};

// How many bytes are gathered at most.
const ROOM: usize = 262_144;

/// A medium over a file. It tells nothing, and counts its faults.
///
/// A piece that begins where the last one ended is gathered, up to 262,144 bytes. What is gathered is written before
/// any other piece, which is written through at once, by `len` and by `flush`, where the medium is dropped, and before
/// a read, but for two kinds: a read of gathered bytes alone is answered from memory, and one that ends at or before
/// the first of them reads the file as it is. So pieces reach the file in their order, and one that doesn't begin where
/// the last one ended has reached it when `write_at` answers. Where gathered bytes can't be written, that call fails
/// and they are gone. The file then has what reached it before and perhaps a front of them, and each later call fails,
/// so that nothing is written behind what is missing.
pub struct FileMedium {
    backend: FileBackend,
    gathered: Vec<u8>,
    from: u64,
    end: u64,
    lost: bool,
}

impl FileMedium {
    /// Opens a file for reading and writing. One that is missing is created, and nothing is cut. `MediumFault` says
    /// that the system refused to.
    pub fn open(rt: &HostRuntime, path: &str) -> Result<FileMedium, MediumFault>
        ensures faults { IfOk result (λ file. ⟦<FileMedium as Backend>⟧.faults file ≡ 0) }
        ensures reads { IfOk result (λ file. ⟦<FileMedium as Backend>⟧.reads file ≡ 0) }
    {
        let mut how = File::options();
        how.read(true).write(true).create(true);
        match how.open(rt, path) {
            Ok(file) => Ok(FileMedium {
                backend: FileBackend::new(file),
                gathered: Vec::new(rt.alloc()),
                from: 0,
                end: 0,
                lost: false,
            }),
            Err(_) => Err(MediumFault),
        }
    }

    /// Writes what is gathered.
    pub fn flush(&mut self) -> Result<(), MediumFault>
        ensures cause { OnErr result
            (Rose (⟦<FileMedium as Backend>⟧.faults self.old)
            (⟦<FileMedium as Backend>⟧.faults self.new)) }
        ensures still { OnOk result
            (⟦<FileMedium as Backend>⟧.faults self.new
            ≡ ⟦<FileMedium as Backend>⟧.faults self.old) }
        ensures faults { ⟦<FileMedium as Backend>⟧.faults self.old
            ≤ ⟦<FileMedium as Backend>⟧.faults self.new }
        ensures reads { ⟦<FileMedium as Backend>⟧.reads self.new
            ≡ ⟦<FileMedium as Backend>⟧.reads self.old }
    {
        let done = self.write_gathered();
        if done.is_err() {
            self.backend.faults = self.backend.faults.saturating_add(1);
        }
        done
    }

    // Writes what is gathered, and counts nothing.
    fn write_gathered(&mut self) -> Result<(), MediumFault>
        ensures faults { self.new.backend.faults ≡ self.old.backend.faults }
        ensures reads { self.new.backend.reads ≡ self.old.backend.reads }
        ensures empty { OnOk result (vec_len self.new.gathered ≡ 0) }
    {
        if !self.gathered.is_empty() {
            self.lost = write_through(&mut self.backend.file, self.from, &self.gathered).is_err();
            self.gathered.clear();
        }
        if self.lost {
            return Err(MediumFault);
        }
        Ok(())
    }

    // Gathers a piece where it continues the last one, and else writes it through, behind what is gathered.
    fn write_piece(&mut self, offset: u64, piece: &[u8]) -> Result<(), WriteFault>
        requires { EndsBelow offset piece.now (2 ^ 64) }
        ensures faults { self.new.backend.faults ≡ self.old.backend.faults }
        ensures reads { self.new.backend.reads ≡ self.old.backend.reads }
    {
        let continues = offset == self.end && piece.len() <= ROOM;
        if self.lost || !continues || self.gathered.len() > ROOM - piece.len() {
            if self.write_gathered().is_err() {
                return Err(WriteFault::Fault);
            }
        }
        if continues {
            if self.gathered.is_empty() {
                self.from = offset;
            }
            self.gathered.extend_from_slice(piece)?;
        } else if write_through(&mut self.backend.file, offset, piece).is_err() {
            return Err(WriteFault::Fault);
        }
        self.end = offset + piece.len() as u64;
        Ok(())
    }

    // A read of gathered bytes alone, from memory. It is counted here, and any other one isn't.
    fn read_gathered(
        &mut self,
        alloc: Global,
        offset: u64,
        count: u64,
    ) -> Result<Option<BackendResponse>, AllocError>
        ensures found { IfOk result (λ found. IfSome found (λ response.
            IsPart self.old.gathered.items self.old.from offset count response.bytes)) }
        ensures counted { IfOk result (λ found. MatchOption found
            (self.new.backend.reads ≡ self.old.backend.reads)
            (λ _. Grew self.old.backend.reads self.new.backend.reads 1)) }
        ensures hindered { OnErr result (Grew self.old.backend.reads self.new.backend.reads 1) }
        ensures faults { self.new.backend.faults ≡ self.old.backend.faults }
    {
        let Some(part) = part_within(&self.gathered, self.from, offset, count) else {
            return Ok(None);
        };
        self.backend.reads = self.backend.reads.saturating_add(1);
        let bytes = Bytes::copy_from_slice(alloc, part)?;
        Ok(Some(BackendResponse::new(bytes)))
    }

    // Writes what is gathered before a read, unless that ends before it. A read that is hindered
    // by that is counted here.
    fn begin_read(&mut self, offset: u64, count: u64) -> Result<(), ReadFault>
        ensures fault { IfErr result (λ fault. fault ≡ ReadFault.Fault) }
        ensures cause { OnErr result (Rose self.old.backend.faults self.new.backend.faults) }
        ensures still { OnOk result (self.new.backend.faults ≡ self.old.backend.faults) }
        ensures faults { self.old.backend.faults ≤ self.new.backend.faults }
        ensures done { OnOk result (self.new.backend.reads ≡ self.old.backend.reads) }
        ensures hindered { OnErr result (Grew self.old.backend.reads self.new.backend.reads 1) }
    {
        let ends_before = count <= self.from && offset <= self.from - count;
        if ends_before && !self.lost {
            return Ok(());
        }
        if self.flush().is_err() {
            self.backend.reads = self.backend.reads.saturating_add(1);
            return Err(ReadFault::Fault);
        }
        Ok(())
    }
}

// The part of what is gathered from a place on that a range is, where it begins and ends there.
fn part_within(gathered: &[u8], from: u64, offset: u64, count: u64) -> Option<&[u8]>
    ensures { IfSome result (λ part. IsPart gathered.now from offset count part.now) }
{
    let held = gathered.len() as u64;
    if offset < from || offset - from >= held || count > held - (offset - from) {
        return None;
    }
    let at = (offset - from) as usize;
    Some(&gathered[at..at + count as usize])
}

// Writes a whole piece where the writer stands.
fn write_whole<W: Write>(writer: &mut W, piece: &[u8]) -> Result<(), MediumFault>
    ensures { OnOk result (Appends (W.contents writer.old) (W.contents writer.new) piece.now) }
{
    match writer.write_all(piece) {
        Ok(_) => Ok(()),
        Err(_) => Err(MediumFault),
    }
}

// Writes a whole piece at a place.
fn write_through(file: &mut File, offset: u64, piece: &[u8]) -> Result<(), MediumFault> {
    if file.seek(SeekFrom::Start(offset)).is_err() {
        return Err(MediumFault);
    }
    write_whole(file, piece)
}

impl Drop for FileMedium {
    fn drop(mut self) {
        let _ = self.write_gathered();
        let FileMedium {
            backend: _,
            gathered: _,
            from: _,
            end: _,
            lost: _,
        } = self;
    }
}

impl Backend for FileMedium {
    ghost told = { λ _. None };

    ghost versions = { λ _. None };

    ghost faults = { λ f. f.backend.faults };

    ghost reads = { λ f. f.backend.reads };

    ghost steady = { λ _. ⊥ };

    fn read(
        &mut self,
        alloc: Global,
        offset: u64,
        length: u64,
    ) -> Result<BackendResponse, ReadFault> {
        let found = self.read_gathered(alloc, offset, length)?;
        if let Some(response) = found {
            return Ok(response);
        }
        self.begin_read(offset, length)?;
        self.backend.read(alloc, offset, length)
    }

    fn read_exact(
        &mut self,
        alloc: Global,
        offset: u64,
        length: u64,
    ) -> Result<BackendResponse, ReadFault> {
        let found = self.read_gathered(alloc, offset, length)?;
        if let Some(response) = found {
            return Ok(response);
        }
        self.begin_read(offset, length)?;
        self.backend.read_exact(alloc, offset, length)
    }
}

impl Medium for FileMedium {
    fn len(&mut self) -> Result<u64, MediumFault> {
        self.flush()?;
        match self.backend.file.seek(SeekFrom::End(0)) {
            Ok(end) => Ok(end),
            Err(_) => {
                self.backend.faults = self.backend.faults.saturating_add(1);
                Err(MediumFault)
            }
        }
    }

    fn write_at(&mut self, offset: u64, piece: &[u8]) -> Result<(), WriteFault> {
        let done = self.write_piece(offset, piece);
        if matches!(done, Err(WriteFault::Fault)) {
            self.backend.faults = self.backend.faults.saturating_add(1);
        }
        done
    }
}
