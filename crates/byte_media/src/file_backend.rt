// A backend over a file of the system.
ghost use Rattle.std.specs.Prelude.{◌≡◌, ◌≤◌, ◌+◌, IfOk, IfErr, IsErrOf, None, length, vec_len};
ghost use Rattle.byte_media.specs.Common.{Grew, Rose};
ghost use Rattle.byte_media.specs.Media.{FaultsStand, IsPartFault};

use crate::{Backend, BackendResponse, MediumFault, ReadFault};
use bytes::Bytes;
use std::alloc::Global;
use std::fs::File;
use std::io::{ErrorKind, Read, Seek, SeekFrom};

/// A backend over a file. It tells nothing, and counts its faults. Reads that are interrupted go on.
#[derive(Drop)]
pub struct FileBackend {
    pub(crate) file: File,
    pub(crate) faults: u64,
    pub(crate) reads: u64,
}

impl FileBackend {
    /// Opens a file for reading. `MediumFault` says that the system refused to.
    pub fn open(rt: &HostRuntime, path: &str) -> Result<FileBackend, MediumFault>
        ensures faults { IfOk result (λ file. ⟦<FileBackend as Backend>⟧.faults file ≡ 0) }
        ensures reads { IfOk result (λ file. ⟦<FileBackend as Backend>⟧.reads file ≡ 0) }
    {
        match File::open(rt, path) {
            Ok(file) => Ok(FileBackend::new(file)),
            Err(_) => Err(MediumFault),
        }
    }

    // A backend over an open file.
    pub(crate) fn new(file: File) -> FileBackend
        ensures faults { result.faults ≡ 0 }
        ensures reads { result.reads ≡ 0 }
    {
        FileBackend {
            file,
            faults: 0,
            reads: 0,
        }
    }

    // A read, counted, of at least so many bytes and at most so many.
    fn read_part(
        &mut self,
        alloc: Global,
        offset: u64,
        least: u64,
        most: u64,
    ) -> Result<Vec<u8>, ReadFault>
        ensures bound { IfOk result (λ bytes. vec_len bytes ≤ most) }
        ensures fails { IfErr result (IsPartFault (offset + least)) }
        ensures cause { IsErrOf result ReadFault.Fault → Rose self.old.faults self.new.faults }
        ensures still { FaultsStand self.old.faults self.new.faults result }
        ensures faults { self.old.faults ≤ self.new.faults }
        ensures reads { Grew self.old.reads self.new.reads 1 }
    {
        self.reads = self.reads.saturating_add(1);
        let part = part_of(alloc, &mut self.file, offset, least, most);
        if matches!(part, Err(ReadFault::Fault)) {
            self.faults = self.faults.saturating_add(1);
        }
        part
    }
}

// From a place on at most so many bytes, or that fewer than the least are there.
fn part_of(
    alloc: Global,
    file: &mut File,
    offset: u64,
    least: u64,
    most: u64,
) -> Result<Vec<u8>, ReadFault>
    ensures bound { IfOk result (λ bytes. vec_len bytes ≤ most) }
    ensures fails { IfErr result (IsPartFault (offset + least)) }
{
    let Ok(end) = file.seek(SeekFrom::End(0)) else {
        return Err(ReadFault::Fault);
    };
    if offset > end || least > end - offset {
        return Err(ReadFault::PastEnd);
    }
    let count = most.min(end - offset);
    let mut bytes = Vec::from_elem(alloc, 0, count as usize)?;
    if file.seek(SeekFrom::Start(offset)).is_err() {
        return Err(ReadFault::Fault);
    }
    let Ok(got) = fill(file, &mut bytes) else {
        return Err(ReadFault::Fault);
    };
    bytes.truncate(got);
    Ok(bytes)
}

// Reads on until the buffer is full or the file at its end, and says how many bytes came.
fn fill(file: &mut File, buffer: &mut [u8]) -> Result<usize, MediumFault>
    ensures { IfOk result (λ count. count ≤ length buffer.new) }
{
    let mut got = 0;
    for _ in 0..u64::MAX {
        if got == buffer.len() {
            break;
        }
        match file.read(&mut buffer[got..]) {
            Ok(0) => break,
            Ok(count) => got += count,
            Err(error) => {
                if error.kind() != ErrorKind::Interrupted {
                    return Err(MediumFault);
                }
            }
        }
    }
    Ok(got)
}

impl Backend for FileBackend {
    ghost told = { λ _. None };

    ghost versions = { λ _. None };

    ghost faults = { λ f. f.faults };

    ghost reads = { λ f. f.reads };

    ghost steady = { λ _. ⊥ };

    fn read(
        &mut self,
        alloc: Global,
        offset: u64,
        length: u64,
    ) -> Result<BackendResponse, ReadFault> {
        let bytes = self.read_part(alloc, offset, 0, length)?;
        Ok(BackendResponse::new(Bytes::from_vec(bytes)?))
    }

    fn read_exact(
        &mut self,
        alloc: Global,
        offset: u64,
        length: u64,
    ) -> Result<BackendResponse, ReadFault> {
        let bytes = self.read_part(alloc, offset, length, length)?;
        let got = bytes.len() as u64;
        if got < length {
            return Err(ReadFault::Short { asked: length, got });
        }
        Ok(BackendResponse::new(Bytes::from_vec(bytes)?))
    }
}
