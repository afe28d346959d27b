// A medium in memory. The calls that are listed fail.
ghost use Rattle.std.specs.Prelude.{◌≡◌, [], ◌≤◌, ◌<◌, ◌+◌, ◌↔◌, IfOk, OnOk, OnErr, IsErrOf, IsTrue, is_err, Some, None, length};
ghost use Rattle.byte_media.specs.Common.{Grew};
ghost use Rattle.byte_media.specs.Media.{written, WriteGives, IsLength, IsWithin, ReadAnswers, ReadExactAnswers, HasVersion};
ghost use Rattle.byte_media.specs.MemMedium.{version_at, held, version_texts, call_count, fault_count, read_count, failing_calls, next_fails, called, read_called};

use crate::{Backend, BackendResponse, Medium, MediumFault, ReadFault, WriteFault};
use base_values::{FailingCalls, OutOfMemory, TextVal};
use bytes::Bytes;
use std::alloc::{AllocError, Global};

/// A medium whose bytes lie in memory. It tells them, fails only where it is made to, and gives version
/// texts where it has some.
#[derive(Drop)]
pub struct MemMedium {
    bytes: Vec<u8>,
    versions: Vec<TextVal>,
    failing: FailingCalls,
    reads: u64,
}

impl MemMedium {
    /// An empty medium.
    pub fn new(alloc: Global) -> MemMedium
        ensures told { ⟦<MemMedium as Backend>⟧.told result ≡ Some [] }
        ensures steady { ⟦<MemMedium as Backend>⟧.steady result }
        ensures faults { ⟦<MemMedium as Backend>⟧.faults result ≡ 0 }
        ensures reads { ⟦<MemMedium as Backend>⟧.reads result ≡ 0 }
        ensures versions { version_texts result ≡ [] }
        ensures calls { call_count result ≡ 0 }
        ensures failing { failing_calls result ≡ [] }
    {
        MemMedium::from_bytes(Vec::new(alloc))
    }

    /// A medium that holds these bytes.
    pub fn from_bytes(bytes: Vec<u8>) -> MemMedium
        ensures told { ⟦<MemMedium as Backend>⟧.told result ≡ Some bytes.items }
        ensures steady { ⟦<MemMedium as Backend>⟧.steady result }
        ensures faults { ⟦<MemMedium as Backend>⟧.faults result ≡ 0 }
        ensures reads { ⟦<MemMedium as Backend>⟧.reads result ≡ 0 }
        ensures versions { version_texts result ≡ [] }
        ensures calls { call_count result ≡ 0 }
        ensures failing { failing_calls result ≡ [] }
    {
        let alloc = *bytes.allocator();
        MemMedium {
            bytes,
            versions: Vec::new(alloc),
            failing: FailingCalls::none(alloc),
            reads: 0,
        }
    }

    /// The bytes that it holds.
    pub fn as_bytes(&self) -> &[u8]
        ensures { ⟦<MemMedium as Backend>⟧.told self.now ≡ Some result.now }
    {
        self.bytes.as_slice()
    }

    /// Makes the calls of these numbers fail, counted from 1 over all calls of this medium.
    pub fn fail_at(&mut self, calls: Vec<u64>)
        ensures told { held self.new ≡ held self.old }
        ensures versions { version_texts self.new ≡ version_texts self.old }
        ensures faults { fault_count self.new ≡ fault_count self.old }
        ensures reads { read_count self.new ≡ read_count self.old }
        ensures calls { call_count self.new ≡ call_count self.old }
        ensures failing { failing_calls self.new ≡ calls.items }
    {
        self.failing.fail_at(calls);
    }

    /// Gives read number n, counted from 1 over all reads of this medium, the n-th of these version texts, or the last
    /// one beyond them. With none a read has no version text.
    pub fn set_versions(&mut self, versions: Vec<TextVal>)
        ensures told { held self.new ≡ held self.old }
        ensures versions { version_texts self.new ≡ versions.items }
        ensures faults { fault_count self.new ≡ fault_count self.old }
        ensures reads { read_count self.new ≡ read_count self.old }
        ensures calls { call_count self.new ≡ call_count self.old }
        ensures failing { failing_calls self.new ≡ failing_calls self.old }
    {
        self.versions = versions;
    }
}

// The version text of a read.
fn version(alloc: Global, versions: &[TextVal], number: u64) -> Result<Option<TextVal>, OutOfMemory>
    ensures { IfOk result (λ text. text ≡ version_at versions.now number) }
{
    if versions.is_empty() {
        return Ok(None);
    }
    let last = versions.len() - 1;
    let place = (number.saturating_sub(1) as usize).min(last);
    Ok(Some(versions[place].try_clone(alloc)?))
}

// A part of the bytes, as a response of its own.
fn response(
    alloc: Global,
    part: &[u8],
    version: Option<TextVal>,
) -> Result<BackendResponse, AllocError>
    ensures { IfOk result (λ r. (r.bytes ≡ part.now) × (r.data_version_string ≡ version)) }
{
    Ok(BackendResponse {
        bytes: Bytes::copy_from_slice(alloc, part)?,
        data_version_string: version,
    })
}

// Writes over the bytes, and past their end. Refused, it leaves them.
fn overwrite(bytes: &mut Vec<u8>, at: usize, piece: &[u8]) -> Result<(), AllocError>
    requires { at ≤ length bytes.old.items }
    ensures ok { OnOk result (bytes.new.items ≡ written bytes.old.items at piece.now) }
    ensures err { OnErr result (bytes.new.items ≡ bytes.old.items) }
{
    let over = piece.len().min(bytes.len() - at);
    bytes.extend_from_slice(&piece[over..])?;
    bytes[at..at + over].copy_from_slice(&piece[..over]);
    Ok(())
}

impl Backend for MemMedium {
    ghost told = { λ m. Some m.bytes.items };

    ghost versions = { λ m. Some (version_at m.versions.items) };

    ghost faults = { λ m. m.failing.faults };

    ghost reads = { λ m. m.reads };

    ghost steady = { λ m. m.failing.listed.items ≡ [] };

    fn read(
        &mut self,
        alloc: Global,
        offset: u64,
        length: u64,
    ) -> Result<BackendResponse, ReadFault>
        ensures answer { ReadAnswers (held self.old) offset length result }
        ensures text { HasVersion result (read_count self.new)
            (version_at (version_texts self.old)) }
        ensures fails { IsErrOf result ReadFault.Fault ↔ IsTrue (next_fails self.old) }
        ensures after { self.new ≡ read_called self.old }
        ensures faults { fault_count self.old ≤ fault_count self.new }
        ensures reads { Grew (read_count self.old) (read_count self.new) 1 }
    {
        self.reads = self.reads.saturating_add(1);
        if self.failing.fails() {
            return Err(ReadFault::Fault);
        }
        let at = offset as usize;
        if at > self.bytes.len() {
            return Err(ReadFault::PastEnd);
        }
        let most = self.bytes.len() - at;
        let count = (length as usize).min(most);
        let version = version(alloc, self.versions.as_slice(), self.reads)?;
        Ok(response(alloc, &self.bytes[at..at + count], version)?)
    }

    fn read_exact(
        &mut self,
        alloc: Global,
        offset: u64,
        length: u64,
    ) -> Result<BackendResponse, ReadFault>
        ensures answer { ReadExactAnswers (held self.old) offset length result }
        ensures text { HasVersion result (read_count self.new)
            (version_at (version_texts self.old)) }
        ensures fails { IsErrOf result ReadFault.Fault ↔ IsTrue (next_fails self.old) }
        ensures after { self.new ≡ read_called self.old }
        ensures faults { fault_count self.old ≤ fault_count self.new }
        ensures reads { Grew (read_count self.old) (read_count self.new) 1 }
    {
        self.reads = self.reads.saturating_add(1);
        if self.failing.fails() {
            return Err(ReadFault::Fault);
        }
        let at = offset as usize;
        if at > self.bytes.len() {
            return Err(ReadFault::PastEnd);
        }
        let most = self.bytes.len() - at;
        let count = length as usize;
        if count > most {
            return Err(ReadFault::PastEnd);
        }
        let version = version(alloc, self.versions.as_slice(), self.reads)?;
        Ok(response(alloc, &self.bytes[at..at + count], version)?)
    }
}

impl Medium for MemMedium {
    fn len(&mut self) -> Result<u64, MediumFault>
        ensures answer { IsLength (held self.old) result }
        ensures fails { is_err result ≡ next_fails self.old }
        ensures after { self.new ≡ called self.old }
        ensures faults { fault_count self.old ≤ fault_count self.new }
    {
        if self.failing.fails() {
            return Err(MediumFault);
        }
        Ok(self.bytes.len() as u64)
    }

    fn write_at(&mut self, offset: u64, piece: &[u8]) -> Result<(), WriteFault>
        requires { IsWithin offset (held self.old) }
        ensures leaves { WriteGives offset piece.now result (held self.old) (held self.new) }
        ensures err { OnErr result (held self.new ≡ held self.old) }
        ensures fails { IsErrOf result WriteFault.Fault ↔ IsTrue (next_fails self.old) }
        ensures after { self.new ≡ record (called self.old) { bytes = self.new.bytes } }
        ensures faults { fault_count self.old ≤ fault_count self.new }
    {
        if self.failing.fails() {
            return Err(WriteFault::Fault);
        }
        Ok(overwrite(&mut self.bytes, offset as usize, piece)?)
    }
}
