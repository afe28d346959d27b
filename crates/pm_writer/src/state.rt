// The state of a writer: all that it owns, beside the medium that it borrows.
ghost use Rattle.std.specs.Prelude.{◌≡◌, ◌≢◌, ◌≤◌, ◌<◌, ◌+◌, ℕ, List, [], Option, false, IfSome, IfOk, OnOk, is_some};
ghost use Rattle.pm_format.specs.declared.compression.Compression.TheVariants as compression;
ghost use Rattle.pm_writer.specs.Common.{Options, FaultsStand};
ghost use Rattle.pm_writer.specs.Causes.{CreateCauses};
ghost use Rattle.pm_writer.specs.Pieces.{IsHidden};
ghost use Rattle.pm_writer.specs.Writing.{Writes, has_failed, room, zeros};

use crate::PmTilesWriter;
use crate::adds::Adds;
use crate::pieces::put;
use crate::settings::Settings;
use base_values::OutOfMemory;
use pm_format::{Compression, Medium, PmtError, PmtResult};
use std::alloc::{AllocError, Global};

/// Where the root ends at the latest, and the metadata begins.
pub(crate) const ROOT_END: u64 = 16_384;

/// What a writer owns beside the medium that it borrows: its options, its adds, and whether the medium has failed.
#[derive(Drop)]
pub struct WriterState {
    pub(crate) alloc: Global,
    pub(crate) settings: Settings,
    pub(crate) data_offset: u64,
    pub(crate) adds: Adds,
    pub(crate) failed: bool,
}

impl WriterState {
    /// Makes room for the entries of so many more adds, so that entries aren't moved as they come. After Ok there is
    /// room for them; what the writer means stays, also after `OutOfMemory`.
    pub fn reserve(&mut self, additional: usize) -> Result<(), OutOfMemory>
        ensures same { (o : Options) (told : Option (List ℕ)) (adds : List (ℕ × List ℕ))
            → Writes o told self.old adds → Writes o told self.new adds }
        ensures failed { has_failed self.new ≡ has_failed self.old }
        ensures room { OnOk result (additional ≤ room self.new) }
    {
        self.adds.reserve(additional)
    }
}

// So many zeros.
fn zero_bytes(alloc: Global, count: usize) -> Result<Vec<u8>, AllocError>
    ensures { IfOk result (λ v. v.items ≡ zeros count) }
{
    vec![in alloc; 0; count]
}

impl PmTilesWriter {
    /// Begins an archive on an empty medium, without borrowing it any longer: 16,384 zeros, where the header and the
    /// root will be, and the metadata behind them.
    ///
    /// `UnsupportedCompression` comes exactly where directories aren't labelled `None`; then the medium is as before.
    /// `Reading(Fault)` comes only where the medium's count of faults rose. After each answer byte 97 of the medium,
    /// the label of directories, is 0 or missing.
    pub fn start<M: Medium>(&self, alloc: Global, medium: &mut M) -> PmtResult<WriterState>
        requires empty { IfSome (M.told medium.old) (λ b. b ≡ []) }
        ensures begun { IfOk result (λ s. Writes self.now (M.told medium.new) s []) }
        ensures alive { IfOk result (λ s. has_failed s ≡ false) }
        ensures causes { CreateCauses self.now.internal_compression
            (M.faults medium.old) (M.faults medium.new) result }
        ensures still { FaultsStand (M.faults medium.old) (M.faults medium.new) result }
        ensures hidden { IfSome (M.told medium.new) IsHidden }
        ensures refused { self.now.internal_compression ≢ compression.None
            → medium.new ≡ medium.old }
        ensures tells { is_some (M.told medium.new) ≡ is_some (M.told medium.old) }
        ensures versions { is_some (M.versions medium.new) ≡ is_some (M.versions medium.old) }
        ensures faults { M.faults medium.old ≤ M.faults medium.new }
        ensures reads { M.reads medium.new ≡ M.reads medium.old }
        ensures calm { M.steady medium.old
            → M.steady medium.new × (M.faults medium.new ≡ M.faults medium.old) }
    {
        let label = self.directory_label();
        if label != Compression::None {
            return Err(PmtError::UnsupportedCompression(label));
        }
        let metadata = self.metadata_bytes();
        let room = zero_bytes(alloc, ROOT_END as usize)?;
        put(medium, 0, &room)?;
        put(medium, ROOT_END, metadata)?;
        Ok(WriterState {
            alloc,
            settings: self.settings(),
            data_offset: ROOT_END + metadata.len() as u64,
            adds: Adds::new(alloc),
            failed: false,
        })
    }
}
