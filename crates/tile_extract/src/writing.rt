// The tiles of parts, written to a medium.
ghost use Rattle.std.specs.Prelude.{◌≡◌, ◌+◌, ◌≤◌, [], length, false, IfSome, OnOk, IsErrOf, None};
ghost use Rattle.tile_extract.specs.Common.{AreOrdered, has_failed, header_of, KeepsMedium, Options, ReadsOnly, Rose, Writes};
ghost use Rattle.tile_ids.specs.declared.id.TheConstants.{MAX_TILE_ID};
ghost use Rattle.pm_format.specs.declared.compression.Compression.TheVariants as compression;
ghost use Rattle.pm_writer.specs.Adding.{WhereWrites, WritesSome};
ghost use Rattle.tile_extract.specs.Written.{PartsPut, Puts, ShowsNone, WriteCauses, WritesParts, ids_of, of_read_error, of_write_error};
ghost use Rattle.tile_extract.specs.Faults.{MediumStands, SourceStands};

use crate::ExtractError;
use pm_format::{Backend, DirEntry, Medium, PmtError};
use pm_reader::ReaderState;
use pm_writer::{ArchivePlaces, PmTilesWriter, WriterState};
use std::alloc::Global;
use tile_hash::xxh3_64;

/// The extraction's word for the error of a writer.
fn of_writer(error: PmtError) -> ExtractError
    ensures { result ≡ of_write_error error }
{
    match error {
        PmtError::OutOfMemory => ExtractError::OutOfMemory,
        PmtError::IndexEntryOverflow => ExtractError::IndexEntryOverflow,
        _ => ExtractError::MediumFault,
    }
}

/// The extraction's word for the error of a reader.
pub(crate) fn of_reader(error: PmtError) -> ExtractError
    ensures { result ≡ of_read_error error }
{
    match error {
        PmtError::OutOfMemory => ExtractError::OutOfMemory,
        error => ExtractError::Archive(error),
    }
}

// Adds the contents of a part at each of its ids. They are compared, and stored, once.
fn add_part<M: Medium>(
    writer: &mut WriterState,
    medium: &mut M,
    part: DirEntry,
    bytes: &[u8],
) -> Result<(), ExtractError>
    requires writes { WritesSome (M.told medium.old) writer.old }
    requires alive { has_failed writer.old ≡ false }
    requires within { part.tile_id + part.run_length ≤ MAX_TILE_ID + 1 }
    ensures added { WhereWrites (M.told medium.old) writer.old (λ o done.
        Puts o bytes.now done (ids_of part) (M.told medium.new) writer.new result) }
    ensures writes { WritesSome (M.told medium.new) writer.new }
    ensures alive { OnOk result (has_failed writer.new ≡ false) }
    ensures fault { IsErrOf result ExtractError.MediumFault
        → Rose (M.faults medium.old) (M.faults medium.new) }
    ensures still { MediumStands (M.faults medium.old) (M.faults medium.new) result }
    ensures compared { M.reads medium.new ≤ M.reads medium.old + 1 }
    ensures kept { KeepsMedium M.told M.versions M.reads M.faults M.steady medium.old medium.new }
{
    let (first, count) = (part.tile_id(), part.run_length());
    match writer.add_raw_run_with_digest(medium, first, count, xxh3_64(bytes), bytes) {
        Ok(()) => Ok(()),
        Err(error) => Err(of_writer(error)),
    }
}

// Adds the contents of parts at their ids, in order. The contents of each part are read once.
fn add_parts<B: Backend, M: Medium>(
    writer: &mut WriterState,
    medium: &mut M,
    reader: &ReaderState,
    source: &mut B,
    parts: &[DirEntry],
) -> Result<(), ExtractError>
    requires writes { (o : Options) × Writes o (M.told medium.old) writer.old [] }
    requires alive { has_failed writer.old ≡ false }
    requires ordered { AreOrdered 0 parts.now None }
    ensures added { (o : Options) → Writes o (M.told medium.old) writer.old []
        → PartsPut o (header_of reader.now) (B.told source.old) parts.now (M.told medium.new)
        writer.new result }
    ensures writes { WritesSome (M.told medium.new) writer.new }
    ensures alive { OnOk result (has_failed writer.new ≡ false) }
    ensures causes { WriteCauses (B.faults source.old) (B.faults source.new)
        (M.faults medium.old) (M.faults medium.new) result }
    ensures source_still { SourceStands (B.faults source.old) (B.faults source.new) result }
    ensures medium_still { MediumStands (M.faults medium.old) (M.faults medium.new) result }
    ensures source_kept { ReadsOnly B.told B.versions B.faults B.steady source.old source.new }
    ensures reads { B.reads source.new ≤ B.reads source.old + length parts.now }
    ensures compared { M.reads medium.new ≤ M.reads medium.old + length parts.now }
    ensures medium_kept { KeepsMedium M.told M.versions M.reads M.faults M.steady
        medium.old medium.new }
{
    let mut rest = parts;
    while let Some((part, others)) = rest.split_first() {
        let bytes = match reader.read_contents(source, part.offset(), part.length()) {
            Ok(bytes) => bytes,
            Err(error) => return Err(of_reader(error)),
        };
        match add_part(writer, medium, *part, bytes.as_slice()) {
            Ok(()) => {}
            Err(error) => return Err(error),
        }
        rest = others;
    }
    Ok(())
}

/// Writes the archive of parts with options to an empty medium. The options label directories `None`.
pub fn write_parts<B: Backend, M: Medium>(
    alloc: Global,
    options: &PmTilesWriter,
    reader: &ReaderState,
    source: &mut B,
    parts: &[DirEntry],
    medium: &mut M,
) -> Result<ArchivePlaces, ExtractError>
    requires empty { IfSome (M.told medium.old) (λ b. b ≡ []) }
    requires plain { options.now.internal_compression ≡ compression.None }
    requires ordered { AreOrdered 0 parts.now None }
    ensures written { WritesParts options.now (header_of reader.now) (B.told source.old) parts.now
        (M.told medium.new) result }
    ensures shown { IfSome (M.told medium.new)
        (ShowsNone options.now (header_of reader.now) (B.told source.old) parts.now) }
    ensures causes { WriteCauses (B.faults source.old) (B.faults source.new)
        (M.faults medium.old) (M.faults medium.new) result }
    ensures source_still { SourceStands (B.faults source.old) (B.faults source.new) result }
    ensures medium_still { MediumStands (M.faults medium.old) (M.faults medium.new) result }
    ensures source_kept { ReadsOnly B.told B.versions B.faults B.steady source.old source.new }
    ensures reads { B.reads source.new ≤ B.reads source.old + length parts.now }
    ensures compared { M.reads medium.new ≤ M.reads medium.old + length parts.now }
    ensures medium_kept { KeepsMedium M.told M.versions M.reads M.faults M.steady
        medium.old medium.new }
{
    let mut writer = match options.start(alloc, medium) {
        Ok(writer) => writer,
        Err(error) => return Err(of_writer(error)),
    };
    match add_parts(&mut writer, medium, reader, source, parts) {
        Ok(()) => {}
        Err(error) => return Err(error),
    }
    match writer.finalize(medium) {
        Ok(places) => Ok(places),
        Err(error) => Err(of_writer(error)),
    }
}
