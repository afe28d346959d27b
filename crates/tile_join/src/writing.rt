// The tiles of runs, written to a medium.
ghost use Rattle.std.specs.Prelude.{◌≡◌, ◌<◌, ◌+◌, ◌≤◌, [], length, map, false, IfSome, OnOk};
ghost use Rattle.tile_join.specs.Common.{has_failed, header_of, KeepsMedium, Options, Writes};
ghost use Rattle.pm_format.specs.declared.compression.Compression.TheVariants as compression;
ghost use Rattle.pm_writer.specs.Adding.{WritesSome};
ghost use Rattle.tile_join.specs.Over.{InOrder};
ghost use Rattle.tile_join.specs.Sources.{AreOnlyRead, MediumStands, SourcesStand, all_told, total};
ghost use Rattle.tile_join.specs.Written.{PieceCauses, PieceRead, PiecesPut, ShowsNone, WriteCauses, WritesPieces, looked, of_add_error, of_write_error};

use crate::adding::add_run;
use crate::gathering::of_reader;
use crate::{JoinError, Piece};
use bytes::Bytes;
use pm_format::{Backend, Medium, PmtError};
use pm_reader::ReaderState;
use pm_writer::{ArchivePlaces, PmTilesWriter, WriterState};
use std::alloc::Global;
use tile_extract::ExtractError;

// The word for the error of a writer.
fn of_writer(error: PmtError) -> JoinError
    ensures { result ≡ of_write_error error }
{
    match error {
        PmtError::OutOfMemory => JoinError::OutOfMemory,
        PmtError::IndexEntryOverflow => JoinError::IndexEntryOverflow,
        _ => JoinError::MediumFault,
    }
}

// And for the error of its adds.
fn of_adding(error: ExtractError) -> JoinError
    ensures { result ≡ of_add_error error }
{
    match error {
        ExtractError::IndexEntryOverflow => JoinError::IndexEntryOverflow,
        ExtractError::MediumFault => JoinError::MediumFault,
        _ => JoinError::OutOfMemory,
    }
}

// The contents of a run, read from its source.
fn read_piece<B: Backend>(
    readers: &[ReaderState],
    sources: &mut Vec<B>,
    piece: Piece,
) -> Result<Bytes, JoinError>
    requires readers { length readers.now ≡ length sources.old.items }
    requires number { piece.source < length sources.old.items }
    ensures read { IfSome (all_told (map B.told sources.old.items)) (λ bs.
        PieceRead (looked (map header_of readers.now) bs piece) piece result) }
    ensures causes { PieceCauses piece (map B.faults sources.old.items)
        (map B.faults sources.new.items) result }
    ensures still { SourcesStand (map B.faults sources.old.items)
        (map B.faults sources.new.items) result }
    ensures kept { AreOnlyRead B.told B.versions B.faults B.steady
        sources.old.items sources.new.items }
    ensures reads { total (map B.reads sources.new.items)
        ≤ total (map B.reads sources.old.items) + 1 }
{
    let entry = piece.entry;
    let number = piece.source;
    let source = &mut sources[number];
    match readers[number].read_contents(source, entry.offset(), entry.length()) {
        Ok(bytes) => Ok(bytes),
        Err(error) => Err(of_reader(number, error)),
    }
}

// Adds the contents of runs at their ids, in order. Those of each run are read once.
fn add_pieces<B: Backend, M: Medium>(
    writer: &mut WriterState,
    medium: &mut M,
    readers: &[ReaderState],
    sources: &mut Vec<B>,
    pieces: &[Piece],
) -> Result<(), JoinError>
    requires writes { (o : Options) × Writes o (M.told medium.old) writer.old [] }
    requires alive { has_failed writer.old ≡ false }
    requires readers { length readers.now ≡ length sources.old.items }
    requires ordered { InOrder (length sources.old.items) 0 pieces.now }
    ensures added { (o : Options) → Writes o (M.told medium.old) writer.old []
        → PiecesPut o (map header_of readers.now) (all_told (map B.told sources.old.items))
        pieces.now (M.told medium.new) writer.new result }
    ensures writes { WritesSome (M.told medium.new) writer.new }
    ensures alive { OnOk result (has_failed writer.new ≡ false) }
    ensures causes { WriteCauses (map B.faults sources.old.items) (map B.faults sources.new.items)
        (M.faults medium.old) (M.faults medium.new) result }
    ensures sources_still { SourcesStand (map B.faults sources.old.items)
        (map B.faults sources.new.items) result }
    ensures medium_still { MediumStands (M.faults medium.old) (M.faults medium.new) result }
    ensures sources_kept { AreOnlyRead B.told B.versions B.faults B.steady
        sources.old.items sources.new.items }
    ensures reads { total (map B.reads sources.new.items)
        ≤ total (map B.reads sources.old.items) + length pieces.now }
    ensures compared { M.reads medium.new ≤ M.reads medium.old + length pieces.now }
    ensures medium_kept { KeepsMedium M.told M.versions M.reads M.faults M.steady
        medium.old medium.new }
{
    let mut rest = pieces;
    while let Some((piece, others)) = rest.split_first() {
        let bytes = match read_piece(readers, sources, *piece) {
            Ok(bytes) => bytes,
            Err(error) => return Err(error),
        };
        match add_run(writer, medium, piece.entry, bytes.as_slice()) {
            Ok(()) => {}
            Err(error) => return Err(of_adding(error)),
        }
        rest = others;
    }
    Ok(())
}

/// Writes the archive of runs with options to an empty medium. The options label directories `None`.
pub(crate) fn write_pieces<B: Backend, M: Medium>(
    alloc: Global,
    options: &PmTilesWriter,
    readers: &[ReaderState],
    sources: &mut Vec<B>,
    pieces: &[Piece],
    medium: &mut M,
) -> Result<ArchivePlaces, JoinError>
    requires empty { IfSome (M.told medium.old) (λ b. b ≡ []) }
    requires plain { options.now.internal_compression ≡ compression.None }
    requires readers { length readers.now ≡ length sources.old.items }
    requires ordered { InOrder (length sources.old.items) 0 pieces.now }
    ensures written { WritesPieces options.now (map header_of readers.now)
        (all_told (map B.told sources.old.items)) pieces.now (M.told medium.new) result }
    ensures shown { IfSome (M.told medium.new) (ShowsNone options.now (map header_of readers.now)
        (all_told (map B.told sources.old.items)) pieces.now) }
    ensures causes { WriteCauses (map B.faults sources.old.items) (map B.faults sources.new.items)
        (M.faults medium.old) (M.faults medium.new) result }
    ensures sources_still { SourcesStand (map B.faults sources.old.items)
        (map B.faults sources.new.items) result }
    ensures medium_still { MediumStands (M.faults medium.old) (M.faults medium.new) result }
    ensures sources_kept { AreOnlyRead B.told B.versions B.faults B.steady
        sources.old.items sources.new.items }
    ensures reads { total (map B.reads sources.new.items)
        ≤ total (map B.reads sources.old.items) + length pieces.now }
    ensures compared { M.reads medium.new ≤ M.reads medium.old + length pieces.now }
    ensures medium_kept { KeepsMedium M.told M.versions M.reads M.faults M.steady
        medium.old medium.new }
{
    let mut writer = match options.start(alloc, medium) {
        Ok(writer) => writer,
        Err(error) => return Err(of_writer(error)),
    };
    match add_pieces(&mut writer, medium, readers, sources, pieces) {
        Ok(()) => {}
        Err(error) => return Err(error),
    }
    match writer.finalize(medium) {
        Ok(places) => Ok(places),
        Err(error) => Err(of_writer(error)),
    }
}
