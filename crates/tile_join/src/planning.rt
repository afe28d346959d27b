// What is found before the tiles are written.
ghost use Rattle.std.specs.Prelude.{◌≡◌, ◌≢◌, ◌≤◌, ◌+◌, IfErr, IfOk, IfSome, IsTrue, ◌↔◌, length, map};
ghost use Rattle.pm_format.specs.declared.compression.Compression.TheVariants as compression;
ghost use Rattle.tile_join.specs.Common.{header_of};
ghost use Rattle.tile_join.specs.Gathered.{gather_reads};
ghost use Rattle.tile_join.specs.Join.{IsEarly};
ghost use Rattle.tile_join.specs.Opening.{IsPlanned, PlanCauses, TextCauses, TextRead};
ghost use Rattle.tile_join.specs.Over.{InOrder};
ghost use Rattle.tile_join.specs.Sources.{AreOnlyRead, SourcesStand, all_told, total};
ghost use Rattle.tile_join.specs.Written.{piece_count};

use crate::gathering::{all_ids, gather, of_reader};
use crate::headers::{options_for, test_alike};
use crate::{JoinError, Piece};
use base_values::TextVal;
use pm_format::Backend;
use pm_reader::ReaderState;
use pm_writer::PmTilesWriter;
use std::alloc::Global;

// The metadata of the last source.
fn last_text<B: Backend>(
    readers: &[ReaderState],
    sources: &mut Vec<B>,
) -> Result<TextVal, JoinError>
    requires some { length sources.old.items ≢ 0 }
    requires readers { length readers.now ≡ length sources.old.items }
    ensures read { IfSome (all_told (map B.told sources.old.items))
        (λ bs. TextRead bs (map header_of readers.now) result) }
    ensures causes { IfErr result (TextCauses (map B.faults sources.old.items)
        (map B.faults sources.new.items)) }
    ensures still { SourcesStand (map B.faults sources.old.items)
        (map B.faults sources.new.items) result }
    ensures kept { AreOnlyRead B.told B.versions B.faults B.steady
        sources.old.items sources.new.items }
    ensures reads { total (map B.reads sources.new.items)
        ≤ total (map B.reads sources.old.items) + 1 }
{
    let last = sources.len() - 1;
    let source = &mut sources[last];
    match readers[last].get_metadata(source) {
        Ok(text) => Ok(text),
        Err(error) => Err(of_reader(last, error)),
    }
}

// Whether runs have no more tiles than so many.
fn are_few(pieces: &[Piece], max_tiles: u64) -> bool
    ensures { IsTrue result ↔ (piece_count pieces.now ≤ max_tiles) }
{
    let mut left = max_tiles;
    let mut rest = pieces;
    while let Some((piece, others)) = rest.split_first() {
        let run = u64::from(piece.entry.run_length());
        if left < run {
            return false;
        }
        left -= run;
        rest = others;
    }
    true
}

/// What is to be written: the options of the joined archive, the readers of the sources, and the runs of their tiles
/// that are left, in order. The sources have labels that are alike.
pub(crate) fn plan<B: Backend>(
    alloc: Global,
    sources: &mut Vec<B>,
    max_tiles: u64,
) -> Result<(PmTilesWriter, Vec<ReaderState>, Vec<Piece>), JoinError>
    requires some { length sources.old.items ≢ 0 }
    ensures planned { IfSome (all_told (map B.told sources.old.items)) (λ bs. IfOk result
        (λ p. IsPlanned bs max_tiles p.0 p.1.items p.2.items)) }
    ensures refused { IfSome (all_told (map B.told sources.old.items))
        (λ bs. IfErr result (IsEarly bs max_tiles)) }
    ensures plain { IfOk result (λ p. p.0.internal_compression ≡ compression.None) }
    ensures all { IfOk result (λ p. length p.1.items ≡ length sources.old.items) }
    ensures ordered { IfOk result (λ p. InOrder (length sources.old.items) 0 p.2.items) }
    ensures few { IfOk result (λ p. piece_count p.2.items ≤ max_tiles) }
    ensures causes { IfErr result (PlanCauses max_tiles (map B.faults sources.old.items)
        (map B.faults sources.new.items)) }
    ensures still { SourcesStand (map B.faults sources.old.items)
        (map B.faults sources.new.items) result }
    ensures kept { AreOnlyRead B.told B.versions B.faults B.steady
        sources.old.items sources.new.items }
    ensures reads { IfSome (all_told (map B.told sources.old.items))
        (λ bs. total (map B.reads sources.new.items)
        ≤ total (map B.reads sources.old.items) + gather_reads bs + 1) }
{
    let ids = all_ids(alloc)?;
    let (readers, pieces) = match gather(alloc, sources, &ids, max_tiles) {
        Ok(found) => found,
        Err(error) => return Err(error),
    };
    let text = match last_text(&readers, sources) {
        Ok(text) => text,
        Err(error) => return Err(error),
    };
    let last = readers[readers.len() - 1].get_header();
    match test_alike(last, &readers) {
        Ok(()) => {}
        Err(error) => return Err(error),
    }
    if !are_few(&pieces, max_tiles) {
        return Err(JoinError::TooManyTiles(max_tiles));
    }
    let options = options_for(last, &readers, text, ids);
    Ok((options, readers, pieces))
}
