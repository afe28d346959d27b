// What is found of the sources, one after another.
ghost use Rattle.std.specs.Prelude.{◌≡◌, ◌≤◌, ◌+◌, IfOk, IfErr, IfSome, None, Ok, length, map};
ghost use Rattle.tile_join.specs.Common.{AreOrdered, header_of, ReadsOnly};
ghost use Rattle.tile_join.specs.Gathered.{FindCauses, IsAdded, Refuses, find_reads, found, gather_reads, gathered, whole};
ghost use Rattle.tile_join.specs.Gather.{GatherCauses, gathered_of, of_collect, of_read};
ghost use Rattle.tile_join.specs.Over.{InOrder};
ghost use Rattle.tile_join.specs.Sources.{AreOnlyRead, SourceStands, SourcesStand, all_told, total};

use crate::overlaying::lay_over;
use crate::{JoinError, Piece};
use base_values::OutOfMemory;
use pm_format::{Backend, DirEntry, PmtError};
use pm_reader::ReaderState;
use std::alloc::Global;
use tile_extract::{ExtractError, IdIntervals, collect_intervals};
use tile_ids::MAX_TILE_ID;

/// All ids of tiles.
pub(crate) fn all_ids(alloc: Global) -> Result<IdIntervals, OutOfMemory>
    ensures { IfOk result (λ found. found ≡ whole) }
{
    let mut items = Vec::new(alloc);
    items.push((0, MAX_TILE_ID))?;
    let Some(found) = IdIntervals::new(items) else {
        unreachable!();
    };
    Ok(found)
}

// The word for the error of the reader of the source with this number.
pub(crate) fn of_reader(source: usize, error: PmtError) -> JoinError
    ensures { result ≡ of_read source error }
{
    match error {
        PmtError::OutOfMemory => JoinError::OutOfMemory,
        error => JoinError::Archive {
            source: source as u64,
            error,
        },
    }
}

// And for what collecting its tile entries is refused for.
fn of_collecting(source: usize, error: ExtractError) -> JoinError
    ensures { result ≡ of_collect source error }
{
    match error {
        ExtractError::Archive(error) => JoinError::Archive {
            source: source as u64,
            error,
        },
        ExtractError::TooManyTiles(limit) => JoinError::TooManyTiles(limit),
        _ => JoinError::OutOfMemory,
    }
}

// Opens the source with this number, and collects its tile entries, in order.
fn find_source<B: Backend>(
    alloc: Global,
    source: &mut B,
    number: usize,
    ids: &IdIntervals,
    max_tiles: u64,
) -> Result<(ReaderState, Vec<DirEntry>), JoinError>
    requires whole { ids.now ≡ whole }
    ensures found { IfSome (B.told source.old) (λ b. IfOk result
        (λ f. found max_tiles number b ≡ Ok (header_of f.0, f.1.items))) }
    ensures refused { IfSome (B.told source.old)
        (λ b. IfErr result (Refuses (found max_tiles number b))) }
    ensures ordered { IfOk result (λ f. AreOrdered 0 f.1.items None) }
    ensures causes { IfErr result (FindCauses max_tiles number
        (B.faults source.old) (B.faults source.new)) }
    ensures still { SourceStands (B.faults source.old) (B.faults source.new) result }
    ensures kept { ReadsOnly B.told B.versions B.faults B.steady source.old source.new }
    ensures reads { IfSome (B.told source.old)
        (λ b. B.reads source.new ≤ B.reads source.old + find_reads b) }
{
    let reader = match ReaderState::open(alloc, source) {
        Ok(reader) => reader,
        Err(error) => return Err(of_reader(number, error)),
    };
    match collect_intervals(alloc, &reader, source, ids, max_tiles) {
        Ok(entries) => Ok((reader, entries)),
        Err(error) => Err(of_collecting(number, error)),
    }
}

// What is found of one more source, beside what was found of those before. Of a refusal nothing is kept.
fn add_source<B: Backend>(
    alloc: Global,
    source: &mut B,
    ids: &IdIntervals,
    max_tiles: u64,
    readers: &mut Vec<ReaderState>,
    pieces: &[Piece],
) -> Result<Vec<Piece>, JoinError>
    requires whole { ids.now ≡ whole }
    requires pieces { InOrder (length readers.old.items) 0 pieces.now }
    ensures added { IfSome (B.told source.old) (λ b. IfOk result (λ laid.
        IsAdded max_tiles (length readers.old.items) b (gathered_of readers.old.items pieces.now)
        (gathered_of readers.new.items laid.items))) }
    ensures refused { IfSome (B.told source.old)
        (λ b. IfErr result (Refuses (found max_tiles (length readers.old.items) b))) }
    ensures all { IfOk result
        (λ laid. length readers.new.items ≡ length readers.old.items + 1) }
    ensures ordered { IfOk result (λ laid. InOrder (length readers.old.items + 1) 0 laid.items) }
    ensures causes { IfErr result (FindCauses max_tiles (length readers.old.items)
        (B.faults source.old) (B.faults source.new)) }
    ensures still { SourceStands (B.faults source.old) (B.faults source.new) result }
    ensures kept { ReadsOnly B.told B.versions B.faults B.steady source.old source.new }
    ensures reads { IfSome (B.told source.old)
        (λ b. B.reads source.new ≤ B.reads source.old + find_reads b) }
{
    let number = readers.len();
    let (reader, entries) = match find_source(alloc, source, number, ids, max_tiles) {
        Ok(found) => found,
        Err(error) => return Err(error),
    };
    let laid = lay_over(alloc, number, &entries, pieces)?;
    match readers.push(reader) {
        Ok(()) => Ok(laid),
        Err(_) => Err(JoinError::OutOfMemory),
    }
}

/// Opens all sources and collects their tile entries, one source after another, and lays the runs of each over those
/// of the sources before.
pub(crate) fn gather<B: Backend>(
    alloc: Global,
    sources: &mut Vec<B>,
    ids: &IdIntervals,
    max_tiles: u64,
) -> Result<(Vec<ReaderState>, Vec<Piece>), JoinError>
    requires whole { ids.now ≡ whole }
    ensures gathered { IfSome (all_told (map B.told sources.old.items)) (λ bs. IfOk result
        (λ g. gathered max_tiles bs ≡ Ok (gathered_of g.0.items g.1.items))) }
    ensures refused { IfSome (all_told (map B.told sources.old.items))
        (λ bs. IfErr result (Refuses (gathered max_tiles bs))) }
    ensures all { IfOk result (λ g. length g.0.items ≡ length sources.old.items) }
    ensures ordered { IfOk result (λ g. InOrder (length sources.old.items) 0 g.1.items) }
    ensures causes { IfErr result (GatherCauses max_tiles
        (map B.faults sources.old.items) (map B.faults sources.new.items)) }
    ensures still { SourcesStand (map B.faults sources.old.items)
        (map B.faults sources.new.items) result }
    ensures kept { AreOnlyRead B.told B.versions B.faults B.steady
        sources.old.items sources.new.items }
    ensures reads { IfSome (all_told (map B.told sources.old.items))
        (λ bs. total (map B.reads sources.new.items)
        ≤ total (map B.reads sources.old.items) + gather_reads bs) }
{
    let mut readers = Vec::new(alloc);
    let mut pieces = Vec::new(alloc);
    for index in 0..sources.len() {
        let laid = match add_source(
            alloc,
            &mut sources[index],
            ids,
            max_tiles,
            &mut readers,
            &pieces,
        ) {
            Ok(laid) => laid,
            Err(error) => return Err(error),
        };
        pieces = laid;
    }
    Ok((readers, pieces))
}
