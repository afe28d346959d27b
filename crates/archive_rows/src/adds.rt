// Adds to an archive: the word of the call, an id, and the bytes of a tile.
ghost use Rattle.std.specs.Prelude.{◌≡◌, ℕ, List};
ghost use Rattle.archive_rows.specs.Common.{Options};
ghost use Rattle.pm_writer.specs.Stream.{IsTied};
ghost use Rattle.pm_writer.specs.Writing.{Writes};

use pm_format::{Backend, MemMedium, PmtResult};
use pm_writer::{PmTilesStreamWriter, WriterState};
use rows_shared::{Words, bytes, number, said};
use std::alloc::Global;
use tile_ids::{TileCoord, TileId};

fn id(words: &mut Words) -> Option<TileId> {
    TileId::new(number(words)?).ok()
}

// One add to a writer that borrows its medium.
fn streamed(
    writer: &mut PmTilesStreamWriter<'_, MemMedium>,
    plain: bool,
    id: TileId,
    tile: &[u8],
) -> PmtResult<()>
    requires tied { (o : Options) × (adds : List (ℕ × List ℕ))
        × IsTied ⟦<MemMedium as Backend>⟧.told o writer.old adds }
    ensures tied { (o : Options) × (adds : List (ℕ × List ℕ))
        × IsTied ⟦<MemMedium as Backend>⟧.told o writer.new adds }
    ensures same_reference { writer.new.medium.ghost_name ≡ writer.old.medium.ghost_name }
{
    if plain {
        return writer.add_tile(TileCoord::from(id), tile);
    }
    writer.add_raw_tile(TileCoord::from(id), tile)
}

// The adds that are left, each with its answer.
pub fn all_streamed(
    alloc: Global,
    out: &mut String,
    writer: &mut PmTilesStreamWriter<'_, MemMedium>,
    words: &mut Words,
) -> Option<()>
    requires tied { (o : Options) × (adds : List (ℕ × List ℕ))
        × IsTied ⟦<MemMedium as Backend>⟧.told o writer.old adds }
    ensures tied { (o : Options) × (adds : List (ℕ × List ℕ))
        × IsTied ⟦<MemMedium as Backend>⟧.told o writer.new adds }
    ensures same_reference { writer.new.medium.ghost_name ≡ writer.old.medium.ghost_name }
{
    for _turn in 0..number::<u32>(words)? {
        let plain = words.next()? == "plain";
        let id = id(words)?;
        let tile = bytes(alloc, words)?;
        said(out, streamed(writer, plain, id, tile.as_slice()))?;
    }
    Some(())
}

// One add to a state beside its medium.
fn stated(
    state: &mut WriterState,
    medium: &mut MemMedium,
    call: &str,
    id: TileId,
    tile: &[u8],
) -> PmtResult<()>
    requires writes { (o : Options) × (adds : List (ℕ × List ℕ))
        × Writes o (⟦<MemMedium as Backend>⟧.told medium.old) state.old adds }
    ensures writes { (o : Options) × (adds : List (ℕ × List ℕ))
        × Writes o (⟦<MemMedium as Backend>⟧.told medium.new) state.new adds }
{
    match call {
        "plain" => state.add_tile(medium, TileCoord::from(id), tile),
        "raw" => state.add_raw_tile(medium, TileCoord::from(id), tile),
        _ => state.add_raw_tile_by_id(medium, id, tile),
    }
}

// The adds that are left, each with its answer.
pub fn all_stated(
    alloc: Global,
    out: &mut String,
    state: &mut WriterState,
    medium: &mut MemMedium,
    words: &mut Words,
) -> Option<()>
    requires writes { (o : Options) × (adds : List (ℕ × List ℕ))
        × Writes o (⟦<MemMedium as Backend>⟧.told medium.old) state.old adds }
    ensures writes { (o : Options) × (adds : List (ℕ × List ℕ))
        × Writes o (⟦<MemMedium as Backend>⟧.told medium.new) state.new adds }
{
    for _turn in 0..number::<u32>(words)? {
        let call = words.next()?;
        let id = id(words)?;
        let tile = bytes(alloc, words)?;
        said(out, stated(state, medium, call, id, tile.as_slice()))?;
    }
    Some(())
}
