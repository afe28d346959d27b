// Archives of many tiles: each id below a number has the decimal text of its part by another number.
ghost use Rattle.std.specs.Prelude.{◌≡◌, ◌≤◌, ◌<◌, ℕ, List, IfSome};
ghost use Rattle.archive_rows.specs.Common.{Options};
ghost use Rattle.pm_writer.specs.Stream.{IsTied};

use pm_format::{Backend, MemMedium, PmtResult, TileType};
use pm_writer::{ArchivePlaces, PmTilesStreamWriter, PmTilesWriter};
use rows_shared::{Counted, Words, number, said};
use std::alloc::Global;
use tile_ids::{TileCoord, TileId};

fn add_numbers(
    writer: &mut PmTilesStreamWriter<'_, MemMedium>,
    alloc: Global,
    ids: u64,
    each: u64,
) -> PmtResult<()>
    requires each { 0 < each }
    requires tied { (o : Options) × (adds : List (ℕ × List ℕ))
        × IsTied ⟦<MemMedium as Backend>⟧.told o writer.old adds }
    ensures tied { (o : Options) × (adds : List (ℕ × List ℕ))
        × IsTied ⟦<MemMedium as Backend>⟧.told o writer.new adds }
    ensures same_reference { writer.new.medium.ghost_name ≡ writer.old.medium.ghost_name }
{
    for id in 0..ids {
        let number = id / each;
        let text = format!(in alloc; "{number}")?;
        let coord = TileCoord::from(TileId::new(id)?);
        writer.add_raw_tile(coord, text.as_str().as_bytes())?;
    }
    Ok(())
}

// The next word as the most entries of a leaf, where there is one.
fn most_entries(words: &mut Words) -> Option<u32>
    ensures { IfSome result (λ most. (16 ≤ most) × (most ≤ 65536)) }
{
    let Some(word) = words.next() else {
        return Some(4096);
    };
    let most = word.parse::<u32>().ok()?;
    if most < 16 || most > 65_536 {
        return None;
    }
    Some(most)
}

fn numbered(alloc: Global, ids: u64, each: u64, most: u32) -> PmtResult<(MemMedium, ArchivePlaces)>
    requires each { 0 < each }
    requires least { 16 ≤ most }
    requires most { most ≤ 65536 }
{
    let mut medium = MemMedium::new(alloc);
    let places = {
        let options = PmTilesWriter::new(TileType::Unknown).max_leaf_entries(most);
        let mut writer = options.create(alloc, &mut medium)?;
        add_numbers(&mut writer, alloc, ids, each)?;
        writer.finalize()?
    };
    Ok((medium, places))
}

pub fn answer(
    alloc: Global,
    out: &mut String,
    backend: &mut Counted,
    words: &mut Words,
) -> Option<()> {
    let ids = number(words)?;
    let each = number(words)?;
    let most = most_entries(words)?;
    if each == 0 {
        return None;
    }
    let (medium, places) = numbered(alloc, ids, each, most).ok()?;
    *backend = Counted::new(medium);
    said(out, places)
}
