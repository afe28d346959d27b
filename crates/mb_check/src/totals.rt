// Counts and sizes of the tiles of a set.
ghost use Rattle.mb_check.specs.Common.{Answers, cons_option, entries, FaultsCounted, filter_map, IsBegun, len, ReadsOnly};
ghost use Rattle.std.specs.Prelude.{◌≡◌, ◌≢◌, ◌<◌, ◌^◌, ◌++◌, [], ℕ, List, Option, Err, IfOk, IfSome, OnOk, length, map, option_map, slice_get, slice_index_or};
ghost use Rattle.mb_check.specs.Sizes.{info_by, no_sizes, with_sizes, with_tile};
ghost use Rattle.mb_check.specs.Totals.{below, greatest, last_of, least, size_at, sizes_at, summary_answer, summary_of, total_of, zoom_infos};
ghost use Rattle.mb_check.specs.declared.sizes.Sizes.{Sizes};
ghost use Rattle.mb_lists.specs.Entries.{blob_cell};

use crate::sizes::{Sizes, greatest_with, least_with};
use crate::{Summary, ZoomInfo, ZoomInfoList};
use base_values::OutOfMemory;
use mb_load::load;
use mb_loaded::Loaded;
use mb_store::{Cell, MbtError, MbtResult, TileStore};
use std::alloc::Global;

// The size of a tile, None for null.
fn size_of(cell: &Cell) -> Option<u64>
    ensures { (contents : Option (List ℕ)) → blob_cell contents ≡ cell.now
        → result ≡ option_map length contents }
{
    match cell {
        Cell::Blob(bytes) => Some(bytes.as_bytes().len() as u64),
        _ => None,
    }
}

// Adds the tile at an index to the sizes of its zoom.
fn take_tile(sizes: &mut [Sizes], set: &Loaded, index: usize)
    requires within { index < len set.now.state.tiles }
    requires zooms { length sizes.old ≡ 32 }
    ensures { IfSome (slice_get (entries set.now.state.tiles) index)
        (λ e. (zoom : ℕ) → zoom < 32
        → slice_index_or sizes.new zoom no_sizes ≡ with_tile
        (slice_index_or sizes.old zoom no_sizes) (size_at zoom e)) }
{
    let (coord, cell) = set.tile_at(index);
    let zoom = coord.z() as usize;
    let next = sizes[zoom].with_size(size_of(cell));
    sizes[zoom] = next;
}

// Adds all tiles to the sizes of their zooms.
fn take_tiles(sizes: &mut [Sizes], set: &Loaded)
    requires { length sizes.old ≡ 32 }
    ensures few { len set.now.state.tiles < 2 ^ 64 }
    ensures taken { (zoom : ℕ) → zoom < 32
        → slice_index_or sizes.new zoom no_sizes ≡ with_sizes
        (slice_index_or sizes.old zoom no_sizes) (sizes_at zoom (entries set.now.state.tiles)) }
{
    for index in 0..set.tile_count() {
        take_tile(sizes, set, index);
    }
}

// What the sizes of a zoom tell, if it has tiles.
fn info_at(sizes: &[Sizes], zoom: u8) -> Option<ZoomInfo>
    requires { zoom < length sizes.now }
    ensures { result ≡ info_by zoom (slice_index_or sizes.now zoom no_sizes) }
{
    sizes[zoom as usize].info(zoom)
}

// One more zoom, if it has tiles.
fn add_info(infos: &mut Vec<ZoomInfo>, info: Option<ZoomInfo>) -> Result<(), OutOfMemory>
    ensures { OnOk result (infos.new.items ≡ infos.old.items ++ cons_option info []) }
{
    match info {
        Some(info) => {
            infos.push(info)?;
            Ok(())
        }
        None => Ok(()),
    }
}

// What sizes tell of the zooms that have tiles.
fn infos_of(alloc: Global, sizes: &[Sizes]) -> Result<Vec<ZoomInfo>, OutOfMemory>
    requires { length sizes.now ≡ 32 }
    ensures { IfOk result
        (λ infos. infos.items ≡ filter_map
        (λ zoom. info_by zoom (slice_index_or sizes.now zoom no_sizes)) (below 31)) }
{
    let mut infos = Vec::new(alloc);
    for zoom in 0..31u8 {
        add_info(&mut infos, info_at(sizes, zoom))?;
    }
    Ok(infos)
}

// The zooms of a loaded set that have tiles.
fn zoom_infos(alloc: Global, set: &Loaded) -> Result<Vec<ZoomInfo>, OutOfMemory>
    ensures { IfOk result (λ infos. infos.items ≡ zoom_infos set.now.state.tiles) }
{
    let mut sizes = [Sizes::none(); 32];
    take_tiles(&mut sizes, set);
    infos_of(alloc, &sizes)
}

// The bytes of all tiles of a loaded set.
fn total_size(set: &Loaded) -> u64
    ensures { result ≡ total_of set.now.state.tiles }
{
    let mut total: u64 = 0;
    for index in 0..set.tile_count() {
        let (_, cell) = set.tile_at(index);
        let size = size_of(cell).unwrap_or(0);
        total = total.saturating_add(size);
    }
    total
}

// The least size of zooms.
fn least_size(infos: &[ZoomInfo]) -> Option<u64>
    ensures { result ≡ least (map (λ i. i.min_tile_size) infos.now) }
{
    let mut least = None;
    for info in infos {
        let next = least_with(least, info.min_tile_size);
        least = next;
    }
    least
}

// The greatest size of zooms.
fn greatest_size(infos: &[ZoomInfo]) -> Option<u64>
    ensures { result ≡ greatest (map (λ i. i.max_tile_size) infos.now) }
{
    let mut greatest = None;
    for info in infos {
        let next = greatest_with(greatest, info.max_tile_size);
        greatest = next;
    }
    greatest
}

// The zoom of the first of zooms.
fn first_zoom(infos: &[ZoomInfo]) -> Option<u8>
    ensures { result ≡ option_map (λ i. i.zoom) (slice_get infos.now 0) }
{
    match infos.first() {
        Some(info) => Some(info.zoom),
        None => None,
    }
}

// The zoom of the last of zooms.
fn last_zoom(infos: &[ZoomInfo]) -> Option<u8>
    ensures { result ≡ option_map (λ i. i.zoom) (last_of infos.now) }
{
    match infos.last() {
        Some(info) => Some(info.zoom),
        None => None,
    }
}

// The summary of a loaded set by its zooms.
fn summary_by(set: &Loaded, infos: Vec<ZoomInfo>) -> Summary
    requires { infos.items ≡ zoom_infos set.now.state.tiles }
    ensures { result ≡ summary_of set.now.state }
{
    let mbt_type = set.mbt_type();
    let tile_count = set.tile_count() as u64;
    let min_tile_size = least_size(&infos);
    let max_tile_size = greatest_size(&infos);
    let total_size = total_size(set);
    let min_zoom = first_zoom(&infos);
    let max_zoom = last_zoom(&infos);
    Summary {
        mbt_type,
        tile_count,
        min_tile_size,
        max_tile_size,
        total_size,
        min_zoom,
        max_zoom,
        zoom_info: ZoomInfoList::new(infos),
    }
}

// The summary of a loaded set.
fn summary_of(alloc: Global, set: &Loaded) -> MbtResult<Summary>
    ensures answer { Answers (summary_answer set.now.state) result }
    ensures fault { result ≢ Err MbtError.StoreFault }
{
    let infos = zoom_infos(alloc, set)?;
    Ok(summary_by(set, infos))
}

/// Counts and sizes of the tiles of a set, and of each of its zooms.
///
/// It answers the refusals of `load`. The store holds what it held, whatever the answer.
pub fn summary<S: TileStore>(alloc: Global, store: &mut S) -> MbtResult<Summary>
    ensures answer { IsBegun summary_answer (S.tells store.old) (S.told store.old) result }
    ensures kept { ReadsOnly S.told S.tells S.faults S.steady store.old store.new }
    ensures fault { FaultsCounted S.faults store.old store.new result MbtError.StoreFault }
{
    let set = load(alloc, store)?;
    summary_of(alloc, &set)
}
