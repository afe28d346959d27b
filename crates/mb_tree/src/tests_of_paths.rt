// The tests of the paths of files.
ghost use Rattle.std.specs.Prelude.{◌≡◌, filter_map, length};
ghost use Rattle.mb_tree.specs.Common.{bad_coord, first_refusal, first_refused, is_coord, Tests};
ghost use Rattle.mb_tree.specs.Packing.{as_given, first_format, path_refused, tile_refusals};
ghost use Rattle.mb_tree.specs.TilePath.{tile_path};

use crate::format::FileFormat;
use crate::tile_path::{TilePath, read_path};
use base_values::TextVal;
use mb_store::{Cell, MbtError, MbtResult};
use std::alloc::Global;

/// The format of the first path of a tile, if there is one.
pub(crate) fn first_format(paths: &[TextVal]) -> Option<FileFormat>
    ensures { result ≡ first_format paths.now }
{
    for path in paths {
        if let Some(tile) = read_path(path.as_str()) {
            return tile.format;
        }
    }
    None
}

/// How many paths are those of tiles.
pub(crate) fn count_tiles(paths: &[TextVal]) -> usize
    ensures { result ≡ length (filter_map tile_path paths.now) }
{
    let mut count = 0usize;
    for path in paths {
        if read_path(path.as_str()).is_some() {
            count += 1;
        }
    }
    count
}

// Whether the numbers of a path are a coordinate of zoom 0 to 30.
fn is_coord(tile: &TilePath) -> bool
    ensures { result ≡ is_coord (as_given tile.now) }
{
    if tile.zoom > 30 {
        return false;
    }
    let side = 1u32 << tile.zoom;
    tile.column < side && tile.row < side
}

// The test of the numbers of a path.
fn test_coord(tile: &TilePath) -> MbtResult<()>
    ensures { Tests (bad_coord (as_given tile.now)) result }
{
    if is_coord(tile) {
        return Ok(());
    }
    Err(MbtError::InvalidTileIndex {
        zoom_level: Cell::Int(i64::from(tile.zoom)),
        tile_column: Cell::Int(i64::from(tile.column)),
        tile_row: Cell::Int(i64::from(tile.row)),
    })
}

// The tests of the path of a tile.
fn test_tile(
    alloc: Global,
    first: Option<FileFormat>,
    path: &TextVal,
    tile: &TilePath,
) -> MbtResult<()>
    ensures { Tests (first_refusal (tile_refusals first path.now tile.now)) result }
{
    if tile.format.is_none() {
        return Err(MbtError::UnsupportedFileExtension(path.try_clone(alloc)?));
    }
    if !FileFormat::are_same(first, tile.format) {
        let path = path.try_clone(alloc)?;
        return Err(MbtError::InconsistentTileFormats { path });
    }
    test_coord(tile)
}

// The tests of a path, where it is that of a tile.
fn test_path(alloc: Global, first: Option<FileFormat>, path: &TextVal) -> MbtResult<()>
    ensures { Tests (path_refused first path.now) result }
{
    match read_path(path.as_str()) {
        Some(tile) => test_tile(alloc, first, path, &tile),
        None => Ok(()),
    }
}

// The tests of paths, in their order, by the format of the first one.
fn test_each(alloc: Global, first: Option<FileFormat>, paths: &[TextVal]) -> MbtResult<()>
    ensures { Tests (first_refused (path_refused first) paths.now) result }
{
    for path in paths {
        test_path(alloc, first, path)?;
    }
    Ok(())
}

/// The tests of all paths, in their order.
pub(crate) fn test_paths(alloc: Global, paths: &[TextVal]) -> MbtResult<()>
    ensures { Tests (first_refused (path_refused (first_format paths.now)) paths.now) result }
{
    test_each(alloc, first_format(paths), paths)
}
