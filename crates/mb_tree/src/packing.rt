// The tiles of files that are put into a set.
ghost use Rattle.std.specs.Prelude.{◌≡◌, ◌≢◌, ℕ, List, true, All, IfErr, IfOk, OnOk};
ghost use Rattle.mb_tree.specs.Common.{Abort, contains_key, duplicates, FaultsCounted, Held, is_coord, len, place_in, ReadsOnly, Tests};
ghost use Rattle.mb_lists.specs.Entries.{place_at};
ghost use Rattle.mb_tree.specs.Files.{File, paths_in};
ghost use Rattle.mb_tree.specs.PackSteps.{AreAllRead, IsFit, IsRead};
ghost use Rattle.mb_tree.specs.Packed.{tiles_in};
ghost use Rattle.mb_tree.specs.Packing.{as_given, batch_of, empty_files, new_tile};
ghost use Rattle.mb_tree.specs.Wanting.{is_wanting};
ghost use Rattle.mb_tree.specs.declared.scheme.TileScheme.{TileScheme};

use crate::tests_of_paths::count_tiles;
use crate::tile_path::{TilePath, read_path};
use crate::{TileScheme, TileTree};
use base_values::TextVal;
use mb_loaded::{Editing, Loaded};
use mb_store::{MbtError, MbtResult};
use std::alloc::Global;
use tile_ids::TileCoord;

// The coordinate of a path.
fn coord_of(scheme: TileScheme, tile: &TilePath) -> TileCoord
    requires { is_coord (as_given tile.now) ≡ true }
    ensures { (bytes : List ℕ) → place_at result ≡ place_in (new_tile scheme bytes tile.now) }
{
    let row = scheme.turned(tile.zoom, tile.row);
    TileCoord::new(tile.zoom, tile.column, row).unwrap()
}

// Puts the tile of a file, where its path is that of a tile.
fn put_file<T: TileTree>(
    alloc: Global,
    tree: &mut T,
    tiles: &mut Editing,
    scheme: TileScheme,
    path: &TextVal,
) -> MbtResult<()>
    requires there { T.tells tree.old ≡ true → contains_key (T.told tree.old) path.now ≡ true }
    requires fit { IsFit path.now }
    ensures put { OnOk result (IsRead scheme (T.tells tree.old) (T.told tree.old) path.now tiles.old
        tiles.new) }
    ensures unfaulted { IfErr result (λ e. e ≢ MbtError.StoreFault) }
    ensures wanting { IfErr result (λ e. is_wanting e ≡ true) }
    ensures kept { ReadsOnly T.told T.tells T.faults T.steady tree.old tree.new }
    ensures fault { FaultsCounted T.faults tree.old tree.new result MbtError.TreeFault }
{
    let Some(tile) = read_path(path.as_str()) else {
        return Ok(());
    };
    let bytes = tree.read(alloc, path.as_str())?;
    tiles.set_tile(coord_of(scheme, &tile), bytes)?;
    Ok(())
}

/// Puts the tiles of the files of all paths into a set.
pub(crate) fn put_files<T: TileTree>(
    alloc: Global,
    tree: &mut T,
    base: Loaded,
    scheme: TileScheme,
    paths: &[TextVal],
) -> MbtResult<Loaded>
    requires there { T.tells tree.old ≡ true →
        All (λ path. contains_key (T.told tree.old) path ≡ true) paths.now }
    requires fit { All IsFit paths.now }
    ensures put { IfOk result (AreAllRead scheme (T.tells tree.old) (T.told tree.old)
        paths.now base) }
    ensures unfaulted { IfErr result (λ e. e ≢ MbtError.StoreFault) }
    ensures wanting { IfErr result (λ e. is_wanting e ≡ true) }
    ensures kept { ReadsOnly T.told T.tells T.faults T.steady tree.old tree.new }
    ensures fault { FaultsCounted T.faults tree.old tree.new result MbtError.TreeFault }
{
    let mut tiles = base.edit();
    for path in paths {
        put_file(alloc, tree, &mut tiles, scheme, path)?;
    }
    Ok(tiles.settle()?)
}

/// The test that no tile of a path was in the set before or comes twice, by how many tiles the set had and has.
pub(crate) fn test_apart(set: &Loaded, before: usize, paths: &[TextVal]) -> MbtResult<()>
    ensures { (scheme : TileScheme) (base : Held) (files : List File)
        → before ≡ len base.state.tiles →
        paths_in files ≡ paths.now → set.now ≡ tiles_in base (batch_of scheme files) →
        Tests (duplicates Abort base.state.tiles (batch_of scheme (empty_files paths.now))) result }
{
    if set.tile_count().saturating_sub(before) == count_tiles(paths) {
        return Ok(());
    }
    Err(MbtError::DuplicateValues)
}
