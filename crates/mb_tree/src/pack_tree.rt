// Packing a tree of files into a tile set.
ghost use Rattle.std.specs.Prelude.{◌≡◌, ◌≢◌, true, IfErr, IfOk, OnOk};
ghost use Rattle.mb_tree.specs.Common.{FaultsCounted, Keeps, ReadsOnly};
ghost use Rattle.mb_tree.specs.PackSteps.{Packs, RefusesPaths};
ghost use Rattle.mb_tree.specs.Packed.{IsLeft, IsPacked, IsPacking};

use crate::base::{Base, base_of, commit_base};
use crate::naming::with_names;
use crate::packing::{put_files, test_apart};
use crate::tests_of_paths::{first_format, test_paths};
use crate::{TileScheme, TileTree};
use mb_loaded::Loaded;
use mb_store::{MbtError, MbtResult, TileStore};
use std::alloc::Global;

// A set with the tiles of a tree, or the first refusal of the tests.
fn pack_loaded<T: TileTree>(
    alloc: Global,
    tree: &mut T,
    base: Loaded,
    scheme: TileScheme,
) -> MbtResult<Loaded>
    ensures refused { IfErr result (RefusesPaths scheme (T.tells tree.old) (T.told tree.old)
        base.state) }
    ensures packed { IfOk result (Packs scheme (T.tells tree.old) (T.told tree.old) base) }
    ensures unfaulted { IfErr result (λ e. e ≢ MbtError.StoreFault) }
    ensures kept { ReadsOnly T.told T.tells T.faults T.steady tree.old tree.new }
    ensures fault { FaultsCounted T.faults tree.old tree.new result MbtError.TreeFault }
{
    let listed = tree.list(alloc)?;
    let paths = listed.as_slice();
    test_paths(alloc, paths)?;
    let before = base.tile_count();
    let set = put_files(alloc, tree, base, scheme, paths)?;
    test_apart(&set, before, paths)?;
    Ok(with_names(alloc, set, first_format(paths))?)
}

/// Packs the tiles of a tree of files into a flat set, in one commit. A file is that of a tile where the last three
/// parts of its path, parted by `/`, are a zoom, a column, and a row up to the last dot; what stands before them
/// doesn't matter, and other files are passed over. Beside the tiles the commit puts their format under `format`, where
/// there is a tile, and under `minzoom` and `maxzoom` what `update_metadata` of `mb_metadata` does with `Reset`.
///
/// A store that describes nothing gets the tables of a flat set; any other is loaded. It answers the refusals of
/// `load`, and then the first of these that holds:
///
/// 1. `MismatchedTargetType`: the set isn't flat.
/// 2. In the order of the paths, for each tile: `UnsupportedFileExtension` where its extension is missing or names no
///    known format, with the path; `InconsistentTileFormats` where its format isn't that of the first one, with the
///    path; `InvalidTileIndex` where its numbers are no coordinate of zoom 0 to 30, with the row as the path has it.
/// 3. `DuplicateValues`: a tile is in the set, a null too, or comes twice.
///
/// The tree is listed once, and each file of a tile is read once. Refused, the store holds what it held, but for tables
/// that were made of nothing where memory ended or the store failed then. `TreeFault` comes only where the tree's count
/// of faults rose, and `StoreFault` only where the store's did.
pub fn pack<T: TileTree, S: TileStore>(
    alloc: Global,
    tree: &mut T,
    store: &mut S,
    scheme: TileScheme,
) -> MbtResult<()>
    ensures answer { IsPacking scheme (T.tells tree.old) (T.told tree.old) (S.tells store.old)
        (S.told store.old) result }
    ensures packed { S.tells store.old ≡ true →
        OnOk result (IsPacked scheme (T.tells tree.old) (T.told tree.old) (S.told store.old)
        (S.told store.new)) }
    ensures refused { S.tells store.old ≡ true →
        IfErr result (IsLeft (S.told store.old) (S.told store.new)) }
    ensures tree_kept { ReadsOnly T.told T.tells T.faults T.steady tree.old tree.new }
    ensures kept { Keeps S.tells S.faults S.steady store.old store.new }
    ensures tree_fault { FaultsCounted T.faults tree.old tree.new result MbtError.TreeFault }
    ensures fault { FaultsCounted S.faults store.old store.new result MbtError.StoreFault }
{
    let base = base_of(alloc, store)?;
    let Base { set, is_new } = base;
    let packed = pack_loaded(alloc, tree, set, scheme)?;
    commit_base(alloc, store, &packed, is_new)?;
    Ok(())
}
