// Unpacking a tile set into a tree of files.
ghost use Rattle.std.specs.Prelude.{◌≡◌, ◌≢◌, ◌<◌, string_bytes, true, IfErr, IfOk, IsErrOf, OnErr, OnOk};
ghost use Rattle.mb_tree.specs.Common.{Answers, FaultsCounted, IsCoord, Keeps, len, ReadsOnly};
ghost use Rattle.mb_tree.specs.UnpackSteps.{IsPut};
ghost use Rattle.mb_tree.specs.Files.{written};
ghost use Rattle.mb_tree.specs.Scheme.{turned};
ghost use Rattle.mb_tree.specs.Unpacked.{IsFront, IsUnpacking, files_of, format_due, path_text};

use crate::format::FileFormat;
use crate::{TileScheme, TileTree, TreeError};
use base_values::OutOfMemory;
use mb_load::load;
use mb_loaded::Loaded;
use mb_store::{Cell, MbtError, MbtResult, TileStore};
use std::alloc::Global;
use tile_ids::TileCoord;

// The format that a set's metadata names.
fn format_in(alloc: Global, set: &Loaded) -> MbtResult<FileFormat>
    ensures answer { Answers (format_due set.now.state) result }
    ensures unfaulted { IfErr result (λ e. (e ≢ MbtError.StoreFault) × (e ≢ MbtError.TreeFault)) }
{
    match set.text("format") {
        Some(text) => match FileFormat::of_word(text.as_str()) {
            Some(format) => Ok(format),
            None => Err(MbtError::UnknownFormatInMetadata {
                format: text.try_clone(alloc)?,
            }),
        },
        None => Err(MbtError::NoFormatInMetadata),
    }
}

// The path of a tile.
fn path_of(
    alloc: Global,
    scheme: TileScheme,
    format: FileFormat,
    coord: TileCoord,
) -> Result<String, OutOfMemory>
    ensures path { IfOk result (λ path. string_bytes path ≡ path_text format coord.z coord.x
        (turned scheme coord.z coord.y)) }
    ensures within { IsCoord coord }
{
    let zoom = coord.z();
    let column = coord.x();
    let row = scheme.turned(zoom, coord.y());
    let word = format.word();
    Ok(format!(in alloc; "{zoom}/{column}/{row}.{word}")?)
}

// Writes the file of the tile at an index of a set, unless it is null.
fn write_tile<T: TileTree>(
    alloc: Global,
    tree: &mut T,
    set: &Loaded,
    index: usize,
    scheme: TileScheme,
    format: FileFormat,
) -> Result<(), TreeError>
    requires { index < len set.now.state.tiles }
    ensures put { T.tells tree.old ≡ true →
        OnOk result (IsPut scheme format set.now.state.tiles index (T.told tree.old)
        (T.told tree.new)) }
    ensures refused { OnErr result (T.told tree.new ≡ T.told tree.old) }
    ensures kept { Keeps T.tells T.faults T.steady tree.old tree.new }
    ensures fault { FaultsCounted T.faults tree.old tree.new result TreeError.Fault }
{
    let (coord, contents) = set.tile_at(index);
    match contents {
        Cell::Blob(bytes) => {
            let path = path_of(alloc, scheme, format, coord)?;
            tree.write(alloc, path.as_str(), bytes.as_bytes())
        }
        _ => Ok(()),
    }
}

// Writes the files of all tiles, in the order of the set.
fn write_tiles<T: TileTree>(
    alloc: Global,
    tree: &mut T,
    set: &Loaded,
    scheme: TileScheme,
    format: FileFormat,
) -> Result<(), TreeError>
    ensures put { T.tells tree.old ≡ true →
        OnOk result (T.told tree.new ≡ written (T.told tree.old)
        (files_of scheme format set.now.state.tiles)) }
    ensures front { T.tells tree.old ≡ true →
        OnErr result (IsFront (files_of scheme format set.now.state.tiles) (T.told tree.old)
        (T.told tree.new)) }
    ensures kept { Keeps T.tells T.faults T.steady tree.old tree.new }
    ensures fault { FaultsCounted T.faults tree.old tree.new result TreeError.Fault }
{
    for index in 0..set.tile_count() {
        write_tile(alloc, tree, set, index, scheme, format)?;
    }
    Ok(())
}

/// Unpacks a set into a tree: each tile that isn't null becomes the file `zoom/column/row.extension` with its
/// bytes, the row as the scheme counts it, in the order of zoom, column and row counted from the bottom.
/// Files at other paths stay.
///
/// It answers the refusals of `load`, and then, before any file is written, `NoFormatInMetadata` where the metadata has
/// no text under `format`, and `UnknownFormatInMetadata` with that text where it is none of a known format. Where the
/// tree fails, or memory ends, the files that were written so far stand, a front of all of them. The store holds what
/// it held. `TreeFault` comes only where the tree's count of faults rose, and `StoreFault` only where the store's did.
pub fn unpack<S: TileStore, T: TileTree>(
    alloc: Global,
    store: &mut S,
    tree: &mut T,
    scheme: TileScheme,
) -> MbtResult<()>
    ensures answer { IsUnpacking scheme (S.tells store.old) (S.told store.old) (T.tells tree.old)
        (T.told tree.old) (T.told tree.new) result }
    ensures unwritten { IsErrOf result MbtError.StoreFault → T.told tree.new ≡ T.told tree.old }
    ensures store_kept { ReadsOnly S.told S.tells S.faults S.steady store.old store.new }
    ensures kept { Keeps T.tells T.faults T.steady tree.old tree.new }
    ensures tree_fault { FaultsCounted T.faults tree.old tree.new result MbtError.TreeFault }
    ensures fault { FaultsCounted S.faults store.old store.new result MbtError.StoreFault }
{
    let set = load(alloc, store)?;
    let format = format_in(alloc, &set)?;
    write_tiles(alloc, tree, &set, scheme, format)?;
    Ok(())
}
