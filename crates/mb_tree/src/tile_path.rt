// The paths of the files of tiles.
ghost use Rattle.std.specs.Prelude.{◌≡◌, option_map};
ghost use Rattle.mb_tree.specs.Common.{dot, number_within, rsplit_once, slash};
ghost use Rattle.mb_tree.specs.TilePath.{format_in, last_part, stem, tile_named, tile_path};

use crate::format::FileFormat;
use mb_metadata::zoom_of;

/// What the path of a tile's file says of it.
#[derive(Clone, Copy, Debug, PartialEq, Eq)]
pub(crate) struct TilePath {
    /// The zoom, 0 to 255.
    pub zoom: u8,
    /// The column.
    pub column: u32,
    /// The row, counted as the tree counts rows.
    pub row: u32,
    /// The format that the extension names. None where there is no extension, or it names none.
    pub format: Option<FileFormat>,
}

// What stands before and behind the last slash.
fn split_folder(path: &str) -> Option<(&str, &str)>
    ensures { option_map (λ split. (split.0.now, split.1.now)) result ≡ rsplit_once slash path.now }
{
    path.rsplit_once('/')
}

// What stands before and behind the last dot.
fn split_name(name: &str) -> Option<(&str, &str)>
    ensures { option_map (λ split. (split.0.now, split.1.now)) result ≡ rsplit_once dot name.now }
{
    name.rsplit_once('.')
}

// What stands behind the last slash, or all where there is none.
fn last_part(path: &str) -> &str
    ensures { result.now ≡ last_part path.now }
{
    match split_folder(path) {
        Some((_, part)) => part,
        None => path,
    }
}

// What stands before the last dot, or all where there is none.
fn stem(name: &str) -> &str
    ensures { result.now ≡ stem name.now }
{
    match split_name(name) {
        Some((stem, _)) => stem,
        None => name,
    }
}

// The format that the extension of a file's name names.
fn format_in(name: &str) -> Option<FileFormat>
    ensures { result ≡ format_in name.now }
{
    match split_name(name) {
        Some((_, extension)) => FileFormat::of_word(extension),
        None => None,
    }
}

// The number of a column or row that a text spells, as std reads it.
fn number_of(text: &str) -> Option<u32>
    ensures { result ≡ number_within 32 text.now }
{
    text.parse::<u32>().ok()
}

// A zoom, a column, and a row with an extension or without.
fn tile_named(zoom: &str, column: &str, name: &str) -> Option<TilePath>
    ensures { result ≡ tile_named zoom.now column.now name.now }
{
    let zoom = zoom_of(zoom)?;
    let column = number_of(column)?;
    let row = number_of(stem(name))?;
    Some(TilePath {
        zoom,
        column,
        row,
        format: format_in(name),
    })
}

/// What a path says of a tile, where its last three parts, parted by `/`, are a zoom, a column, and a row up to the
/// last dot, each as std reads a number. What stands before them doesn't matter. None for any other path.
#[tactic(auto, unfolding(crate::specs::TilePath::tile_path))]
pub(crate) fn read_path(path: &str) -> Option<TilePath>
    ensures { result ≡ tile_path path.now }
{
    let (folder, name) = split_folder(path)?;
    let (above, column) = split_folder(folder)?;
    tile_named(last_part(above), column, name)
}
