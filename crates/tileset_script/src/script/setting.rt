// The options that lines of a script give.
ghost use Rattle.std.specs.Prelude.{◌≡◌, false, codes, IfOk};
ghost use Rattle.tileset_script.specs.Common.{bytes_eq, list_any, words_of};
ghost use Rattle.tileset_script.specs.Setting.{bounds_of, center_of, compression_named, degrees_of, is_force, is_verify, options_of, setting_of, type_in, type_named, with_setting, with_value, without_value, writer_of, zoom_of};

use super::options::ScriptOptions;
use super::text::parse_text;
use crate::leaf_entries::LeafEntries;
use base_values::{OutOfMemory, TextVal};
use line_words::{four_words, is_word, one_word, parse_integer, parse_number, two_words};
use pm_format::{Compression, TileType};
use pm_writer::PmTilesWriter;
use std::alloc::Global;

/// An option: how the set is converted, how the archive is labelled, or what it says of its tiles.
#[derive(Debug, Drop)]
pub enum Setting {
    /// Patches are taken without the hashes that chain them.
    Force,
    /// The stored aggregate hash of the resulting set has to be there and right.
    Verify,
    /// The type of the tiles.
    TileType(TileType),
    /// The label of tiles.
    TileCompression(Compression),
    /// The label of directories and metadata.
    InternalCompression(Compression),
    /// The least zoom.
    MinZoom(u8),
    /// The greatest zoom.
    MaxZoom(u8),
    /// The zoom to begin with.
    CenterZoom(u8),
    /// How many entries a directory of tile entries below the root may have.
    MaxLeafEntries(LeafEntries),
    /// Least longitude, least latitude, greatest longitude and greatest latitude, in ten millionths of a degree.
    Bounds(i32, i32, i32, i32),
    /// Longitude and latitude to begin with, in ten millionths of a degree.
    Center(i32, i32),
    /// The metadata.
    Metadata(TextVal),
}

// The type that a word names.
fn type_of(word: &[u8]) -> Option<TileType>
    ensures { result ≡ type_named word.now }
{
    match word {
        b"unknown" => Some(TileType::Unknown),
        b"mvt" => Some(TileType::Mvt),
        b"png" => Some(TileType::Png),
        b"jpeg" => Some(TileType::Jpeg),
        b"webp" => Some(TileType::Webp),
        b"avif" => Some(TileType::Avif),
        b"mlt" => Some(TileType::Mlt),
        _ => None,
    }
}

// The label that a word names.
fn compression_of(word: &[u8]) -> Option<Compression>
    ensures { result ≡ compression_named word.now }
{
    match word {
        b"unknown" => Some(Compression::Unknown),
        b"none" => Some(Compression::None),
        b"gzip" => Some(Compression::Gzip),
        b"brotli" => Some(Compression::Brotli),
        b"zstd" => Some(Compression::Zstd),
        _ => None,
    }
}

// The number from 0 to 255 that a word spells.
fn parse_zoom(word: &[u8]) -> Option<u8>
    ensures { result ≡ zoom_of word.now }
{
    Some(parse_number(word, 255)? as u8)
}

// The number of 32 bits that a word spells.
fn parse_degrees(word: &[u8]) -> Option<i32>
    ensures { result ≡ degrees_of word.now }
{
    Some(parse_integer(word, 1 << 31)? as i32)
}

/// The option of a name without a value.
pub(crate) fn parse_flag(name: &[u8]) -> Option<Setting>
    ensures { result ≡ without_value name.now }
{
    if is_word(name, "force") {
        return Some(Setting::Force);
    }
    if is_word(name, "verify") {
        return Some(Setting::Verify);
    }
    None
}

// The label, type, zoom or number of entries of a name and its one value.
fn plain_setting(name: &[u8], word: &[u8]) -> Option<Setting>
    ensures { bytes_eq name.now (codes "metadata") ≡ false → result ≡ with_value name.now word.now }
{
    if is_word(name, "type") {
        return type_of(word).map(Setting::TileType);
    }
    if is_word(name, "tile-compression") {
        return compression_of(word).map(Setting::TileCompression);
    }
    if is_word(name, "internal-compression") {
        return compression_of(word).map(Setting::InternalCompression);
    }
    if is_word(name, "min-zoom") {
        return parse_zoom(word).map(Setting::MinZoom);
    }
    if is_word(name, "max-zoom") {
        return parse_zoom(word).map(Setting::MaxZoom);
    }
    if is_word(name, "center-zoom") {
        return parse_zoom(word).map(Setting::CenterZoom);
    }
    if is_word(name, "max-leaf-entries") {
        return LeafEntries::parse(word).map(Setting::MaxLeafEntries);
    }
    None
}

// The option of a name and its one value.
fn with_value(alloc: Global, name: &[u8], word: &[u8]) -> Result<Option<Setting>, OutOfMemory>
    ensures { IfOk result (λ setting. setting ≡ with_value name.now word.now) }
{
    if is_word(name, "metadata") {
        return Ok(parse_text(alloc, word)?.map(Setting::Metadata));
    }
    Ok(plain_setting(name, word))
}

// The center of two words.
fn parse_center(longitude: &[u8], latitude: &[u8]) -> Option<Setting>
    ensures { result ≡ center_of longitude.now latitude.now }
{
    let longitude = parse_degrees(longitude)?;
    let latitude = parse_degrees(latitude)?;
    Some(Setting::Center(longitude, latitude))
}

// The bounds of four words: west, south, east, north.
fn parse_bounds(west: &[u8], south: &[u8], east: &[u8], north: &[u8]) -> Option<Setting>
    ensures { result ≡ bounds_of west.now south.now east.now north.now }
{
    let west = parse_degrees(west)?;
    let south = parse_degrees(south)?;
    let east = parse_degrees(east)?;
    let north = parse_degrees(north)?;
    Some(Setting::Bounds(west, south, east, north))
}

/// The option of a name and the values behind it.
pub(crate) fn parse_setting(
    alloc: Global,
    name: &[u8],
    values: &[u8],
) -> Result<Option<Setting>, OutOfMemory>
    ensures { IfOk result (λ setting. setting ≡ setting_of name.now (words_of values.now)) }
{
    if is_word(name, "center") {
        return Ok(match two_words(values) {
            Some((longitude, latitude)) => parse_center(longitude, latitude),
            None => None,
        });
    }
    if is_word(name, "bounds") {
        return Ok(match four_words(values) {
            Some((west, south, east, north)) => parse_bounds(west, south, east, north),
            None => None,
        });
    }
    match one_word(values) {
        Some(word) => with_value(alloc, name, word),
        None => Ok(None),
    }
}

// The last type that is given.
fn last_type(settings: &[Setting]) -> TileType
    ensures { result ≡ type_in TileType.Unknown settings.now }
{
    let mut tile_type = TileType::Unknown;
    for setting in settings {
        if let Setting::TileType(given) = setting {
            tile_type = *given;
        }
    }
    tile_type
}

// What is said of the archive, with one setting more.
fn with_setting(writer: PmTilesWriter, setting: Setting) -> PmTilesWriter
    ensures { result ≡ with_setting writer setting }
{
    match setting {
        Setting::Force | Setting::Verify | Setting::TileType(_) => writer,
        Setting::TileCompression(label) => writer.tile_compression(label),
        Setting::InternalCompression(label) => writer.internal_compression(label),
        Setting::MinZoom(zoom) => writer.min_zoom(zoom),
        Setting::MaxZoom(zoom) => writer.max_zoom(zoom),
        Setting::CenterZoom(zoom) => writer.center_zoom(zoom),
        Setting::MaxLeafEntries(entries) => writer.max_leaf_entries(entries.value()),
        Setting::Bounds(west, south, east, north) => writer.bounds(west, south, east, north),
        Setting::Center(longitude, latitude) => writer.center(longitude, latitude),
        Setting::Metadata(text) => writer.metadata(text),
    }
}

// What settings say of the archive, upon the defaults of the last type.
fn writer_of(settings: Vec<Setting>) -> PmTilesWriter
    ensures { result ≡ writer_of settings.items }
{
    let mut writer = PmTilesWriter::new(last_type(settings.as_slice()));
    for setting in settings {
        writer = with_setting(writer, setting);
    }
    writer
}

// Whether patches are to be taken without their hashes.
fn is_forced(settings: &[Setting]) -> bool
    ensures { result ≡ list_any is_force settings.now }
{
    settings
        .iter()
        .any(|setting| matches!(setting, Setting::Force))
}

// Whether the stored aggregate hash is to be verified.
fn is_verified(settings: &[Setting]) -> bool
    ensures { result ≡ list_any is_verify settings.now }
{
    settings
        .iter()
        .any(|setting| matches!(setting, Setting::Verify))
}

/// The options that settings give in order, those of one kind by the last, upon the defaults of the last type.
pub(crate) fn options_of(settings: Vec<Setting>) -> ScriptOptions
    ensures { result ≡ options_of settings.items }
{
    let force = is_forced(settings.as_slice());
    let verify = is_verified(settings.as_slice());
    ScriptOptions {
        force,
        verify,
        writer: writer_of(settings),
    }
}
