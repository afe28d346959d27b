// What the header of an archive says, in lines.
ghost use Rattle.std.specs.Prelude.{◌≡◌, IfOk, string_bytes};
ghost use Rattle.tile_command.specs.HeaderLines.{bounds_line, bounds_text, center_line, center_text, compression_word, counts_text, extents_text, front_text, header_text, kind_text, labels_text, parts_text, rest_text, said_word, type_word};

use base_values::OutOfMemory;
use pm_format::{Compression, Header, TileType};
use set_options::degrees_text::degrees_text;
use std::alloc::Global;

fn type_word(tile_type: TileType) -> &'static str
    ensures { result.now ≡ type_word tile_type }
{
    match tile_type {
        TileType::Unknown => "unknown",
        TileType::Mvt => "mvt",
        TileType::Png => "png",
        TileType::Jpeg => "jpg",
        TileType::Webp => "webp",
        TileType::Avif => "avif",
        TileType::Mlt => "mlt",
    }
}

fn compression_word(compression: Compression) -> &'static str
    ensures { result.now ≡ compression_word compression }
{
    match compression {
        Compression::Unknown => "unknown",
        Compression::None => "none",
        Compression::Gzip => "gzip",
        Compression::Brotli => "brotli",
        Compression::Zstd => "zstd",
    }
}

fn said_word(is_so: bool) -> &'static str
    ensures { result.now ≡ said_word is_so }
{
    if is_so { "yes" } else { "no" }
}

#[tactic(auto, unfolding(crate::specs::HeaderLines::bounds_text))]
/// Four numbers of degrees parted by commas: the western, southern, eastern and northern side, in ten millionths.
pub(crate) fn bounds_text(
    alloc: Global,
    west: i32,
    south: i32,
    east: i32,
    north: i32,
) -> Result<String, OutOfMemory>
    ensures { IfOk result (λ t. string_bytes t ≡ bounds_text west south east north) }
{
    let west = degrees_text(alloc, west)?;
    let south = degrees_text(alloc, south)?;
    let east = degrees_text(alloc, east)?;
    let north = degrees_text(alloc, north)?;
    Ok(format!(in alloc; "{west},{south},{east},{north}")?)
}

/// A longitude and a latitude, in ten millionths of a degree, and a zoom, parted by commas.
pub(crate) fn center_text(
    alloc: Global,
    longitude: i32,
    latitude: i32,
    zoom: u8,
) -> Result<String, OutOfMemory>
    ensures { IfOk result (λ t. string_bytes t ≡ center_text longitude latitude zoom) }
{
    let longitude = degrees_text(alloc, longitude)?;
    let latitude = degrees_text(alloc, latitude)?;
    Ok(format!(in alloc; "{longitude},{latitude},{zoom}")?)
}

#[tactic(auto, unfolding(crate::specs::HeaderLines::labels_text))]
// The version, the type of tiles and the compressions.
fn labels_text(alloc: Global, header: &Header) -> Result<String, OutOfMemory>
    ensures { IfOk result (λ t. string_bytes t ≡ labels_text header.now) }
{
    let version = header.version;
    let tile_type = type_word(header.tile_type);
    let tiles = compression_word(header.tile_compression);
    let directories = compression_word(header.internal_compression);
    Ok(format!(in alloc;
        "version {version}\ntype {tile_type}\ntile compression {tiles}\ndirectory compression {directories}\n"
    )?)
}

#[tactic(auto, unfolding(crate::specs::HeaderLines::bounds_line))]
// The line of the bounds.
fn bounds_line(alloc: Global, header: &Header) -> Result<String, OutOfMemory>
    ensures { IfOk result (λ t. string_bytes t ≡ bounds_line header.now) }
{
    let bounds = bounds_text(
        alloc,
        header.min_longitude,
        header.min_latitude,
        header.max_longitude,
        header.max_latitude,
    )?;
    Ok(format!(in alloc; "bounds {bounds} degrees\n")?)
}

#[tactic(auto, unfolding(crate::specs::HeaderLines::center_line))]
// The line of the center.
fn center_line(alloc: Global, header: &Header) -> Result<String, OutOfMemory>
    ensures { IfOk result (λ t. string_bytes t ≡ center_line header.now) }
{
    let center = center_text(
        alloc,
        header.center_longitude,
        header.center_latitude,
        header.center_zoom,
    )?;
    Ok(format!(in alloc; "center {center}\n")?)
}

#[tactic(auto, unfolding(crate::specs::HeaderLines::extents_text))]
// The zooms, the bounds and the center.
fn extents_text(alloc: Global, header: &Header) -> Result<String, OutOfMemory>
    ensures { IfOk result (λ t. string_bytes t ≡ extents_text header.now) }
{
    let bounds = bounds_line(alloc, header)?;
    let center = center_line(alloc, header)?;
    let least = header.min_zoom;
    let greatest = header.max_zoom;
    Ok(format!(in alloc; "zooms {least} to {greatest}\n{bounds}{center}")?)
}

#[tactic(auto, unfolding(crate::specs::HeaderLines::counts_text))]
// How many tiles there are.
fn counts_text(alloc: Global, header: &Header) -> Result<String, OutOfMemory>
    ensures { IfOk result (λ t. string_bytes t ≡ counts_text header.now) }
{
    let addressed = header.n_addressed_tiles;
    let entries = header.n_tile_entries;
    let contents = header.n_tile_contents;
    let clustered = said_word(header.clustered);
    Ok(format!(in alloc;
        "addressed tiles {addressed}\ntile entries {entries}\ntile contents {contents}\nclustered {clustered}\n"
    )?)
}

#[tactic(auto, unfolding(crate::specs::HeaderLines::front_text))]
// Where the root directory and the metadata lie.
fn front_text(alloc: Global, header: &Header) -> Result<String, OutOfMemory>
    ensures { IfOk result (λ t. string_bytes t ≡ front_text header.now) }
{
    let (root, root_at) = (header.root_length, header.root_offset);
    let (metadata, metadata_at) = (header.metadata_length, header.metadata_offset);
    Ok(format!(in alloc;
        "root directory {root} bytes at {root_at}\nmetadata {metadata} bytes at {metadata_at}\n"
    )?)
}

#[tactic(auto, unfolding(crate::specs::HeaderLines::rest_text))]
// Where the leaf directories and the contents lie.
fn rest_text(alloc: Global, header: &Header) -> Result<String, OutOfMemory>
    ensures { IfOk result (λ t. string_bytes t ≡ rest_text header.now) }
{
    let (leaves, leaves_at) = (header.leaf_length, header.leaf_offset);
    let (data, data_at) = (header.data_length, header.data_offset);
    Ok(format!(in alloc;
        "leaf directories {leaves} bytes at {leaves_at}\ntile data {data} bytes at {data_at}\n"
    )?)
}

#[tactic(auto, unfolding(crate::specs::HeaderLines::kind_text))]
// What an archive is, and where its tiles lie on the map.
fn kind_text(alloc: Global, header: &Header) -> Result<String, OutOfMemory>
    ensures { IfOk result (λ t. string_bytes t ≡ kind_text header.now) }
{
    let labels = labels_text(alloc, header)?;
    let extents = extents_text(alloc, header)?;
    Ok(format!(in alloc; "{labels}{extents}")?)
}

#[tactic(auto, unfolding(crate::specs::HeaderLines::parts_text))]
// How many tiles it has, and where its parts lie.
fn parts_text(alloc: Global, header: &Header) -> Result<String, OutOfMemory>
    ensures { IfOk result (λ t. string_bytes t ≡ parts_text header.now) }
{
    let counts = counts_text(alloc, header)?;
    let front = front_text(alloc, header)?;
    let rest = rest_text(alloc, header)?;
    Ok(format!(in alloc; "{counts}{front}{rest}")?)
}

#[tactic(auto, unfolding(crate::specs::HeaderLines::header_text))]
/// What the header of an archive says, a line for each thing: its version, type and compressions, its zooms, bounds
/// and center, how many tiles, entries and
/// different contents it has (0 where that isn't said), and where its parts lie, in bytes.
pub fn header_text(alloc: Global, header: &Header) -> Result<String, OutOfMemory>
    ensures { IfOk result (λ t. string_bytes t ≡ header_text header.now) }
{
    let kind = kind_text(alloc, header)?;
    let parts = parts_text(alloc, header)?;
    Ok(format!(in alloc; "{kind}{parts}")?)
}
