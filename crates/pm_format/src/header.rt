// The header of an archive: its fields, its defaults and its bytes.
ghost use Rattle.std.specs.Prelude.{◌≡◌, ◌++◌, ◌<◌, ℕ, List, length, Ok};
ghost use Rattle.pm_format.specs.Common.{SomeIff};
ghost use Rattle.pm_format.specs.Header.{head, header_bytes};
ghost use Rattle.pm_format.specs.HeaderDefaults.{default_header};

mod reading;
mod tilejson;
mod writing;

use crate::{Compression, PmtError, TileType};
use reading::{check_front, read_fields};
use writing::put_header;

/// How many bytes a header has.
pub const HEADER_SIZE: usize = 127;

/// Where the front of an archive, its header and its root, ends at the latest. What is written
/// here has its metadata there.
pub const ROOT_END: u64 = 16_384;

/// How many bytes a root behind the header has at most.
pub const MAX_ROOT: usize = 16_257;

/// The header at the front of an archive (PMTiles specification version 3, header).
/// Offsets and lengths are in bytes, degrees in ten millionths.
#[derive(Clone, Copy)]
pub struct Header {
    /// The version of the format, 3 for what is written here.
    pub version: u8,
    /// Where the root directory begins.
    pub root_offset: u64,
    /// How long the root directory is.
    pub root_length: u64,
    /// Where the metadata begins.
    pub metadata_offset: u64,
    /// How long the metadata is.
    pub metadata_length: u64,
    /// Where the leaf directories begin, 0 where there are none.
    pub leaf_offset: u64,
    /// How long the leaf directories are together.
    pub leaf_length: u64,
    /// Where the contents of tiles begin.
    pub data_offset: u64,
    /// How long the contents of tiles are together.
    pub data_length: u64,
    /// How many ids have a tile, 0 where that isn't said.
    pub n_addressed_tiles: u64,
    /// How many tile entries the directories have, 0 where that isn't said.
    pub n_tile_entries: u64,
    /// How many different contents there are, 0 where that isn't said.
    pub n_tile_contents: u64,
    /// Whether the contents lie in the order of ids.
    pub clustered: bool,
    /// How directories and metadata are compressed.
    pub internal_compression: Compression,
    /// How contents of tiles are compressed.
    pub tile_compression: Compression,
    /// What the tiles are.
    pub tile_type: TileType,
    /// The least zoom of the tiles.
    pub min_zoom: u8,
    /// The greatest zoom of the tiles.
    pub max_zoom: u8,
    /// The western bound, in ten millionths of a degree.
    pub min_longitude: i32,
    /// The southern bound, in ten millionths of a degree.
    pub min_latitude: i32,
    /// The eastern bound, in ten millionths of a degree.
    pub max_longitude: i32,
    /// The northern bound, in ten millionths of a degree.
    pub max_latitude: i32,
    /// The zoom to begin with.
    pub center_zoom: u8,
    /// The longitude to begin with, in ten millionths of a degree.
    pub center_longitude: i32,
    /// The latitude to begin with, in ten millionths of a degree.
    pub center_latitude: i32,
}

impl Header {
    /// The header of a writer: version 3, plain directories, root and metadata at their places, zoom 0 to 22, the whole
    /// world of the Mercator projection, and nothing counted yet.
    pub fn new(tile_compression: Compression, tile_type: TileType) -> Header
        ensures { result ≡ default_header tile_compression tile_type }
    {
        Header {
            version: 3,
            root_offset: HEADER_SIZE as u64,
            root_length: 0,
            metadata_offset: ROOT_END,
            metadata_length: 0,
            leaf_offset: 0,
            leaf_length: 0,
            data_offset: 0,
            data_length: 0,
            n_addressed_tiles: 0,
            n_tile_entries: 0,
            n_tile_contents: 0,
            clustered: true,
            internal_compression: Compression::None,
            tile_compression,
            tile_type,
            min_zoom: 0,
            max_zoom: 22,
            min_longitude: -1_800_000_000,
            min_latitude: -850_511_290,
            max_longitude: 1_800_000_000,
            max_latitude: 850_511_290,
            center_zoom: 0,
            center_longitude: 0,
            center_latitude: 0,
        }
    }

    /// The header that the first `HEADER_SIZE` bytes spell, little endian; further bytes are ignored, and
    /// the version isn't tested.
    ///
    /// The first of these that holds is answered: `InvalidHeader` for fewer than 7 bytes, `UnsupportedPmTilesVersion`
    /// where the first seven aren't `PMTiles` but begin with `PM`, `InvalidMagicNumber` where they begin otherwise,
    /// `InvalidHeader` for fewer than `HEADER_SIZE` bytes, `InvalidCompression` for a label of directories and then of
    /// tiles above 4, `InvalidTileType` for a type above 6.
    pub fn try_from_bytes(bytes: &[u8]) -> Result<Header, PmtError>
        ensures { result ≡ head bytes.now }
    {
        check_front(bytes)?;
        let internal_compression = Compression::from_byte(bytes[97])?;
        let tile_compression = Compression::from_byte(bytes[98])?;
        let tile_type = TileType::from_byte(bytes[99])?;
        Ok(read_fields(bytes, internal_compression, tile_compression, tile_type))
    }

    /// The bytes of the header, little endian. Read again they give this header, whatever follows them.
    pub fn write_bytes(&self) -> [u8; HEADER_SIZE]
        ensures bytes { result ≡ header_bytes self.now }
        ensures size { length result ≡ HEADER_SIZE }
        ensures again { (rest : List ℕ) → head (result ++ rest) ≡ Ok self.now }
    {
        let mut bytes = [0; HEADER_SIZE];
        put_header(&mut bytes, *self);
        bytes
    }

    /// The version of the format that the header says, 3 for what is written here.
    pub fn spec_version(&self) -> u8
        ensures { result ≡ self.now.version }
    {
        self.version
    }

    /// How many ids have a tile, where that is said: none for 0.
    pub fn n_addressed_tiles(&self) -> Option<u64>
        ensures { SomeIff result (0 < self.now.n_addressed_tiles) self.now.n_addressed_tiles }
    {
        said(self.n_addressed_tiles)
    }

    /// How many tile entries the directories have, where that is said: none for 0.
    pub fn n_tile_entries(&self) -> Option<u64>
        ensures { SomeIff result (0 < self.now.n_tile_entries) self.now.n_tile_entries }
    {
        said(self.n_tile_entries)
    }

    /// How many different contents there are, where that is said: none for 0.
    pub fn n_tile_contents(&self) -> Option<u64>
        ensures { SomeIff result (0 < self.now.n_tile_contents) self.now.n_tile_contents }
    {
        said(self.n_tile_contents)
    }

    /// Whether the contents lie in the order of ids.
    pub fn clustered(&self) -> bool
        ensures { result ≡ self.now.clustered }
    {
        self.clustered
    }

    /// How directories and metadata are compressed.
    pub fn internal_compression(&self) -> Compression
        ensures { result ≡ self.now.internal_compression }
    {
        self.internal_compression
    }
}

// A count that is said: any but 0.
fn said(count: u64) -> Option<u64>
    ensures { SomeIff result (0 < count) count }
{
    if count == 0 { None } else { Some(count) }
}
