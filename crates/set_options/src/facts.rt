// What the tiles of a set say of an archive.
ghost use Rattle.std.specs.Prelude.{◌≡◌};
ghost use Rattle.set_options.specs.Facts.{facts_of, is_gzip, label_of, no_facts, with_bytes, with_cell, with_filled, with_zoom};

use mb_loaded::Loaded;
use mb_store::Cell;
use pm_format::{Compression, TileType};

/// What the tiles of at least one byte say of an archive.
#[derive(Clone, Copy, Debug)]
pub struct TileFacts {
    /// Their least and greatest zoom.
    pub zooms: Option<(u8, u8)>,
    /// Whether one of them begins as gzip begins.
    pub gzip: bool,
    /// Whether one of them doesn't.
    pub plain: bool,
}

/// Whether bytes begin as gzip begins: with 31 and 139.
pub fn is_gzip(bytes: &[u8]) -> bool
    ensures { result ≡ is_gzip bytes.now }
{
    match bytes {
        [first, second, ..] => *first == 31 && *second == 139,
        _ => false,
    }
}

// The least and the greatest zoom with one more.
fn with_zoom(span: Option<(u8, u8)>, zoom: u8) -> Option<(u8, u8)>
    ensures { result ≡ with_zoom span zoom }
{
    match span {
        Some((least, greatest)) => Some((least.min(zoom), greatest.max(zoom))),
        None => Some((zoom, zoom)),
    }
}

impl TileFacts {
    /// What no tile says.
    pub fn none() -> TileFacts
        ensures { result ≡ no_facts }
    {
        TileFacts {
            zooms: None,
            gzip: false,
            plain: false,
        }
    }

    /// The same with a tile more of at least one byte: its zoom, and whether it begins as gzip begins.
    pub fn with_tile(self, zoom: u8, gzip: bool) -> TileFacts
        ensures { result ≡ with_filled self zoom gzip }
    {
        TileFacts {
            zooms: with_zoom(self.zooms, zoom),
            gzip: self.gzip || gzip,
            plain: self.plain || !gzip,
        }
    }
}

// A tile more.
fn with_bytes(facts: TileFacts, zoom: u8, bytes: &[u8]) -> TileFacts
    ensures { result ≡ with_bytes facts zoom bytes.now }
{
    if bytes.is_empty() {
        return facts;
    }
    facts.with_tile(zoom, is_gzip(bytes))
}

// The same of the tile's cell.
fn with_cell(facts: TileFacts, zoom: u8, cell: &Cell) -> TileFacts
    ensures { result ≡ with_cell facts zoom cell.now }
{
    match cell {
        Cell::Blob(blob) => with_bytes(facts, zoom, blob.as_bytes()),
        _ => facts,
    }
}

/// What all tiles of a set say.
pub(crate) fn facts_of(set: &Loaded) -> TileFacts
    ensures { result ≡ facts_of set.now.state.tiles }
{
    let mut facts = TileFacts::none();
    for index in 0..set.tile_count() {
        let (coord, cell) = set.tile_at(index);
        let next = with_cell(facts, coord.z(), cell);
        facts = next;
    }
    facts
}

/// How tiles of a type are labelled, by what they say.
pub(crate) fn label_of(tile_type: TileType, facts: TileFacts) -> Compression
    ensures { result ≡ label_of tile_type facts }
{
    match tile_type {
        TileType::Mvt if !facts.plain => Compression::Gzip,
        TileType::Mvt if facts.gzip => Compression::Unknown,
        _ => Compression::None,
    }
}
