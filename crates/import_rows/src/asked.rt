// What is asked of each archive in which faults are planted.
use base_values::TextVal;
use rows_shared::{Words, number, texts};
use std::alloc::Global;
use std::fmt::Write;
use tile_ids::{TileCoord, TileId};

/// How many leaves a walk may read, the ids that are looked up and their requests, the most tiles of an import, and the
/// words of an extraction and of a server.
#[derive(Drop)]
pub struct Asked {
    pub leaves: u64,
    pub ids: Vec<TileId>,
    pub requests: String,
    pub max_tiles: u64,
    pub part: Vec<TextVal>,
    pub limits: Vec<TextVal>,
}

impl Asked {
    /// Nothing is asked.
    pub fn new(alloc: Global) -> Asked {
        Asked {
            leaves: 0,
            ids: Vec::new(alloc),
            requests: String::new(alloc),
            max_tiles: 0,
            part: Vec::new(alloc),
            limits: Vec::new(alloc),
        }
    }
}

// Appends the line that asks a server for the tile of an id.
fn request(requests: &mut String, id: TileId) -> Option<()> {
    let coord = TileCoord::from(id);
    write!(requests, "GET {} {} {}\n", coord.z(), coord.x(), coord.y()).ok()
}

// How many leaves, and the ids that are left.
fn tiles(alloc: Global, asked: &mut Asked, words: &mut Words) -> Option<()> {
    asked.leaves = number(words)?;
    let mut ids = Vec::new(alloc);
    let mut requests = String::new(alloc);
    for word in words {
        let id = TileId::new(word.parse::<u64>().ok()?).ok()?;
        request(&mut requests, id)?;
        ids.push(id).ok()?;
    }
    asked.ids = ids;
    asked.requests = requests;
    Some(())
}

/// Keeps what the words say.
pub fn answer(alloc: Global, asked: &mut Asked, words: &mut Words) -> Option<()> {
    match words.next()? {
        "tiles" => return tiles(alloc, asked, words),
        "import" => asked.max_tiles = number(words)?,
        "extract" => asked.part = texts(alloc, words)?,
        "serve" => asked.limits = texts(alloc, words)?,
        _ => return None,
    }
    Some(())
}
