// What is kept from line to line.
use pm_format::{MemMedium, TileType};
use pm_reader::{HashMapCache, LruDirCache};
use pm_writer::PmTilesWriter;
use rows_shared::Counted;
use std::alloc::Global;

// The medium of most calls, the options of a writer, two caches, what each medium of an extraction has at first, the
// medium of the last one, and the sources that are joined.
#[derive(Drop)]
pub struct Kept {
    pub backend: Counted,
    pub options: PmTilesWriter,
    pub map: HashMapCache,
    pub recent: Option<LruDirCache>,
    pub begun: Vec<u8>,
    pub extracted: MemMedium,
    pub sources: Vec<MemMedium>,
}

impl Kept {
    // Empty media, the options of a new writer, and empty caches.
    pub fn new(alloc: Global) -> Kept {
        Kept {
            backend: Counted::new(MemMedium::new(alloc)),
            options: PmTilesWriter::new(TileType::Unknown),
            map: HashMapCache::new(alloc),
            recent: None,
            begun: Vec::new(alloc),
            extracted: MemMedium::new(alloc),
            sources: Vec::new(alloc),
        }
    }
}
