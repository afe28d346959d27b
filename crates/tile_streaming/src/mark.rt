// What is held of a tile while its contents stay in the store.
use mb_store::MbtType;
use set_options::SetNames;
use tile_hash::HashAlgorithm;
use tile_ids::TileId;

/// Contents without their bytes: what a tile's mark has but for its id, in 16 bytes.
#[derive(Clone, Copy, Debug)]
pub(crate) struct ContentMark {
    /// The XXH3 digest of the bytes, of 64 bits; where they are null, that of no bytes.
    pub digest: u64,
    /// How many bytes these are, modulo 2^32.
    pub length: u32,
    /// Whether they are 2^32 or more.
    pub is_long: bool,
    /// Whether they begin as gzip begins.
    pub gzip: bool,
}

/// A tile without its contents, in 24 bytes.
#[derive(Clone, Copy, Debug)]
pub struct Mark {
    /// The id of its coordinate.
    pub id: TileId,
    /// The XXH3 digest of the bytes of its contents, of 64 bits; where they are null, that of no bytes.
    pub digest: u64,
    /// How many bytes these are, modulo 2^32.
    pub length: u32,
    /// Whether they are 2^32 or more, which no archive takes.
    pub is_long: bool,
    /// Whether they begin as gzip begins.
    pub gzip: bool,
}

/// A set without the contents of its tiles.
#[derive(Debug, Drop)]
pub struct MarkedSet {
    /// Its layout.
    pub layout: MbtType,
    /// The algorithm of its digests.
    pub algorithm: HashAlgorithm,
    /// Its metadata, by name.
    pub names: SetNames,
    /// A mark of each tile, by rising id.
    pub marks: Vec<Mark>,
}
