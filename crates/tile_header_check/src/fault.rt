// What a header says wrong.
use thiserror::Error;
use tile_verify::VerifyError;

/// Why a header isn't told to be right.
#[derive(Debug, Drop, Error)]
pub enum HeaderError {
    /// The archive isn't told to be sound: why. It is `Fault`, `Short` or `OutOfMemory` for the metadata too.
    #[error("unsound: {0}")]
    Unsound(VerifyError),
    /// The archive is sound, and this is the first thing that its header says wrong.
    #[error("header: {0}")]
    Header(HeaderFault),
}

/// Something that a header says wrong, by what it states and what was found.
#[derive(Clone, Copy, Debug, PartialEq, Eq, Error)]
pub enum HeaderFault {
    /// How many ids have a tile.
    #[error("addressed tiles {stated}, found {found}")]
    AddressedTiles { stated: u64, found: u64 },
    /// How many tile entries there are.
    #[error("tile entries {stated}, found {found}")]
    TileEntries { stated: u64, found: u64 },
    /// How many different contents there are.
    #[error("tile contents {stated}, found {found}")]
    TileContents { stated: u64, found: u64 },
    /// The least zoom of the tiles.
    #[error("min zoom {stated}, found {found}")]
    MinZoom { stated: u8, found: u8 },
    /// The greatest zoom of the tiles.
    #[error("max zoom {stated}, found {found}")]
    MaxZoom { stated: u8, found: u8 },
    /// Contents are stated to lie in the order of ids, and those of a tile entry don't: its number in that order, from
    /// 0, where the contents before it end, in bytes of the data part, and where its own begin.
    #[error("clustered, tile entry {entry} at {found} and not at {due}")]
    Clustered { entry: u64, due: u64, found: u64 },
    /// The metadata.
    #[error("metadata {0:?}")]
    Metadata(MetadataFault),
}

/// What is wrong with metadata.
#[derive(Clone, Copy, Debug, PartialEq, Eq)]
pub enum MetadataFault {
    /// It passes the end of the bytes.
    PastEnd,
    /// It isn't UTF-8.
    NotUtf8,
    /// It isn't JSON nested at most 127 deep, in which each number is less than the greatest float.
    NotJson,
    /// It is JSON and no object.
    NotAnObject,
}
