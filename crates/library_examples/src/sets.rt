// Sets and archives in memory, which the examples begin with.
use base_values::BlobVal;
use bytes::Bytes;
use mb_insert::{CopyDuplicateMode, NewTile, insert_tiles};
use mb_store::{MbtType, MemStore};
use pm_format::{BytesBackend, MemMedium, TileType};
use pm_writer::PmTilesWriter;
use std::alloc::Global;
use tile_bridge::{ConvertOptions, convert};

/// A tile at a place that is counted from the top left, as the web does.
pub fn tile(alloc: Global, (z, x, y): (u8, u32, u32), text: &str) -> anyhow::Result<NewTile> {
    Ok(NewTile {
        z,
        x,
        y,
        tile_data: BlobVal::new(Vec::from_slice(alloc, text.as_bytes())?),
    })
}

/// A flat set of the world at zoom 0 and its quarters at zoom 1.
pub fn world(alloc: Global) -> anyhow::Result<MemStore> {
    let mut store = MemStore::with_layout(alloc, MbtType::Flat)?;
    let tiles = vec![in alloc;
        tile(alloc, (0, 0, 0), "world")?,
        tile(alloc, (1, 0, 0), "north west")?,
        tile(alloc, (1, 1, 0), "north east")?,
        tile(alloc, (1, 0, 1), "south")?,
        tile(alloc, (1, 1, 1), "south")?,
    ]?;
    insert_tiles(
        alloc,
        &mut store,
        CopyDuplicateMode::Abort,
        tiles.as_slice(),
    )?;
    Ok(store)
}

/// What a conversion is asked for: patches whatever their hashes, and an archive of tiles of an unknown type.
pub fn options() -> ConvertOptions {
    ConvertOptions {
        force: true,
        verify: false,
        writer: PmTilesWriter::new(TileType::Unknown).max_zoom(1),
    }
}

/// The archive of the world, to be read.
pub fn archive(alloc: Global) -> anyhow::Result<BytesBackend> {
    let mut base = world(alloc)?;
    let mut patches: Vec<MemStore> = Vec::new(alloc);
    let mut medium = MemMedium::new(alloc);
    convert(alloc, &mut base, &mut patches, &[], &options(), &mut medium)?;
    Ok(BytesBackend::new(Bytes::copy_from_slice(alloc, medium.as_bytes())?))
}
