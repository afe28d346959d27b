// A tile of an archive, by its coordinate.
use crate::sets::archive;
use bytes::Bytes;
use pm_reader::PmTilesReader;
use std::alloc::Global;
use tile_ids::{TileCoord, TileId};

fn tile_at(alloc: Global, z: u8, x: u32, y: u32) -> anyhow::Result<Option<Bytes>> {
    let mut backend = archive(alloc)?;
    let mut reader = PmTilesReader::try_from_source(alloc, &mut backend)?;
    let id = TileId::from(TileCoord::new(z, x, y)?);
    let tile = reader.get_tile(id)?;
    Ok(tile)
}

/// Reads the tile of zoom 1 in the north west.
pub fn read_a_tile(rt: &HostRuntime) -> anyhow::Result<()> {
    match tile_at(rt.alloc(), 1, 0, 0)? {
        Some(bytes) => println!(rt; "read: {}", std::str::from_utf8(bytes.as_slice())?)?,
        None => println!(rt; "read: no tile")?,
    }
    Ok(())
}
