// A request for a tile, and the reply to it.
use crate::sets::archive;
use base_values::BlobVal;
use std::alloc::Global;
use tile_serve::{ServeLimits, TileServer};

// Up to 8 directories of 1,000 entries and 8 tiles of 1,000 bytes are kept.
fn reply(alloc: Global, line: &str) -> anyhow::Result<BlobVal> {
    let mut backend = archive(alloc)?;
    let limits = ServeLimits {
        directories: 8,
        directory_entries: 1_000,
        tiles: 8,
        tile_bytes: 1_000,
    };
    let mut server = TileServer::open(alloc, &mut backend, limits)?;
    let reply = server.answer(line.as_bytes())?;
    Ok(reply)
}

/// Asks for the tile of zoom 0, and prints the reply.
pub fn serve_a_line(rt: &HostRuntime) -> anyhow::Result<()> {
    let reply = reply(rt.alloc(), "GET 0 0 0")?;
    println!(rt;
        "served: {}",
        std::str::from_utf8(reply.as_bytes())?.trim_end()
    )?;
    Ok(())
}
