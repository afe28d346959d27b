// A part of an archive becomes an archive, which is checked.
use crate::sets::archive;
use bytes::Bytes;
use pm_format::{BytesBackend, MemMedium};
use std::alloc::Global;
use tile_extract::extract;
use tile_ids::TileCoord;
use tile_verify::{VerifyReport, verify};

// The tile of zoom 1 in the south east with its descendants down to zoom 1, of at most 100 tiles.
fn part(alloc: Global) -> anyhow::Result<BytesBackend> {
    let mut source = archive(alloc)?;
    let mut medium = MemMedium::new(alloc);
    let root = TileCoord::new(1, 1, 1)?;
    extract(alloc, &mut source, root, 1, 100, &mut medium)?;
    Ok(BytesBackend::new(Bytes::copy_from_slice(alloc, medium.as_bytes())?))
}

fn verified(alloc: Global) -> anyhow::Result<VerifyReport> {
    let mut part = part(alloc)?;
    let report = verify(alloc, &mut part)?;
    Ok(report)
}

/// The part is a sound archive of one tile.
pub fn extract_and_verify(rt: &HostRuntime) -> anyhow::Result<()> {
    let report = verified(rt.alloc())?;
    println!(rt; "extracted: {report:?}")?;
    Ok(())
}
