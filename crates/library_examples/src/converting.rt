// A base and a patch become an archive.
use crate::sets::{options, tile, world};
use mb_insert::{CopyDuplicateMode, insert_tiles};
use mb_store::{MbtType, MemStore};
use pm_format::MemMedium;
use std::alloc::Global;
use tile_bridge::{ConvertReport, convert};

// A patch with one tile in place of another.
fn patch(alloc: Global) -> anyhow::Result<MemStore> {
    let mut patch = MemStore::with_layout(alloc, MbtType::Flat)?;
    let tiles = vec![in alloc; tile(alloc, (1, 1, 0), "north east, new")?]?;
    insert_tiles(
        alloc,
        &mut patch,
        CopyDuplicateMode::Abort,
        tiles.as_slice(),
    )?;
    Ok(patch)
}

fn converted(alloc: Global) -> anyhow::Result<ConvertReport> {
    let mut base = world(alloc)?;
    let mut patches = vec![in alloc; patch(alloc)?]?;
    let mut medium = MemMedium::new(alloc);
    let report = convert(alloc, &mut base, &mut patches, &[], &options(), &mut medium)?;
    Ok(report)
}

/// The archive has five tiles, of four different contents: the two quarters of the south share theirs.
pub fn convert_two_sets(rt: &HostRuntime) -> anyhow::Result<()> {
    let report = converted(rt.alloc())?;
    let places = report.places;
    println!(rt;
        "converted: {} tiles, {} contents",
        places.addressed, places.contents
    )?;
    Ok(())
}
