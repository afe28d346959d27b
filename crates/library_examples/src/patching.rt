// A patch puts a new tile into a set.
use crate::sets::{tile, world};
use base_values::BlobVal;
use mb_access::Mbtiles;
use mb_edit::apply_patch;
use mb_insert::{CopyDuplicateMode, insert_tiles};
use mb_store::{MbtType, MemStore};
use std::alloc::Global;

// A patch of the tile of zoom 0.
fn patch(alloc: Global) -> anyhow::Result<MemStore> {
    let mut patch = MemStore::with_layout(alloc, MbtType::Flat)?;
    let tiles = vec![in alloc; tile(alloc, (0, 0, 0), "the world, new")?]?;
    insert_tiles(
        alloc,
        &mut patch,
        CopyDuplicateMode::Abort,
        tiles.as_slice(),
    )?;
    Ok(patch)
}

fn patched(alloc: Global) -> anyhow::Result<(Option<BlobVal>, bool)> {
    let mut base = world(alloc)?;
    let mut patch = patch(alloc)?;
    apply_patch(alloc, &mut base, &mut patch, true)?;
    let set = Mbtiles::new(alloc, "world.mbtiles")?;
    let tile = set.get_tile(alloc, &mut base, 0, 0, 0)?;
    let is_kept = set.contains(alloc, &mut base, 1, 0, 0)?;
    Ok((tile, is_kept))
}

/// The patch's tile stands at its place, and the others stay.
pub fn patch_a_set(rt: &HostRuntime) -> anyhow::Result<()> {
    let (tile, is_kept) = patched(rt.alloc())?;
    if let Some(bytes) = tile {
        println!(rt;
            "patched: {}, others kept: {is_kept}",
            std::str::from_utf8(bytes.as_bytes())?
        )?;
    }
    Ok(())
}
