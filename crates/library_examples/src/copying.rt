// A part of a set, copied into a new one.
use crate::sets::world;
use mb_access::Mbtiles;
use mb_copy::{BoxList, MbtilesCopier, TileBox};
use mb_store::MemStore;
use std::alloc::Global;

// The last column and row of zoom 30, which boxes are counted in.
const LAST: u32 = (1 << 30) - 1;

// A copier of zoom 1 in the western half of the world.
fn copier(alloc: Global) -> anyhow::Result<MbtilesCopier> {
    let west = TileBox {
        min_x: 0,
        min_y: 0,
        max_x: LAST / 2,
        max_y: LAST,
    };
    Ok(MbtilesCopier {
        min_zoom: Some(1),
        max_zoom: Some(1),
        bbox: BoxList::new(vec![in alloc; west]?),
        ..MbtilesCopier::new(alloc)
    })
}

fn copied(alloc: Global) -> anyhow::Result<(bool, bool)> {
    let mut source = world(alloc)?;
    let mut copy = MemStore::new(alloc);
    copier(alloc)?.run(alloc, &mut source, &mut copy)?;
    let set = Mbtiles::new(alloc, "west.mbtiles")?;
    let has_west = set.contains(alloc, &mut copy, 1, 0, 1)?;
    let has_east = set.contains(alloc, &mut copy, 1, 1, 1)?;
    Ok((has_west, has_east))
}

/// The copy has the south west, and not the south east.
pub fn copy_a_box(rt: &HostRuntime) -> anyhow::Result<()> {
    let (has_west, has_east) = copied(rt.alloc())?;
    println!(rt; "copied: the south west {has_west}, the south east {has_east}")?;
    Ok(())
}
