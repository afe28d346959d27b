// The least and the greatest zoom of a set.
ghost use Rattle.mb_metadata.specs.Common.{FaultsCounted, IsBegun, ReadsOnly};
ghost use Rattle.std.specs.Prelude.{◌≡◌};
ghost use Rattle.mb_metadata.specs.Zooms.{span, with_zoom, zooms_answer, zooms_of};

use mb_load::load;
use mb_loaded::Loaded;
use mb_store::{MbtError, MbtResult, TileStore};
use std::alloc::Global;

// The least and the greatest zoom with one more.
fn with_zoom(span: Option<(u8, u8)>, zoom: u8) -> Option<(u8, u8)>
    ensures { result ≡ with_zoom span zoom }
{
    match span {
        Some((least, greatest)) => Some((least.min(zoom), greatest.max(zoom))),
        None => Some((zoom, zoom)),
    }
}

// The least and the greatest zoom of the tiles of a loaded set.
pub(crate) fn zooms_in(set: &Loaded) -> Option<(u8, u8)>
    ensures { result ≡ span (zooms_of set.now.state.tiles) }
{
    let mut span = None;
    for index in 0..set.tile_count() {
        let (coord, _) = set.tile_at(index);
        let next = with_zoom(span, coord.z());
        span = next;
    }
    span
}

/// The least and the greatest zoom at which the set has tiles, null ones included. None where it has no tile.
///
/// It answers the refusals of `load`. The store holds what it held, whatever the answer.
pub fn compute_min_max_zoom<S: TileStore>(
    alloc: Global,
    store: &mut S,
) -> MbtResult<Option<(u8, u8)>>
    ensures answer { IsBegun zooms_answer (S.tells store.old) (S.told store.old) result }
    ensures kept { ReadsOnly S.told S.tells S.faults S.steady store.old store.new }
    ensures fault { FaultsCounted S.faults store.old store.new result MbtError.StoreFault }
{
    let set = load(alloc, store)?;
    Ok(zooms_in(&set))
}
