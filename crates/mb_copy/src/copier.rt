// What a copy is to take, and what it is to make.
ghost use Rattle.std.specs.Prelude.{◌≡◌, None, [], false};

use crate::{BoxList, CopyDuplicateMode, CopyType, ZoomLevels};
use mb_store::{MbtType, MbtTypeCli};
use std::alloc::Global;
use tile_hash::HashAlgorithm;

/// What a copy of a tile set takes from its source, and what it makes of its destination.
#[derive(Drop)]
pub struct MbtilesCopier {
    /// Whether tiles, metadata, or both are copied.
    pub copy: CopyType,
    /// The layout of a destination that is made, as a command line gives it; `Normalized` is that with
    /// digests and a view of them.
    pub dst_type_cli: Option<MbtTypeCli>,
    /// The layout of a destination that is made, before `dst_type_cli`. Where neither is given, that of the source.
    pub dst_type: Option<MbtType>,
    /// What counts where both sets have a tile or a name. A destination that has tables asks for one.
    pub on_duplicate: Option<CopyDuplicateMode>,
    /// The least zoom that is copied, where `zoom_levels` is empty.
    pub min_zoom: Option<u8>,
    /// The greatest zoom that is copied, where `zoom_levels` is empty.
    pub max_zoom: Option<u8>,
    /// The zooms that are copied; an empty list leaves that to the two bounds.
    pub zoom_levels: ZoomLevels,
    /// The boxes that are copied; an empty list takes all.
    pub bbox: BoxList,
    /// No hash of all tiles is computed and stored.
    pub skip_agg_tiles_hash: bool,
    /// The algorithm of a destination that is made. Where none is given, that of the source.
    pub hash_algorithm: Option<HashAlgorithm>,
    /// The hashes that patches are kept in order by aren't looked at.
    pub force: bool,
    /// The stored hash of all tiles of a source has to be the computed one.
    pub validate: bool,
}

impl MbtilesCopier {
    /// A copy of all tiles and all metadata, into the layout of the source. It takes no memory.
    pub fn new(alloc: Global) -> MbtilesCopier
        ensures { result ≡ record { copy = CopyType.All; dst_type_cli = None; dst_type = None; on_duplicate = None; min_zoom = None; max_zoom = None; zoom_levels = []; bbox = []; skip_agg_tiles_hash = false; hash_algorithm = None; force = false; validate = false } }
    {
        MbtilesCopier {
            copy: CopyType::All,
            dst_type_cli: None,
            dst_type: None,
            on_duplicate: None,
            min_zoom: None,
            max_zoom: None,
            zoom_levels: ZoomLevels::new(Vec::new(alloc)),
            bbox: BoxList::new(Vec::new(alloc)),
            skip_agg_tiles_hash: false,
            hash_algorithm: None,
            force: false,
            validate: false,
        }
    }
}
