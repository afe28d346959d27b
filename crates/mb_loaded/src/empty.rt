// A set without rows.
ghost use Rattle.std.specs.Prelude.{◌≡◌, true};
ghost use Rattle.mb_loaded.specs.Empty.{empty_state};
ghost use Rattle.mb_loaded.specs.Held.{fresh};
ghost use Rattle.mb_loaded.specs.Editable.{is_editable};

use crate::Loaded;
use mb_lists::{ContentList, NameList, TileList};
use mb_store::MbtType;
use std::alloc::Global;
use tile_hash::HashAlgorithm;

impl Loaded {
    /// A set of a layout and an algorithm, without tiles and metadata, as tables of the layout without rows are loaded.
    /// Its layout is none whose ids are numbers, so that tiles can be put. It takes no memory.
    pub fn empty(alloc: Global, layout: MbtType, algorithm: HashAlgorithm) -> Loaded
        requires { is_editable layout ≡ true }
        ensures { result ≡ fresh (empty_state layout algorithm) }
    {
        Loaded {
            layout,
            algorithm,
            patch_type: None,
            contents: ContentList {
                items: Vec::new(alloc),
                order: Vec::new(alloc),
                live: 0,
            },
            tiles: TileList {
                items: Vec::new(alloc),
                live: 0,
            },
            names: NameList {
                items: Vec::new(alloc),
                live: 0,
            },
        }
    }
}
