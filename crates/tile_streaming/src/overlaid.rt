// A base whose contents stay in its store, under patches that are held.
ghost use Rattle.std.specs.Prelude.{◌≡◌, Bool, true, IfOk};
ghost use Rattle.std.specs.FinMap.{empty};
ghost use Rattle.tile_streaming.specs.Common.{State, Tables};
ghost use Rattle.tile_streaming.specs.Layouts.{over_layout};
ghost use Rattle.tile_streaming.specs.Marks.{IsMarkedAs};
ghost use Rattle.tile_streaming.specs.Overlaid.{IsRoot, StandsFor};

use crate::MarkedSet;
use crate::layouts::over_layout;
use crate::rest::Rest;
use base_values::OutOfMemory;
use mb_loaded::Loaded;
use std::alloc::Global;

/// A base of which marks are held, under the tiles that patches put.
#[derive(Drop)]
pub(crate) struct Overlaid {
    /// The tiles that patches put, with the names of the set.
    pub over: Loaded,
    /// What is left of the base.
    pub rest: Rest,
}

// What is held over a base before its first patch: its names, and no tile.
fn empty_over(alloc: Global, set: &MarkedSet) -> Result<Loaded, OutOfMemory>
    ensures layout { IfOk result (λ over. over.state.layout ≡ over_layout set.now.layout) }
    ensures algorithm { IfOk result (λ over. over.state.algorithm ≡ set.now.algorithm) }
    ensures names { IfOk result (λ over. over.state.metadata ≡ set.now.names) }
    ensures tiles { IfOk result (λ over. over.state.tiles ≡ empty) }
    ensures ids { IfOk result (λ over. over.state.ids ≡ empty) }
    ensures contents { IfOk result (λ over. over.state.contents ≡ empty) }
{
    let mut over = Loaded::empty(alloc, over_layout(set.layout), set.algorithm).edit();
    set.names.put_into(alloc, &mut over)?;
    over.settle()
}

/// A base of which marks are held, before its first patch.
pub(crate) fn marked_base(alloc: Global, set: MarkedSet) -> Result<Overlaid, OutOfMemory>
    ensures { (tells : Bool) (told : Tables) (s : State) → IsMarkedAs s set
        → IsRoot tells told s → IfOk result (λ x. StandsFor tells told x s) }
{
    let over = empty_over(alloc, &set)?;
    let MarkedSet {
        layout,
        algorithm: _,
        names: _,
        marks,
    } = set;
    Ok(Overlaid {
        over,
        rest: Rest {
            layout,
            marks,
            is_whole: true,
        },
    })
}
