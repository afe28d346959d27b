// What a conversion that holds no contents is asked for.
ghost use Rattle.std.specs.Prelude.{IfOk, IfSome, unwrap_or};
ghost use Rattle.tile_streaming.specs.Common.{IsPlain, State};
ghost use Rattle.tile_streaming.specs.Marks.{IsMarkedAs};

use crate::MarkedSet;
use base_values::OutOfMemory;
use pm_writer::PmTilesWriter;
use std::alloc::Global;
use tile_bridge::{ArchiveOptions, ConvertOptions};

/// What is asked of a conversion that holds no contents: its options, or what makes those of the archive from the set
/// without its contents.
pub trait StreamOptions: ArchiveOptions {
    /// The writer that is made for a set by its metadata and its marks, which labels directories `None`: one that
    /// `made_for` may make for any state of which the set is held. None where that of `asked` stands.
    fn made_for_marked(
        &self,
        alloc: Global,
        set: &MarkedSet,
    ) -> Result<Option<PmTilesWriter>, OutOfMemory>
        ensures given { (state : State) → IsMarkedAs state set.now → IfOk result (λ made.
            Self.gives self.now state (unwrap_or made (Self.asks self.now).writer)) }
        ensures plain { IfOk result (λ made. IfSome made IsPlain) };
}

impl StreamOptions for ConvertOptions {
    fn made_for_marked(
        &self,
        _: Global,
        _: &MarkedSet,
    ) -> Result<Option<PmTilesWriter>, OutOfMemory> {
        Ok(None)
    }
}
