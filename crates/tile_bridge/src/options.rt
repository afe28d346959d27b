// How a set is converted.
ghost use Rattle.std.specs.Prelude.{◌≡◌, IfOk, IfSome, unwrap_or};
ghost use Rattle.tile_bridge.specs.Common.{Options, State};
ghost use Rattle.tile_bridge.specs.Convert.{IsPlain};
ghost use Rattle.tile_bridge.specs.declared.options.ConvertOptions.{ConvertOptions};

use base_values::OutOfMemory;
use mb_loaded::Loaded;
use pm_writer::PmTilesWriter;
use std::alloc::Global;

/// How a set is converted.
#[derive(Drop)]
pub struct ConvertOptions {
    /// Whether patches are taken without the hashes that chain them.
    pub force: bool,
    /// Whether the stored aggregate hash of the resulting set has to be there and right.
    pub verify: bool,
    /// What the archive says beside its tiles.
    pub writer: PmTilesWriter,
}

/// What is asked of a conversion: its options, or what makes those of the archive from the set to which base and
/// patches come.
pub trait ArchiveOptions {
    /// What is asked before the set is known. Its writer is the archive's where none is made.
    ghost asks: { Self → ConvertOptions };

    /// Options that the archive of a set may have.
    ghost gives: { Self → State → Options → Type 0 };

    /// What is asked before the set is known.
    fn asked(&self) -> &ConvertOptions
        ensures { result.now ≡ asks self.now };

    /// The writer that is made for a set, which labels directories `None`. None where that of `asked` stands.
    fn made_for(&self, alloc: Global, set: &Loaded) -> Result<Option<PmTilesWriter>, OutOfMemory>
        ensures given { IfOk result (λ made. gives self.now set.now.state
            (unwrap_or made (asks self.now).writer)) }
        ensures plain { IfOk result (λ made. IfSome made IsPlain) };
}

impl ArchiveOptions for ConvertOptions {
    ghost use Rattle.std.specs.Prelude.{◌≡◌};

    ghost asks = { λ o. o };

    ghost gives = { λ o _ w. w ≡ o.writer };

    fn asked(&self) -> &ConvertOptions {
        self
    }

    fn made_for(&self, _: Global, _: &Loaded) -> Result<Option<PmTilesWriter>, OutOfMemory> {
        Ok(None)
    }
}

/// The writer of an archive: the one that was made for its set, or the one that was asked for.
pub(crate) fn chosen<'a>(
    asked: &'a ConvertOptions,
    made: &'a Option<PmTilesWriter>,
) -> &'a PmTilesWriter
    ensures writer { result.now ≡ unwrap_or made.now asked.now.writer }
    ensures plain { IsPlain asked.now.writer → IfSome made.now IsPlain → IsPlain result.now }
{
    match made {
        Some(writer) => writer,
        None => &asked.writer,
    }
}
