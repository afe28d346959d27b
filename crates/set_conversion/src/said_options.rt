// The options that a set says of itself.
ghost use Rattle.std.specs.Prelude.{◌≡◌, IfOk};
ghost use Rattle.set_conversion.specs.SaidOptions.{asked_before};
ghost use Rattle.mb_loaded.specs.State.{State};
ghost use Rattle.set_options.specs.OptionsOfSet.{AreOptionsOfSet};
ghost use Rattle.tile_bridge.specs.Convert.{IsPlain};
ghost use Rattle.tile_streaming.specs.Marks.{IsMarkedAs};

use base_values::OutOfMemory;
use mb_loaded::Loaded;
use pm_format::TileType;
use pm_writer::PmTilesWriter;
use set_options::{SetOptions, options_of_set};
use std::alloc::Global;
use std::marker::Model;
use tile_bridge::{ArchiveOptions, ConvertOptions};
use tile_streaming::{MarkedSet, StreamOptions};

/// A conversion with the options that its set says of itself: type and label of the tiles, their zooms, bounds, center
/// and metadata, as `set_options::SetOptions::of_set` reads them.
#[derive(Drop)]
pub struct OptionsOfSet {
    asked: ConvertOptions,
}

impl Model for OptionsOfSet {
    ghost use Rattle.set_conversion.specs.Common.{ConvertOptions};

    ghost Value = { ConvertOptions };

    ghost view = { λ o. o.asked };
}

impl OptionsOfSet {
    /// With `force` patches are taken without the hashes that chain them; with `verify` the stored aggregate hash of
    /// the resulting set has to be there and right.
    pub fn new(force: bool, verify: bool) -> OptionsOfSet
        ensures { result ≡ asked_before force verify }
    {
        OptionsOfSet {
            asked: ConvertOptions {
                force,
                verify,
                writer: PmTilesWriter::new(TileType::Unknown),
            },
        }
    }
}

// The writer that a set says; it labels directories `None`.
fn said_writer(alloc: Global, set: &Loaded) -> Result<PmTilesWriter, OutOfMemory>
    ensures given { IfOk result (AreOptionsOfSet set.now.state) }
    ensures plain { IfOk result IsPlain }
{
    let writer = options_of_set(alloc, set)?;
    Ok(writer)
}

// The writer that a set says of which marks are held; it labels directories `None`.
fn held_writer(alloc: Global, set: &MarkedSet) -> Result<PmTilesWriter, OutOfMemory>
    ensures given { (state : State) → IsMarkedAs state set.now
        → IfOk result (AreOptionsOfSet state) }
    ensures plain { IfOk result IsPlain }
{
    let said = SetOptions::of_parts(alloc, &set.names, set.tile_facts())?;
    let writer = said.into_writer();
    Ok(writer)
}

impl ArchiveOptions for OptionsOfSet {
    ghost use Rattle.set_options.specs.OptionsOfSet.{AreOptionsOfSet};

    ghost asks = { λ o. o };

    ghost gives = { λ _. AreOptionsOfSet };

    fn asked(&self) -> &ConvertOptions {
        &self.asked
    }

    fn made_for(&self, alloc: Global, set: &Loaded) -> Result<Option<PmTilesWriter>, OutOfMemory> {
        let writer = said_writer(alloc, set)?;
        Ok(Some(writer))
    }
}

impl StreamOptions for OptionsOfSet {
    fn made_for_marked(
        &self,
        alloc: Global,
        set: &MarkedSet,
    ) -> Result<Option<PmTilesWriter>, OutOfMemory> {
        let writer = held_writer(alloc, set)?;
        Ok(Some(writer))
    }
}
