// The check of what a header says.
ghost use Rattle.std.specs.Prelude.{◌≡◌, ◌+◌, ◌≤◌, IfSome};
ghost use Rattle.tile_header_check.specs.Common.{opened, reads_at_most, ReadsOnly};
ghost use Rattle.tile_header_check.specs.Checking.{HeaderAnswers, HeaderCauses, HeaderReads, HeaderStands, TilesTested};

use crate::clustering::clustered_fault;
use crate::metadata::metadata_fault;
use crate::tiles::{counts_fault, zooms_fault};
use crate::{HeaderError, HeaderFault};
use pm_format::{Backend, Header, PmtError};
use pm_reader::ReaderState;
use std::alloc::Global;
use tile_verify::{Met, VerifyError, VerifyReport, walk_all};

#[tactic(auto, unfolding(crate::specs::Checking::tiles_fault))]
// Tests what a header says of tiles against what was met.
fn test_tiles(alloc: Global, header: &Header, met: Met) -> Result<VerifyReport, HeaderError>
    ensures { TilesTested header.now met result }
{
    let unclustered = match clustered_fault(alloc, header.clustered, &met.tiles) {
        Ok(fault) => fault,
        Err(_) => return Err(HeaderError::Unsound(VerifyError::OutOfMemory)),
    };
    let ids = met.ids;
    let report = met.report();
    let fault = counts_fault(header, &report).or(zooms_fault(header, ids).or(unclustered));
    match fault {
        Some(fault) => Err(HeaderError::Header(fault)),
        None => Ok(report),
    }
}

/// Checks that an archive is sound, as `tile_verify::verify` does, and then that its header says what it has (PMTiles
/// specification version 3): how many ids have a tile, how many tile entries and how many different contents there are,
/// each unless the header says 0, which is unknown; exactly the least and the greatest zoom, where there are tiles;
/// that contents are clustered, where it says so; and where metadata is, which has to be an object of JSON.
///
/// After Ok it is the report of `verify`. `Unsound` comes exactly where `verify` refuses, but for faults and
/// running out of memory, which come for the metadata too. `Header` comes exactly where the archive is sound and
/// one of these tests fails, with the first that does, in the order above. The archive is walked once, and the
/// metadata is read behind that.
pub fn check_header<B: Backend>(alloc: Global, source: &mut B) -> Result<VerifyReport, HeaderError>
    ensures answer { IfSome (B.told source.old) (λ b. HeaderAnswers b result) }
    ensures causes { HeaderCauses (B.faults source.old) (B.faults source.new) result }
    ensures still { HeaderStands (B.faults source.old) (B.faults source.new) result }
    ensures kept { ReadsOnly B.told B.versions B.faults B.steady source.old source.new }
    ensures made { HeaderReads (B.reads source.old) (B.reads source.new) result }
    ensures reads { IfSome (B.told source.old)
        (λ b. B.reads source.new ≤ B.reads source.old + reads_at_most b (opened b)) }
{
    let state = match ReaderState::open(alloc, source) {
        Ok(state) => state,
        Err(PmtError::OutOfMemory) => return Err(HeaderError::Unsound(VerifyError::OutOfMemory)),
        Err(error) => return Err(HeaderError::Unsound(VerifyError::Opening(error))),
    };
    let met = match walk_all(alloc, &state, source) {
        Ok(met) => met,
        Err(error) => return Err(HeaderError::Unsound(error)),
    };
    let report = match test_tiles(alloc, state.get_header(), met) {
        Ok(report) => report,
        Err(error) => return Err(error),
    };
    match metadata_fault(alloc, &state, source) {
        Ok(None) => Ok(report),
        Ok(Some(fault)) => Err(HeaderError::Header(HeaderFault::Metadata(fault))),
        Err(error) => Err(HeaderError::Unsound(error)),
    }
}
