// The check of a whole archive.
ghost use Rattle.std.specs.Prelude.{◌+◌, ◌≤◌, IfSome};
ghost use Rattle.tile_verify.specs.Common.{header_of, opened, ReadsOnly, root_of};
ghost use Rattle.tile_verify.specs.Checking.{Answers, Causes, FaultsStand, MeetsAll, ReadsMade, reads_at_most};
ghost use Rattle.tile_verify.specs.FirstBreak.{walk_of};
ghost use Rattle.tile_verify.specs.Walking.{ReadsIn, WalkCauses, WalkReads};

use crate::walk::{Met, Spot, walk};
use crate::{VerifyError, VerifyReport};
use pm_format::{Backend, PmtError};
use pm_reader::{MAX_LEAVES, ReaderState};
use std::alloc::Global;
use tile_ids::MAX_TILE_ID;

/// Walks all directories of an archive that opened, and tests them as `verify` does: all that
/// they have, or the refusal.
///
/// The refusal is never `Opening`. `Broken` comes exactly where a part of the archive is broken, with the first such
/// part. `Fault` comes only where the source's count of faults rose, and `Short` only over a source that tells no
/// bytes. Each directory is read once, and the end of each tile is tested by a read of no bytes.
pub fn walk_all<B: Backend>(
    alloc: Global,
    state: &ReaderState,
    source: &mut B,
) -> Result<Met, VerifyError>
    ensures answer { IfSome (B.told source.old)
        (λ b. MeetsAll b (header_of state.now, root_of state.now) result) }
    ensures causes { WalkCauses (B.faults source.old) (B.faults source.new) result }
    ensures still { FaultsStand (B.faults source.old) (B.faults source.new) result }
    ensures kept { ReadsOnly B.told B.versions B.faults B.steady source.old source.new }
    ensures made { WalkReads (B.reads source.old) (B.reads source.new) result }
    ensures reads { IfSome (B.told source.old) (λ b. ReadsIn
        (walk_of b (header_of state.now, root_of state.now))
        (B.reads source.old) (B.reads source.new) result) }
{
    let mut met = Met::new(alloc);
    let root = Spot {
        depth: 0,
        offset: 0,
    };
    let end = MAX_TILE_ID + 1;
    match walk(
        state,
        &mut met,
        source,
        root,
        0,
        end,
        MAX_LEAVES,
        state.root(),
    ) {
        Ok(()) => Ok(met),
        Err(error) => Err(error),
    }
}

/// Checks that an archive is sound: it opens; each directory reached from its root lies in it and decodes, at most six
/// leaves deep; in each, ids strictly rise within the directory's range, and no run passes the next id, the end of that
/// range or the last id of zoom 31; and each tile lies in it.
///
/// `Opening` comes exactly where it doesn't open, `Broken` exactly where a part of it is broken, with the first such
/// part. `Fault`, and a fault in `Opening`, come only where the source's count of faults rose, and `Short` only over a
/// source that tells no bytes. `Opening` comes after one read, `Fault` and `Short` after two at least. Each directory
/// is read once, and the end of each tile is tested by a read of no bytes.
pub fn verify<B: Backend>(alloc: Global, source: &mut B) -> Result<VerifyReport, VerifyError>
    ensures answer { IfSome (B.told source.old) (λ b. Answers b result) }
    ensures causes { Causes (B.faults source.old) (B.faults source.new) result }
    ensures still { FaultsStand (B.faults source.old) (B.faults source.new) result }
    ensures kept { ReadsOnly B.told B.versions B.faults B.steady source.old source.new }
    ensures made { ReadsMade (B.reads source.old) (B.reads source.new) result }
    ensures reads { IfSome (B.told source.old)
        (λ b. B.reads source.new ≤ B.reads source.old + reads_at_most b (opened b)) }
{
    let state = match ReaderState::open(alloc, source) {
        Ok(state) => state,
        Err(PmtError::OutOfMemory) => return Err(VerifyError::OutOfMemory),
        Err(error) => return Err(VerifyError::Opening(error)),
    };
    match walk_all(alloc, &state, source) {
        Ok(met) => Ok(met.report()),
        Err(error) => Err(error),
    }
}
