// The whole extractor as one call.
ghost use Rattle.std.specs.Prelude.{◌≡◌, ◌≢◌, ◌+◌, ◌≤◌, [], Some, IfSome};
ghost use Rattle.tile_extract.specs.Common.{KeepsMedium, ReadsOnly, Rose};
ghost use Rattle.tile_extract.specs.Completeness.{CanExtract, IsDoneOrWanting};
ghost use Rattle.tile_extract.specs.Extract.{LeavesUnread};
ghost use Rattle.tile_extract.specs.Subtree.{Answers, Causes, Leaves, LeavesUncompared, reads_at_most};
ghost use Rattle.tile_extract.specs.TopCall.{IsFor, OfExtract};
ghost use Rattle.tile_extract.specs.Words.{asked_in};
ghost use Rattle.tile_extract.specs.Faults.{MediumStands, SourceStands};

use crate::words::parse_words;
use crate::{ExtractError, ExtractOutcome, extract};
use base_values::TextVal;
use pm_format::{Backend, Medium};
use std::alloc::Global;

/// Writes the archive of a tile and its descendants as `extract` does, for words that are the tile's zoom, column and
/// row, the greatest zoom, and how many tiles there may be.
///
/// `Usage` comes exactly where the words are others, and then neither the source nor the medium is touched. Each other
/// outcome comes where `extract` answers so.
pub fn run_extract<B: Backend, M: Medium>(
    alloc: Global,
    words: &[TextVal],
    source: &mut B,
    medium: &mut M,
) -> ExtractOutcome
    ensures words { IsFor (asked_in words.now) result }
    ensures causes { IfSome (asked_in words.now)
        (λ a. OfExtract
        (Causes a.root a.max_zoom a.max_tiles (M.told medium.old)
        (B.faults source.old) (B.faults source.new) (M.faults medium.old) (M.faults medium.new))
        result) }
    ensures source_still { OfExtract (SourceStands (B.faults source.old) (B.faults source.new)) result }
    ensures medium_still { OfExtract (MediumStands (M.faults medium.old) (M.faults medium.new)) result }
    ensures answers { IfSome (asked_in words.now)
        (λ a. IfSome (B.told source.old)
        (λ b. OfExtract (Answers (M.told medium.old) b a.root a.max_zoom a.max_tiles) result)) }
    ensures leaves { IfSome (asked_in words.now)
        (λ a. OfExtract
        (λ r. Leaves (B.told source.old) a.root a.max_zoom a.max_tiles r
        (M.told medium.old) (M.told medium.new)) result) }
    // Where the source can be extracted, the medium tells that it is empty and no count rose, it is
    // Done, or memory ran out.
    ensures complete { IfSome (asked_in words.now)
        (λ a. IfSome (B.told source.old)
        (λ b. CanExtract b a.root a.max_zoom a.max_tiles → M.told medium.old ≡ Some []
        → ¬ Rose (B.faults source.old) (B.faults source.new)
        → ¬ Rose (M.faults medium.old) (M.faults medium.new) → OfExtract IsDoneOrWanting result)) }
    ensures memory { result ≢ ExtractOutcome.Refused ExtractError.OutOfMemory }
    ensures untouched { result ≡ ExtractOutcome.Usage
        → (source.new ≡ source.old) × (medium.new ≡ medium.old) }
    ensures source_kept { ReadsOnly B.told B.versions B.faults B.steady source.old source.new }
    ensures reads { IfSome (asked_in words.now)
        (λ a. IfSome (B.told source.old)
        (λ b. B.reads source.new ≤ B.reads source.old + reads_at_most b a.root a.max_zoom)) }
    ensures unread { OfExtract (LeavesUnread (B.reads source.old) (B.reads source.new)) result }
    ensures compared { IfSome (asked_in words.now)
        (λ a. M.reads medium.new ≤ M.reads medium.old + a.max_tiles) }
    ensures uncompared { IfSome (asked_in words.now)
        (λ a. OfExtract
        (LeavesUncompared (B.told source.old) (M.told medium.old) a.root a.max_zoom a.max_tiles
        (M.reads medium.old) (M.reads medium.new)) result) }
    ensures medium_kept { KeepsMedium M.told M.versions M.reads M.faults M.steady
        medium.old medium.new }
{
    let Some((root, max_zoom, max_tiles)) = parse_words(words) else {
        return ExtractOutcome::Usage;
    };
    match extract(alloc, source, root, max_zoom, max_tiles, medium) {
        Ok(places) => ExtractOutcome::Done(places),
        Err(ExtractError::OutOfMemory) => ExtractOutcome::OutOfMemory,
        Err(error) => ExtractOutcome::Refused(error),
    }
}
