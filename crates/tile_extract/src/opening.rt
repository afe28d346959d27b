// What is tested before the tiles of an archive are sought.
ghost use Rattle.std.specs.Prelude.{◌≡◌, ◌≤◌, ◌+◌, IfOk, IfErr, IfSome};
ghost use Rattle.tile_extract.specs.Common.{opened, ReadsOnly};
ghost use Rattle.tile_extract.specs.Extract.{HasZooms};
ghost use Rattle.tile_extract.specs.Opening.{MediumTested, SourceCauses, SourceRead, opening_reads};
ghost use Rattle.tile_extract.specs.Subtree.{IsValid};
ghost use Rattle.tile_extract.specs.Faults.{MediumStands, SourceStands};

use crate::writing::of_reader;
use crate::{ExtractError, TilePart};
use base_values::TextVal;
use pm_format::{Backend, Medium};
use pm_reader::ReaderState;
use std::alloc::Global;
use tile_ids::TileCoord;

// Whether the greatest zoom is the least one or a deeper one, up to 31.
fn test_zooms(min_zoom: u8, max_zoom: u8) -> Result<(), ExtractError>
    ensures ok { IfOk result (λ _. (min_zoom ≤ max_zoom) × (max_zoom ≤ 31)) }
    ensures err { IfErr result (λ e. (e ≡ ExtractError.InvalidZoom min_zoom max_zoom)
        × ((min_zoom ≤ max_zoom) × (max_zoom ≤ 31) → ⊥)) }
{
    if max_zoom < min_zoom || 31 < max_zoom {
        return Err(ExtractError::InvalidZoom {
            tile: min_zoom,
            asked: max_zoom,
        });
    }
    Ok(())
}

/// The same of the zooms of a part.
pub(crate) fn test_part(part: &TilePart) -> Result<(), ExtractError>
    ensures ok { IfOk result (λ _. HasZooms part.now) }
    ensures err { IfErr result
        (λ e. (e ≡ ExtractError.InvalidZoom part.now.min_zoom part.now.max_zoom)
        × (HasZooms part.now → ⊥)) }
{
    test_zooms(part.min_zoom, part.max_zoom)
}

/// Whether the greatest zoom is the tile's or a deeper one, up to 31.
pub(crate) fn test_zoom(root: TileCoord, max_zoom: u8) -> Result<(), ExtractError>
    ensures ok { IfOk result (λ _. IsValid root max_zoom) }
    ensures err { IfErr result
        (λ e. (e ≡ ExtractError.InvalidZoom root.z max_zoom) × (IsValid root max_zoom → ⊥)) }
{
    test_zooms(root.z(), max_zoom)
}

/// Whether a medium is empty.
pub(crate) fn test_medium<M: Medium>(medium: &mut M) -> Result<(), ExtractError>
    ensures tested { MediumTested (M.told medium.old) (M.faults medium.old) (M.faults medium.new)
        result }
    ensures still { MediumStands (M.faults medium.old) (M.faults medium.new) result }
    ensures counted { M.reads medium.new ≡ M.reads medium.old }
    ensures kept { ReadsOnly M.told M.versions M.faults M.steady medium.old medium.new }
{
    let length = match medium.len() {
        Ok(length) => length,
        Err(_) => return Err(ExtractError::MediumFault),
    };
    if length != 0 {
        return Err(ExtractError::MediumNotEmpty { length });
    }
    Ok(())
}

/// Opens a source, and reads its metadata.
pub(crate) fn read_source<B: Backend>(
    alloc: Global,
    source: &mut B,
) -> Result<(ReaderState, TextVal), ExtractError>
    ensures answer { IfSome (B.told source.old) (λ b. SourceRead b result) }
    ensures causes { SourceCauses (B.faults source.old) (B.faults source.new) result }
    ensures still { SourceStands (B.faults source.old) (B.faults source.new) result }
    ensures kept { ReadsOnly B.told B.versions B.faults B.steady source.old source.new }
    ensures reads { IfSome (B.told source.old)
        (λ b. B.reads source.new ≤ B.reads source.old + opening_reads (opened b)) }
{
    let reader = match ReaderState::open(alloc, source) {
        Ok(reader) => reader,
        Err(error) => return Err(of_reader(error)),
    };
    match reader.get_metadata(source) {
        Ok(metadata) => Ok((reader, metadata)),
        Err(error) => Err(of_reader(error)),
    }
}
