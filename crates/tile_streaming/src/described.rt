// The layout of a set by the descriptions of its tables.
ghost use Rattle.std.specs.Prelude.{◌≡◌, ◌≢◌, Err, IfErr, IfOk, None, Some};
ghost use Rattle.tile_streaming.specs.Common.{index_missing, layout_of, metadata_missing, state_of, Tables};

use mb_constraints::has_metadata;
use mb_store::{MbtError, MbtResult, MbtType, TableDesc, detect_type};

/// The layout of a set whose descriptions pass their tests, or their first refusal.
pub(crate) fn layout_in(tables: &[TableDesc]) -> MbtResult<MbtType>
    ensures layout { IfOk result (λ layout. layout_of tables.now ≡ Some layout) }
    ensures metadata { IfOk result (λ layout. metadata_missing tables.now ≡ None) }
    ensures index { IfOk result (λ layout. index_missing tables.now layout ≡ None) }
    ensures unfaulted { IfErr result (λ e. e ≢ MbtError.StoreFault) }
    ensures refused { IfErr result (λ e. (t : Tables) → t.descriptions ≡ tables.now
        → state_of t ≡ Err e) }
{
    let detected = detect_type(tables);
    if !has_metadata(tables) {
        return Err(MbtError::InvalidDataFormat);
    }
    detected
}
