// Layouts of what is held over a base of which marks are held.
ghost use Rattle.std.specs.Prelude.{◌≡◌, true};
ghost use Rattle.mb_loaded.specs.Editable.{is_editable};
ghost use Rattle.tile_streaming.specs.Layouts.{has_digests, over_layout};

use mb_store::{MbtType, NormalizedSchema};

/// Whether contents of a layout stand under their digests, so that those of a patch may collide with them.
pub(crate) fn has_digests(layout: MbtType) -> bool
    ensures { result ≡ has_digests layout }
{
    matches!(
        layout,
        MbtType::Normalized {
            schema: NormalizedSchema::Hash,
            ..
        }
    )
}

/// The layout of what is held over a base: that of the base where contents stand under their digests, and else one
/// without contents by id.
pub(crate) fn over_layout(layout: MbtType) -> MbtType
    ensures layout { result ≡ over_layout layout }
    ensures editable { is_editable result ≡ true }
{
    match layout {
        MbtType::Flat => MbtType::Flat,
        MbtType::FlatWithHash => MbtType::Flat,
        MbtType::Normalized {
            hash_view,
            schema: NormalizedSchema::Hash,
        } => MbtType::Normalized {
            hash_view,
            schema: NormalizedSchema::Hash,
        },
        _ => MbtType::Cache,
    }
}
