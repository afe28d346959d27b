// The layout of a copy that is made.
ghost use Rattle.std.specs.Prelude.{◌≡◌};
ghost use Rattle.tile_command.specs.Common.{layout_of_cli, made_type, wanted_type};

use mb_copy::MbtilesCopier;
use mb_store::{MbtType, MbtTypeCli, NormalizedSchema};

// The layout that a word of a command line stands for.
fn layout_of_cli(layout: MbtTypeCli) -> MbtType
    ensures { result ≡ layout_of_cli layout }
{
    match layout {
        MbtTypeCli::Flat => MbtType::Flat,
        MbtTypeCli::FlatWithHash => MbtType::FlatWithHash,
        MbtTypeCli::Normalized => MbtType::Normalized {
            hash_view: true,
            schema: NormalizedSchema::Hash,
        },
        MbtTypeCli::Cache => MbtType::Cache,
    }
}

// The layout that a copy is to have: that which is asked for, else that of the source.
fn wanted_type(copier: &MbtilesCopier, source: MbtType) -> MbtType
    ensures { result ≡ wanted_type copier.now source }
{
    match (copier.dst_type, copier.dst_type_cli) {
        (Some(layout), _) => layout,
        (None, Some(layout)) => layout_of_cli(layout),
        (None, None) => source,
    }
}

/// The layout of a destination that is made for a copy of a source of a layout: the wanted one, with digests as ids
/// in place of numbers.
pub fn layout_for(copier: &MbtilesCopier, source: MbtType) -> MbtType
    ensures { result ≡ made_type copier.now source }
{
    match wanted_type(copier, source) {
        MbtType::Normalized { hash_view, .. } => MbtType::Normalized {
            hash_view,
            schema: NormalizedSchema::Hash,
        },
        layout => layout,
    }
}
