// The layout, the algorithm and the mode of a copy.
ghost use Rattle.std.specs.Prelude.{◌≡◌, true};
ghost use Rattle.mb_copy.specs.Target.{asked_type, kind_number, layout_of_cli, made_type, mode_of, wanted_algorithm, wanted_type};
ghost use Rattle.mb_copy.specs.Common.{is_editable, started_as};

use crate::{CopyDuplicateMode, MbtilesCopier};
use mb_store::{MbtType, MbtTypeCli, NormalizedSchema};
use tile_hash::HashAlgorithm;

// The layout that a word of a command line stands for.
fn layout_of_cli(layout: MbtTypeCli) -> MbtType
    ensures { result ≡ layout_of_cli layout }
{
    match layout {
        MbtTypeCli::Flat => MbtType::Flat,
        MbtTypeCli::FlatWithHash => MbtType::FlatWithHash,
        MbtTypeCli::Normalized => MbtType::Normalized {
            hash_view: true,
            schema: NormalizedSchema::Hash,
        },
        MbtTypeCli::Cache => MbtType::Cache,
    }
}

/// The layout that is asked for, if one is.
pub(crate) fn asked_type(copier: &MbtilesCopier) -> Option<MbtType>
    ensures { result ≡ asked_type copier.now }
{
    match copier.dst_type {
        Some(layout) => Some(layout),
        None => match copier.dst_type_cli {
            Some(layout) => Some(layout_of_cli(layout)),
            None => None,
        },
    }
}

// A layout with ids that are digests in the place of numbers.
fn started_as(layout: MbtType) -> MbtType
    ensures layout { result ≡ started_as layout }
    ensures editable { is_editable result ≡ true }
{
    match layout {
        MbtType::Normalized { hash_view, .. } => MbtType::Normalized {
            hash_view,
            schema: NormalizedSchema::Hash,
        },
        _ => layout,
    }
}

/// The layout that a copy of a source of a layout is to have: that which is asked for, else that of the source.
pub(crate) fn wanted_type(copier: &MbtilesCopier, source: MbtType) -> MbtType
    ensures { result ≡ wanted_type copier.now source }
{
    asked_type(copier).unwrap_or(source)
}

/// The layout of a destination that is made for it: the wanted one, with digests as ids in place of numbers.
pub(crate) fn made_type(copier: &MbtilesCopier, source: MbtType) -> MbtType
    ensures layout { result ≡ made_type copier.now source }
    ensures editable { is_editable result ≡ true }
{
    started_as(wanted_type(copier, source))
}

/// Its algorithm.
pub(crate) fn wanted_algorithm(copier: &MbtilesCopier, source: HashAlgorithm) -> HashAlgorithm
    ensures { result ≡ wanted_algorithm copier.now source }
{
    copier.hash_algorithm.unwrap_or(source)
}

/// What counts where both sets have a tile or a name.
pub(crate) fn mode_of(copier: &MbtilesCopier) -> CopyDuplicateMode
    ensures { result ≡ mode_of copier.now }
{
    copier.on_duplicate.unwrap_or(CopyDuplicateMode::Override)
}

/// The kind of a layout, without its fields.
pub(crate) fn kind_number(layout: MbtType) -> u8
    ensures { result ≡ kind_number layout }
{
    match layout {
        MbtType::Flat => 0,
        MbtType::FlatWithHash => 1,
        MbtType::Normalized { .. } => 2,
        MbtType::Cache => 3,
    }
}
