// The names that packing puts.
ghost use Rattle.std.specs.Prelude.{◌≡◌, IfOk, OnOk};
ghost use Rattle.mb_tree.specs.Packed.{with_format, with_zooms};

use crate::format::FileFormat;
use base_values::{OutOfMemory, TextVal};
use mb_loaded::Loaded;
use mb_metadata::{UpdateZoomType, with_zooms};
use mb_store::Cell;
use std::alloc::Global;

// A text of its own.
fn owned(alloc: Global, text: &str) -> Result<TextVal, OutOfMemory>
    ensures { IfOk result (λ copy. copy ≡ text.now) }
{
    Ok(TextVal::new(String::from_str(alloc, text)?))
}

// Names a format, if there is one.
fn put_format(
    alloc: Global,
    set: &mut Loaded,
    format: Option<FileFormat>,
) -> Result<(), OutOfMemory>
    ensures { OnOk result (set.new ≡ with_format set.old format) }
{
    match format {
        Some(format) => {
            let word = owned(alloc, format.word())?;
            set.set_metadata(owned(alloc, "format")?, Cell::Text(word))
        }
        None => Ok(()),
    }
}

/// A set after the format of its tiles is named, if there is one, and then their zooms.
pub(crate) fn with_names(
    alloc: Global,
    mut set: Loaded,
    format: Option<FileFormat>,
) -> Result<Loaded, OutOfMemory>
    ensures { IfOk result (λ h. h ≡ with_zooms (with_format set format)) }
{
    put_format(alloc, &mut set, format)?;
    Ok(with_zooms(alloc, set, UpdateZoomType::Reset)?)
}
