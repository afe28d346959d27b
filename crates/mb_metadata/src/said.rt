// What a name of a loaded set's metadata says.
ghost use Rattle.std.specs.Prelude.{◌≡◌, IfOk, option_copied};
ghost use Rattle.mb_metadata.specs.Said.{bounds_said, center_said, said};

use base_values::{OutOfMemory, TextVal};
use mb_loaded::Loaded;
use std::alloc::Global;
use tile_json::{TileBounds, TileCenter};

/// The text of a name. None where there is none, null, or an empty one.
pub(crate) fn said<'s>(set: &'s Loaded, name: &str) -> Option<&'s TextVal>
    ensures { option_copied result ≡ said set.now.state.metadata name.now }
{
    match set.text(name) {
        Some(text) if !text.as_str().is_empty() => Some(text),
        _ => None,
    }
}

/// A copy of that text.
pub(crate) fn text_said(
    alloc: Global,
    set: &Loaded,
    name: &str,
) -> Result<Option<TextVal>, OutOfMemory>
    ensures { IfOk result (λ text. text ≡ said set.now.state.metadata name.now) }
{
    match said(set, name) {
        Some(text) => Ok(Some(text.try_clone(alloc)?)),
        None => Ok(None),
    }
}

/// The text of the bounds, unread.
pub(crate) fn bounds_said(alloc: Global, set: &Loaded) -> Result<Option<TileBounds>, OutOfMemory>
    ensures { IfOk result (λ bounds. bounds ≡ bounds_said set.now.state.metadata) }
{
    match text_said(alloc, set, "bounds")? {
        Some(text) => Ok(Some(TileBounds::Text(text))),
        None => Ok(None),
    }
}

/// The text of the center, unread.
pub(crate) fn center_said(alloc: Global, set: &Loaded) -> Result<Option<TileCenter>, OutOfMemory>
    ensures { IfOk result (λ center. center ≡ center_said set.now.state.metadata) }
{
    match text_said(alloc, set, "center")? {
        Some(text) => Ok(Some(TileCenter::Text(text))),
        None => Ok(None),
    }
}
