// The copy that the words of `copy` ask for.
ghost use Rattle.std.specs.Prelude.{◌≡◌, None, Some, IfOk, MatchOption};
ghost use Rattle.tile_command.specs.Copier.{algorithm_said, boxes_said, copier_of, copy_said, copy_with, has_both, layout_said, levels_said, mode_said, zoom_said};

use crate::Asked;
use crate::boxes::place_box_of;
use crate::choices::{algorithm_of, copy_of, layout_of, mode_of, zoom_of, zooms_of};
use base_values::OutOfMemory;
use mb_copy::{BoxList, CopyDuplicateMode, CopyType, MbtilesCopier, TileBox, ZoomLevels};
use mb_store::MbtTypeCli;
use std::alloc::Global;
use tile_hash::HashAlgorithm;

// What is copied; all, where no word says it.
fn copy_said(asked: &Asked) -> Option<CopyType>
    ensures { result ≡ copy_said asked.now.options.items }
{
    match asked.value("--copy") {
        Some(word) => copy_of(word),
        None => Some(CopyType::All),
    }
}

// The layout of what is made, where a word says it.
fn layout_said(asked: &Asked) -> Option<Option<MbtTypeCli>>
    ensures { result ≡ layout_said asked.now.options.items }
{
    match asked.value("--mbtiles-type") {
        Some(word) => Some(Some(layout_of(word)?)),
        None => Some(None),
    }
}

// What counts where both sets have a tile, where a word says it.
fn mode_said(asked: &Asked) -> Option<Option<CopyDuplicateMode>>
    ensures { result ≡ mode_said asked.now.options.items }
{
    match asked.value("--on-duplicate") {
        Some(word) => Some(Some(mode_of(word)?)),
        None => Some(None),
    }
}

// The algorithm of what is made, where a word says it.
fn algorithm_said(asked: &Asked) -> Option<Option<HashAlgorithm>>
    ensures { result ≡ algorithm_said asked.now.options.items }
{
    match asked.value("--hash-algorithm") {
        Some(word) => Some(Some(algorithm_of(word)?)),
        None => Some(None),
    }
}

// The zoom of an option, where it is there.
fn zoom_said(asked: &Asked, name: &str) -> Option<Option<u8>>
    ensures { result ≡ zoom_said name.now asked.now.options.items }
{
    match asked.value(name) {
        Some(word) => Some(Some(zoom_of(word.as_bytes())?)),
        None => Some(None),
    }
}

// The zooms that are copied; none, where no word says it.
fn levels_said(alloc: Global, asked: &Asked) -> Result<Option<Vec<u8>>, OutOfMemory>
    ensures { IfOk result (λ r. MatchOption r (levels_said asked.now.options.items ≡ None)
        (λ levels. levels_said asked.now.options.items ≡ Some levels.items)) }
{
    match asked.value("--zoom-levels") {
        Some(text) => zooms_of(alloc, text),
        None => Ok(Some(Vec::new(alloc))),
    }
}

// The boxes that are copied; none, where no word says one.
fn boxes_said(alloc: Global, asked: &Asked) -> Result<Option<Vec<TileBox>>, OutOfMemory>
    ensures { IfOk result (λ r. MatchOption r (boxes_said asked.now.options.items ≡ None)
        (λ boxes. boxes_said asked.now.options.items ≡ Some boxes.items)) }
{
    let mut boxes = Vec::new(alloc);
    let Some(word) = asked.value("--box") else {
        return Ok(Some(boxes));
    };
    match place_box_of(word.as_bytes()) {
        Some(tile_box) => boxes.push(tile_box)?,
        None => return Ok(None),
    }
    Ok(Some(boxes))
}

// Whether words give a list of zooms, and a bound of zooms too.
fn has_both(asked: &Asked) -> bool
    ensures { result ≡ has_both asked.now.options.items }
{
    asked.has("--zoom-levels") && (asked.has("--min-zoom") || asked.has("--max-zoom"))
}

// A copy without its lists of zooms and boxes.
fn copy_with(alloc: Global, asked: &Asked) -> Option<MbtilesCopier>
    ensures { result ≡ copy_with asked.now.options.items }
{
    let mut copier = MbtilesCopier::new(alloc);
    copier.copy = copy_said(asked)?;
    copier.dst_type_cli = layout_said(asked)?;
    copier.on_duplicate = mode_said(asked)?;
    copier.hash_algorithm = algorithm_said(asked)?;
    copier.min_zoom = zoom_said(asked, "--min-zoom")?;
    copier.max_zoom = zoom_said(asked, "--max-zoom")?;
    copier.skip_agg_tiles_hash = asked.has("--skip-agg-tiles-hash");
    copier.validate = asked.has("--validate");
    copier.force = asked.has("--force");
    Some(copier)
}

/// The copy that the words of `copy` ask for; none where the value of an option is none of its own, or zooms are
/// given by a list and by bounds.
pub fn copier_of(alloc: Global, asked: &Asked) -> Result<Option<MbtilesCopier>, OutOfMemory>
    ensures { IfOk result (λ r. r ≡ copier_of asked.now.options.items) }
{
    if has_both(asked) {
        return Ok(None);
    }
    let Some(levels) = levels_said(alloc, asked)? else {
        return Ok(None);
    };
    let Some(boxes) = boxes_said(alloc, asked)? else {
        return Ok(None);
    };
    let Some(mut copier) = copy_with(alloc, asked) else {
        return Ok(None);
    };
    copier.zoom_levels = ZoomLevels::new(levels);
    copier.bbox = BoxList::new(boxes);
    Ok(Some(copier))
}
