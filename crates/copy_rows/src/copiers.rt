// A copier by its words, each a field and its value.
use mb_copy::{BoxList, CopyDuplicateMode, CopyType, MbtilesCopier, TileBox, ZoomLevels};
use mb_store::{MbtType, MbtTypeCli};
use rows_shared::Words;
use set_words::layout;
use std::alloc::Global;
use tile_hash::HashAlgorithm;

// A copier, and its boxes as they come.
#[derive(Drop)]
struct Draft {
    copier: MbtilesCopier,
    boxes: Vec<TileBox>,
}

fn copy_type(word: &str) -> Option<CopyType> {
    match word {
        "all" => Some(CopyType::All),
        "metadata" => Some(CopyType::Metadata),
        "tiles" => Some(CopyType::Tiles),
        _ => None,
    }
}

fn mode(word: &str) -> Option<CopyDuplicateMode> {
    match word {
        "override" => Some(CopyDuplicateMode::Override),
        "ignore" => Some(CopyDuplicateMode::Ignore),
        "abort" => Some(CopyDuplicateMode::Abort),
        _ => None,
    }
}

fn cli_type(word: &str) -> Option<MbtTypeCli> {
    match word {
        "flat" => Some(MbtTypeCli::Flat),
        "flat-with-hash" => Some(MbtTypeCli::FlatWithHash),
        "normalized" => Some(MbtTypeCli::Normalized),
        "cache" => Some(MbtTypeCli::Cache),
        _ => None,
    }
}

fn layout_of(word: &str) -> Option<MbtType> {
    let mut words: Words = word.split_whitespace();
    layout(&mut words)
}

// Four numbers parted by commas: the first column and row, and the last.
fn tile_box(word: &str) -> Option<TileBox> {
    let mut numbers = word.split(',');
    Some(TileBox {
        min_x: numbers.next()?.parse::<u32>().ok()?,
        min_y: numbers.next()?.parse::<u32>().ok()?,
        max_x: numbers.next()?.parse::<u32>().ok()?,
        max_y: numbers.next()?.parse::<u32>().ok()?,
    })
}

// Zooms parted by commas.
fn zooms(alloc: Global, word: &str) -> Option<ZoomLevels> {
    let mut levels = Vec::new(alloc);
    for level in word.split(',') {
        levels.push(level.parse::<u8>().ok()?).ok()?;
    }
    Some(ZoomLevels::new(levels))
}

// A field of which tiles are copied.
fn set_wanted(alloc: Global, draft: &mut Draft, name: &str, value: &str) -> Option<()> {
    match name {
        "min" => draft.copier.min_zoom = Some(value.parse::<u8>().ok()?),
        "max" => draft.copier.max_zoom = Some(value.parse::<u8>().ok()?),
        "zooms" => draft.copier.zoom_levels = zooms(alloc, value)?,
        "box" => draft.boxes.push(tile_box(value)?).ok()?,
        _ => return None,
    }
    Some(())
}

// Any field with a value.
fn set_field(alloc: Global, draft: &mut Draft, name: &str, value: &str) -> Option<()> {
    match name {
        "copy" => draft.copier.copy = copy_type(value)?,
        "type" => draft.copier.dst_type = Some(layout_of(value)?),
        "cli" => draft.copier.dst_type_cli = Some(cli_type(value)?),
        "mode" => draft.copier.on_duplicate = Some(mode(value)?),
        "hash" => draft.copier.hash_algorithm = Some(HashAlgorithm::parse(value)?),
        _ => return set_wanted(alloc, draft, name, value),
    }
    Some(())
}

// A field that is set by its name.
fn set_flag(draft: &mut Draft, name: &str) -> Option<()> {
    match name {
        "skip" => draft.copier.skip_agg_tiles_hash = true,
        "force" => draft.copier.force = true,
        "validate" => draft.copier.validate = true,
        _ => return None,
    }
    Some(())
}

fn set_word(alloc: Global, draft: &mut Draft, word: &str) -> Option<()> {
    match word.split_once('=') {
        Some((name, value)) => set_field(alloc, draft, name, value),
        None => set_flag(draft, word),
    }
}

/// The copier of the words that are left.
pub fn copier(alloc: Global, words: &mut Words) -> Option<MbtilesCopier> {
    let mut draft = Draft {
        copier: MbtilesCopier::new(alloc),
        boxes: Vec::new(alloc),
    };
    for word in words {
        set_word(alloc, &mut draft, word)?;
    }
    let Draft { copier, boxes } = draft;
    let mut copier = copier;
    copier.bbox = BoxList::new(boxes);
    Some(copier)
}
