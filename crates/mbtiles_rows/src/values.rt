// Single values of the metadata of a set, and updates of its zooms.
use mb_metadata::{
    UpdateZoomType, delete_metadata_value, get_metadata_value, set_metadata_value, update_metadata,
};
use mb_store::TileStore;
use rows_shared::{Words, said, say, say_text, text};
use std::alloc::Global;

fn value<S: TileStore>(
    alloc: Global,
    out: &mut String,
    store: &mut S,
    words: &mut Words,
) -> Option<()> {
    let name = text(alloc, words)?;
    said(out, get_metadata_value(alloc, store, name.as_str()))
}

fn set<S: TileStore>(
    alloc: Global,
    out: &mut String,
    store: &mut S,
    words: &mut Words,
) -> Option<()> {
    let name = text(alloc, words)?;
    let value = text(alloc, words)?;
    said(
        out,
        set_metadata_value(alloc, store, name.as_str(), value.as_str()),
    )
}

fn delete<S: TileStore>(
    alloc: Global,
    out: &mut String,
    store: &mut S,
    words: &mut Words,
) -> Option<()> {
    let name = text(alloc, words)?;
    said(out, delete_metadata_value(alloc, store, name.as_str()))
}

// How zooms that are stored are treated.
fn mode(words: &mut Words) -> Option<UpdateZoomType> {
    match words.next()? {
        "reset" => Some(UpdateZoomType::Reset),
        "grow" => Some(UpdateZoomType::GrowOnly),
        "skip" => Some(UpdateZoomType::Skip),
        _ => None,
    }
}

// The texts of the modes, and the default.
fn say_modes(out: &mut String) -> Option<()> {
    say_text(out, &UpdateZoomType::Reset)?;
    say_text(out, &UpdateZoomType::GrowOnly)?;
    say_text(out, &UpdateZoomType::Skip)?;
    say(out, &UpdateZoomType::Reset)?;
    say(out, &UpdateZoomType::GrowOnly)?;
    say(out, &UpdateZoomType::Skip)?;
    say(out, &UpdateZoomType::default())
}

fn update<S: TileStore>(
    alloc: Global,
    out: &mut String,
    store: &mut S,
    words: &mut Words,
) -> Option<()> {
    let mode = mode(words)?;
    said(out, update_metadata(alloc, store, mode))
}

pub fn answer<S: TileStore>(
    alloc: Global,
    out: &mut String,
    store: &mut S,
    call: &str,
    words: &mut Words,
) -> Option<()> {
    match call {
        "value" => value(alloc, out, store, words),
        "set" => set(alloc, out, store, words),
        "delete" => delete(alloc, out, store, words),
        "update" => update(alloc, out, store, words),
        "words" => say_modes(out),
        _ => None,
    }
}
