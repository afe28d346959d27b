// Single zooms of the metadata of a set.
use mb_metadata::get_metadata_zoom_value;
use mb_store::TileStore;
use rows_shared::{Words, said};
use std::alloc::Global;

// The name of a zoom.
fn zoom_name(words: &mut Words) -> Option<&'static str> {
    match words.next()? {
        "minzoom" => Some("minzoom"),
        "maxzoom" => Some("maxzoom"),
        _ => None,
    }
}

/// The zoom of a name.
pub fn zoom<S: TileStore>(
    alloc: Global,
    out: &mut String,
    store: &mut S,
    words: &mut Words,
) -> Option<()> {
    let name = zoom_name(words)?;
    said(out, get_metadata_zoom_value(alloc, store, name))
}
