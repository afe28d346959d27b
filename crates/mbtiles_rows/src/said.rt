// What a set says of itself.
use mb_metadata::{Metadata, get_metadata};
use mb_store::TileStore;
use rows_shared::{Words, said, say, text};
use std::alloc::Global;

// All fields of what a set says of itself, in their order.
fn say_metadata(out: &mut String, metadata: &Metadata) -> Option<()> {
    say(out, &metadata.id)?;
    say(out, &metadata.layer_type)?;
    say(out, &metadata.tilejson)?;
    say(out, &metadata.json)?;
    say(out, &metadata.agg_tiles_hash)
}

fn said_metadata(out: &mut String, metadata: Metadata) -> Option<()> {
    say_metadata(out, &metadata)
}

/// What a set says of itself, by the name of its file.
pub fn get<S: TileStore>(
    alloc: Global,
    out: &mut String,
    store: &mut S,
    words: &mut Words,
) -> Option<()> {
    let id = text(alloc, words)?;
    match get_metadata(alloc, store, id.as_str()) {
        Ok(metadata) => said_metadata(out, metadata),
        Err(error) => said(out, error),
    }
}
