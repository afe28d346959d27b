// What a set says of its archive.
use mb_load::load;
use mb_store::TileStore;
use rows_shared::{Words, said, say, text};
use set_options::{SetOptions, is_understood};
use std::alloc::Global;

// All fields of what a set says of its archive, in their order.
fn say_options(out: &mut String, options: &SetOptions) -> Option<()> {
    say(out, &options.tile_type)?;
    say(out, &options.tile_compression)?;
    say(out, &options.zooms)?;
    say(out, &options.bounds)?;
    say(out, &options.center)?;
    say(out, &options.metadata)
}

fn said_options(out: &mut String, options: SetOptions) -> Option<()> {
    say_options(out, &options)
}

/// What a loaded set says of its archive.
pub fn answer<S: TileStore>(alloc: Global, out: &mut String, store: &mut S) -> Option<()> {
    match load(alloc, store) {
        Ok(set) => said_options(out, SetOptions::of_set(alloc, &set).ok()?),
        Err(error) => said(out, error),
    }
}

/// Whether a row of metadata is in a form that its name asks for.
pub fn understood(alloc: Global, out: &mut String, words: &mut Words) -> Option<()> {
    let name = text(alloc, words)?;
    let value = text(alloc, words)?;
    said(out, is_understood(alloc, name.as_str(), value.as_str()))
}
