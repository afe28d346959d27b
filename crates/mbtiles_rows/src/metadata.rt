// Calls on the metadata of a set.
use crate::{archive_options, documents, said, values, zoom_values};
use mb_store::TileStore;
use rows_shared::Words;
use std::alloc::Global;

pub fn answer<S: TileStore>(
    alloc: Global,
    out: &mut String,
    store: &mut S,
    words: &mut Words,
) -> Option<()> {
    match words.next()? {
        "get" => said::get(alloc, out, store, words),
        "zoom" => zoom_values::zoom(alloc, out, store, words),
        "insert" => documents::insert(alloc, out, store, words),
        "options" => archive_options::answer(alloc, out, store),
        "understood" => archive_options::understood(alloc, out, words),
        call => values::answer(alloc, out, store, call, words),
    }
}
