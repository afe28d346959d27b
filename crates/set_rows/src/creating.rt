// Tables and views that are created in the store that is kept.
use crate::described::{say_layout, say_tables};
use mb_store::{
    MemStore, TileStore, create_cache_schema, create_cache_tables, create_flat_tables,
    create_flat_with_hash_tables, create_metadata_table, create_normalized_tables,
    create_tiles_with_hash_view, init_mbtiles_schema,
};
use mb_tables::{MbtResult, TableDesc};
use rows_shared::{Words, said, say};
use set_words::layout;
use std::alloc::Global;

fn create<S: TileStore>(alloc: Global, store: &mut S, words: &mut Words) -> Option<MbtResult<()>> {
    match words.next()? {
        "flat" => Some(create_flat_tables(alloc, store)),
        "flat-with-hash" => Some(create_flat_with_hash_tables(alloc, store)),
        "normalized" => Some(create_normalized_tables(alloc, store)),
        "cache" => Some(create_cache_tables(alloc, store)),
        "metadata" => Some(create_metadata_table(alloc, store)),
        "view" => Some(create_tiles_with_hash_view(alloc, store)),
        "cache-schema" => Some(create_cache_schema(alloc, store)),
        "schema" => Some(init_mbtiles_schema(alloc, store, layout(words)?)),
        _ => None,
    }
}

// The answer of the call, and what the store then describes.
pub fn answer(
    alloc: Global,
    out: &mut String,
    store: &mut MemStore,
    words: &mut Words,
) -> Option<()> {
    said(out, create(alloc, store, words)?)?;
    let tables = store.describe(alloc).ok()?;
    say(out, &tables.len())?;
    say_layout(out, tables.as_slice())?;
    say_tables(out, tables.as_slice())
}

// Describes the kept tables in the kept store.
pub fn describe(
    alloc: Global,
    out: &mut String,
    store: &mut MemStore,
    tables: &[TableDesc],
) -> Option<()> {
    said(out, store.create(alloc, tables))
}
