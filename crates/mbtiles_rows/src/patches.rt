// A patch of many places that have one content.
use crate::fills::{id_of, push_cells, push_contents, push_place};
use mb_edit::apply_patch;
use mb_store::MemStore;
use mb_tables::{Cell, MbtType, NormalizedSchema, TableName};
use rows_shared::{Words, number, said};
use set_words::owned;
use std::alloc::Global;

const NORMALIZED: MbtType = MbtType::Normalized {
    hash_view: false,
    schema: NormalizedSchema::Hash,
};

// So many bytes, each its place's rest by 251.
fn counted(alloc: Global, count: u32) -> Option<Vec<u8>> {
    let mut bytes = Vec::new(alloc);
    for place in 0..count {
        bytes.push(u8::try_from(place % 251).ok()?).ok()?;
    }
    Some(bytes)
}

fn push_name(alloc: Global, patch: &mut MemStore, name: &str, value: &str) -> Option<()> {
    let mut cells = Vec::new(alloc);
    cells.push(Cell::Text(owned(alloc, name)?)).ok()?;
    cells.push(Cell::Text(owned(alloc, value)?)).ok()?;
    push_cells(alloc, patch, TableName::Metadata, cells)
}

// A normalised set whose tiles, so many from 6/0/63 on along the rows, have one content of so many bytes. It is a patch
// of a set whose digest is A, and gives the digest B.
fn one_content(alloc: Global, places: u16, size: u32) -> Option<MemStore> {
    let mut patch = MemStore::with_layout(alloc, NORMALIZED).ok()?;
    let bytes = counted(alloc, size)?;
    let id = id_of(alloc, NORMALIZED, 0, bytes.as_slice())?;
    for number in 0..u32::from(places) {
        let place = [6, number % 64, number / 64];
        let copy = id.try_clone(alloc).ok()?;
        push_place(alloc, &mut patch, TableName::Map, place, copy)?;
    }
    push_contents(alloc, &mut patch, TableName::Images, id, bytes)?;
    push_name(alloc, &mut patch, "agg_tiles_hash_before_apply", "A")?;
    push_name(alloc, &mut patch, "agg_tiles_hash_after_apply", "B")?;
    Some(patch)
}

fn forced(words: &mut Words) -> Option<bool> {
    match words.next()? {
        "plain" => Some(false),
        "force" => Some(true),
        _ => None,
    }
}

fn patched(
    alloc: Global,
    out: &mut String,
    store: &mut MemStore,
    patch: &mut MemStore,
    force: bool,
) -> Option<()> {
    said(out, apply_patch(alloc, store, patch, force))
}

/// Patches the store by such a set.
pub fn answer(
    alloc: Global,
    out: &mut String,
    store: &mut MemStore,
    words: &mut Words,
) -> Option<()> {
    let places = number(words)?;
    let mut patch = one_content(alloc, places, number(words)?)?;
    patched(alloc, out, store, &mut patch, forced(words)?)
}
