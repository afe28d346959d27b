// Patches of a second store that is kept beside the store.
use crate::loads::said_loaded;
use mb_edit::{apply_patch, patch_loaded};
use mb_load::load;
use mb_loaded::Loaded;
use mb_store::{MbtResult, MemStore};
use rows_shared::{Words, said};
use std::alloc::Global;
use std::mem::swap;

// Whether a patch is forced.
fn forced(words: &mut Words) -> Option<bool> {
    match words.next()? {
        "plain" => Some(false),
        "force" => Some(true),
        _ => None,
    }
}

// Applies the store to the base.
fn apply(
    alloc: Global,
    out: &mut String,
    base: &mut MemStore,
    store: &mut MemStore,
    words: &mut Words,
) -> Option<()> {
    let force = forced(words)?;
    said(out, apply_patch(alloc, base, store, force))
}

// The base as it was loaded, after the store as a patch.
fn patch_of(
    alloc: Global,
    base: &mut MemStore,
    store: &mut MemStore,
    force: bool,
) -> Option<MbtResult<Loaded>> {
    let set = load(alloc, base).ok()?;
    let patch = load(alloc, store).ok()?;
    Some(patch_loaded(alloc, set, &patch, force))
}

fn patched(
    alloc: Global,
    out: &mut String,
    base: &mut MemStore,
    store: &mut MemStore,
    words: &mut Words,
) -> Option<()> {
    let force = forced(words)?;
    said_loaded(out, patch_of(alloc, base, store, force)?)
}

pub fn answer(
    alloc: Global,
    out: &mut String,
    base: &mut MemStore,
    store: &mut MemStore,
    words: &mut Words,
) -> Option<()> {
    match words.next()? {
        "swap" => {
            swap(base, store);
            Some(())
        }
        "apply" => apply(alloc, out, base, store, words),
        "loaded" => patched(alloc, out, base, store, words),
        _ => None,
    }
}
