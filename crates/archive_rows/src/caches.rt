// Calls of caches of directories, which are kept.
use crate::reading::id;
use pm_format::Directory;
use pm_reader::{DirCacheResult, DirectoryCache, HashMapCache, LruDirCache, NoCache};
use rows_shared::{Words, bytes, number, said};
use std::alloc::Global;

fn insert<C: DirectoryCache>(
    alloc: Global,
    out: &mut String,
    cache: &mut C,
    words: &mut Words,
) -> Option<()> {
    let offset = number(words)?;
    let spelled = bytes(alloc, words)?;
    let directory = Directory::decode(alloc, spelled.as_slice()).ok()?;
    said(out, cache.insert_dir(offset, directory))
}

fn find<C: DirectoryCache>(out: &mut String, cache: &mut C, words: &mut Words) -> Option<()> {
    said(out, cache.get_dir_entry(number(words)?, id(words)?))
}

// The fetcher gives the directory of these bytes, or why it is none.
fn fetch<C: DirectoryCache>(
    alloc: Global,
    out: &mut String,
    cache: &mut C,
    words: &mut Words,
) -> Option<()> {
    let offset = number(words)?;
    let id = id(words)?;
    let spelled = bytes(alloc, words)?;
    said(
        out,
        cache.get_dir_entry_or_insert(offset, id, || Directory::decode(alloc, spelled.as_slice())),
    )
}

fn answer_of<C: DirectoryCache>(
    alloc: Global,
    out: &mut String,
    cache: &mut C,
    words: &mut Words,
) -> Option<()> {
    match words.next()? {
        "insert" => insert(alloc, out, cache, words),
        "find" => find(out, cache, words),
        "fetch" => fetch(alloc, out, cache, words),
        _ => None,
    }
}

fn new(
    alloc: Global,
    map: &mut HashMapCache,
    recent: &mut Option<LruDirCache>,
    words: &mut Words,
) -> Option<()> {
    let capacity = number::<usize>(words)?;
    if capacity == 0 {
        return None;
    }
    *map = HashMapCache::new(alloc);
    *recent = Some(LruDirCache::new(alloc, capacity).ok()?);
    Some(())
}

// A cache with a limit of entries.
fn limit(alloc: Global, recent: &mut Option<LruDirCache>, words: &mut Words) -> Option<()> {
    let capacity = number::<usize>(words)?;
    let max_entries = number::<usize>(words)?;
    if capacity == 0 {
        return None;
    }
    *recent = Some(LruDirCache::with_entry_limit(alloc, capacity, max_entries).ok()?);
    Some(())
}

// What a directory has for an id, as a cache answers it.
fn from(alloc: Global, out: &mut String, words: &mut Words) -> Option<()> {
    let spelled = bytes(alloc, words)?;
    let directory = Directory::decode(alloc, spelled.as_slice()).ok()?;
    said(
        out,
        DirCacheResult::from(directory.find_tile_id(id(words)?)),
    )
}

pub fn answer(
    alloc: Global,
    out: &mut String,
    map: &mut HashMapCache,
    recent: &mut Option<LruDirCache>,
    words: &mut Words,
) -> Option<()> {
    match words.next()? {
        "new" => new(alloc, map, recent, words),
        "limit" => limit(alloc, recent, words),
        "none" => answer_of(alloc, out, &mut NoCache, words),
        "map" => answer_of(alloc, out, map, words),
        "recent" => answer_of(alloc, out, recent.as_mut()?, words),
        "from" => from(alloc, out, words),
        _ => None,
    }
}
