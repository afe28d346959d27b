// Calls of a tree, whatever it stands on.
ghost use Rattle.std.specs.Prelude.{◌≡◌, true, All};
ghost use Rattle.std.specs.FinMap.{contains_key};
ghost use Rattle.mb_store.specs.Kept.{ReadsOnly};

use base_values::TextVal;
use mb_store::TileStore;
use mb_tree::{MemTree, TileScheme, TileTree, pack, unpack};
use rows_shared::{Words, bytes, said, say_bytes, text};
use std::alloc::Global;
use std::fmt::Write;

// How rows are counted.
fn scheme(words: &mut Words) -> Option<TileScheme> {
    match words.next()? {
        "xyz" => Some(TileScheme::Xyz),
        "tms" => Some(TileScheme::Tms),
        "default" => Some(TileScheme::default()),
        _ => None,
    }
}

// The bytes of a file behind its path, or why it isn't read.
fn say_file<T: TileTree>(
    alloc: Global,
    out: &mut String,
    tree: &mut T,
    path: &TextVal,
) -> Option<()>
    requires { T.tells tree.old ≡ true → contains_key (T.told tree.old) path.now ≡ true }
    ensures { ReadsOnly T.told T.tells T.faults T.steady tree.old tree.new }
{
    write!(out, "{:?} ", path.as_str()).ok()?;
    match tree.read(alloc, path.as_str()) {
        Ok(bytes) => say_bytes(alloc, out, bytes.as_bytes()),
        Err(error) => said(out, error),
    }
}

// All files of some paths.
fn say_files<T: TileTree>(
    alloc: Global,
    out: &mut String,
    tree: &mut T,
    paths: &[TextVal],
) -> Option<()>
    requires { T.tells tree.old ≡ true →
        All (λ path. contains_key (T.told tree.old) path ≡ true) paths.now }
{
    for path in paths {
        say_file(alloc, out, tree, path)?;
    }
    Some(())
}

// All files, or why they aren't listed.
fn say_all<T: TileTree>(alloc: Global, out: &mut String, tree: &mut T) -> Option<()> {
    match tree.list(alloc) {
        Ok(paths) => say_files(alloc, out, tree, &paths),
        Err(error) => said(out, error),
    }
}

fn write_one<T: TileTree>(
    alloc: Global,
    out: &mut String,
    tree: &mut T,
    words: &mut Words,
) -> Option<()> {
    let path = text(alloc, words)?;
    let bytes = bytes(alloc, words)?;
    said(out, tree.write(alloc, path.as_str(), bytes.as_slice()))
}

/// A call of a tree, or of a tree and a store.
pub fn call<T: TileTree, S: TileStore>(
    alloc: Global,
    out: &mut String,
    tree: &mut T,
    store: &mut S,
    word: &str,
    words: &mut Words,
) -> Option<()> {
    match word {
        "all" => say_all(alloc, out, tree),
        "write" => write_one(alloc, out, tree, words),
        "pack" => said(out, pack(alloc, tree, store, scheme(words)?)),
        "unpack" => said(out, unpack(alloc, store, tree, scheme(words)?)),
        _ => None,
    }
}

// The calls of these numbers fail, counted from 1 over all calls of the tree.
fn fail(alloc: Global, tree: &mut MemTree, words: &mut Words) -> Option<()> {
    let mut calls = Vec::new(alloc);
    for word in words {
        calls.push(word.parse::<u64>().ok()?).ok()?;
    }
    tree.fail_at(calls);
    Some(())
}

// Files that are written into a tree of their own.
fn new(alloc: Global, tree: &mut MemTree, words: &mut Words) -> Option<()> {
    let mut made = MemTree::new(alloc);
    for _ in 0..words.next()?.parse::<u32>().ok()? {
        let path = text(alloc, words)?;
        let bytes = bytes(alloc, words)?;
        made.write(alloc, path.as_str(), bytes.as_slice()).ok()?;
    }
    *tree = made;
    Some(())
}

pub fn answer<S: TileStore>(
    alloc: Global,
    out: &mut String,
    tree: &mut MemTree,
    store: &mut S,
    words: &mut Words,
) -> Option<()> {
    match words.next()? {
        "new" => new(alloc, tree, words),
        "fail" => fail(alloc, tree, words),
        word => call(alloc, out, tree, store, word, words),
    }
}
