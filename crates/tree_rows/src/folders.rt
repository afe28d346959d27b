// Calls of a tree below a folder.
use crate::trees::call;
use mb_store::TileStore;
use mb_tree::FolderTree;
use rows_shared::Words;
use std::alloc::Global;

// A tree below the folder of the next word; `-` is the folder in which the program runs.
fn open(
    rt: &HostRuntime,
    alloc: Global,
    kept: &mut Option<FolderTree>,
    words: &mut Words,
) -> Option<()> {
    let root = match words.next()? {
        "-" => "",
        root => root,
    };
    *kept = Some(FolderTree::new(rt, alloc, root).ok()?);
    Some(())
}

pub fn answer<S: TileStore>(
    rt: &HostRuntime,
    alloc: Global,
    out: &mut String,
    kept: &mut Option<FolderTree>,
    store: &mut S,
    words: &mut Words,
) -> Option<()> {
    match words.next()? {
        "open" => open(rt, alloc, kept, words),
        word => call(alloc, out, kept.as_mut()?, store, word, words),
    }
}
