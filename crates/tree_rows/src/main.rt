//! Reads calls of trees of files from standard input, one a line, and prints each line with its answer: trees in memory
//! and below a folder, and the set that is packed of them and unpacked into them.
#![tactic(auto)]

mod folders;
mod links;
mod sets;
mod trees;

use mb_store::MemStore;
use mb_tree::{FolderTree, MemTree};
use rows_shared::{Rows, Words, run};
use std::io;

// What is kept from line to line.
#[derive(Drop)]
struct Kept {
    store: MemStore,
    tree: MemTree,
    folder: Option<FolderTree>,
}

impl Rows for Kept {
    fn answer(&mut self, rt: &HostRuntime, out: &mut String, line: &str) -> Option<()> {
        let alloc = rt.alloc();
        let mut words: Words = line.split_whitespace();
        match words.next()? {
            "set" => sets::answer(alloc, out, &mut self.store, &mut words),
            "tree" => trees::answer(alloc, out, &mut self.tree, &mut self.store, &mut words),
            "folder" => {
                folders::answer(
                    rt,
                    alloc,
                    out,
                    &mut self.folder,
                    &mut self.store,
                    &mut words,
                )
            }
            "link" => links::answer(rt, out, &mut words),
            _ => None,
        }
    }
}

fn main(rt: HostRuntime) -> io::Result<()> {
    let alloc = rt.alloc();
    let mut kept = Kept {
        store: MemStore::new(alloc),
        tree: MemTree::new(alloc),
        folder: None,
    };
    run(&rt, &mut kept)
}
