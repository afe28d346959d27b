//! Reads copies of tile sets from standard input, one call a line, and prints each line with its answer: calls of
//! mb_copy over three stores in memory.
#![tactic(auto)]

mod copiers;
mod labels;
mod runs;
mod stores;

use mb_store::MemStore;
use rows_shared::{Rows, Words, run};
use std::io;

// The stores that are kept from line to line: the source of a copy, its destination, and a patch.
#[derive(Drop)]
pub struct Kept {
    pub src: MemStore,
    pub dst: MemStore,
    pub patch: MemStore,
}

impl Rows for Kept {
    fn answer(&mut self, rt: &HostRuntime, out: &mut String, line: &str) -> Option<()> {
        let alloc = rt.alloc();
        let mut words: Words = line.split_whitespace();
        match words.next()? {
            "src" => stores::answer(alloc, out, &mut self.src, &mut words),
            "dst" => stores::answer(alloc, out, &mut self.dst, &mut words),
            "patch" => stores::answer(alloc, out, &mut self.patch, &mut words),
            "run" => runs::run(alloc, out, self, &mut words),
            "patched" => runs::patched(alloc, out, self, &mut words),
            "label" => labels::answer(out, &mut words),
            _ => None,
        }
    }
}

fn main(rt: HostRuntime) -> io::Result<()> {
    let alloc = rt.alloc();
    let mut kept = Kept {
        src: MemStore::new(alloc),
        dst: MemStore::new(alloc),
        patch: MemStore::new(alloc),
    };
    run(&rt, &mut kept)
}
