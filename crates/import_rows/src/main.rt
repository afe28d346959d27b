//! Reads imports of archives into tile sets from standard input, one a line, and prints each line with its answer:
//! calls of tile_import and set_import, and of a reader, a view, a check, an extraction and a server of the same bytes.
#![tactic(auto)]

mod archives;
mod asked;
mod exports;
mod imports;
mod made;
mod neighbours;
mod planted;
mod sets;

use asked::Asked;
use mb_store::MemStore;
use rows_shared::{Rows, Words, bytes, run};
use std::alloc::Global;
use std::io;

// What is kept from line to line: a store, the bytes of an archive, what is asked of archives, and what
// was said of the last one.
#[derive(Drop)]
struct Kept {
    store: MemStore,
    held: Vec<u8>,
    asked: Asked,
    last: String,
}

// Keeps the bytes of the next word.
fn hold(alloc: Global, held: &mut Vec<u8>, words: &mut Words) -> Option<()> {
    *held = bytes(alloc, words)?;
    Some(())
}

impl Rows for Kept {
    fn answer(&mut self, rt: &HostRuntime, out: &mut String, line: &str) -> Option<()> {
        let alloc = rt.alloc();
        let mut words: Words = line.split_whitespace();
        match words.next()? {
            "hold" => hold(alloc, &mut self.held, &mut words),
            "set" => sets::answer(alloc, out, &mut self.store, &mut words),
            "import" => imports::answer(alloc, out, &self.held, &mut self.store, &mut words),
            "made" => made::answer(alloc, out, &self.held, &mut self.store, &mut words),
            "fresh" => imports::fresh(alloc, out, &mut words),
            "tiles" => archives::answer(alloc, out, &self.held, &mut words),
            "export" => exports::answer(alloc, out, &mut self.store),
            "ask" => asked::answer(alloc, &mut self.asked, &mut words),
            "planted" => {
                planted::answer(
                    alloc,
                    out,
                    &self.held,
                    &self.asked,
                    &mut self.last,
                    &mut words,
                )
            }
            _ => None,
        }
    }
}

fn main(rt: HostRuntime) -> io::Result<()> {
    let alloc = rt.alloc();
    let mut kept = Kept {
        store: MemStore::new(alloc),
        held: Vec::new(alloc),
        asked: Asked::new(alloc),
        last: String::new(alloc),
    };
    run(&rt, &mut kept)
}
