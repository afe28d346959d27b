//! Reads calls of tile sets from standard input, one a line, and prints each line with its answer: calls of mb_access,
//! mb_insert, mb_metadata, mb_load and set_options, and patches of mb_edit.
#![tactic(auto)]

mod archive_options;
mod databases;
mod documents;
mod editing;
mod fills;
mod inserts;
mod loaded;
mod metadata;
mod names;
mod patches;
mod printed;
mod readings;
mod reads;
mod said;
mod sets;
mod streams;
mod values;
mod zoom_values;

use databases::Database;
use mb_store::MemStore;
use rows_shared::{Rows, Words, run};
use std::io;

// What is kept from line to line.
#[derive(Drop)]
struct Kept {
    store: MemStore,
    database: Database,
}

impl Rows for Kept {
    fn answer(&mut self, rt: &HostRuntime, out: &mut String, line: &str) -> Option<()> {
        let alloc = rt.alloc();
        let mut words: Words = line.split_whitespace();
        match words.next()? {
            "set" => sets::answer(alloc, out, &mut self.store, &mut words),
            "read" => reads::answer(alloc, out, &mut self.store, &mut words),
            "name" => names::answer(alloc, out, &mut self.store, &mut words),
            "stream" => streams::answer(alloc, out, &mut self.store, &mut words),
            "insert" => inserts::answer(alloc, out, &mut self.store, &mut words),
            "meta" => metadata::answer(alloc, out, &mut self.store, &mut words),
            "loaded" => loaded::answer(alloc, out, &mut self.store, &mut words),
            "patch" => patches::answer(alloc, out, &mut self.store, &mut words),
            "reading" => readings::answer(alloc, out, &mut self.store, &mut words),
            "database" => databases::answer(alloc, out, &mut self.database, &mut words),
            _ => None,
        }
    }
}

fn main(rt: HostRuntime) -> io::Result<()> {
    let alloc = rt.alloc();
    let mut kept = Kept {
        store: MemStore::new(alloc),
        database: None,
    };
    run(&rt, &mut kept)
}
