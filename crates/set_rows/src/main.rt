//! Reads calls of mb_tables, mb_store, mb_load, mb_edit and mb_check from standard input, one a line, and prints
//! each line with its answer.
#![tactic(auto)]

mod changes;
mod checks;
mod creating;
mod databases;
mod described;
mod edits;
mod labels;
mod loads;
mod patches;
mod stores;
mod tables;

use databases::Database;
use mb_store::MemStore;
use mb_tables::TableDesc;
use rows_shared::{Rows, Words, run};
use std::io;

// What is kept from line to line.
#[derive(Drop)]
struct Kept {
    base: MemStore,
    store: MemStore,
    tables: Vec<TableDesc>,
    database: Database,
}

impl Rows for Kept {
    fn answer(&mut self, rt: &HostRuntime, out: &mut String, line: &str) -> Option<()> {
        let alloc = rt.alloc();
        let mut words: Words = line.split_whitespace();
        match words.next()? {
            "store" => stores::answer(alloc, out, &mut self.store, &mut words),
            "changes" => changes::answer(alloc, out, &mut words),
            "create" => creating::answer(alloc, out, &mut self.store, &mut words),
            "table" => tables::answer(alloc, out, &mut self.tables, &mut words),
            "describe" => creating::describe(alloc, out, &mut self.store, self.tables.as_slice()),
            "load" => loads::answer(alloc, out, &mut self.store),
            "edit" => edits::answer(alloc, out, &mut self.store, &mut words),
            "check" => checks::answer(alloc, out, &mut self.store, &mut words),
            "patch" => patches::answer(alloc, out, &mut self.base, &mut self.store, &mut words),
            "label" => labels::answer(out, &mut words),
            "database" => databases::answer(alloc, out, &mut self.database, &mut words),
            _ => None,
        }
    }
}

fn main(rt: HostRuntime) -> io::Result<()> {
    let alloc = rt.alloc();
    let mut kept = Kept {
        base: MemStore::new(alloc),
        store: MemStore::new(alloc),
        tables: Vec::new(alloc),
        database: None,
    };
    run(&rt, &mut kept)
}
