//! Reads calls of caches from standard input, one a line, and prints each line with its answer: calls of mb_cache over
//! a store in memory and over a database in memory.
#![tactic(auto)]

mod moments;
mod once;
mod open_calls;
mod said;
mod shelf;
mod stores;
mod tiles;

use mb_sqlite::SqliteStore;
use mb_store::MemStore;
use rows_shared::{Rows, Words, run};
use shelf::Shelf;
use std::io;

// What is kept from line to line: a store in memory, and a database where the calls are of one.
#[derive(Drop)]
struct Kept {
    memory: Shelf<MemStore>,
    database: Option<Shelf<SqliteStore<sqlite::MemStore>>>,
}

impl Rows for Kept {
    fn answer(&mut self, rt: &HostRuntime, out: &mut String, line: &str) -> Option<()> {
        let alloc = rt.alloc();
        let mut words: Words = line.split_whitespace();
        match words.next()? {
            "new" => stores::new(alloc, self, &mut words),
            "push" => self.memory.push_row(alloc, out, &mut words),
            "fail" => self.memory.fail(alloc, &mut words),
            "moment" => moments::answer(out, &mut words),
            call => match self.database.as_mut() {
                Some(shelf) => shelf.answer(alloc, out, call, &mut words),
                None => self.memory.answer(alloc, out, call, &mut words),
            },
        }
    }
}

fn main(rt: HostRuntime) -> io::Result<()> {
    let alloc = rt.alloc();
    let mut kept = Kept {
        memory: Shelf::of(MemStore::new(alloc)),
        database: None,
    };
    run(&rt, &mut kept)
}
