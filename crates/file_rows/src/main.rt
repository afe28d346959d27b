//! Reads sets by the pages of databases from standard input, one a line, and prints each line with its
//! answer: calls of mb_file.
#![tactic(auto)]

mod bytes;
mod paged;

use rows_shared::{Rows, Words, run};
use std::io;

// Nothing is kept from line to line.
#[derive(Drop)]
struct Lines;

impl Rows for Lines {
    fn answer(&mut self, rt: &HostRuntime, out: &mut String, line: &str) -> Option<()> {
        let mut words: Words = line.split_whitespace();
        match words.next()? {
            "paged" => paged::answer(rt.alloc(), out, &mut words),
            "file" => bytes::answer(rt.alloc(), out, &mut words),
            "changed" => bytes::changed(rt.alloc(), out, &mut words),
            _ => None,
        }
    }
}

fn main(rt: HostRuntime) -> io::Result<()> {
    run(&rt, &mut Lines)
}
