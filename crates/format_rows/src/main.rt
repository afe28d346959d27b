//! Reads calls of tile_ids, tile_hash, tile_json and pm_format from standard input, one a line, and prints
//! each line with its answer.
#![tactic(auto)]

mod backends;
mod directories;
mod documents;
mod fields;
mod files;
mod hashes;
mod headers;
mod ids;
mod labels;
mod media;
mod varints;

use media::Kept;
use rows_shared::{Rows, Words, run};
use std::io;

impl Rows for Kept {
    fn answer(&mut self, rt: &HostRuntime, out: &mut String, line: &str) -> Option<()> {
        let alloc = rt.alloc();
        let mut words: Words = line.split_whitespace();
        match words.next()? {
            "ids" => ids::answer(alloc, out, &mut words),
            "hash" => hashes::answer(alloc, out, &mut words),
            "json" => documents::answer(alloc, out, &mut words),
            "varint" => varints::answer(alloc, out, &mut words),
            "directory" => directories::answer(alloc, out, &mut words),
            "header" => headers::answer(alloc, out, &mut words),
            "label" => labels::answer(alloc, out, &mut words),
            "medium" => media::answer(alloc, out, &mut self.medium, &mut words),
            _ => backends::answer(rt, out, self, line),
        }
    }
}

fn main(rt: HostRuntime) -> io::Result<()> {
    let mut kept = Kept::new(rt.alloc());
    run(&rt, &mut kept)
}
