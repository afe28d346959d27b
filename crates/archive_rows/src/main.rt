//! Reads calls on archives from standard input, one a line, and prints each line with its answer: calls of pm_contents,
//! pm_writer, pm_reader, tile_verify, tile_header_check, tile_serve, tile_extract and tile_join.
#![tactic(auto)]

mod adds;
mod asking;
mod boxes;
mod bulk;
mod caches;
mod contents;
mod extracting;
mod joining;
mod kept;
mod lines;
mod media;
mod options;
mod reading;
mod serve_runs;
mod serving;
mod shorts;
mod states;
mod sweep;
mod verifying;
mod viewing;
mod writing;

use kept::Kept;
use rows_shared::{Rows, Words, run};
use std::io;

impl Rows for Kept {
    fn answer(&mut self, rt: &HostRuntime, out: &mut String, line: &str) -> Option<()> {
        let alloc = rt.alloc();
        let mut words: Words = line.split_whitespace();
        match words.next()? {
            "medium" => media::answer(alloc, out, &mut self.backend, &mut words),
            "writer" => options::answer(alloc, out, &mut self.options, &mut words),
            "write" => writing::answer(alloc, out, self, &mut words),
            "contents" => contents::answer(alloc, out, &mut words),
            "bulk" => bulk::answer(alloc, out, &mut self.backend, &mut words),
            "cache" => caches::answer(alloc, out, &mut self.map, &mut self.recent, &mut words),
            "bytes" => reading::shared(alloc, out, self.backend.medium.as_bytes(), &mut words),
            "view" => viewing::answer(alloc, out, self.backend.medium.as_bytes(), &mut words),
            "changes" => verifying::changes(alloc, out, self.backend.medium.as_bytes(), &mut words),
            "short" => shorts::answer(alloc, out, self, &mut words),
            "boxes" => boxes::answer(alloc, out, &mut words),
            "said" => boxes::of_header(alloc, out, &mut self.backend, &mut words),
            "extract" => extracting::answer(alloc, out, self, &mut words),
            "join" => joining::answer(alloc, out, self, &mut words),
            call => asking::answer(alloc, out, &mut self.backend, call, &mut words),
        }
    }
}

fn main(rt: HostRuntime) -> io::Result<()> {
    let mut kept = Kept::new(rt.alloc());
    run(&rt, &mut kept)
}
