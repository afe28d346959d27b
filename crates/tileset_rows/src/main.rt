//! Reads a case of the converter from each line of standard input, and prints how it ends.
//!
//! The fields of a line are parted by `|`. Texts in them have `\n` for a line feed, `\\` for a backslash and `\x` with
//! two hexadecimal digits for other bytes. `tools/cases/tileset_rows.py` writes the lines and what must be printed.
#![tactic(auto)]

mod answers;
mod changing;
mod counted;
mod fields;
mod filled;
mod front_medium;
mod hindered;
mod in_memory;
mod many;
mod measured;
mod on_file;
mod other;
mod parts;
mod redescribed;
mod running;
mod said;
mod short_medium;
mod single_bytes;
mod stores;
mod turned;
mod turned_medium;
mod twice;
mod views;

use fields::Fields;
use rows_shared::{Rows, run};
use std::io;
use stores::Options;

// The cases. Nothing is kept from line to line.
#[derive(Drop)]
struct Cases;

impl Rows for Cases {
    fn answer(&mut self, rt: &HostRuntime, out: &mut String, line: &str) -> Option<()> {
        let alloc = rt.alloc();
        let mut fields = Fields::new(line);
        match fields.next() {
            "run" => in_memory::answer(alloc, out, &mut fields),
            "each" => counted::each(alloc, out, &mut fields),
            "reads" => counted::reads(alloc, out, &mut fields),
            "short" => other::short(alloc, out, &mut fields),
            "short-streamed" => other::short_streamed(alloc, out, &mut fields),
            "single" => other::single(alloc, out, &mut fields),
            "streams" => other::streams(alloc, out, &mut fields),
            "versions" => other::versions(alloc, out, &mut fields),
            "stores" => stores::answer(alloc, out, &mut fields),
            "hindered" => hindered::answer(alloc, out, &mut fields, Options::Script),
            "said" => said::answer(alloc, out, &mut fields, Options::Set),
            "streamed" => said::answer(alloc, out, &mut fields, Options::Streamed),
            "hashed" => said::answer(alloc, out, &mut fields, Options::Hashed),
            "streamed-said" => said::answer(alloc, out, &mut fields, Options::StreamedSet),
            "part" => parts::answer(alloc, out, &mut fields),
            "parts-joined" => parts::joined(alloc, out, &mut fields),
            "changing" => changing::answer(alloc, out, &mut fields),
            "changing-part" => changing::of_part(alloc, out, &mut fields),
            "redescribed" => redescribed::answer(alloc, out, &mut fields, Options::Streamed),
            "redescribed-whole" => redescribed::answer(alloc, out, &mut fields, Options::Script),
            "hindered-said" => hindered::answer(alloc, out, &mut fields, Options::Set),
            "hindered-streamed" => hindered::answer(alloc, out, &mut fields, Options::Streamed),
            "hindered-hashed" => hindered::answer(alloc, out, &mut fields, Options::Hashed),
            "hindered-streamed-said" => {
                hindered::answer(alloc, out, &mut fields, Options::StreamedSet)
            }
            "twice" => twice::answer(alloc, out, &mut fields),
            "asked" => said::asked(alloc, out, &mut fields),
            "views" => views::answer(alloc, out, &mut fields),
            "turned" => turned::answer(alloc, out, &mut fields, Options::Script),
            "turned-streamed" => turned::answer(alloc, out, &mut fields, Options::Streamed),
            "many" => many::answer(alloc, out, &mut fields),
            "measure" => measured::answer(alloc, out, &mut fields),
            "file" => on_file::answer(rt, alloc, out, &mut fields),
            "outcome" => answers::named(alloc, out, fields.next()),
            _ => None,
        }
    }

    fn shows_lines(&self) -> bool {
        false
    }
}

fn main(rt: HostRuntime) -> io::Result<()> {
    run(&rt, &mut Cases)
}
