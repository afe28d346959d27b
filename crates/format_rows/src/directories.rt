// Calls of the directories and entries of pm_format.
ghost use Rattle.std.specs.Prelude.{◌≡◌, ◌↔◌, ◌+◌, ◌<◌, ◌≤◌, All, IsTrue, length};
ghost use Rattle.pm_format.specs.Directory.{IsPlaced};

use pm_format::{DirEntry, Directory, Steps};
use rows_shared::{Words, bytes, number, said, say, say_bytes};
use std::alloc::Global;
use std::marker::Brand;
use std::sync::ledger::{Blank, Ledger};
use tile_ids::{TileCoord, TileId};

fn is_placed(entry: &DirEntry) -> bool
    ensures { IsTrue result ↔ IsPlaced entry.now }
{
    entry.offset() < u64::MAX && entry.offset() <= u64::MAX - u64::from(entry.length())
}

fn all_placed(entries: &[DirEntry]) -> bool
    ensures { IsTrue result ↔ All IsPlaced entries.now }
{
    entries.iter().all(|entry| is_placed(entry))
}

fn decode(alloc: Global, out: &mut String, words: &mut Words) -> Option<()> {
    let input = bytes(alloc, words)?;
    said(out, Directory::decode(alloc, input.as_slice()))
}

fn given(alloc: Global, words: &mut Words) -> Option<Directory> {
    let input = bytes(alloc, words)?;
    Directory::decode(alloc, input.as_slice()).ok()
}

fn entries(alloc: Global, out: &mut String, words: &mut Words) -> Option<()> {
    let directory = given(alloc, words)?;
    said(out, directory.get_approx_byte_size())?;
    say(out, &directory.entries())
}

fn encode(alloc: Global, out: &mut String, words: &mut Words) -> Option<()> {
    let directory = given(alloc, words)?;
    if !all_placed(directory.entries()) {
        return None;
    }
    let spelled = directory.encode(alloc).ok()?;
    say_bytes(alloc, out, spelled.as_slice())
}

fn again(alloc: Global, out: &mut String, words: &mut Words) -> Option<()> {
    let input = bytes(alloc, words)?;
    let directory = Directory::decode(alloc, input.as_slice()).ok()?;
    if !all_placed(directory.entries()) {
        return None;
    }
    let spelled = directory.encode(alloc).ok()?;
    say(out, &(spelled.as_slice() == input.as_slice()))
}

// An entry among three is found with at most two steps.
fn find_in_three<L: Ledger>(
    directory: &Directory,
    id: TileId,
    steps: &mut Steps<L>,
) -> Option<DirEntry>
    requires three { length directory.now ≡ 3 }
    ensures few { steps.new ≤ steps.old + 2 }
{
    directory.find_tile_id_counted(id, steps).copied()
}

fn find_counted<L: Ledger>(directory: &Directory, id: TileId, blank: Blank) -> Option<DirEntry>
    requires name { blank.name ≡ L.name }
    requires parts { blank.parts ≡ L.parts }
    requires some { 0 < blank.parts }
{
    let mut steps: Steps<L> = Steps::new(blank);
    if directory.entries().len() == 3 {
        return find_in_three(directory, id, &mut steps);
    }
    directory.find_tile_id_counted(id, &mut steps).copied()
}

fn find(alloc: Global, out: &mut String, words: &mut Words) -> Option<()> {
    let directory = given(alloc, words)?;
    let id = TileId::new(number(words)?).ok()?;
    if directory.find_tile_id(id).copied() != find_counted::<Brand>(&directory, id, Blank::new(1)) {
        return None;
    }
    say(out, &directory.find_tile_id(id))
}

fn say_entry(out: &mut String, entry: &DirEntry) -> Option<()> {
    say(out, &entry.tile_id())?;
    say(out, &entry.offset())?;
    say(out, &entry.length())?;
    say(out, &entry.run_length())?;
    say(out, &entry.is_leaf())?;
    say(out, &entry.run_in_range())?;
    say(out, &(*entry == DirEntry::default()))
}

fn entry(out: &mut String, words: &mut Words) -> Option<()> {
    let entry = DirEntry::new(
        number(words)?,
        number(words)?,
        number(words)?,
        number(words)?,
    );
    say_entry(out, &entry)
}

fn run(out: &mut String, words: &mut Words) -> Option<()> {
    let entry = DirEntry::new(number(words)?, 0, 1, number(words)?);
    if !entry.run_in_range() {
        return None;
    }
    for id in entry.iter_coords() {
        said(out, TileCoord::from(id))?;
    }
    Some(())
}

pub fn answer(alloc: Global, out: &mut String, words: &mut Words) -> Option<()> {
    match words.next()? {
        "decode" => decode(alloc, out, words),
        "entries" => entries(alloc, out, words),
        "encode" => encode(alloc, out, words),
        "again" => again(alloc, out, words),
        "find" => find(alloc, out, words),
        "entry" => entry(out, words),
        "run" => run(out, words),
        _ => None,
    }
}
