// Conversions that are made twice over the same stores: what the first one leaves is what the second one needs.
use crate::answers::{said_outcome, say, say_label};
use crate::fields::{Fields, bytes_of};
use crate::said::say_medium;
use crate::stores::{Options, converted, options_of, say_store, script_of};
use mb_store::MemStore;
use pm_format::MemMedium;
use std::alloc::Global;
use tile_bridge::ConvertOptions;
use tile_ids::TileCoord;
use tileset::Outcome;
use tileset_script::ParsedScript;

fn options_named(name: &str) -> Option<Options> {
    match name {
        "stored" => Some(Options::Script),
        "streamed" => Some(Options::Streamed),
        "hashed" => Some(Options::Hashed),
        "streamed-said" => Some(Options::StreamedSet),
        _ => None,
    }
}

// Appends what a new medium has: the label of directories, and the archive where it is shown.
fn say_shown(alloc: Global, out: &mut String, medium: &MemMedium) -> Option<()> {
    say_label(out, medium.as_bytes())?;
    match medium.as_bytes().get(97) {
        Some(0) | None => Some(()),
        Some(_) => say_medium(alloc, out, medium),
    }
}

// Appends how a conversion ends, and what its new medium has.
fn say_end(
    alloc: Global,
    out: &mut String,
    (base, patches): (&mut MemStore, &mut Vec<MemStore>),
    coords: &[TileCoord],
    given: &ConvertOptions,
    options: Options,
) -> Option<()> {
    let mut medium = MemMedium::new(alloc);
    match converted(alloc, base, patches, coords, given, options, &mut medium) {
        Ok(_) => said_outcome(alloc, out, Outcome::Done)?,
        Err(error) => said_outcome(alloc, out, Outcome::Refused(error))?,
    }
    say_shown(alloc, out, &medium)
}

/// A case of a conversion's name and a script: how it ends, and how it ends once more; then what the tables of all
/// stores hold.
pub fn answer(alloc: Global, out: &mut String, fields: &mut Fields) -> Option<()> {
    let options = options_named(fields.next())?;
    let script = bytes_of(alloc, fields.next())?;
    let ParsedScript {
        options: given,
        mut base,
        mut patches,
        queries,
    } = script_of(alloc, script.as_slice())?;
    let given = options_of(given);
    for _ in 0..2 {
        let stores = (&mut base, &mut patches);
        say_end(alloc, out, stores, queries.as_slice(), &given, options)?;
        say(out, "|")?;
    }
    say_store(alloc, out, &mut base)?;
    for patch in &mut patches {
        say(out, "|")?;
        say_store(alloc, out, patch)?;
    }
    Some(())
}
