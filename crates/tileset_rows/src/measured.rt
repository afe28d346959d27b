// Conversions of stores that are filled with tiles made of numbers: what they count, for their time and memory.
use crate::answers::said_outcome;
use crate::fields::Fields;
use crate::filled::{MOST_TILES, fill_memory, filled_database};
use crate::front_medium::FrontMedium;
use crate::stores::{options_of, script_of, whole};
use mb_store::{MemStore, TileStore};
use mb_tables::TableName;
use std::alloc::Global;
use std::fmt::Write;
use tile_bridge::{ConvertError, ConvertOptions, ConvertReport, convert, convert_owned};
use tile_streaming::convert_streamed;
use tileset::Outcome;
use tileset_script::ParsedScript;

// How a store is converted.
#[derive(Clone, Copy)]
enum Way {
    None,
    Streamed,
    Whole,
    Owned,
}

fn way_of(word: &str) -> Option<Way> {
    match word {
        "none" => Some(Way::None),
        "streamed" => Some(Way::Streamed),
        "whole" => Some(Way::Whole),
        "owned" => Some(Way::Owned),
        _ => None,
    }
}

// Appends the counts of an archive: its tiles, its contents, its entries and its bytes.
fn said_end(
    alloc: Global,
    out: &mut String,
    answer: Result<ConvertReport, ConvertError>,
) -> Option<()> {
    match answer {
        Ok(report) => {
            let places = report.places;
            let (addressed, contents) = (places.addressed, places.contents);
            let (entries, length) = (places.entries, places.length);
            write!(out, "{addressed} {contents} {entries} {length}").ok()
        }
        Err(error) => said_outcome(alloc, out, Outcome::Refused(error)),
    }
}

// Appends how many rows a store has.
fn say_count<S: TileStore>(out: &mut String, store: &mut S) -> Option<()> {
    let count = store.count_rows(TableName::Tiles).ok()?;
    write!(out, "{count}").ok()
}

fn streamed<S: TileStore>(
    alloc: Global,
    store: &mut S,
    options: &ConvertOptions,
) -> Result<ConvertReport, ConvertError> {
    let mut medium = FrontMedium::new(alloc);
    let answer = convert_streamed(alloc, store, &[], options, false, &mut medium);
    whole(alloc, answer)
}

fn converted<S: TileStore>(
    alloc: Global,
    store: &mut S,
    options: &ConvertOptions,
) -> Result<ConvertReport, ConvertError> {
    let mut medium = FrontMedium::new(alloc);
    let mut none: Vec<MemStore> = Vec::new(alloc);
    convert(alloc, store, &mut none, &[], options, &mut medium)
}

fn owned(
    alloc: Global,
    store: MemStore,
    options: &ConvertOptions,
) -> Result<ConvertReport, ConvertError> {
    let mut medium = FrontMedium::new(alloc);
    let none: Vec<MemStore> = Vec::new(alloc);
    convert_owned(alloc, store, none, &[], options, &mut medium)
}

// The conversion of a store that stays.
fn answer_of<S: TileStore>(
    alloc: Global,
    out: &mut String,
    store: &mut S,
    options: &ConvertOptions,
    way: Way,
) -> Option<()> {
    match way {
        Way::None => say_count(out, store),
        Way::Streamed => said_end(alloc, out, streamed(alloc, store, options)),
        Way::Whole => said_end(alloc, out, converted(alloc, store, options)),
        Way::Owned => None,
    }
}

fn of_memory(
    alloc: Global,
    out: &mut String,
    store: MemStore,
    options: &ConvertOptions,
    way: Way,
) -> Option<()> {
    if let Way::Owned = way {
        return said_end(alloc, out, owned(alloc, store, options));
    }
    let mut store = store;
    answer_of(alloc, out, &mut store, options, way)
}

/// A case of a store, `memory` or `database`, the number of its tiles, how many words of 8 bytes the contents of each
/// have, and how it is converted: `none`, `streamed`, `whole`, or `owned` of one in memory. What it counts.
pub fn answer(alloc: Global, out: &mut String, fields: &mut Fields) -> Option<()> {
    let kind = fields.next();
    let count = fields.next().parse::<u32>().ok()?;
    let words = fields.next().parse::<u16>().ok()?;
    let way = way_of(fields.next())?;
    if count > MOST_TILES {
        return None;
    }
    let ParsedScript {
        options,
        base: mut store,
        patches: _,
        queries: _,
    } = script_of(alloc, b"base flat\n")?;
    let options = options_of(options);
    match kind {
        "memory" => {
            fill_memory(alloc, &mut store, count, u32::from(words))?;
            of_memory(alloc, out, store, &options, way)
        }
        "database" => {
            let mut database = filled_database(alloc, count, u32::from(words))?;
            answer_of(alloc, out, &mut database, &options, way)
        }
        _ => None,
    }
}
