// A conversion over stores of its own, after which the base is shown.
use crate::answers::{said_outcome, say, say_bytes};
use crate::fields::{Fields, bytes_of};
use base_values::TextVal;
use mb_store::{Row, TileStore};
use mb_tables::{Cell, TableName};
use pm_format::{Medium, MemMedium};
use set_conversion::OptionsOfSet;
use std::alloc::Global;
use std::fmt::Write;
use tile_bridge::{ConvertError, ConvertOptions, ConvertReport, convert};
use tile_ids::TileCoord;
use tile_streaming::{StreamError, StreamOptions, StreamReport, convert_patched, convert_streamed};
use tileset::{MAX_INPUT, Outcome};
use tileset_script::{ParsedScript, ScriptOptions, parse_script};

const TABLES: [TableName; 8] = [
    TableName::Tiles,
    TableName::TilesWithHash,
    TableName::Map,
    TableName::Images,
    TableName::TilesShallow,
    TableName::TilesData,
    TableName::TileCache,
    TableName::Metadata,
];

fn say_blob(alloc: Global, out: &mut String, bytes: &[u8]) -> Option<()> {
    let digits = hex::encode(alloc, bytes).ok()?;
    write!(out, " x{digits}").ok()
}

fn say_cell(alloc: Global, out: &mut String, cell: &Cell) -> Option<()> {
    match cell {
        Cell::Null => say(out, " n"),
        Cell::Other => say(out, " o"),
        Cell::Int(number) => write!(out, " i{number}").ok(),
        Cell::Text(text) => {
            say(out, " t")?;
            say_bytes(alloc, out, text.as_str().as_bytes(), 4000)
        }
        Cell::Blob(blob) => say_blob(alloc, out, blob.as_bytes()),
    }
}

fn say_row(alloc: Global, out: &mut String, name: &str, row: &Row) -> Option<()> {
    say(out, name)?;
    for cell in row.cells() {
        say_cell(alloc, out, cell)?;
    }
    say(out, "; ")
}

fn say_rows<S: TileStore>(
    alloc: Global,
    out: &mut String,
    store: &mut S,
    table: TableName,
) -> Option<()> {
    let rows = store.rows(alloc, table, 0, u64::MAX).ok()?;
    for row in &rows {
        say_row(alloc, out, table.name(), row)?;
    }
    Some(())
}

/// Appends all rows of all tables.
pub fn say_store<S: TileStore>(alloc: Global, out: &mut String, store: &mut S) -> Option<()> {
    for table in TABLES {
        say_rows(alloc, out, store, table)?;
    }
    Some(())
}

/// What a conversion takes of a script's options.
pub fn options_of(options: ScriptOptions) -> ConvertOptions {
    ConvertOptions {
        force: options.force,
        verify: options.verify,
        writer: options.writer,
    }
}

/// Whose options a conversion takes.
#[derive(Clone, Copy)]
pub enum Options {
    /// The script's.
    Script,
    /// Those that the set says of itself, beside the script's two flags.
    Set,
    /// The script's, for a conversion that holds no contents of the base.
    Streamed,
    /// The same, and the hash of all tiles is wanted for itself.
    Hashed,
    /// Those that the set says of itself, for such a conversion.
    StreamedSet,
}

/// The answer of a conversion that holds no contents in the words of one that does: without a hash an empty text, and
/// the fault of a last store where the base changed.
pub fn whole(
    alloc: Global,
    answer: Result<StreamReport, StreamError>,
) -> Result<ConvertReport, ConvertError> {
    match answer {
        Ok(
            StreamReport {
                answers,
                aggregate,
                places,
            },
        ) => Ok(ConvertReport {
            answers,
            aggregate: match aggregate {
                Some(text) => text,
                None => TextVal::new(String::new(alloc)),
            },
            places,
        }),
        Err(StreamError::Convert(error)) => Err(error),
        Err(StreamError::StoreChanged) => Err(ConvertError::StoreFault { place: u64::MAX }),
    }
}

// A conversion that holds no contents of the base.
fn streamed<S: TileStore, P: TileStore, O: StreamOptions, M: Medium>(
    alloc: Global,
    (base, patches): (&mut S, &mut Vec<P>),
    coords: &[TileCoord],
    options: &O,
    hash: bool,
    medium: &mut M,
) -> Result<ConvertReport, ConvertError> {
    if patches.is_empty() {
        let answer = convert_streamed(alloc, base, coords, options, hash, medium);
        return whole(alloc, answer);
    }
    let answer = convert_patched(alloc, base, patches, coords, options, hash, medium);
    whole(alloc, answer)
}

/// A conversion, with nothing said of it.
pub fn converted<S: TileStore, P: TileStore, M: Medium>(
    alloc: Global,
    base: &mut S,
    patches: &mut Vec<P>,
    coords: &[TileCoord],
    given: &ConvertOptions,
    options: Options,
    medium: &mut M,
) -> Result<ConvertReport, ConvertError> {
    match options {
        Options::Script => convert(alloc, base, patches, coords, given, medium),
        Options::Set => {
            let said = OptionsOfSet::new(given.force, given.verify);
            convert(alloc, base, patches, coords, &said, medium)
        }
        Options::Streamed => { streamed(alloc, (base, patches), coords, given, false, medium) }
        Options::Hashed => { streamed(alloc, (base, patches), coords, given, true, medium) }
        Options::StreamedSet => {
            let said = OptionsOfSet::new(given.force, given.verify);
            streamed(alloc, (base, patches), coords, &said, false, medium)
        }
    }
}

/// Appends how a conversion over a script's stores ends, and what the tables of the base then hold;
/// gives whether it is done.
pub fn shown(
    alloc: Global,
    out: &mut String,
    script: ParsedScript,
    options: Options,
    medium: MemMedium,
) -> Option<bool> {
    let ParsedScript {
        options: given,
        mut base,
        mut patches,
        queries,
    } = script;
    let mut medium = medium;
    let coords = queries.as_slice();
    let outcome = match converted(
        alloc,
        &mut base,
        &mut patches,
        coords,
        &options_of(given),
        options,
        &mut medium,
    ) {
        Ok(_) => Outcome::Done,
        Err(error) => Outcome::Refused(error),
    };
    let done = matches!(outcome, Outcome::Done);
    said_outcome(alloc, out, outcome)?;
    say(out, "|")?;
    base.fail_at(Vec::new(alloc));
    say_store(alloc, out, &mut base)?;
    Some(done)
}

/// The script that a field spells.
pub fn script_of(alloc: Global, script: &[u8]) -> Option<ParsedScript> {
    if script.len() > MAX_INPUT {
        return None;
    }
    parse_script(alloc, script).ok()
}

/// A case of a script: how its conversion ends, and what the tables of the base then hold.
pub fn answer(alloc: Global, out: &mut String, fields: &mut Fields) -> Option<()> {
    let script = bytes_of(alloc, fields.next())?;
    let script = script_of(alloc, script.as_slice())?;
    shown(alloc, out, script, Options::Script, MemMedium::new(alloc))?;
    Some(())
}
