// Conversions of parts of sets, alone and joined.
use crate::answers::said_outcome;
use crate::fields::{Fields, bytes_of};
use crate::said::{said_end, say_medium};
use crate::stores::{Options, options_of, say_store, script_of, whole};
use mb_store::{MemStore, TileStore};
use pm_format::MemMedium;
use set_conversion::OptionsOfSet;
use std::alloc::Global;
use std::fmt::Write;
use tile_bridge::{ConvertError, ConvertOptions, ConvertReport};
use tile_extract::IdIntervals;
use tile_ids::TileCoord;
use tile_join::join;
use tile_streaming::convert_part;
use tileset::Outcome;
use tileset_script::ParsedScript;

// How the options of a conversion are named.
fn options_named(name: &str) -> Option<Options> {
    match name {
        "streamed" => Some(Options::Streamed),
        "hashed" => Some(Options::Hashed),
        "streamed-said" => Some(Options::StreamedSet),
        _ => None,
    }
}

// The intervals that are spelled by their first and their last ids; none for `all`.
pub fn part_of(alloc: Global, field: &str) -> Option<Option<IdIntervals>> {
    if field == "all" {
        return Some(None);
    }
    let mut items = Vec::new(alloc);
    for word in field.split_whitespace() {
        let (first, last) = word.split_once('-')?;
        let first = first.parse::<u64>().ok()?;
        let last = last.parse::<u64>().ok()?;
        items.push((first, last)).ok()?;
    }
    Some(Some(IdIntervals::new(items)?))
}

/// A conversion of a part, with nothing said of it.
pub fn part_converted<S: TileStore>(
    alloc: Global,
    (base, patches): (&mut S, &mut Vec<MemStore>),
    part: &Option<IdIntervals>,
    coords: &[TileCoord],
    (given, options): (&ConvertOptions, Options),
    medium: &mut MemMedium,
) -> Result<ConvertReport, ConvertError> {
    let hash = matches!(options, Options::Hashed);
    let answer = match options {
        Options::StreamedSet => {
            let said = OptionsOfSet::new(given.force, given.verify);
            convert_part(alloc, base, patches, part, coords, &said, hash, medium)
        }
        _ => convert_part(alloc, base, patches, part, coords, given, hash, medium),
    };
    whole(alloc, answer)
}

/// A case of how options are named, of intervals, of a script and of what the medium holds at first: as that of a
/// conversion of all tiles, of the part that the intervals are.
pub fn answer(alloc: Global, out: &mut String, fields: &mut Fields) -> Option<()> {
    let options = options_named(fields.next())?;
    let part = part_of(alloc, fields.next())?;
    let script = bytes_of(alloc, fields.next())?;
    let held = hex::decode(alloc, fields.next()).ok()?;
    let mut medium = MemMedium::from_bytes(held);
    let ParsedScript {
        options: given,
        mut base,
        mut patches,
        queries,
    } = script_of(alloc, script.as_slice())?;
    let answer = part_converted(
        alloc,
        (&mut base, &mut patches),
        &part,
        queries.as_slice(),
        (&options_of(given), options),
        &mut medium,
    );
    said_end(alloc, out, answer)?;
    write!(out, "|").ok()?;
    say_store(alloc, out, &mut base)?;
    say_medium(alloc, out, &medium)
}

// The medium of a part of a script's set, or why there is none.
fn made(
    alloc: Global,
    script: &[u8],
    options: Options,
    part: &Option<IdIntervals>,
) -> Option<Result<MemMedium, ConvertError>> {
    let ParsedScript {
        options: given,
        mut base,
        mut patches,
        queries: _,
    } = script_of(alloc, script)?;
    let mut medium = MemMedium::new(alloc);
    let stores = (&mut base, &mut patches);
    let given = options_of(given);
    let asked = (&given, options);
    Some(
        match part_converted(alloc, stores, part, &[], asked, &mut medium) {
            Ok(_) => Ok(medium),
            Err(error) => Err(error),
        },
    )
}

// The media of parts, each behind a semicolon but the first, or the first refusal.
fn all_made(
    alloc: Global,
    script: &[u8],
    options: Options,
    parts: &str,
) -> Option<Result<Vec<MemMedium>, ConvertError>> {
    let mut media = Vec::new(alloc);
    for field in parts.split(';') {
        let part = part_of(alloc, field)?;
        match made(alloc, script, options, &part)? {
            Ok(medium) => media.push(medium).ok()?,
            Err(error) => return Some(Err(error)),
        }
    }
    Some(Ok(media))
}

/// A case of how options are named, of intervals of several parts, and of a script: what the archives of the parts,
/// joined, are.
pub fn joined(alloc: Global, out: &mut String, fields: &mut Fields) -> Option<()> {
    let options = options_named(fields.next())?;
    let parts = fields.next();
    let script = bytes_of(alloc, fields.next())?;
    let mut sources = match all_made(alloc, script.as_slice(), options, parts)? {
        Ok(media) => media,
        Err(error) => return said_outcome(alloc, out, Outcome::Refused(error)),
    };
    let mut medium = MemMedium::new(alloc);
    if join(alloc, &mut sources, u64::MAX, &mut medium).is_err() {
        return write!(out, "not joined").ok();
    }
    say_medium(alloc, out, &medium)
}
