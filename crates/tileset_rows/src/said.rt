// Conversions with the options that a set says of itself, over stores of a script's rows, and the
// words that ask for them.
use crate::answers::{said_outcome, say, say_bytes};
use crate::fields::{Fields, bytes_of, words_of};
use crate::stores::{Options, converted, options_of, say_store, script_of};
use base_values::{BlobVal, TextVal};
use pm_format::MemMedium;
use set_conversion::{
    ConversionFlags, ConversionOutcome, SetPart, asked_of, conversion_status, conversion_text,
    part_intervals,
};
use std::alloc::Global;
use std::fmt::Write;
use tile_bridge::{ConvertError, ConvertReport};
use tile_streaming::StreamReport;
use tileset::Outcome;
use tileset_script::ParsedScript;

// Appends the tiles that were asked for, each with a blank behind it.
fn say_tiles(alloc: Global, out: &mut String, tiles: &[Option<BlobVal>]) -> Option<()> {
    for tile in tiles {
        match tile {
            Some(bytes) => say_bytes(alloc, out, bytes.as_bytes(), 4000)?,
            None => say(out, "none")?,
        }
        say(out, " ")?;
    }
    Some(())
}

// Appends the status of an outcome, and the text that is printed of it.
fn say_printed(alloc: Global, out: &mut String, outcome: &ConversionOutcome) -> Option<()> {
    let status = conversion_status(outcome);
    write!(out, "|{status}|").ok()?;
    let text = conversion_text(alloc, outcome).ok()?;
    say_bytes(alloc, out, text.as_str().as_bytes(), 4000)
}

fn said_printed(alloc: Global, out: &mut String, outcome: ConversionOutcome) -> Option<()> {
    say_printed(alloc, out, &outcome)
}

fn said_done(alloc: Global, out: &mut String, report: ConvertReport) -> Option<()> {
    say_tiles(alloc, out, report.answers.as_slice())?;
    let ConvertReport {
        answers,
        aggregate,
        places,
    } = report;
    said_printed(
        alloc,
        out,
        ConversionOutcome::Done(StreamReport {
            answers,
            aggregate: Some(aggregate),
            places,
        }),
    )
}

/// Appends how a conversion ends.
pub fn said_end(
    alloc: Global,
    out: &mut String,
    answer: Result<ConvertReport, ConvertError>,
) -> Option<()> {
    match answer {
        Ok(report) => said_done(alloc, out, report),
        Err(error) => said_outcome(alloc, out, Outcome::Refused(error)),
    }
}

/// Appends how many bytes a medium has, and these or their digest.
pub fn say_medium(alloc: Global, out: &mut String, medium: &MemMedium) -> Option<()> {
    let length = medium.as_bytes().len();
    write!(out, "|{length}|").ok()?;
    say_bytes(alloc, out, medium.as_bytes(), 64)
}

fn shown(
    alloc: Global,
    out: &mut String,
    script: ParsedScript,
    options: Options,
    medium: MemMedium,
) -> Option<()> {
    let mut medium = medium;
    let ParsedScript {
        options: given,
        mut base,
        mut patches,
        queries,
    } = script;
    let coords = queries.as_slice();
    let answer = converted(
        alloc,
        &mut base,
        &mut patches,
        coords,
        &options_of(given),
        options,
        &mut medium,
    );
    said_end(alloc, out, answer)?;
    say(out, "|")?;
    say_store(alloc, out, &mut base)?;
    say_medium(alloc, out, &medium)
}

/// A case of a script and what the medium holds at first: the tiles that are asked for, the status and the text on the
/// archive, or the refusal; what the tables of the base then hold, and the medium.
pub fn answer(
    alloc: Global,
    out: &mut String,
    fields: &mut Fields,
    options: Options,
) -> Option<()> {
    let script = bytes_of(alloc, fields.next())?;
    let held = hex::decode(alloc, fields.next()).ok()?;
    let script = script_of(alloc, script.as_slice())?;
    shown(alloc, out, script, options, MemMedium::from_bytes(held))
}

// Appends the ids of a part, where it isn't the whole set.
fn say_part(alloc: Global, out: &mut String, part: SetPart) -> Option<()> {
    let Some(intervals) = part_intervals(alloc, part).ok()? else {
        return Some(());
    };
    say(out, "ids ")?;
    for (first, last) in intervals.as_slice() {
        write!(out, "{first}-{last} ").ok()?;
    }
    Some(())
}

// Appends flags by their names, the ids of a part, and the number of files.
fn say_asked(
    alloc: Global,
    out: &mut String,
    flags: ConversionFlags,
    files: &[TextVal],
) -> Option<()> {
    let names = [
        ("force", flags.force),
        ("verify", flags.verify),
        ("hash", flags.hash),
        ("overwrite", flags.overwrite),
        ("strict", flags.strict),
    ];
    for (name, is_set) in names {
        if is_set {
            write!(out, "{name} ").ok()?;
        }
    }
    say_part(alloc, out, flags.part)?;
    let count = files.len();
    write!(out, "{count}").ok()
}

/// A case of words: the flags, the ids of a part and how many files they ask for, or that it is nothing.
pub fn asked(alloc: Global, out: &mut String, fields: &mut Fields) -> Option<()> {
    let words = words_of(alloc, fields.next())?;
    match asked_of(alloc, &words).ok()? {
        Some((flags, files)) => say_asked(alloc, out, flags, files.as_slice()),
        None => say(out, "none"),
    }
}
