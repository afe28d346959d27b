// A conversion over a medium of which a byte is read with all its bits turned over.
use crate::answers::{said_outcome, say};
use crate::fields::{Fields, bytes_of};
use crate::stores::{Options, converted, options_of, script_of};
use crate::turned_medium::TurnedMedium;
use base_values::BlobVal;
use std::alloc::Global;
use std::fmt::Write;
use tile_bridge::{ConvertError, ConvertReport};
use tileset::Outcome;
use tileset_script::ParsedScript;

fn over_turned(
    alloc: Global,
    script: ParsedScript,
    options: Options,
) -> Result<ConvertReport, ConvertError> {
    let ParsedScript {
        options: given,
        mut base,
        mut patches,
        queries,
    } = script;
    let mut medium = TurnedMedium::new(alloc);
    converted(
        alloc,
        &mut base,
        &mut patches,
        &queries,
        &options_of(given),
        options,
        &mut medium,
    )
}

fn say_answer(alloc: Global, out: &mut String, answer: Option<&BlobVal>) -> Option<()> {
    match answer {
        None => say(out, "none "),
        Some(bytes) => {
            let digits = hex::encode(alloc, bytes.as_bytes()).ok()?;
            write!(out, "{digits} ").ok()
        }
    }
}

fn said_report(alloc: Global, out: &mut String, report: ConvertReport) -> Option<()> {
    for answer in report.answers.as_slice() {
        say_answer(alloc, out, answer.as_ref())?;
    }
    Some(())
}

/// A case of a script: its conversion, and the tiles that are asked for.
pub fn answer(
    alloc: Global,
    out: &mut String,
    fields: &mut Fields,
    options: Options,
) -> Option<()> {
    let script = bytes_of(alloc, fields.next())?;
    match over_turned(alloc, script_of(alloc, &script)?, options) {
        Ok(report) => said_report(alloc, out, report),
        Err(error) => said_outcome(alloc, out, Outcome::Refused(error)),
    }
}
