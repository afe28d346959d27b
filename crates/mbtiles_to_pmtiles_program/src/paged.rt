// A set is converted from the pages of its file, with one content of it in memory at a time. Patches are read before.
use crate::TOOL;
use crate::converting::is_hashed;
use crate::left_out::say_left_out;
use crate::reading::{read_sets, refuse_left_out};
use base_values::TextVal;
use mb_file::SetFile;
use mb_store::MemStore;
use pm_format::{FileMedium, Medium};
use program_words::begin_step;
use set_conversion::{ConversionFlags, ConversionOutcome, OptionsOfSet};
use tile_bridge::ConvertError;
use tile_extract::IdIntervals;
use tile_streaming::{StreamError, StreamReport, convert_part};

/// What comes of a conversion from pages.
#[derive(Drop)]
pub enum Paged {
    /// It ended so.
    Ended(Result<StreamReport, ConversionOutcome>),
    /// The set isn't converted so: the way by memory says why, or converts it. The patches, if they were read.
    Refused(Option<Vec<MemStore>>),
}

// Why a conversion from pages ends.
#[derive(Drop)]
enum Stop {
    // With an outcome.
    With(ConversionOutcome),
    // The way by memory goes on.
    Refused,
}

// Whether a conversion is refused for what the base has.
fn refuses_base(error: &ConvertError) -> bool {
    match error {
        ConvertError::Store { place, .. } => *place == 0,
        _ => false,
    }
}

// Whether it ends because the base's file failed.
fn fails_base(error: &ConvertError) -> bool {
    match error {
        ConvertError::StoreFault { place } => *place == 0,
        _ => false,
    }
}

// What an error that a conversion by memory has too comes to.
fn stopped(
    rt: &HostRuntime,
    path: &str,
    (file, medium): (&mut SetFile, &mut FileMedium),
    error: ConvertError,
) -> Stop {
    if refuses_base(&error) {
        return Stop::Refused;
    }
    if fails_base(&error) {
        return faulted(rt, path, file, medium);
    }
    Stop::With(ConversionOutcome::from(error))
}

// What the error of a conversion from pages comes to.
fn ended(
    rt: &HostRuntime,
    path: &str,
    (file, medium): (&mut SetFile, &mut FileMedium),
    error: StreamError,
) -> Stop {
    match error {
        StreamError::StoreChanged => changed(rt, path),
        StreamError::Convert(error) => stopped(rt, path, (file, medium), error),
    }
}

// What a fault of the file comes to. Before anything was written it is a form of the file that isn't read so.
fn faulted(rt: &HostRuntime, path: &str, file: &mut SetFile, medium: &mut FileMedium) -> Stop {
    if let Ok(0) = medium.len() {
        return Stop::Refused;
    }
    if file.test_still(rt).is_err() {
        return changed(rt, path);
    }
    if let Some(fault) = file.set.last_fault() {
        let _ = eprintln!(rt; "{TOOL}: {path}: {fault}");
    }
    Stop::With(ConversionOutcome::InputFault)
}

fn changed(rt: &HostRuntime, path: &str) -> Stop {
    let _ = eprintln!(rt; "{TOOL}: {path} changed while it was read; try again");
    Stop::With(ConversionOutcome::Unread)
}

// Tells what is left out of a set of which all rows were read, and refuses it where nothing may be.
fn told(
    rt: &HostRuntime,
    path: &str,
    file: &mut SetFile,
    is_strict: bool,
) -> Result<(), ConversionOutcome> {
    let left_out = file.set.left_out();
    if say_left_out(rt, path, &mut file.set, &left_out)? || !is_strict {
        return Ok(());
    }
    Err(refuse_left_out(rt, path))
}

// What is tested once the archive is written: that its set stood still, and what is left out of it.
fn finish(
    rt: &HostRuntime,
    flags: ConversionFlags,
    path: &str,
    (file, medium): (&mut SetFile, &mut FileMedium),
) -> Option<Stop> {
    if file.test_still(rt).is_err() {
        return Some(changed(rt, path));
    }
    if let Err(outcome) = told(rt, path, file, flags.strict) {
        return Some(Stop::With(outcome));
    }
    match medium.flush() {
        Ok(()) => None,
        Err(_) => Some(Stop::With(ConversionOutcome::MediumFault)),
    }
}

// Converts the set of a file that is opened, and patches to it.
fn convert_file(
    rt: &HostRuntime,
    (flags, part): (ConversionFlags, &Option<IdIntervals>),
    path: &str,
    (file, patches): (&mut SetFile, &mut Vec<MemStore>),
    medium: &mut FileMedium,
) -> Result<StreamReport, Stop> {
    let step = begin_step(rt, TOOL, "converting", path);
    let options = OptionsOfSet::new(flags.force, flags.verify);
    let is_hashed = is_hashed(flags, !patches.is_empty());
    match convert_part(
        rt.alloc(),
        &mut file.set,
        patches,
        part,
        &[],
        &options,
        is_hashed,
        medium,
    ) {
        Ok(report) => {
            step.end(rt, TOOL);
            match finish(rt, flags, path, (file, medium)) {
                None => Ok(report),
                Some(stop) => Err(stop),
            }
        }
        Err(error) => Err(ended(rt, path, (file, medium), error)),
    }
}

// Reads the patches to the set of a file that is opened, and converts it.
fn convert_opened(
    rt: &HostRuntime,
    (flags, part): (ConversionFlags, &Option<IdIntervals>),
    (path, rest): (&str, &[TextVal]),
    file: &mut SetFile,
    medium: &mut FileMedium,
) -> Paged {
    let mut patches = match read_sets(rt, rest, flags.strict) {
        Ok(patches) => patches,
        Err(outcome) => return Paged::Ended(Err(outcome)),
    };
    match convert_file(rt, (flags, part), path, (file, &mut patches), medium) {
        Ok(report) => Paged::Ended(Ok(report)),
        Err(Stop::With(outcome)) => Paged::Ended(Err(outcome)),
        Err(Stop::Refused) => Paged::Refused(Some(patches)),
    }
}

/// Converts a part of the set of a file, and of patches in the other files to it, to an empty medium, which stays empty
/// where that is refused.
pub fn convert_pages(
    rt: &HostRuntime,
    (flags, part): (ConversionFlags, &Option<IdIntervals>),
    (path, rest): (&str, &[TextVal]),
    medium: &mut FileMedium,
) -> Paged {
    let step = begin_step(rt, TOOL, "reading", path);
    match SetFile::open(rt, path) {
        Ok(mut file) => {
            step.end(rt, TOOL);
            convert_opened(rt, (flags, part), (path, rest), &mut file, medium)
        }
        Err(_) => Paged::Refused(None),
    }
}
