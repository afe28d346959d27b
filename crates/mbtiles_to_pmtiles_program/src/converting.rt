// Sets in files are converted to an archive, which is put at its place once it is whole.
use crate::TOOL;
use crate::paged::{Paged, convert_pages};
use crate::reading::{read_set, read_sets};
use crate::saying::say_outcome;
use base_values::TextVal;
use mb_store::MemStore;
use pm_format::FileMedium;
use program_words::{
    Beside, Put, Taken, are_one_file, begin_step, put_beside, put_over, remove_beside, take_beside,
    take_over,
};
use set_conversion::{ConversionFlags, ConversionOutcome, OptionsOfSet, SetPart, part_intervals};
use std::fs;
use tile_bridge::{ConvertReport, convert_owned};
use tile_extract::IdIntervals;
use tile_streaming::{StreamError, StreamReport, convert_part};

/// Whether the hash of all tiles is made: where it is asked for, and where patches are put on a set that is converted
/// whole.
pub fn is_hashed(flags: ConversionFlags, is_patched: bool) -> bool {
    flags.hash || is_patched && flags.part == SetPart::Whole
}

// Reads the base and, unless they were read, the patches into memory.
fn read_held(
    rt: &HostRuntime,
    flags: ConversionFlags,
    (first, rest): (&str, &[TextVal]),
    read: Option<Vec<MemStore>>,
) -> Result<(MemStore, Vec<MemStore>), ConversionOutcome> {
    let base = read_set(rt, first, flags.strict)?;
    let patches = match read {
        Some(patches) => patches,
        None => read_sets(rt, rest, flags.strict)?,
    };
    Ok((base, patches))
}

// The report of a conversion of stores in memory, where it is whole.
fn convert_whole(
    rt: &HostRuntime,
    flags: ConversionFlags,
    (base, patches): (MemStore, Vec<MemStore>),
    medium: &mut FileMedium,
) -> Result<StreamReport, ConversionOutcome> {
    let is_hashed = flags.verify || is_hashed(flags, !patches.is_empty());
    let options = OptionsOfSet::new(flags.force, flags.verify);
    let report = convert_owned(rt.alloc(), base, patches, &[], &options, medium)?;
    Ok(reported(report, is_hashed))
}

// The same of a part.
fn convert_some(
    rt: &HostRuntime,
    (flags, part): (ConversionFlags, &Option<IdIntervals>),
    (base, patches): (MemStore, Vec<MemStore>),
    medium: &mut FileMedium,
) -> Result<StreamReport, ConversionOutcome> {
    let mut base = base;
    let mut patches = patches;
    let options = OptionsOfSet::new(flags.force, flags.verify);
    match convert_part(
        rt.alloc(),
        &mut base,
        &mut patches,
        part,
        &[],
        &options,
        flags.hash,
        medium,
    ) {
        Ok(report) => Ok(report),
        Err(StreamError::Convert(error)) => Err(ConversionOutcome::from(error)),
        Err(StreamError::StoreChanged) => Err(ConversionOutcome::Unread),
    }
}

// Converts stores that are read into memory to a medium.
fn convert_held(
    rt: &HostRuntime,
    (flags, part): (ConversionFlags, &Option<IdIntervals>),
    (first, rest): (&str, &[TextVal]),
    read: Option<Vec<MemStore>>,
    medium: &mut FileMedium,
) -> Result<StreamReport, ConversionOutcome> {
    let stores = read_held(rt, flags, (first, rest), read)?;
    let step = begin_step(rt, TOOL, "converting", first);
    let report = match part {
        None => convert_whole(rt, flags, stores, medium)?,
        Some(_) => convert_some(rt, (flags, part), stores, medium)?,
    };
    if medium.flush().is_err() {
        return Err(ConversionOutcome::MediumFault);
    }
    step.end(rt, TOOL);
    Ok(report)
}

// The report with the hash where it is wanted.
fn reported(report: ConvertReport, is_hashed: bool) -> StreamReport {
    let ConvertReport {
        answers,
        aggregate,
        places,
    } = report;
    StreamReport {
        answers,
        aggregate: if is_hashed { Some(aggregate) } else { None },
        places,
    }
}

// Converts into the file beside the archive's place: the base from the pages of its file, where these are understood,
// and else by way of memory.
fn convert_beside(
    rt: &HostRuntime,
    flags: ConversionFlags,
    sets: &[TextVal],
    beside: &str,
) -> Result<StreamReport, ConversionOutcome> {
    let [first, rest @ ..] = sets else {
        return Err(ConversionOutcome::Usage);
    };
    let Ok(mut medium) = FileMedium::open(rt, beside) else {
        return Err(ConversionOutcome::MediumFault);
    };
    let Ok(part) = part_intervals(rt.alloc(), flags.part) else {
        return Err(ConversionOutcome::OutOfMemory);
    };
    let files = (first.as_str(), rest);
    match convert_pages(rt, (flags, &part), files, &mut medium) {
        Paged::Ended(answer) => answer,
        Paged::Refused(patches) => { convert_held(rt, (flags, &part), files, patches, &mut medium) }
    }
}

// Makes the file beside the archive's place.
fn take(rt: &HostRuntime, flags: ConversionFlags, out: &str) -> Taken {
    if flags.overwrite {
        return take_over(rt, TOOL, out);
    }
    if fs::symlink_metadata(rt, out).is_ok() {
        let _ = eprintln!(rt; "{TOOL}: {out} is there; --overwrite replaces it");
        return Taken::There;
    }
    take_beside(rt, TOOL, out)
}

// Puts an archive that is whole at its place.
fn put(
    rt: &HostRuntime,
    flags: ConversionFlags,
    (beside, out): (&Beside, &str),
    report: StreamReport,
) -> ConversionOutcome {
    let put = if flags.overwrite {
        put_over(rt, TOOL, beside, out)
    } else {
        put_beside(rt, TOOL, beside, out)
    };
    match put {
        Put::Done => ConversionOutcome::Done(report),
        Put::There => ConversionOutcome::Taken,
        Put::Failed => ConversionOutcome::MediumFault,
    }
}

// Converts by way of a file beside the archive's place, which is gone at the end.
fn convert_by(
    rt: &HostRuntime,
    flags: ConversionFlags,
    sets: &[TextVal],
    (beside, out): (&Beside, &str),
) -> ConversionOutcome {
    let outcome = match convert_beside(rt, flags, sets, beside.path()) {
        Ok(report) => put(rt, flags, (beside, out), report),
        Err(outcome) => {
            say_outcome(rt, sets, (beside.path(), out), &outcome);
            outcome
        }
    };
    remove_beside(rt, TOOL, beside);
    outcome
}

// Whether the place of the archive is that of one of the sets. Standard error says so.
fn is_a_set(rt: &HostRuntime, sets: &[TextVal], out: &str) -> bool {
    for set in sets {
        if are_one_file(rt, set.as_str(), out) {
            let _ = eprintln!(rt;
                "{TOOL}: {out} is one of the sets; give another name for the archive"
            );
            return true;
        }
    }
    false
}

/// Converts the sets in all files but the last to an archive in that one.
pub fn convert_files(
    rt: &HostRuntime,
    flags: ConversionFlags,
    files: &[TextVal],
) -> ConversionOutcome {
    let [sets @ .., last] = files else {
        return ConversionOutcome::Usage;
    };
    let out = last.as_str();
    if is_a_set(rt, sets, out) {
        return ConversionOutcome::Taken;
    }
    match take(rt, flags, out) {
        Taken::Made(beside) => convert_by(rt, flags, sets, (&beside, out)),
        Taken::There => ConversionOutcome::Taken,
        Taken::Failed => ConversionOutcome::MediumFault,
    }
}
