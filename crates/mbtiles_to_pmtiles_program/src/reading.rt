// The sets that are converted, out of their files.
use crate::TOOL;
use crate::left_out::say_left_out;
use crate::saying::say_unread;
use base_values::TextVal;
use mb_reading::{ReadError, SetRead, read_file};
use mb_store::MemStore;
use program_words::begin_step;
use set_conversion::ConversionOutcome;

// The outcome of a run that a set isn't read for.
fn outcome_of(error: &ReadError) -> ConversionOutcome {
    match error {
        ReadError::NotASet | ReadError::Missing | ReadError::NotADatabase => {
            ConversionOutcome::NoSet
        }
        ReadError::NotRegular | ReadError::Unnamed | ReadError::Unread | ReadError::Beside { .. } =>
            ConversionOutcome::InputFault,
        ReadError::Unopened(_) | ReadError::Fault { .. } => ConversionOutcome::OtherForm,
        ReadError::OutOfMemory => ConversionOutcome::OutOfMemory,
        _ => ConversionOutcome::Unread,
    }
}

fn refused(rt: &HostRuntime, path: &str, error: ReadError) -> ConversionOutcome {
    say_unread(rt, path, &error);
    outcome_of(&error)
}

// The store of a set that was read, once what is left out of it is told. A strict run takes no set that lacks anything.
fn told(
    rt: &HostRuntime,
    path: &str,
    read: SetRead,
    is_strict: bool,
) -> Result<MemStore, ConversionOutcome> {
    let SetRead {
        mut store,
        left_out,
    } = read;
    if say_left_out(rt, path, &mut store, &left_out)? || !is_strict {
        return Ok(store);
    }
    Err(refuse_left_out(rt, path))
}

/// Says that a strict run takes no set that lacks anything.
pub fn refuse_left_out(rt: &HostRuntime, path: &str) -> ConversionOutcome {
    let _ = eprintln!(rt;
        "{TOOL}: {path} is refused: --strict takes no set that something is left out of"
    );
    ConversionOutcome::LeftOut
}

/// Reads the set in a file. Standard error says why it isn't read, or what of it is left out.
pub fn read_set(
    rt: &HostRuntime,
    path: &str,
    is_strict: bool,
) -> Result<MemStore, ConversionOutcome> {
    let step = begin_step(rt, TOOL, "reading", path);
    match read_file(rt, path) {
        Ok(read) => {
            step.end(rt, TOOL);
            told(rt, path, read, is_strict)
        }
        Err(error) => Err(refused(rt, path, error)),
    }
}

/// Reads the sets in files, one after another.
pub fn read_sets(
    rt: &HostRuntime,
    files: &[TextVal],
    is_strict: bool,
) -> Result<Vec<MemStore>, ConversionOutcome> {
    let mut sets = Vec::new(rt.alloc());
    for file in files {
        let set = read_set(rt, file.as_str(), is_strict)?;
        if sets.push(set).is_err() {
            return Err(ConversionOutcome::OutOfMemory);
        }
    }
    Ok(sets)
}
