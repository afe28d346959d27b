// Archives that are laid over one another.
use crate::TOOL;
use crate::beside::put;
use crate::saying::{out_of_memory, unopened, usage};
use crate::wanted::{Wanted, source_status_for, take};
use base_values::TextVal;
use pm_format::{FileBackend, FileMedium, status};
use program_words::{Beside, Taken, begin_step, remove_beside, say_beside_fault, say_source_fault};
use tile_command::{Asked, Subcommand, join_status, max_tiles_of};
use tile_join::{JoinError, join};

// The path of the source with a number.
fn path_of(sources: &[TextVal], number: u64) -> &str {
    match sources.get(number as usize) {
        Some(path) => path.as_str(),
        None => "",
    }
}

// Says why archives aren't joined.
fn unjoined(
    rt: &HostRuntime,
    sources: &[TextVal],
    (to, beside): (&str, &str),
    error: &JoinError,
) -> u8 {
    match error {
        JoinError::OutOfMemory => return out_of_memory(rt),
        JoinError::Archive { source, error } => {
            return unopened(rt, path_of(sources, *source), error);
        }
        JoinError::MediumFault => say_beside_fault(rt, TOOL, to, beside),
        JoinError::Different { source } => {
            let path = path_of(sources, *source);
            let _ = eprintln!(rt;
                "{TOOL}: {path} has tiles of another type or compression than the last archive"
            );
        }
        JoinError::TooManyTiles(limit) => {
            let _ = eprintln!(rt;
                "{TOOL}: {to} would have more than {limit} tiles; --max-tiles gives a greater limit"
            );
        }
        other => {
            let _ = eprintln!(rt; "{TOOL}: {to}: {other}");
        }
    }
    join_status(error)
}

// Writes the archive of several to an empty file.
fn write_joined(
    rt: &HostRuntime,
    sources: &mut Vec<FileBackend>,
    wanted: Wanted<'_>,
    path: &str,
) -> Result<(), JoinError> {
    let Ok(mut medium) = FileMedium::open(rt, path) else {
        return Err(JoinError::MediumFault);
    };
    let step = begin_step(rt, TOOL, "joining", wanted.to);
    if let Err(error) = join(rt.alloc(), sources, wanted.max_tiles, &mut medium) {
        return Err(error);
    }
    if medium.flush().is_err() {
        return Err(JoinError::MediumFault);
    }
    step.end(rt, TOOL);
    Ok(())
}

// Joins archives by way of a file beside the new one's place, which is gone at the end.
fn join_by(
    rt: &HostRuntime,
    paths: &[TextVal],
    sources: &mut Vec<FileBackend>,
    (wanted, beside): (Wanted<'_>, &Beside),
) -> u8 {
    let ended = match write_joined(rt, sources, wanted, beside.path()) {
        Ok(()) => put(rt, beside, wanted.to, !wanted.overwrite),
        Err(error) => unjoined(rt, paths, (wanted.to, beside.path()), &error),
    };
    remove_beside(rt, TOOL, beside);
    ended
}

// Opens the files of the sources; the status where one doesn't open, or isn't an archive.
fn opened(rt: &HostRuntime, paths: &[TextVal], to: &str) -> Result<Vec<FileBackend>, u8> {
    let mut sources = Vec::new(rt.alloc());
    for path in paths {
        match source_status_for(rt, path.as_str(), to) {
            status::DONE => {}
            status => return Err(status),
        }
        let Ok(source) = FileBackend::open(rt, path.as_str()) else {
            say_source_fault(rt, TOOL, path.as_str());
            return Err(status::INPUT_FAULT);
        };
        if sources.push(source).is_err() {
            return Err(out_of_memory(rt));
        }
    }
    Ok(sources)
}

// Joins the archives in files.
fn join_files(rt: &HostRuntime, paths: &[TextVal], wanted: Wanted<'_>) -> u8 {
    let mut sources = match opened(rt, paths, wanted.to) {
        Ok(sources) => sources,
        Err(status) => return status,
    };
    match take(rt, wanted) {
        Taken::Made(beside) => join_by(rt, paths, &mut sources, (wanted, &beside)),
        Taken::There => status::REFUSED,
        Taken::Failed => status::FAULT,
    }
}

/// Writes the archive of several, by the words.
pub fn join_archives(rt: &HostRuntime, asked: &Asked) -> u8 {
    let Some(max_tiles) = max_tiles_of(asked.value("--max-tiles")) else {
        return usage(rt, Subcommand::Join);
    };
    let [paths @ .., to] = asked.places.as_slice() else {
        return usage(rt, Subcommand::Join);
    };
    let wanted = Wanted {
        to: to.as_str(),
        max_tiles,
        overwrite: asked.has("--overwrite"),
    };
    join_files(rt, paths, wanted)
}
