// Parts of archives: the tiles of boxes of columns and rows.
use crate::TOOL;
use crate::beside::put;
use crate::saying::{out_of_memory, unopened, usage};
use crate::wanted::{Wanted, source_status_for, take};
use pm_format::{FileBackend, FileMedium, Header, status};
use pm_reader::ReaderState;
use program_words::{Beside, Taken, begin_step, remove_beside, say_beside_fault, say_source_fault};
use tile_command::{Asked, Subcommand, boxes_of, is_outlined_within, max_tiles_of, part_status};
use tile_extract::{ExtractError, TilePart, ZoomBox, box_part, extract_intervals, said_boxes};

// How many tiles lie along the sides of all boxes at most.
const LONGEST: u64 = 20_000_000;

// Says why a part isn't extracted.
fn unextracted(
    rt: &HostRuntime,
    from: &str,
    (to, beside): (&str, &str),
    error: &ExtractError,
) -> u8 {
    match error {
        ExtractError::OutOfMemory => return out_of_memory(rt),
        ExtractError::Archive(error) => return unopened(rt, from, error),
        ExtractError::MediumFault => say_beside_fault(rt, TOOL, to, beside),
        ExtractError::TooManyTiles(limit) => {
            let _ = eprintln!(rt;
                "{TOOL}: {from}: the boxes have more than {limit} tiles; --max-tiles gives a greater limit, smaller boxes or fewer zooms a smaller part"
            );
        }
        other => {
            let _ = eprintln!(rt; "{TOOL}: {from}: {other}");
        }
    }
    part_status(error)
}

// Writes the archive of a part to an empty file.
fn write_part(
    rt: &HostRuntime,
    (from, source): (&str, &mut FileBackend),
    part: &TilePart,
    max_tiles: u64,
    path: &str,
) -> Result<(), ExtractError> {
    let Ok(mut medium) = FileMedium::open(rt, path) else {
        return Err(ExtractError::MediumFault);
    };
    let step = begin_step(rt, TOOL, "extracting", from);
    if let Err(error) = extract_intervals(rt.alloc(), source, part, max_tiles, &mut medium) {
        return Err(error);
    }
    if medium.flush().is_err() {
        return Err(ExtractError::MediumFault);
    }
    step.end(rt, TOOL);
    Ok(())
}

// Extracts a part by way of a file beside the archive's place, which is gone at the end.
fn extract_by(
    rt: &HostRuntime,
    from: &str,
    source: &mut FileBackend,
    part: &TilePart,
    (wanted, beside): (Wanted<'_>, &Beside),
) -> u8 {
    let Wanted { to, max_tiles, .. } = wanted;
    let ended = match write_part(rt, (from, source), part, max_tiles, beside.path()) {
        Ok(()) => put(rt, beside, to, !wanted.overwrite),
        Err(error) => unextracted(rt, from, (to, beside.path()), &error),
    };
    remove_beside(rt, TOOL, beside);
    ended
}

// Extracts a part of an archive.
fn extract_part(
    rt: &HostRuntime,
    from: &str,
    source: &mut FileBackend,
    part: &TilePart,
    wanted: Wanted<'_>,
) -> u8 {
    match take(rt, wanted) {
        Taken::Made(beside) => extract_by(rt, from, source, part, (wanted, &beside)),
        Taken::There => status::REFUSED,
        Taken::Failed => status::FAULT,
    }
}

// Whether there are boxes of the zooms that an archive says, and their sides aren't too long. Standard error says why
// they aren't taken.
fn are_taken(rt: &HostRuntime, from: &str, header: &Header, boxes: &[ZoomBox]) -> bool {
    if boxes.is_empty() {
        let (least, greatest) = (header.min_zoom, header.max_zoom);
        let _ = eprintln!(rt;
            "{TOOL}: {from} has the zooms {least} to {greatest}, of which there is no box; give boxes of other zooms"
        );
        return false;
    }
    if !is_outlined_within(boxes, LONGEST) {
        let _ = eprintln!(rt;
            "{TOOL}: more than {LONGEST} tiles lie along the sides of the boxes; give smaller ones, or none of the deepest zooms"
        );
        return false;
    }
    true
}

// The part that boxes are of an archive with a header; the status where there is none.
fn part_of(
    rt: &HostRuntime,
    from: &str,
    header: &Header,
    boxes: &[ZoomBox],
) -> Result<TilePart, u8> {
    let Ok(said) = said_boxes(rt.alloc(), boxes, header) else {
        return Err(out_of_memory(rt));
    };
    if !are_taken(rt, from, header, said.as_slice()) {
        return Err(status::REFUSED);
    }
    match box_part(rt.alloc(), said.as_slice()) {
        Ok(part) => Ok(part),
        Err(_) => Err(out_of_memory(rt)),
    }
}

// The header of an archive; the status where it doesn't open.
fn header_of(rt: &HostRuntime, from: &str, source: &mut FileBackend) -> Result<Header, u8> {
    match ReaderState::open(rt.alloc(), source) {
        Ok(state) => Ok(*state.get_header()),
        Err(error) => Err(unopened(rt, from, &error)),
    }
}

// Extracts boxes from an archive that is there.
fn extract_from(rt: &HostRuntime, from: &str, boxes: &[ZoomBox], wanted: Wanted<'_>) -> u8 {
    let Ok(mut source) = FileBackend::open(rt, from) else {
        say_source_fault(rt, TOOL, from);
        return status::INPUT_FAULT;
    };
    let header = match header_of(rt, from, &mut source) {
        Ok(header) => header,
        Err(status) => return status,
    };
    match part_of(rt, from, &header, boxes) {
        Ok(part) => extract_part(rt, from, &mut source, &part, wanted),
        Err(status) => status,
    }
}

// Extracts boxes from a file, where it is an archive and not the one that is written.
fn extract_boxes(rt: &HostRuntime, from: &str, boxes: &[ZoomBox], wanted: Wanted<'_>) -> u8 {
    match source_status_for(rt, from, wanted.to) {
        status::DONE => extract_from(rt, from, boxes, wanted),
        status => status,
    }
}

/// Writes the archive of the tiles of boxes, by the words.
pub fn extract(rt: &HostRuntime, asked: &Asked) -> u8 {
    let Some(max_tiles) = max_tiles_of(asked.value("--max-tiles")) else {
        return usage(rt, Subcommand::Extract);
    };
    let [from, to, words @ ..] = asked.places.as_slice() else {
        return usage(rt, Subcommand::Extract);
    };
    let wanted = Wanted {
        to: to.as_str(),
        max_tiles,
        overwrite: asked.has("--overwrite"),
    };
    match boxes_of(rt.alloc(), words) {
        Ok(Some(boxes)) => extract_boxes(rt, from.as_str(), boxes.as_slice(), wanted),
        Ok(None) => usage(rt, Subcommand::Extract),
        Err(_) => out_of_memory(rt),
    }
}
