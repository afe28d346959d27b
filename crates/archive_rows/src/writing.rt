// Whole archives: the call of the medium that fails, 0 for none, and then how many adds and the adds themselves.
use crate::adds::{all_stated, all_streamed};
use crate::kept::Kept;
use crate::media::failing;
use pm_format::MemMedium;
use pm_writer::{PmTilesStreamWriter, PmTilesWriter};
use rows_shared::{Counted, Words, number, said};
use std::alloc::Global;

// A writer that borrows its medium from the beginning.
fn create(
    alloc: Global,
    out: &mut String,
    options: &PmTilesWriter,
    words: &mut Words,
) -> Option<MemMedium> {
    let mut medium = MemMedium::new(alloc);
    medium.fail_at(failing(alloc, number(words)?)?);
    match options.create(alloc, &mut medium) {
        Ok(writer) => {
            let mut writer = writer;
            all_streamed(alloc, out, &mut writer, words)?;
            said(out, writer.finalize())?;
        }
        Err(error) => said(out, error)?,
    }
    Some(medium)
}

// A writer over a state that was begun before.
fn over(
    alloc: Global,
    out: &mut String,
    options: &PmTilesWriter,
    words: &mut Words,
) -> Option<MemMedium> {
    let mut medium = MemMedium::new(alloc);
    medium.fail_at(failing(alloc, number(words)?)?);
    match options.start(alloc, &mut medium) {
        Ok(state) => {
            let mut writer = PmTilesStreamWriter::over(&mut medium, state);
            all_streamed(alloc, out, &mut writer, words)?;
            said(out, writer.finalize())?;
        }
        Err(error) => said(out, error)?,
    }
    Some(medium)
}

// A state beside its medium.
fn start(
    alloc: Global,
    out: &mut String,
    options: &PmTilesWriter,
    words: &mut Words,
) -> Option<MemMedium> {
    let mut medium = MemMedium::new(alloc);
    medium.fail_at(failing(alloc, number(words)?)?);
    match options.start(alloc, &mut medium) {
        Ok(state) => {
            let mut state = state;
            state.reserve(number(words)?).ok()?;
            all_stated(alloc, out, &mut state, &mut medium, words)?;
            said(out, state.finalize(&mut medium))?;
        }
        Err(error) => said(out, error)?,
    }
    Some(medium)
}

pub fn answer(alloc: Global, out: &mut String, kept: &mut Kept, words: &mut Words) -> Option<()> {
    let medium = match words.next()? {
        "create" => create(alloc, out, &kept.options, words),
        "over" => over(alloc, out, &kept.options, words),
        "start" => start(alloc, out, &kept.options, words),
        _ => None,
    };
    kept.backend = Counted::new(medium?);
    Some(())
}
