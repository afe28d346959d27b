// Runs in which one call of the medium after another fails, and what a view of the medium's bytes then shows.
use crate::answers::{say, say_other, say_outcome};
use crate::counted::{MOST_CALLS, Object, run_with};
use crate::fields::{Fields, bytes_of, words_of};
use crate::in_memory::Ended;
use base_values::TextVal;
use pm_format::PmtResult;
use pm_reader::ArchiveView;
use std::alloc::Global;
use std::fmt::Write;
use tile_ids::TileId;
use tileset::Outcome;

fn tile<'b>(bytes: &'b [u8], id: TileId) -> PmtResult<Option<&'b [u8]>> {
    let view = ArchiveView::open(bytes)?;
    view.get_tile(id)
}

fn say_digits(alloc: Global, out: &mut String, bytes: &[u8]) -> Option<()> {
    let digits = hex::encode(alloc, bytes).ok()?;
    write!(out, " {digits}").ok()
}

fn say_tile(alloc: Global, out: &mut String, given: PmtResult<Option<&[u8]>>) -> Option<()> {
    match given {
        Ok(Some(bytes)) => say_digits(alloc, out, bytes),
        Ok(None) => say(out, " none"),
        Err(_) => say(out, " refused"),
    }
}

// How a run ended, and the tiles of the ids in what the medium then holds.
fn say_view(alloc: Global, out: &mut String, ended: &Ended, ids: &str) -> Option<()> {
    say_outcome(alloc, out, &ended.outcome)?;
    for word in ids.split(' ') {
        let id = TileId::new(word.parse::<u64>().ok()?).ok()?;
        say_tile(alloc, out, tile(ended.medium.as_bytes(), id))?;
    }
    Some(())
}

// Appends the same of a run in which this call of the medium fails; gives whether it is done.
fn say_run(
    alloc: Global,
    out: &mut String,
    words: &[TextVal],
    script: &[u8],
    ids: &str,
    number: u64,
) -> Option<bool> {
    let ended = run_with(alloc, words, script, Object::Medium, number)?;
    say_view(alloc, out, &ended, ids)?;
    Some(matches!(ended.outcome, Outcome::Done))
}

/// A case of words, a script and ids: each call of the medium fails in a run of its own, until none is left. Ends that
/// follow each other and are the same stand once.
pub fn answer(alloc: Global, out: &mut String, fields: &mut Fields) -> Option<()> {
    let words = words_of(alloc, fields.next())?;
    let script = bytes_of(alloc, fields.next())?;
    let ids = fields.next();
    let mut last = String::new(alloc);
    for number in 1..MOST_CALLS {
        let mut text = String::new(alloc);
        let done = say_run(alloc, &mut text, &words, &script, ids, number)?;
        say_other(alloc, out, &mut last, text.as_str())?;
        if done {
            return Some(());
        }
    }
    say(out, "no end")
}
