// Calls over a medium that tells nothing, one of whose reads is answered by numbers in place of bytes.
use crate::kept::Kept;
use crate::{asking, extracting};
use rows_shared::{Mode, Mute, Words, number, say};
use std::alloc::Global;

// Which read, and the numbers: how many bytes are said to be asked for, `-` for as many as were, and how many came.
fn mode(words: &mut Words) -> Option<Mode> {
    let read = number(words)?;
    let asked = number(words);
    let got = number(words)?;
    Some(Mode::Numbers { read, asked, got })
}

// Then the call over the bytes that are held. The answer, and how often was read.
pub fn answer(alloc: Global, out: &mut String, kept: &mut Kept, words: &mut Words) -> Option<()> {
    let mode = mode(words)?;
    let mut source = Mute::holding(alloc, kept.backend.medium.as_bytes(), mode)?;
    match words.next()? {
        "extract" => extracting::over(alloc, out, kept, &mut source, words),
        call => asking::answer(alloc, out, &mut source, call, words),
    }?;
    say(out, &source.reads)
}
