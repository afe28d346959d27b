// Archives that are joined.
use crate::kept::Kept;
use crate::media::holding;
use pm_format::MemMedium;
use rows_shared::{Counted, Words, number, said, say};
use std::alloc::Global;
use tile_join::join;

// Puts the bytes that are held behind those of the sources so far.
fn hold(alloc: Global, kept: &mut Kept) -> Option<()> {
    let bytes = kept.backend.medium.as_bytes().to_vec(alloc).ok()?;
    kept.sources.push(MemMedium::from_bytes(bytes)).ok()
}

// The sources, of which that with a number has a read that fails.
fn sources_of(
    alloc: Global,
    held: &[MemMedium],
    hindered: usize,
    call: u64,
) -> Option<Vec<Counted>> {
    let mut sources = Vec::new(alloc);
    for (index, medium) in held.iter().enumerate() {
        let fails = if index == hindered { call } else { 0 };
        let source = holding(alloc, medium.as_bytes(), fails)?;
        sources.push(Counted::new(source)).ok()?;
    }
    Some(sources)
}

fn say_calls(out: &mut String, sources: &[Counted]) -> Option<()> {
    for source in sources {
        say(out, &source.calls)?;
    }
    Some(())
}

// The call of the medium that fails, the source of whose reads one fails, that read, and the most tiles: the answer,
// byte 97 of the medium, where there is one, and how often each source was read.
fn run(alloc: Global, out: &mut String, kept: &mut Kept, words: &mut Words) -> Option<()> {
    kept.extracted = holding(alloc, kept.begun.as_slice(), number(words)?)?;
    let hindered = number::<usize>(words)?;
    let call = number::<u64>(words)?;
    let max_tiles = number::<u64>(words)?;
    let mut sources = sources_of(alloc, kept.sources.as_slice(), hindered, call)?;
    said(
        out,
        join(alloc, &mut sources, max_tiles, &mut kept.extracted),
    )?;
    say(out, &kept.extracted.as_bytes().get(97))?;
    say_calls(out, sources.as_slice())
}

pub fn answer(alloc: Global, out: &mut String, kept: &mut Kept, words: &mut Words) -> Option<()> {
    match words.next()? {
        "none" => {
            kept.sources = Vec::new(alloc);
            Some(())
        }
        "hold" => hold(alloc, kept),
        "run" => run(alloc, out, kept, words),
        _ => None,
    }
}
