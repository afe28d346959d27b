// Contents that are put under one number, as if it were the digest of each of them.
ghost use Rattle.std.specs.Prelude.{ℕ, List};
ghost use Rattle.pm_contents.specs.Contents.{Holds};

use pm_contents::Contents;
use rows_shared::{Mode, Mute, Words, bytes, number};
use std::alloc::Global;
use std::fmt::Write;

// Puts one, and appends where it begins, and whether it was known.
fn put(
    alloc: Global,
    out: &mut String,
    contents: &mut Contents,
    medium: &mut Mute,
    digest: u64,
    bytes: &[u8],
) -> Option<()>
    requires { (cs : List (List ℕ)) × Holds (λ x. digest) contents.old cs }
    ensures { (cs : List (List ℕ)) × Holds (λ x. digest) contents.new cs }
{
    if bytes.is_empty() || contents.total() > 1_000_000_000 {
        return None;
    }
    let Ok(sought) = contents.seek(alloc, medium, 0, digest, bytes) else {
        return None;
    };
    let word = if sought.is_new() { "new" } else { "known" };
    let Ok(place) = contents.put(medium, 0, bytes, sought) else {
        return None;
    };
    write!(out, "{word} {place} ").ok()
}

fn mode(word: &str) -> Option<Mode> {
    match word {
        "true" => Some(Mode::True),
        "last" => Some(Mode::Last),
        "past" => Some(Mode::Past),
        "short" => Some(Mode::Short),
        _ => None,
    }
}

// What the medium answers, the number, and then how many contents and the contents themselves. Their
// places, and how often was read.
pub fn answer(alloc: Global, out: &mut String, words: &mut Words) -> Option<()> {
    let mut medium = Mute::new(alloc, mode(words.next()?)?);
    let mut contents = Contents::new(alloc);
    let digest = number::<u64>(words)?;
    for _turn in 0..number::<u32>(words)? {
        let content = bytes(alloc, words)?;
        put(
            alloc,
            out,
            &mut contents,
            &mut medium,
            digest,
            content.as_slice(),
        )?;
    }
    let (count, total, reads) = (contents.count(), contents.total(), medium.reads);
    write!(out, "{count} {total} {reads} ").ok()
}
