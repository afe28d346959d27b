// Moments, and what is kept beside bytes.
use mb_cache::{CacheEntryMeta, UnixSeconds};
use rows_shared::{Words, number, said, say};

// A moment from a number and back, and its order beside another.
fn moment(out: &mut String, words: &mut Words) -> Option<()> {
    let first = UnixSeconds::from(number::<i64>(words)?);
    let second = UnixSeconds(number::<i64>(words)?);
    say(out, &first)?;
    say(out, &i64::from(first))?;
    say(out, &first.cmp(&second))?;
    say(out, &(first == second))
}

// The defaults of what is kept beside bytes, and all three fields.
fn kept(out: &mut String) -> Option<()> {
    let none = CacheEntryMeta::default();
    let all = CacheEntryMeta::new(UnixSeconds(42), UnixSeconds(100), "etag-1");
    say(out, &none)?;
    say(out, &all)?;
    said(out, none == all)
}

pub fn answer(out: &mut String, words: &mut Words) -> Option<()> {
    match words.next()? {
        "of" => moment(out, words),
        "kept" => kept(out),
        _ => None,
    }
}
