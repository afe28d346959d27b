// Calls of tile_hash.
use rows_shared::{Words, bytes, said, say, say_bytes, say_text, text};
use std::alloc::Global;
use tile_hash::{HashAlgorithm, HashStream, fnv1a, md5_text, xxh3_64, xxh64};

fn given(alloc: Global, words: &mut Words) -> Option<HashAlgorithm> {
    HashAlgorithm::parse(text(alloc, words)?.as_str())
}

fn digest(alloc: Global, out: &mut String, words: &mut Words) -> Option<()> {
    let algorithm = given(alloc, words)?;
    let input = bytes(alloc, words)?;
    said(out, algorithm.hash(alloc, input.as_slice()))?;
    say_bytes(alloc, out, algorithm.hash_into(input.as_slice()).as_bytes())
}

fn name(alloc: Global, out: &mut String, words: &mut Words) -> Option<()> {
    let algorithm = given(alloc, words)?;
    say(out, &algorithm)?;
    say(out, &algorithm.as_str())?;
    say_text(out, &algorithm)
}

fn default(out: &mut String) -> Option<()> {
    say(out, &HashAlgorithm::default())
}

fn numbers(alloc: Global, out: &mut String, words: &mut Words) -> Option<()> {
    let input = bytes(alloc, words)?;
    said(out, fnv1a(input.as_slice()))?;
    said(out, xxh64(input.as_slice()))?;
    said(out, xxh3_64(input.as_slice()))
}

fn md5(alloc: Global, out: &mut String, words: &mut Words) -> Option<()> {
    let input = bytes(alloc, words)?;
    say_bytes(alloc, out, md5_text(input.as_slice()).as_slice())
}

fn pieces(alloc: Global, out: &mut String, words: &mut Words) -> Option<()> {
    let mut stream = HashStream::new(given(alloc, words)?);
    for _ in 0..u64::MAX {
        let Some(piece) = bytes(alloc, words) else {
            break;
        };
        stream.update(piece.as_slice());
    }
    said(out, stream.finish(alloc))
}

pub fn answer(alloc: Global, out: &mut String, words: &mut Words) -> Option<()> {
    match words.next()? {
        "digest" => digest(alloc, out, words),
        "name" => name(alloc, out, words),
        "default" => default(out),
        "numbers" => numbers(alloc, out, words),
        "md5" => md5(alloc, out, words),
        "pieces" => pieces(alloc, out, words),
        _ => None,
    }
}
