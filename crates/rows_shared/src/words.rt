// The words of a line, and the text of its answer.
use base_values::TextVal;
use std::alloc::Global;
use std::fmt::{Debug, Display, Write};
use std::str;
use std::str::{FromStr, SplitWhitespace};

pub type Words<'a> = SplitWhitespace<'a>;

/// The next word as a number. None also where it is none, so that `-` stands for a number that is absent.
pub fn number<T: FromStr + Drop>(words: &mut Words) -> Option<T>
where
    T::Err: Drop,
{
    words.next()?.parse::<T>().ok()
}

// Appends so many bytes, each its place's rest by 251.
fn add_counted(bytes: &mut Vec<u8>, count: u32) -> Option<()> {
    for place in 0..count {
        bytes.push(u8::try_from(place % 251).ok()?).ok()?;
    }
    Some(())
}

// Appends bytes so many times over.
fn add_repeated(bytes: &mut Vec<u8>, piece: &[u8], count: u32) -> Option<()> {
    for _ in 0..count {
        bytes.extend_from_slice(piece).ok()?;
    }
    Some(())
}

// Appends one piece of a word of bytes.
fn add_piece(alloc: Global, bytes: &mut Vec<u8>, piece: &str) -> Option<()> {
    let Some(digits) = piece.strip_prefix('x') else {
        return add_counted(bytes, piece.strip_prefix('n')?.parse::<u32>().ok()?);
    };
    let Some((digits, count)) = digits.split_once('*') else {
        let decoded = hex::decode(alloc, digits).ok()?;
        return bytes.extend_from_slice(decoded.as_slice()).ok();
    };
    let decoded = hex::decode(alloc, digits).ok()?;
    add_repeated(bytes, decoded.as_slice(), count.parse::<u32>().ok()?)
}

/// The next word as bytes: pieces parted by commas, each `x` and hexadecimal digits, the same with `*` and how many
/// times over, or `n` and how many counted bytes.
pub fn bytes(alloc: Global, words: &mut Words) -> Option<Vec<u8>> {
    let mut bytes = Vec::new(alloc);
    for piece in words.next()?.split(',') {
        add_piece(alloc, &mut bytes, piece)?;
    }
    Some(bytes)
}

/// The next word as a text: `t` and the text, or the bytes of it.
pub fn text(alloc: Global, words: &mut Words) -> Option<String> {
    let word = words.next()?;
    if let Some(text) = word.strip_prefix('t') {
        return String::from_str(alloc, text).ok();
    }
    let mut bytes = Vec::new(alloc);
    for piece in word.split(',') {
        add_piece(alloc, &mut bytes, piece)?;
    }
    String::from_str(alloc, str::from_utf8(bytes.as_slice()).ok()?).ok()
}

/// The next word as an owned text.
pub fn owned(alloc: Global, words: &mut Words) -> Option<TextVal> {
    Some(TextVal::new(text(alloc, words)?))
}

/// The words that are left, as texts.
pub fn texts(alloc: Global, words: &mut Words) -> Option<Vec<TextVal>> {
    let mut texts = Vec::new(alloc);
    for word in words {
        let text = String::from_str(alloc, word.strip_prefix('t')?).ok()?;
        texts.push(TextVal::new(text)).ok()?;
    }
    Some(texts)
}

/// Appends a value and a space.
pub fn say<T: Debug>(out: &mut String, value: &T) -> Option<()> {
    write!(out, "{value:?} ").ok()
}

/// Appends a value that ends here, and a space.
pub fn said<T: Debug + Drop>(out: &mut String, value: T) -> Option<()> {
    say(out, &value)
}

/// Appends the text of a value and a bar.
pub fn say_text<T: Display>(out: &mut String, value: &T) -> Option<()> {
    write!(out, "{value}| ").ok()
}

/// Appends bytes as `x` and hexadecimal digits, and a space.
pub fn say_bytes(alloc: Global, out: &mut String, bytes: &[u8]) -> Option<()> {
    let digits = hex::encode(alloc, bytes).ok()?;
    write!(out, "x{digits} ").ok()
}
