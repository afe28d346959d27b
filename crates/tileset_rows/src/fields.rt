// The fields of a line, and the bytes that they spell.
use base_values::TextVal;
use std::alloc::Global;

/// What is left of a line.
#[derive(Drop)]
pub struct Fields<'a> {
    rest: &'a str,
}

impl<'a> Fields<'a> {
    pub fn new(line: &'a str) -> Fields<'a> {
        Fields { rest: line }
    }

    /// The next field, empty where none is left.
    pub fn next(&mut self) -> &'a str {
        match self.rest.split_once('|') {
            Some((field, rest)) => {
                self.rest = rest;
                field
            }
            None => {
                let field = self.rest;
                self.rest = "";
                field
            }
        }
    }
}

// Where one is within an escape.
#[derive(Clone, Copy)]
enum Place {
    Plain,
    Escape,
    High,
    Low(u8),
}

fn digit(byte: u8) -> Option<u8> {
    match byte {
        b'0'..=b'9' => Some(byte - b'0'),
        b'a'..=b'f' => Some(byte - b'a' + 10),
        _ => None,
    }
}

// Takes one byte of a text, and gives the byte that it ends, if any.
fn step(place: Place, byte: u8) -> Option<(Place, Option<u8>)> {
    match (place, byte) {
        (Place::Plain, b'\\') => Some((Place::Escape, None)),
        (Place::Plain, _) => Some((Place::Plain, Some(byte))),
        (Place::Escape, b'n') => Some((Place::Plain, Some(b'\n'))),
        (Place::Escape, b'\\') => Some((Place::Plain, Some(b'\\'))),
        (Place::Escape, b'x') => Some((Place::High, None)),
        (Place::Escape, _) => None,
        (Place::High, _) => Some((Place::Low(digit(byte)?), None)),
        (Place::Low(high), _) => {
            Some((Place::Plain, Some(high.wrapping_mul(16) | digit(byte)?)))
        }
    }
}

/// The bytes that a text spells.
pub fn bytes_of(alloc: Global, text: &str) -> Option<Vec<u8>> {
    let mut bytes = Vec::new(alloc);
    let mut place = Place::Plain;
    for byte in text.as_bytes() {
        let (next, ended) = step(place, *byte)?;
        place = next;
        if let Some(byte) = ended {
            bytes.push(byte).ok()?;
        }
    }
    Some(bytes)
}

/// The words of a field, parted by single spaces; none where it is empty.
pub fn words_of(alloc: Global, field: &str) -> Option<Vec<TextVal>> {
    let mut words = Vec::new(alloc);
    if field.is_empty() {
        return Some(words);
    }
    for word in field.split(' ') {
        words
            .push(TextVal::new(String::from_str(alloc, word).ok()?))
            .ok()?;
    }
    Some(words)
}
