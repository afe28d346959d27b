// Lines as words: `_` stands for a space and `/` for a line feed.
use std::alloc::Global;

fn spelled_byte(byte: u8) -> u8 {
    match byte {
        b'_' => b' ',
        b'/' => b'\n',
        other => other,
    }
}

// The line or lines of a word.
pub fn spelled(alloc: Global, word: &str) -> Option<Vec<u8>> {
    let mut line = Vec::new(alloc);
    for byte in word.as_bytes() {
        line.push(spelled_byte(*byte)).ok()?;
    }
    Some(line)
}

fn shown_byte(byte: u8) -> u8 {
    match byte {
        b' ' => b'_',
        b'\n' => b'/',
        other => other,
    }
}

// Appends a text in the same way, and a space.
pub fn show(out: &mut String, text: &[u8]) -> Option<()> {
    for byte in text {
        out.push(char::from(shown_byte(*byte))).ok()?;
    }
    out.push(' ').ok()
}
