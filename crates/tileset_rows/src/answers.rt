// How outcomes and bytes are printed.
use std::alloc::Global;
use std::fmt::Write;
use tile_bridge::ConvertError;
use tile_hash::HashAlgorithm;
use tileset::{Outcome, outcome_line, outcome_status};

/// Appends a text.
pub fn say(out: &mut String, text: &str) -> Option<()> {
    out.push_str(text).ok()
}

fn say_byte(out: &mut String, byte: u8) -> Option<()> {
    match byte {
        b'\n' => say(out, "\\n"),
        b'\\' => say(out, "\\\\"),
        b'|' => say(out, "\\x7c"),
        b' '..=b'~' => out.push(char::from(byte)).ok(),
        _ => write!(out, "\\x{byte:02x}").ok(),
    }
}

/// Appends bytes as a text, or their number and their MD5 where they are more than this many.
pub fn say_bytes(alloc: Global, out: &mut String, bytes: &[u8], most: usize) -> Option<()> {
    if bytes.len() > most {
        let count = bytes.len();
        let digest = HashAlgorithm::Md5.hash(alloc, bytes).ok()?;
        let digest = digest.as_str();
        return write!(out, "{count} bytes {digest}").ok();
    }
    for byte in bytes {
        say_byte(out, *byte)?;
    }
    Some(())
}

/// Appends the status and the line of an outcome.
pub fn say_outcome(alloc: Global, out: &mut String, outcome: &Outcome) -> Option<()> {
    let status = outcome_status(outcome);
    let line = outcome_line(alloc, outcome).ok()?;
    let line = line.as_str();
    let line = line.strip_suffix('\n').unwrap_or(line);
    write!(out, "{status}|").ok()?;
    say_bytes(alloc, out, line.as_bytes(), 4000)
}

/// The same for an outcome that ends here.
pub fn said_outcome(alloc: Global, out: &mut String, outcome: Outcome) -> Option<()> {
    say_outcome(alloc, out, &outcome)
}

/// Appends the status and the line of an outcome that no case of a few bytes ends in.
pub fn named(alloc: Global, out: &mut String, name: &str) -> Option<()> {
    let outcome = match name {
        "OutOfMemory" => Outcome::OutOfMemory,
        "InputTooLong" => Outcome::InputTooLong,
        "IndexEntryOverflow" => Outcome::Refused(ConvertError::IndexEntryOverflow),
        _ => return None,
    };
    said_outcome(alloc, out, outcome)
}

/// Appends byte 97 of a medium, the label of directories, where it has one.
pub fn say_label(out: &mut String, bytes: &[u8]) -> Option<()> {
    match bytes.get(97) {
        Some(label) => write!(out, "|{label}").ok(),
        None => write!(out, "|none").ok(),
    }
}

/// Appends a text that isn't the one before.
pub fn say_other(alloc: Global, out: &mut String, last: &mut String, text: &str) -> Option<()> {
    if last.as_str() == text {
        return Some(());
    }
    *last = String::from_str(alloc, text).ok()?;
    say(out, text)?;
    say(out, "|")
}
