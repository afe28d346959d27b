// Texts as words of a script.
ghost use Rattle.std.specs.Prelude.{◌≡◌, ◌≤◌, ◌∷◌, length, IfOk, IfSome, MatchOption};
ghost use Rattle.tileset_script.specs.Common.{hex_digit_value, option_map};
ghost use Rattle.tileset_script.specs.Text.{byte_of, if_utf8, text_of, unescaped};

use base_values::{OutOfMemory, TextVal};
use std::alloc::Global;

// The value of a hexadecimal digit of either case.
fn digit_value(byte: u8) -> Option<u8>
    ensures { result ≡ hex_digit_value byte }
{
    match byte {
        b'A'..=b'F' => Some(byte - b'A' + 10),
        b'a'..=b'f' => Some(byte - b'a' + 10),
        b'0'..=b'9' => Some(byte - b'0'),
        _ => None,
    }
}

// The byte of two hexadecimal digits.
fn byte_of(high: u8, low: u8) -> Option<u8>
    ensures { result ≡ byte_of high low }
{
    let high = digit_value(high)?;
    let low = digit_value(low)?;
    Some(high * 16 + low)
}

// The byte that the two digits in front give, and what follows them.
#[tactic(auto, using(crate::proofs::TextLemmas::escapes))]
fn escaped_byte(digits: &[u8]) -> Option<(u8, &[u8])>
    ensures value { MatchOption result (unescaped (37 ∷ digits.now) ≡ None)
        (λ r. unescaped (37 ∷ digits.now) ≡ option_map (λ bytes. r.0 ∷ bytes) (unescaped r.1.now)) }
    ensures shorter { IfSome result (λ r. length r.1.now ≤ length digits.now) }
{
    match digits {
        [high, low, rest @ ..] => {
            let byte = byte_of(*high, *low)?;
            Some((byte, rest))
        }
        _ => None,
    }
}

// The byte that the first one of a word begins, and what follows it.
#[tactic(auto, using(crate::proofs::TextLemmas::next_bytes))]
fn next_byte(first: u8, tail: &[u8]) -> Option<(u8, &[u8])>
    ensures value { MatchOption result (unescaped (first ∷ tail.now) ≡ None)
        (λ r. unescaped (first ∷ tail.now) ≡ option_map (λ bytes. r.0 ∷ bytes)
        (unescaped r.1.now)) }
    ensures shorter { IfSome result (λ r. length r.1.now ≤ length tail.now) }
{
    if first == b'%' {
        return escaped_byte(tail);
    }
    if first.is_ascii_graphic() {
        Some((first, tail))
    } else {
        None
    }
}

// The bytes that a word stands for, with two hexadecimal digits behind each `%`.
fn unescape(alloc: Global, word: &[u8]) -> Result<Option<Vec<u8>>, OutOfMemory>
    ensures { IfOk result (λ bytes. option_map (λ v. v.items) bytes ≡ unescaped word.now) }
{
    let mut bytes = Vec::with_capacity(alloc, word.len())?;
    let mut rest = word;
    while let [first, tail @ ..] = rest {
        let Some((byte, tail)) = next_byte(*first, tail) else {
            return Ok(None);
        };
        bytes.push(byte)?;
        rest = tail;
    }
    Ok(Some(bytes))
}

/// The text that a word spells, or None: `t`, and UTF-8 in the bytes 21 to 7E, where `%` and two hexadecimal
/// digits stand for a byte.
pub(crate) fn parse_text(alloc: Global, word: &[u8]) -> Result<Option<TextVal>, OutOfMemory>
    ensures { IfOk result (λ text. text ≡ text_of word.now) }
{
    let [b't', escaped @ ..] = word else {
        return Ok(None);
    };
    let Some(bytes) = unescape(alloc, escaped)? else {
        return Ok(None);
    };
    Ok(text_in(bytes))
}

// The text in UTF-8 that bytes are.
fn text_in(bytes: Vec<u8>) -> Option<TextVal>
    ensures { result ≡ if_utf8 bytes.items }
{
    match String::from_utf8(bytes) {
        Ok(text) => Some(TextVal::new(text)),
        Err(_) => None,
    }
}
