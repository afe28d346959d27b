// The lines of an archive's bytes in hexadecimal.
ghost use Rattle.std.specs.Prelude.{◌≡◌, ◌≤◌, ◌<◌, ◌+◌, ◌*◌, ◌^◌, ◌++◌, codes, length, nat_eq, take, OnOk};
ghost use Rattle.tileset.specs.Common.{encode_lower, list_all};
ghost use Rattle.tileset.specs.HexDump.{hex_dump, shown_line, hex_line, place_text, trimmed};

use hex_pairs::encode_into;
use std::alloc::AllocError;

/// How many bytes a line has at most.
pub(crate) const LINE: usize = 32;

#[tactic(auto, using(crate::proofs::HexDumpLemmas::trimming))]
// The digits without the zeros in front, of which at most eight go.
fn without_zeros(digits: &[u8]) -> &[u8]
    ensures { result.now ≡ trimmed 8 digits.now }
{
    let mut rest = digits;
    for _i in 0..8u32 {
        let Some((first, tail)) = rest.split_first() else {
            return rest;
        };
        if *first != 48 {
            return rest;
        }
        rest = tail;
    }
    rest
}

// Appends a place in hexadecimal, by its sixteen digits without zeros in front, and a space.
fn push_far_place(text: &mut Vec<u8>, at: u64) -> Result<(), AllocError>
    ensures { OnOk result (text.new.items ≡ text.old.items ++ (place_text at ++ codes " ")) }
{
    let mut digits = [48u8; 16];
    let _ = hex::encode_to_slice(&at.to_be_bytes(), &mut digits);
    text.extend_from_slice(without_zeros(&digits))?;
    text.push(b' ')?;
    Ok(())
}

// The eight digits of a place below 2^32, and a space.
fn near_place(at: u32) -> [u8; 9]
    ensures { result ≡ place_text at ++ codes " " }
{
    let mut digits = [b' '; 9];
    encode_into(&at.to_be_bytes(), &mut digits[..8]);
    digits
}

// Appends a place in hexadecimal, by at least eight digits, and a space.
fn push_place(text: &mut Vec<u8>, at: u64) -> Result<(), AllocError>
    ensures { OnOk result (text.new.items ≡ text.old.items ++ (place_text at ++ codes " ")) }
{
    match u32::try_from(at) {
        Ok(near) => text.extend_from_slice(&near_place(near)),
        Err(_) => push_far_place(text, at),
    }
}

// The digits of some bytes, and line feeds behind them.
fn ended_digits(bytes: &[u8]) -> [u8; 65]
    requires { length bytes.now ≤ 32 }
    ensures { take (2 * length bytes.now + 1) result ≡ encode_lower bytes.now ++ codes "\n" }
{
    let mut line = [b'\n'; 65];
    encode_into(bytes, &mut line[..2 * bytes.len()]);
    line
}

// Appends the line of some bytes at a place.
fn push_line(text: &mut Vec<u8>, at: u64, bytes: &[u8]) -> Result<(), AllocError>
    requires { length bytes.now ≤ 32 }
    ensures { OnOk result (text.new.items ≡ text.old.items ++ hex_line at bytes.now) }
{
    push_place(text, at)?;
    text.extend_from_slice(&ended_digits(bytes)[..2 * bytes.len() + 1])
}

fn is_blank(bytes: &[u8]) -> bool
    ensures { result ≡ list_all (λ b. nat_eq b 0) bytes.now }
{
    bytes.iter().all(|byte| *byte == 0)
}

// Appends that line, unless its bytes are all zero.
fn push_shown(text: &mut Vec<u8>, at: u64, bytes: &[u8]) -> Result<(), AllocError>
    requires { length bytes.now ≤ 32 }
    ensures { OnOk result (text.new.items ≡ text.old.items ++ shown_line at bytes.now) }
{
    if is_blank(bytes) {
        return Ok(());
    }
    push_line(text, at, bytes)
}

/// Appends the lines of these bytes, the first of them at a place.
pub(crate) fn push_hex_dump(text: &mut Vec<u8>, at: u64, bytes: &[u8]) -> Result<(), AllocError>
    requires { at + length bytes.now < 2 ^ 64 }
    ensures { OnOk result (text.new.items ≡ text.old.items ++ hex_dump at bytes.now) }
{
    let mut place = at;
    let mut rest = bytes;
    while !rest.is_empty() {
        let (line, tail) = rest.split_at(rest.len().min(LINE));
        push_shown(text, place, line)?;
        place = place.saturating_add(LINE as u64);
        rest = tail;
    }
    Ok(())
}
