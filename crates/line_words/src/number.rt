// Decimal numbers as words.
ghost use Rattle.std.specs.Prelude.{◌≡◌, ◌≤◌, ◌<◌, ◌^◌, ◌∷◌, [], IfSome};
ghost use Rattle.line_words.specs.Common.{option_and_then};
ghost use Rattle.line_words.specs.Number.{at_most, digits_behind, integer_below, negative, number_to, IsBelow};

// A number with one more digit behind it, where that is no more than a limit.
fn with_digit(number: u64, byte: u8, limit: u64) -> Option<u64>
    ensures { result ≡ option_and_then (at_most limit) (digits_behind number (byte ∷ [])) }
{
    if !byte.is_ascii_digit() {
        return None;
    }
    let more = number.checked_mul(10)?.checked_add(u64::from(byte - b'0'))?;
    if more <= limit { Some(more) } else { None }
}

/// The number from 0 to a limit that a word spells: decimal digits without a leading zero, but `0` itself.
pub fn parse_number(word: &[u8], limit: u64) -> Option<u64>
    ensures value { result ≡ number_to limit word.now }
    ensures within { IfSome result (λ n. n ≤ limit) }
{
    if let [] | [b'0', _, ..] = word {
        return None;
    }
    let mut number = 0;
    for byte in word {
        number = with_digit(number, *byte, limit)?;
    }
    Some(number)
}

/// The number from -limit to limit - 1 that a word spells, with `-` in front of a negative one. `-0` is none.
pub fn parse_integer(word: &[u8], limit: u64) -> Option<i64>
    requires least { 0 < limit }
    requires most { limit ≤ 2 ^ 63 }
    ensures value { result ≡ integer_below limit word.now }
    ensures within { IfSome result (IsBelow limit) }
{
    match word {
        [b'-', digits @ ..] => negative(parse_number(digits, limit)?),
        _ => Some(parse_number(word, limit - 1)? as i64),
    }
}

// The negative number of a size.
fn negative(size: u64) -> Option<i64>
    requires { size ≤ 2 ^ 63 }
    ensures value { result ≡ negative size }
    ensures within { IfSome result (IsBelow size) }
{
    if size == 0 {
        None
    } else {
        Some(-((size - 1) as i64) - 1)
    }
}
