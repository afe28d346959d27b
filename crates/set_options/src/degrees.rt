// Degrees in decimal, as whole ten millionths.
ghost use Rattle.std.specs.Prelude.{◌≡◌, ◌≤◌, IfSome};
ghost use Rattle.set_options.specs.Common.{is_ascii_digit, list_all};
ghost use Rattle.set_options.specs.Degrees.{behind_point, degrees_of, magnitude, minus, rounded, whole, with_digit, within};

// A number of ten millionths, where it is no more than 180 degrees.
fn within(number: u64) -> Option<u32>
    ensures value { result ≡ within number }
    ensures most { IfSome result (λ n. n ≤ 1800000000) }
{
    if number <= 1_800_000_000 {
        Some(number as u32)
    } else {
        None
    }
}

// A digit behind a number, where no more than 180 degrees come of it.
fn with_digit(number: u32, digit: u8) -> Option<u32>
    requires { number ≤ 1800000000 }
    ensures value { result ≡ with_digit number digit }
    ensures most { IfSome result (λ n. n ≤ 1800000000) }
{
    if !digit.is_ascii_digit() {
        return None;
    }
    within(u64::from(number) * 10 + u64::from(digit - b'0'))
}

// Whether all signs are digits.
fn are_digits(word: &[u8]) -> bool
    ensures { result ≡ list_all is_ascii_digit word.now }
{
    word.iter().all(|sign| sign.is_ascii_digit())
}

// The digits past the ten millionths, the first of which rounds.
fn rounded(number: u32, digits: &[u8]) -> Option<u32>
    requires { number ≤ 1800000000 }
    ensures value { result ≡ rounded number digits.now }
    ensures most { IfSome result (λ n. n ≤ 1800000000) }
{
    let [first, ..] = digits else {
        return Some(number);
    };
    if !are_digits(digits) {
        return None;
    }
    let number = u64::from(number);
    within(if *first >= b'5' { number + 1 } else { number })
}

// The digits behind the point, so many of them to come.
fn behind_point(places: u32, number: u32, digits: &[u8]) -> Option<u32>
    requires { number ≤ 1800000000 }
    ensures value { result ≡ behind_point places number digits.now }
    ensures most { IfSome result (λ n. n ≤ 1800000000) }
{
    if places == 0 {
        return rounded(number, digits);
    }
    match digits {
        [] => behind_point(places - 1, with_digit(number, b'0')?, digits),
        [digit, rest @ ..] => behind_point(places - 1, with_digit(number, *digit)?, rest),
    }
}

// Digits, and a point with digits behind it or none.
fn whole(number: u32, word: &[u8]) -> Option<u32>
    requires { number ≤ 1800000000 }
    ensures value { result ≡ whole number word.now }
    ensures most { IfSome result (λ n. n ≤ 1800000000) }
{
    match word {
        [] => behind_point(7, number, word),
        [b'.', rest @ ..] => behind_point(7, number, rest),
        [digit, rest @ ..] => whole(with_digit(number, *digit)?, rest),
    }
}

// The ten millionths of a degree that a word without a sign in front spells.
fn magnitude(word: &[u8]) -> Option<u32>
    ensures value { result ≡ magnitude word.now }
    ensures most { IfSome result (λ n. n ≤ 1800000000) }
{
    match word {
        [digit, rest @ ..] if digit.is_ascii_digit() && rest.len() <= 39 => whole(0, word),
        _ => None,
    }
}

// The negative number of a size.
fn minus(size: u32) -> i32
    requires { size ≤ 1800000000 }
    ensures { result ≡ minus size }
{
    if size == 0 {
        0
    } else {
        -((size - 1) as i32) - 1
    }
}

/// The ten millionths of a degree that a word spells: digits, a point with digits behind it or none, and `-`
/// or `+` in front or none. They lie between -180 and 180 degrees, and the nearest ten millionth is taken.
/// None for any other word.
pub(crate) fn degrees_of(word: &[u8]) -> Option<i32>
    ensures { result ≡ degrees_of word.now }
{
    match word {
        [b'-', rest @ ..] => Some(minus(magnitude(rest)?)),
        [b'+', rest @ ..] => Some(magnitude(rest)? as i32),
        _ => Some(magnitude(word)? as i32),
    }
}
