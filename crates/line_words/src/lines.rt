// The lines of an input.
ghost use Rattle.std.specs.Prelude.{◌≡◌, ◌<◌, ◌++◌, [], ◌∷◌, List, ℕ, length, IfSome, MatchOption};
ghost use Rattle.line_words.specs.Lines.{lines_of};
ghost use Rattle.line_words.specs.Parting.{HasNo};

use crate::parting::first_separator;

#[tactic(auto, using(crate::proofs::PartingLemmas::next_lines))]
/// The first line, and what follows it; None where no byte is left.
pub fn next_line(bytes: &[u8]) -> Option<(&[u8], &[u8])>
    ensures lines { MatchOption result (bytes.now ≡ [])
        (λ r. lines_of bytes.now ≡ r.0.now ∷ lines_of r.1.now) }
    ensures shorter { IfSome result (λ r. length r.1.now < length bytes.now) }
{
    if bytes.is_empty() {
        return None;
    }
    match first_separator(b'\n', bytes) {
        Some(place) => Some((&bytes[..place], &bytes[place + 1..])),
        None => Some((bytes, &[])),
    }
}

/// The first line that ends in a line feed, and what follows it; None where there is no line feed. It is the first line
/// of these bytes whatever comes behind them.
pub fn next_whole_line(bytes: &[u8]) -> Option<(&[u8], &[u8])>
    ensures lines { MatchOption result (HasNo 10 bytes.now (length bytes.now))
        (λ r. (more : List ℕ) → lines_of (bytes.now ++ more) ≡ r.0.now ∷ lines_of
        (r.1.now ++ more)) }
    ensures shorter { IfSome result (λ r. length r.1.now < length bytes.now) }
{
    let place = first_separator(b'\n', bytes)?;
    Some((&bytes[..place], &bytes[place + 1..]))
}
