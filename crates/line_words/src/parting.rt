// Bytes in parts, between separators.
ghost use Rattle.std.specs.Prelude.{◌≡◌, ◌≢◌, ◌<◌, [], ◌∷◌, length, slice_index, IfSome, MatchOption};
ghost use Rattle.std.specs.Str.{bytes_eq};
ghost use Rattle.line_words.specs.Parting.{words_of, HasNo};

use memchr::memchr;

/// Where the first separator is.
pub fn first_separator(separator: u8, bytes: &[u8]) -> Option<usize>
    ensures found { IfSome result
        (λ place. (place < length bytes.now) × (slice_index bytes.now place ≡ separator)) }
    ensures before { MatchOption result (HasNo separator bytes.now (length bytes.now))
        (HasNo separator bytes.now) }
{
    memchr(separator, bytes)
}

#[tactic(auto, using(crate::proofs::PartingLemmas::first_words))]
/// The first word, and what follows the space behind it, if there is one.
pub fn first_word(line: &[u8]) -> (&[u8], Option<&[u8]>)
    ensures { MatchOption result.1 (words_of line.now ≡ result.0.now ∷ [])
        (λ rest. words_of line.now ≡ result.0.now ∷ words_of rest.now) }
{
    match first_separator(b' ', line) {
        Some(place) => (&line[..place], Some(&line[place + 1..])),
        None => (line, None),
    }
}

/// Whether a word is this text.
pub fn is_word(word: &[u8], text: &str) -> bool
    ensures { result ≡ bytes_eq word.now text.now }
{
    word == text.as_bytes()
}

/// The word of a line that has exactly one.
pub fn one_word(line: &[u8]) -> Option<&[u8]>
    ensures { MatchOption result (length (words_of line.now) ≢ 1)
        (λ word. words_of line.now ≡ word.now ∷ []) }
{
    match first_word(line) {
        (word, None) => Some(word),
        (_, Some(_)) => None,
    }
}

/// The words of a line that has exactly two.
pub fn two_words(line: &[u8]) -> Option<(&[u8], &[u8])>
    ensures { MatchOption result (length (words_of line.now) ≢ 2)
        (λ words. words_of line.now ≡ words.0.now ∷ words.1.now ∷ []) }
{
    let (first, Some(rest)) = first_word(line) else {
        return None;
    };
    Some((first, one_word(rest)?))
}

/// The words of a line that has exactly three.
pub fn three_words(line: &[u8]) -> Option<(&[u8], &[u8], &[u8])>
    ensures { MatchOption result (length (words_of line.now) ≢ 3)
        (λ words. words_of line.now ≡ words.0.now ∷ words.1.now ∷ words.2.now ∷ []) }
{
    let (first, Some(rest)) = first_word(line) else {
        return None;
    };
    let (second, third) = two_words(rest)?;
    Some((first, second, third))
}

/// The words of a line that has exactly four.
pub fn four_words(line: &[u8]) -> Option<(&[u8], &[u8], &[u8], &[u8])>
    ensures { MatchOption result (length (words_of line.now) ≢ 4)
        (λ words. words_of line.now ≡ words.0.now ∷ words.1.now ∷ words.2.now ∷ words.3.now ∷ []) }
{
    let (first, Some(rest)) = first_word(line) else {
        return None;
    };
    let (second, third, fourth) = three_words(rest)?;
    Some((first, second, third, fourth))
}
