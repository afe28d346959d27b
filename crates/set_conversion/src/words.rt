// What the words of a conversion of sets ask for.
ghost use Rattle.std.specs.Prelude.{◌≡◌, ◌≤◌, ◌++◌, ◌∷◌, [], length, None, Some, IfOk, IfSome, MatchOption};
ghost use Rattle.set_conversion.specs.Words.{asked, asked_after, asked_in, ended, enough, is_option, is_whole, no_flags, of_flags, with_files, with_flag, with_number, with_part, with_word, word_read};

use crate::part::SetPart;
use crate::part_words::{Awaited, after_number, is_number};
use base_values::{OutOfMemory, TextVal};
use std::alloc::Global;

/// What the words beside the files of a conversion say.
#[derive(Clone, Copy, Debug, PartialEq, Eq)]
pub struct ConversionFlags {
    /// Whether patches are taken without the hashes that chain them.
    pub force: bool,
    /// Whether the stored aggregate hash of the set that is converted has to be there and right.
    pub verify: bool,
    /// Whether the aggregate hash of the tiles is printed.
    pub hash: bool,
    /// Whether an archive that is there is replaced.
    pub overwrite: bool,
    /// Whether nothing that the set says may be left out of the archive.
    pub strict: bool,
    /// Which tiles the archive has.
    pub part: SetPart,
}

// Whether a word begins with a dash, and has more.
fn is_option(word: &[u8]) -> bool
    ensures { result ≡ is_option word.now }
{
    matches!(word, [b'-', _, ..])
}

fn no_flags() -> ConversionFlags
    ensures { result ≡ no_flags }
{
    ConversionFlags {
        force: false,
        verify: false,
        hash: false,
        overwrite: false,
        strict: false,
        part: SetPart::Whole,
    }
}

// Flags with one more, by its word; None for any other word.
fn with_flag(flags: ConversionFlags, word: &str) -> Option<ConversionFlags>
    ensures { result ≡ with_flag flags word.now }
{
    let mut flags = flags;
    match word {
        "--force" => flags.force = true,
        "--verify" => flags.verify = true,
        "--hash" => flags.hash = true,
        "--overwrite" => flags.overwrite = true,
        "--strict" => flags.strict = true,
        _ => return None,
    }
    Some(flags)
}

// Whether no part is named.
fn is_whole(flags: ConversionFlags) -> bool
    ensures { result ≡ is_whole flags }
{
    matches!(flags.part, SetPart::Whole)
}

// Flags before the numbers of a part, whose first number is read next; None where a part is named already.
fn with_part(flags: ConversionFlags, awaited: Awaited) -> Option<(Awaited, ConversionFlags)>
    ensures { result ≡ with_part flags awaited }
{
    if is_whole(flags) {
        return Some((awaited, flags));
    }
    None
}

// Flags with one more, by its word, and what is read behind it; None for any other word.
fn with_word(flags: ConversionFlags, word: &str) -> Option<(Awaited, ConversionFlags)>
    ensures { result ≡ with_word flags word.now }
{
    match word {
        "--part" => with_part(flags, Awaited::Zoom),
        "--ids" => with_part(flags, Awaited::First),
        _ => {
            let flags = with_flag(flags, word)?;
            Some((Awaited::Any, flags))
        }
    }
}

// Flags with a number of a part, and what is read behind it; None for another word.
fn with_number(
    awaited: Awaited,
    flags: ConversionFlags,
    word: &str,
) -> Option<(Awaited, ConversionFlags)>
    ensures { result ≡ with_number awaited flags word.now }
{
    let (next, part) = after_number(awaited, flags.part, word)?;
    let mut flags = flags;
    flags.part = part;
    Some((next, flags))
}

// A file behind others.
fn with_file(
    alloc: Global,
    files: Vec<TextVal>,
    word: &TextVal,
) -> Result<Vec<TextVal>, OutOfMemory>
    ensures { IfOk result (λ r. r.items ≡ files.items ++ (word.now ∷ [])) }
{
    let mut files = files;
    let word = word.try_clone(alloc)?;
    files.push(word)?;
    Ok(files)
}

// Words as files, behind others.
fn with_files(
    alloc: Global,
    files: Vec<TextVal>,
    words: &[TextVal],
) -> Result<Vec<TextVal>, OutOfMemory>
    ensures { IfOk result (λ r. r.items ≡ with_files files.items words.now) }
{
    let [word, rest @ ..] = words else {
        return Ok(files);
    };
    let files = with_file(alloc, files, word)?;
    with_files(alloc, files, rest)
}

// Files, which are two at least.
fn enough(flags: ConversionFlags, files: Vec<TextVal>) -> Option<(ConversionFlags, Vec<TextVal>)>
    ensures value { MatchOption result (enough flags files.items ≡ None)
        (λ r. enough flags files.items ≡ Some (asked r.0 r.1.items)) }
    ensures files { IfSome result (λ r. 2 ≤ length r.1.items) }
{
    match files.as_slice() {
        [_, _, ..] => Some((flags, files)),
        _ => None,
    }
}

// Files behind all words, where no number is missing.
fn ended(
    awaited: Awaited,
    flags: ConversionFlags,
    files: Vec<TextVal>,
) -> Option<(ConversionFlags, Vec<TextVal>)>
    ensures value { MatchOption result (ended awaited flags files.items ≡ None)
        (λ r. ended awaited flags files.items ≡ Some (asked r.0 r.1.items)) }
    ensures files { IfSome result (λ r. 2 ≤ length r.1.items) }
{
    if is_number(awaited) {
        return None;
    }
    enough(flags, files)
}

// What a word in front of `--` is.
#[derive(Clone, Copy, Debug)]
enum WordRead {
    // A flag or a number: the flags with it, and what is read behind it.
    Flags(Awaited, ConversionFlags),
    // A file.
    File,
    // The word behind which all are files.
    Rest,
    // None of these.
    Other,
}

fn of_flags(read: Option<(Awaited, ConversionFlags)>) -> WordRead
    ensures { result ≡ of_flags read }
{
    match read {
        Some((next, flags)) => WordRead::Flags(next, flags),
        None => WordRead::Other,
    }
}

// What a word is behind these flags.
fn word_read(awaited: Awaited, flags: ConversionFlags, word: &str) -> WordRead
    ensures { result ≡ word_read awaited flags word.now }
{
    if is_number(awaited) {
        return of_flags(with_number(awaited, flags, word));
    }
    match word {
        "--" => WordRead::Rest,
        text if is_option(text.as_bytes()) => of_flags(with_word(flags, text)),
        _ => WordRead::File,
    }
}

// What words ask for behind flags and files.
fn asked_after(
    alloc: Global,
    awaited: Awaited,
    flags: ConversionFlags,
    files: Vec<TextVal>,
    words: &[TextVal],
) -> Result<Option<(ConversionFlags, Vec<TextVal>)>, OutOfMemory>
    ensures value { IfOk result (λ r. MatchOption r
        (asked_after awaited flags files.items words.now ≡ None)
        (λ a. asked_after awaited flags files.items words.now ≡ Some (asked a.0 a.1.items))) }
    ensures files { IfOk result (λ r. IfSome r (λ a. 2 ≤ length a.1.items)) }
{
    let [word, rest @ ..] = words else {
        return Ok(ended(awaited, flags, files));
    };
    match word_read(awaited, flags, word.as_str()) {
        WordRead::Flags(next, flags) => asked_after(alloc, next, flags, files, rest),
        WordRead::File => {
            let files = with_file(alloc, files, word)?;
            asked_after(alloc, Awaited::Any, flags, files, rest)
        }
        WordRead::Rest => {
            let files = with_files(alloc, files, rest)?;
            Ok(enough(flags, files))
        }
        WordRead::Other => Ok(None),
    }
}

/// The flags and the files that words ask for: `--force`, `--verify`, `--hash`, `--overwrite` and `--strict` anywhere
/// in front of `--`, and the file of the base, those of its patches in their order, and that of the archive. Words
/// behind `--` are files, also where they begin with a dash, and a dash alone is one anywhere. Of a part `--part` names
/// the tile, by its zoom, column and row, or `--ids` the first and the last id, as the words behind it. None for other
/// words: without two files at least, where another word in front of `--` begins with a dash, without the numbers of a
/// part or for no tile, with ids that fall or are above the last one of zoom 31, and with two parts.
pub fn asked_of(
    alloc: Global,
    words: &[TextVal],
) -> Result<Option<(ConversionFlags, Vec<TextVal>)>, OutOfMemory>
    ensures value { IfOk result (λ r. MatchOption r (asked_in words.now ≡ None)
        (λ a. asked_in words.now ≡ Some (asked a.0 a.1.items))) }
    ensures files { IfOk result (λ r. IfSome r (λ a. 2 ≤ length a.1.items)) }
{
    asked_after(alloc, Awaited::Any, no_flags(), Vec::new(alloc), words)
}
