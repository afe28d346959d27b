// The words behind a subcommand: its options, and all others by their places.
ghost use Rattle.std.specs.Prelude.{◌≡◌, ◌++◌, ◌∷◌, [], None, Some, IfOk, MatchOption};
ghost use Rattle.tile_command.specs.Asked.{asked};
ghost use Rattle.tile_command.specs.Words.{asked_after, asked_in, draft, ended, ends_options, fits, is_option, with_name, with_places, with_word};

use crate::Subcommand;
use crate::asked::{Asked, value_in};
use base_values::{OutOfMemory, TextVal};
use std::alloc::Global;

// Whether a word begins with two dashes, and has more.
fn is_option(word: &[u8]) -> bool
    ensures { result ≡ is_option word.now }
{
    matches!(word, [b'-', b'-', _, ..])
}

// A word behind others.
fn with_place(
    alloc: Global,
    places: Vec<TextVal>,
    word: &TextVal,
) -> Result<Vec<TextVal>, OutOfMemory>
    ensures { IfOk result (λ r. r.items ≡ places.items ++ (word.now ∷ [])) }
{
    let mut places = places;
    let word = word.try_clone(alloc)?;
    places.push(word)?;
    Ok(places)
}

// All words behind others.
fn with_places(
    alloc: Global,
    places: Vec<TextVal>,
    words: &[TextVal],
) -> Result<Vec<TextVal>, OutOfMemory>
    ensures { IfOk result (λ r. r.items ≡ with_places places.items words.now) }
{
    let [word, rest @ ..] = words else {
        return Ok(places);
    };
    let places = with_place(alloc, places, word)?;
    with_places(alloc, places, rest)
}

// An option with its value behind others.
fn with_option(
    alloc: Global,
    options: Vec<(TextVal, TextVal)>,
    name: &TextVal,
    value: &str,
) -> Result<Vec<(TextVal, TextVal)>, OutOfMemory>
    ensures { IfOk result (λ r. r.items ≡ options.items ++ ((name.now, value.now) ∷ [])) }
{
    let mut options = options;
    let name = name.try_clone(alloc)?;
    let value = TextVal::new(String::from_str(alloc, value)?);
    options.push((name, value))?;
    Ok(options)
}

// Words that are read so far, and the option whose value is to follow.
#[derive(Drop)]
struct Draft {
    asked: Asked,
    pending: Option<TextVal>,
}

// Words with one more that is the value of an option.
fn with_value(
    alloc: Global,
    asked: Asked,
    name: &TextVal,
    value: &str,
) -> Result<Asked, OutOfMemory>
    ensures places { IfOk result (λ r. r.places.items ≡ asked.places.items) }
    ensures options { IfOk result (λ r. r.options.items
        ≡ asked.options.items ++ ((name.now, value.now) ∷ [])) }
{
    let Asked { places, options } = asked;
    let options = with_option(alloc, options, name, value)?;
    Ok(Asked { places, options })
}

// Words with an option more, which may not stand among them.
fn with_name(
    alloc: Global,
    subcommand: Subcommand,
    asked: Asked,
    word: &TextVal,
) -> Result<Option<Draft>, OutOfMemory>
    ensures { IfOk result (λ r. MatchOption r
        (with_name subcommand asked.places.items asked.options.items word.now ≡ None)
        (λ d. with_name subcommand asked.places.items asked.options.items word.now
        ≡ Some (draft d.asked.places.items d.asked.options.items d.pending))) }
{
    let name = word.as_str();
    if asked.has(name) {
        return Ok(None);
    }
    if subcommand.has_flag(name) {
        let asked = with_value(alloc, asked, word, "")?;
        return Ok(Some(Draft {
            asked,
            pending: None,
        }));
    }
    if !subcommand.has_option(name) {
        return Ok(None);
    }
    let pending = Some(word.try_clone(alloc)?);
    Ok(Some(Draft { asked, pending }))
}

// Words with one more that is no option.
fn with_other(alloc: Global, asked: Asked, word: &TextVal) -> Result<Draft, OutOfMemory>
    ensures { IfOk result (λ d. draft d.asked.places.items d.asked.options.items d.pending
        ≡ draft (asked.places.items ++ (word.now ∷ [])) asked.options.items None) }
{
    let Asked { places, options } = asked;
    let places = with_place(alloc, places, word)?;
    Ok(Draft {
        asked: Asked { places, options },
        pending: None,
    })
}

// Words with one more; none where it can't stand there.
fn with_word(
    alloc: Global,
    subcommand: Subcommand,
    before: Draft,
    word: &TextVal,
) -> Result<Option<Draft>, OutOfMemory>
    ensures { IfOk result (λ r. MatchOption r
        (with_word subcommand (draft before.asked.places.items before.asked.options.items
        before.pending) word.now ≡ None)
        (λ d. with_word subcommand (draft before.asked.places.items before.asked.options.items
        before.pending) word.now
        ≡ Some (draft d.asked.places.items d.asked.options.items d.pending))) }
{
    let Draft { asked, pending } = before;
    if let Some(name) = pending {
        let asked = with_value(alloc, asked, &name, word.as_str())?;
        return Ok(Some(Draft {
            asked,
            pending: None,
        }));
    }
    if is_option(word.as_str().as_bytes()) {
        return with_name(alloc, subcommand, asked, word);
    }
    Ok(Some(with_other(alloc, asked, word)?))
}

// Words that are as many as the subcommand has.
fn fits(subcommand: Subcommand, words: Asked) -> Option<Asked>
    ensures { MatchOption result (fits subcommand words.places.items words.options.items ≡ None)
        (λ r. fits subcommand words.places.items words.options.items
        ≡ Some (asked r.places.items r.options.items)) }
{
    let (least, most) = subcommand.places();
    let count = words.places.len();
    if least <= count && count <= most {
        Some(words)
    } else {
        None
    }
}

// The same, where no value is to follow.
fn ended(subcommand: Subcommand, last: Draft) -> Option<Asked>
    ensures { MatchOption result
        (ended subcommand (draft last.asked.places.items last.asked.options.items last.pending)
        ≡ None)
        (λ r. ended subcommand (draft last.asked.places.items last.asked.options.items
        last.pending) ≡ Some (asked r.places.items r.options.items)) }
{
    let Draft { asked, pending } = last;
    match pending {
        Some(_) => None,
        None => fits(subcommand, asked),
    }
}

// Whether a word ends the options: two dashes alone, which are no value of one.
fn ends_options(before: &Draft, word: &str) -> bool
    ensures { result ≡ ends_options before.now.pending word.now }
{
    before.pending.is_none() && word == "--"
}

// Words with all others behind them, as they are.
fn with_rest(
    alloc: Global,
    subcommand: Subcommand,
    before: Draft,
    words: &[TextVal],
) -> Result<Option<Asked>, OutOfMemory>
    ensures { IfOk result (λ r. MatchOption r
        (fits subcommand (with_places before.asked.places.items words.now)
        before.asked.options.items ≡ None)
        (λ a. fits subcommand (with_places before.asked.places.items words.now)
        before.asked.options.items ≡ Some (asked a.places.items a.options.items))) }
{
    let Draft { asked, .. } = before;
    let Asked { places, options } = asked;
    let places = with_places(alloc, places, words)?;
    Ok(fits(subcommand, Asked { places, options }))
}

// What words ask for behind others.
fn asked_after(
    alloc: Global,
    subcommand: Subcommand,
    before: Draft,
    words: &[TextVal],
) -> Result<Option<Asked>, OutOfMemory>
    ensures { IfOk result (λ r. MatchOption r
        (asked_after subcommand (draft before.asked.places.items before.asked.options.items
        before.pending) words.now ≡ None)
        (λ a. asked_after subcommand (draft before.asked.places.items before.asked.options.items
        before.pending) words.now ≡ Some (asked a.places.items a.options.items))) }
{
    let [word, rest @ ..] = words else {
        return Ok(ended(subcommand, before));
    };
    if ends_options(&before, word.as_str()) {
        return with_rest(alloc, subcommand, before, rest);
    }
    match with_word(alloc, subcommand, before, word)? {
        Some(next) => asked_after(alloc, subcommand, next, rest),
        None => Ok(None),
    }
}

/// What the words behind a subcommand ask for: its options anywhere in front of `--`, each at most once, and as many
/// other words as it has. Words behind `--`
/// are no options, and neither are those that don't begin with two dashes. None for other words.
pub fn asked_of(
    alloc: Global,
    subcommand: Subcommand,
    words: &[TextVal],
) -> Result<Option<Asked>, OutOfMemory>
    ensures { IfOk result (λ r. MatchOption r (asked_in subcommand words.now ≡ None)
        (λ a. asked_in subcommand words.now ≡ Some (asked a.places.items a.options.items))) }
{
    let asked = Asked {
        places: Vec::new(alloc),
        options: Vec::new(alloc),
    };
    let draft = Draft {
        asked,
        pending: None,
    };
    asked_after(alloc, subcommand, draft, words)
}
