// What the values of options stand for.
ghost use Rattle.std.specs.Prelude.{◌≡◌, ◌∷◌, ◌++◌, [], None, Some, IfOk, MatchOption, option_copied};
ghost use Rattle.tile_command.specs.Choices.{agg_hash_of, algorithm_of, copy_of, layout_of, max_tiles_of, mode_of, scheme_of, zoom_of, zooms_after, zooms_of};
ghost use Rattle.tile_command.specs.Common.{parted};

use base_values::OutOfMemory;
use line_words::{first_separator, parse_number};
use mb_check::AggHashType;
use mb_copy::{CopyDuplicateMode, CopyType};
use mb_store::MbtTypeCli;
use mb_tree::TileScheme;
use std::alloc::Global;
use tile_hash::HashAlgorithm;

/// What is copied, by its word.
pub(crate) fn copy_of(word: &str) -> Option<CopyType>
    ensures { result ≡ copy_of word.now }
{
    match word {
        "all" => Some(CopyType::All),
        "tiles" => Some(CopyType::Tiles),
        "metadata" => Some(CopyType::Metadata),
        _ => None,
    }
}

/// A layout, by its word.
pub(crate) fn layout_of(word: &str) -> Option<MbtTypeCli>
    ensures { result ≡ layout_of word.now }
{
    match word {
        "flat" => Some(MbtTypeCli::Flat),
        "flat-with-hash" => Some(MbtTypeCli::FlatWithHash),
        "normalized" => Some(MbtTypeCli::Normalized),
        "cache" => Some(MbtTypeCli::Cache),
        _ => None,
    }
}

/// What counts where two sets have a tile, by its word.
pub(crate) fn mode_of(word: &str) -> Option<CopyDuplicateMode>
    ensures { result ≡ mode_of word.now }
{
    match word {
        "override" => Some(CopyDuplicateMode::Override),
        "ignore" => Some(CopyDuplicateMode::Ignore),
        "abort" => Some(CopyDuplicateMode::Abort),
        _ => None,
    }
}

/// An algorithm of digests, by its word.
pub(crate) fn algorithm_of(word: &str) -> Option<HashAlgorithm>
    ensures { result ≡ algorithm_of word.now }
{
    match word {
        "md5" => Some(HashAlgorithm::Md5),
        "fnv1a" => Some(HashAlgorithm::Fnv1a),
        "fnv1a-decimal" => Some(HashAlgorithm::Fnv1aDecimal),
        "xxh64" => Some(HashAlgorithm::Xxh64),
        "xxh3" => Some(HashAlgorithm::Xxh3),
        _ => None,
    }
}

/// How rows are counted in the names of files, by the word; from the top, where there is none.
pub fn scheme_of(word: Option<&str>) -> Option<TileScheme>
    ensures { result ≡ scheme_of (option_copied word.entry) }
{
    match word {
        None | Some("xyz") => Some(TileScheme::Xyz),
        Some("tms") => Some(TileScheme::Tms),
        Some(_) => None,
    }
}

/// What a validation does with the stored hash of all tiles, by the word; it has to be right, where there is none.
pub fn agg_hash_of(word: Option<&str>) -> Option<AggHashType>
    ensures { result ≡ agg_hash_of (option_copied word.entry) }
{
    match word {
        None | Some("verify") => Some(AggHashType::Verify),
        Some("update") => Some(AggHashType::Update),
        Some("off") => Some(AggHashType::Off),
        Some(_) => None,
    }
}

/// How many tiles there may be at most, from 0 to `u64::MAX`, by the word; ten millions, where there is none.
pub fn max_tiles_of(word: Option<&str>) -> Option<u64>
    ensures { result ≡ max_tiles_of (option_copied word.entry) }
{
    match word {
        None => Some(10_000_000),
        Some(number) => parse_number(number.as_bytes(), u64::MAX),
    }
}

/// A zoom, 0 to 30, by its word.
pub(crate) fn zoom_of(word: &[u8]) -> Option<u8>
    ensures { result ≡ zoom_of word.now }
{
    match parse_number(word, 30) {
        Some(zoom) => Some(zoom as u8),
        None => None,
    }
}

// The part before the first comma, and what follows the comma, if there is one.
#[tactic(auto, using(line_words::proofs::PartingLemmas::first_words))]
fn first_part(text: &[u8]) -> (&[u8], Option<&[u8]>)
    ensures { MatchOption result.1 (parted 44 text.now ≡ result.0.now ∷ [])
        (λ rest. parted 44 text.now ≡ result.0.now ∷ parted 44 rest.now) }
{
    match first_separator(b',', text) {
        Some(place) => (&text[..place], Some(&text[place + 1..])),
        None => (text, None),
    }
}

// Zooms behind others, by their words; none where one of them is no zoom.
fn zooms_after(alloc: Global, before: Vec<u8>, text: &[u8]) -> Result<Option<Vec<u8>>, OutOfMemory>
    ensures { IfOk result (λ r. MatchOption r (zooms_after before.items (parted 44 text.now) ≡ None)
        (λ zooms. zooms_after before.items (parted 44 text.now) ≡ Some zooms.items)) }
{
    let (part, rest) = first_part(text);
    let Some(zoom) = zoom_of(part) else {
        return Ok(None);
    };
    let mut zooms = before;
    zooms.push(zoom)?;
    match rest {
        Some(rest) => zooms_after(alloc, zooms, rest),
        None => Ok(Some(zooms)),
    }
}

/// Zooms parted by commas.
pub(crate) fn zooms_of(alloc: Global, text: &str) -> Result<Option<Vec<u8>>, OutOfMemory>
    ensures { IfOk result (λ r. MatchOption r (zooms_of text.now ≡ None)
        (λ zooms. zooms_of text.now ≡ Some zooms.items)) }
{
    zooms_after(alloc, Vec::new(alloc), text.as_bytes())
}
