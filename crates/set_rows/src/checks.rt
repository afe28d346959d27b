// Checks of the store that is kept.
use mb_check::{
    AggHashType, PatchFileInfo, Summary, assert_hashes, calc_agg_tiles_hash,
    check_agg_tiles_hashes, check_each_tile_hash, check_tiles_type_validity, examine_diff,
    get_agg_tiles_hash, get_hash_algorithm, summary, update_agg_tiles_hash, validate,
    validate_diff_info,
};
use mb_store::MemStore;
use rows_shared::{Words, said, say, say_text};
use std::alloc::Global;
use tile_hash::HashAlgorithm;

// What a validation does with the hash, by its word.
fn hash_type(words: &mut Words) -> Option<AggHashType> {
    match words.next()? {
        "verify" => Some(AggHashType::Verify),
        "update" => Some(AggHashType::Update),
        "off" => Some(AggHashType::Off),
        "default" => Some(AggHashType::default()),
        _ => None,
    }
}

// The hash by an algorithm that is named.
fn calculated(
    alloc: Global,
    out: &mut String,
    store: &mut MemStore,
    words: &mut Words,
) -> Option<()> {
    let algorithm = HashAlgorithm::parse(words.next()?)?;
    said(out, calc_agg_tiles_hash(alloc, store, algorithm))
}

// What the set is to be validated by, and the answer.
fn validated(
    alloc: Global,
    out: &mut String,
    store: &mut MemStore,
    words: &mut Words,
) -> Option<()> {
    let wanted = hash_type(words)?;
    say_text(out, &wanted)?;
    said(out, validate(alloc, store, wanted))
}

// The tests of what a set says of itself, without force and by force.
fn say_tests(out: &mut String, info: &PatchFileInfo, force: bool) -> Option<()> {
    said(out, assert_hashes(info, force))?;
    said(out, validate_diff_info(info, force))
}

fn say_info(out: &mut String, info: &PatchFileInfo) -> Option<()> {
    say(out, info)?;
    say_tests(out, info, false)?;
    say_tests(out, info, true)
}

fn said_info(out: &mut String, info: PatchFileInfo) -> Option<()> {
    say_info(out, &info)
}

fn examined(alloc: Global, out: &mut String, store: &mut MemStore) -> Option<()> {
    match examine_diff(alloc, store) {
        Ok(info) => said_info(out, info),
        Err(error) => said(out, error),
    }
}

// All fields of a summary in their order.
fn say_summary(out: &mut String, summary: &Summary) -> Option<()> {
    say(out, &summary.mbt_type)?;
    say(out, &summary.tile_count)?;
    say(out, &summary.min_tile_size)?;
    say(out, &summary.max_tile_size)?;
    say(out, &summary.total_size)?;
    say(out, &summary.min_zoom)?;
    say(out, &summary.max_zoom)?;
    say(out, &summary.zoom_info.as_slice())
}

fn said_summary(out: &mut String, summary: Summary) -> Option<()> {
    say_summary(out, &summary)
}

fn summarized(alloc: Global, out: &mut String, store: &mut MemStore) -> Option<()> {
    match summary(alloc, store) {
        Ok(summary) => said_summary(out, summary),
        Err(error) => said(out, error),
    }
}

fn hashes(alloc: Global, out: &mut String, store: &mut MemStore, call: &str) -> Option<()> {
    match call {
        "algorithm" => said(out, get_hash_algorithm(alloc, store)),
        "stored" => said(out, get_agg_tiles_hash(alloc, store)),
        "hashes" => said(out, check_agg_tiles_hashes(alloc, store)),
        "update" => said(out, update_agg_tiles_hash(alloc, store)),
        _ => None,
    }
}

fn tests(alloc: Global, out: &mut String, store: &mut MemStore, call: &str) -> Option<()> {
    match call {
        "types" => said(out, check_tiles_type_validity(alloc, store)),
        "each" => said(out, check_each_tile_hash(alloc, store)),
        "diff" => examined(alloc, out, store),
        "summary" => summarized(alloc, out, store),
        call => hashes(alloc, out, store, call),
    }
}

pub fn answer(
    alloc: Global,
    out: &mut String,
    store: &mut MemStore,
    words: &mut Words,
) -> Option<()> {
    match words.next()? {
        "calc" => calculated(alloc, out, store, words),
        "validate" => validated(alloc, out, store, words),
        call => tests(alloc, out, store, call),
    }
}
