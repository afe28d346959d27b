// Documents that are put into the metadata of a set.
use base_values::{TextList, TextVal};
use mb_metadata::{insert_metadata, is_without_float};
use mb_store::TileStore;
use rows_shared::{Words, said, text};
use std::alloc::Global;
use tile_json::{JsonFields, TileBounds, TileCenter, TileJson};

// The document that says nothing.
fn silent(alloc: Global) -> TileJson {
    TileJson {
        tiles: TextList::new(Vec::new(alloc)),
        name: None,
        version: None,
        description: None,
        attribution: None,
        legend: None,
        template: None,
        minzoom: None,
        maxzoom: None,
        bounds: None,
        center: None,
        vector_layers: None,
        other: JsonFields::new(alloc),
    }
}

// The members of a text of JSON.
fn with_members(alloc: Global, words: &mut Words) -> Option<TileJson> {
    let members = text(alloc, words)?;
    silent(alloc).with_metadata(alloc, members.as_str()).ok()
}

// The next word, None where it is `-`.
fn any<'a>(words: &mut Words<'a>) -> Option<Option<&'a str>> {
    match words.next()? {
        "-" => Some(None),
        word => Some(Some(word)),
    }
}

// A text by its word.
fn text_of(alloc: Global, word: &str) -> Option<TextVal> {
    let mut words: Words = word.split_whitespace();
    Some(TextVal::new(text(alloc, &mut words)?))
}

fn any_text(alloc: Global, words: &mut Words) -> Option<Option<TextVal>> {
    match any(words)? {
        Some(word) => Some(Some(text_of(alloc, word)?)),
        None => Some(None),
    }
}

fn any_zoom(words: &mut Words) -> Option<Option<u8>> {
    match any(words)? {
        Some(word) => Some(Some(word.parse::<u8>().ok()?)),
        None => Some(None),
    }
}

// Whole bounds, four numbers parted by commas.
fn whole_bounds(numbers: &str) -> Option<TileBounds> {
    let mut parts = numbers.split(',');
    Some(TileBounds::Whole {
        min_lon: parts.next()?.parse::<i32>().ok()?,
        min_lat: parts.next()?.parse::<i32>().ok()?,
        max_lon: parts.next()?.parse::<i32>().ok()?,
        max_lat: parts.next()?.parse::<i32>().ok()?,
    })
}

// A whole center, three numbers parted by commas.
fn whole_center(numbers: &str) -> Option<TileCenter> {
    let mut parts = numbers.split(',');
    Some(TileCenter::Whole {
        lon: parts.next()?.parse::<i32>().ok()?,
        lat: parts.next()?.parse::<i32>().ok()?,
        zoom: parts.next()?.parse::<u8>().ok()?,
    })
}

fn any_bounds(alloc: Global, words: &mut Words) -> Option<Option<TileBounds>> {
    let Some(word) = any(words)? else {
        return Some(None);
    };
    match word.strip_prefix("whole:") {
        Some(numbers) => Some(Some(whole_bounds(numbers)?)),
        None => Some(Some(TileBounds::Text(text_of(alloc, word)?))),
    }
}

fn any_center(alloc: Global, words: &mut Words) -> Option<Option<TileCenter>> {
    let Some(word) = any(words)? else {
        return Some(None);
    };
    match word.strip_prefix("whole:") {
        Some(numbers) => Some(Some(whole_center(numbers)?)),
        None => Some(Some(TileCenter::Text(text_of(alloc, word)?))),
    }
}

// A document: the members of a text of JSON, then the template, the two zooms, the bounds and the center,
// each a word or `-` for none.
fn document(alloc: Global, words: &mut Words) -> Option<TileJson> {
    let mut document = with_members(alloc, words)?;
    document.template = any_text(alloc, words)?;
    document.minzoom = any_zoom(words)?;
    document.maxzoom = any_zoom(words)?;
    document.bounds = any_bounds(alloc, words)?;
    document.center = any_center(alloc, words)?;
    Some(document)
}

pub fn insert<S: TileStore>(
    alloc: Global,
    out: &mut String,
    store: &mut S,
    words: &mut Words,
) -> Option<()> {
    let document = document(alloc, words)?;
    if !is_without_float(&document) {
        return None;
    }
    said(out, insert_metadata(alloc, store, &document))
}
