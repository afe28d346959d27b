// Calls of the headers of pm_format.
use pm_format::{Compression, Header, TileType};
use rows_shared::{Words, bytes, number, said, say, say_bytes, texts};
use std::alloc::Global;

fn given(alloc: Global, words: &mut Words) -> Option<Header> {
    let input = bytes(alloc, words)?;
    Header::try_from_bytes(input.as_slice()).ok()
}

fn refusal(alloc: Global, out: &mut String, words: &mut Words) -> Option<()> {
    let input = bytes(alloc, words)?;
    said(out, Header::try_from_bytes(input.as_slice()).err())
}

fn again(alloc: Global, out: &mut String, words: &mut Words) -> Option<()> {
    say_bytes(alloc, out, given(alloc, words)?.write_bytes().as_slice())
}

fn say_places(out: &mut String, header: &Header) -> Option<()> {
    say(out, &header.root_offset)?;
    say(out, &header.root_length)?;
    say(out, &header.metadata_offset)?;
    say(out, &header.metadata_length)?;
    say(out, &header.leaf_offset)?;
    say(out, &header.leaf_length)?;
    say(out, &header.data_offset)?;
    say(out, &header.data_length)
}

fn say_counts(out: &mut String, header: &Header) -> Option<()> {
    said(out, header.n_addressed_tiles())?;
    say(out, &header.n_tile_entries())?;
    said(out, header.n_tile_contents())?;
    say(out, &header.n_addressed_tiles)?;
    say(out, &header.n_tile_entries)?;
    say(out, &header.n_tile_contents)
}

fn say_labels(out: &mut String, header: &Header) -> Option<()> {
    said(out, header.spec_version())?;
    said(out, header.clustered())?;
    said(out, header.internal_compression())?;
    say(out, &header.tile_compression)?;
    say(out, &header.tile_type)?;
    say(out, &header.min_zoom)?;
    say(out, &header.max_zoom)
}

fn say_extent(out: &mut String, header: &Header) -> Option<()> {
    said(out, header.get_bounds())?;
    said(out, header.get_center())
}

// All fields of a header.
fn fields(alloc: Global, out: &mut String, words: &mut Words) -> Option<()> {
    let header = given(alloc, words)?;
    say_places(out, &header)?;
    say_counts(out, &header)?;
    say_labels(out, &header)?;
    say_extent(out, &header)
}

// The header of a writer, with the length of its root and its metadata, where its data begins and how long
// that is, and its counts.
fn written(alloc: Global, out: &mut String, words: &mut Words) -> Option<()> {
    let compression = Compression::from_byte(number(words)?).ok()?;
    let tile_type = TileType::from_byte(number(words)?).ok()?;
    let mut header = Header::new(compression, tile_type);
    header.root_length = number(words)?;
    header.metadata_length = number(words)?;
    header.data_offset = number(words)?;
    header.data_length = number(words)?;
    header.n_addressed_tiles = number(words)?;
    header.n_tile_entries = number(words)?;
    header.n_tile_contents = number(words)?;
    say_bytes(alloc, out, header.write_bytes().as_slice())
}

fn document(alloc: Global, out: &mut String, words: &mut Words) -> Option<()> {
    let header = given(alloc, words)?;
    said(out, header.get_tilejson(alloc, texts(alloc, words)?))
}

pub fn answer(alloc: Global, out: &mut String, words: &mut Words) -> Option<()> {
    match words.next()? {
        "refusal" => refusal(alloc, out, words),
        "again" => again(alloc, out, words),
        "fields" => fields(alloc, out, words),
        "written" => written(alloc, out, words),
        "document" => document(alloc, out, words),
        _ => None,
    }
}
