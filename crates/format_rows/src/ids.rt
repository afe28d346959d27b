// Calls of tile_ids.
use base_values::BlobVal;
use rows_shared::{Words, bytes, number, owned, said, say, say_bytes, say_text};
use std::alloc::Global;
use tile_ids::{
    MAX_TILE_ID, MAX_ZOOM, PYRAMID_SIZE_BY_ZOOM, TileCoord, TileId, invert_y_value,
    parse_tile_index, subtree_interval,
};

fn coord(out: &mut String, words: &mut Words) -> Option<()> {
    said(
        out,
        TileCoord::new(number(words)?, number(words)?, number(words)?),
    )
}

fn id(out: &mut String, words: &mut Words) -> Option<()> {
    said(out, TileId::new(number(words)?))
}

fn given(words: &mut Words) -> Option<TileCoord> {
    TileCoord::new(number(words)?, number(words)?, number(words)?).ok()
}

fn id_of(out: &mut String, words: &mut Words) -> Option<()> {
    said(out, TileId::from(given(words)?))
}

fn coord_of(out: &mut String, words: &mut Words) -> Option<()> {
    said(out, TileCoord::from(TileId::new(number(words)?).ok()?))
}

fn parts(out: &mut String, words: &mut Words) -> Option<()> {
    let coord = given(words)?;
    let id = TileId::from(coord);
    said(out, coord.z())?;
    said(out, coord.x())?;
    said(out, coord.y())?;
    said(out, id.value())?;
    said(out, u64::from(id))
}

fn limits(out: &mut String) -> Option<()> {
    say(out, &MAX_ZOOM)?;
    say(out, &MAX_TILE_ID)?;
    say(out, &PYRAMID_SIZE_BY_ZOOM)
}

fn inverted(out: &mut String, words: &mut Words) -> Option<()> {
    let coord = given(words)?;
    said(out, invert_y_value(coord.z(), coord.y()))
}

fn index(out: &mut String, words: &mut Words) -> Option<()> {
    said(
        out,
        parse_tile_index(number(words), number(words), number(words)),
    )
}

fn interval(out: &mut String, words: &mut Words) -> Option<()> {
    said(out, subtree_interval(given(words)?, number(words)?))
}

fn text(alloc: Global, out: &mut String, words: &mut Words) -> Option<()> {
    let text = owned(alloc, words)?;
    said(out, text.try_clone(alloc))?;
    say_text(out, &text)
}

fn order(alloc: Global, out: &mut String, words: &mut Words) -> Option<()> {
    let one = owned(alloc, words)?;
    let other = owned(alloc, words)?;
    said(out, one.cmp(&other))?;
    say(out, &(one == other))
}

fn blob(alloc: Global, out: &mut String, words: &mut Words) -> Option<()> {
    let blob = BlobVal::new(bytes(alloc, words)?);
    let copy = blob.try_clone(alloc).ok()?;
    say_bytes(alloc, out, copy.as_bytes())?;
    say(out, &(copy == blob))
}

fn values(alloc: Global, out: &mut String, words: &mut Words) -> Option<()> {
    match words.next()? {
        "text" => text(alloc, out, words),
        "order" => order(alloc, out, words),
        "blob" => blob(alloc, out, words),
        "limits" => limits(out),
        "parts" => parts(out, words),
        _ => None,
    }
}

pub fn answer(alloc: Global, out: &mut String, words: &mut Words) -> Option<()> {
    match words.next()? {
        "coord" => coord(out, words),
        "id" => id(out, words),
        "id_of" => id_of(out, words),
        "coord_of" => coord_of(out, words),
        "inverted" => inverted(out, words),
        "index" => index(out, words),
        "interval" => interval(out, words),
        "value" => values(alloc, out, words),
        _ => None,
    }
}
