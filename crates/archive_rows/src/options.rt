// The options of a writer.
use pm_format::{Compression, TileType};
use pm_writer::PmTilesWriter;
use rows_shared::{Words, number, owned, say};
use std::alloc::Global;
use std::mem;

fn label(words: &mut Words) -> Option<Compression> {
    Compression::from_byte(number(words)?).ok()
}

fn set(alloc: Global, options: PmTilesWriter, words: &mut Words) -> Option<PmTilesWriter> {
    match words.next()? {
        "min_zoom" => Some(options.min_zoom(number(words)?)),
        "max_zoom" => Some(options.max_zoom(number(words)?)),
        "bounds" => Some(options.bounds(
            number(words)?,
            number(words)?,
            number(words)?,
            number(words)?,
        )),
        "center_zoom" => Some(options.center_zoom(number(words)?)),
        "center" => Some(options.center(number(words)?, number(words)?)),
        "metadata" => Some(options.metadata(owned(alloc, words)?)),
        "internal" => Some(options.internal_compression(label(words)?)),
        "tile" => Some(options.tile_compression(label(words)?)),
        _ => None,
    }
}

pub fn answer(
    alloc: Global,
    out: &mut String,
    options: &mut PmTilesWriter,
    words: &mut Words,
) -> Option<()> {
    match words.next()? {
        "new" => {
            *options = PmTilesWriter::new(TileType::from_byte(number(words)?).ok()?);
            Some(())
        }
        "with" => {
            let given = mem::replace(options, PmTilesWriter::new(TileType::Unknown));
            *options = set(alloc, given, words)?;
            Some(())
        }
        "label" => say(out, &options.directory_label()),
        _ => None,
    }
}
