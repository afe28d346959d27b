// The lines of a report before the bytes: the answers, the aggregate and the numbers.
ghost use Rattle.std.specs.Prelude.{◌≡◌, ◌++◌, ◌<◌, length, Some, IfOk, OnOk, string_bytes};
ghost use Rattle.tileset.specs.Report.{number_lines, query_line, tile_text};
ghost use Rattle.tileset.specs.Summary.{answer_lines, summary};

use base_values::{BlobVal, OutOfMemory};
use pm_writer::ArchivePlaces;
use std::alloc::Global;
use tile_bridge::ConvertReport;
use tile_ids::TileCoord;

// A tile in hexadecimal, or the word for none.
fn shown(alloc: Global, tile: &Option<BlobVal>) -> Result<String, OutOfMemory>
    ensures { IfOk result (λ text. string_bytes text ≡ tile_text tile.now) }
{
    match tile {
        Some(blob) => Ok(hex::encode(alloc, blob.as_bytes())?),
        None => Ok(String::from_str(alloc, "none")?),
    }
}

// Appends the line that answers a query.
fn push_answer(
    alloc: Global,
    text: &mut Vec<u8>,
    coord: TileCoord,
    tile: &Option<BlobVal>,
) -> Result<(), OutOfMemory>
    ensures { OnOk result (text.new.items ≡ text.old.items ++ query_line coord tile.now) }
{
    let (z, x, y) = (coord.z(), coord.x(), coord.y());
    let bytes = shown(alloc, tile)?;
    let line = format!(in alloc; "tile {z}/{x}/{y} {bytes}\n")?;
    text.extend_from_slice(line.as_bytes())?;
    Ok(())
}

// Appends the lines of all answers.
fn push_answers(
    alloc: Global,
    text: &mut Vec<u8>,
    queries: &[TileCoord],
    tiles: &[Option<BlobVal>],
) -> Result<(), OutOfMemory>
    ensures { OnOk result (text.new.items ≡ text.old.items ++ answer_lines queries.now tiles.now) }
{
    for i in 0..queries.len().min(tiles.len()) {
        push_answer(alloc, text, queries[i], &tiles[i])?;
    }
    Ok(())
}

// Appends the lines of the aggregate and the numbers.
fn push_numbers(
    alloc: Global,
    text: &mut Vec<u8>,
    report: &ConvertReport,
) -> Result<(), OutOfMemory>
    ensures { OnOk result (text.new.items ≡ text.old.items ++ number_lines report.now.aggregate
        report.now.places.addressed report.now.places.entries report.now.places.contents
        report.now.places.length) }
{
    let hash = report.aggregate.as_str();
    let ArchivePlaces {
        addressed,
        entries,
        contents,
        length,
        ..
    } = report.places;
    let lines = format!(in alloc;
        "aggregate {hash}\naddressed {addressed}\nentries {entries}\ncontents {contents}\nlength {length}\n"
    )?;
    text.extend_from_slice(lines.as_bytes())?;
    Ok(())
}

/// The lines of a report before the bytes.
pub(crate) fn summary_of(
    alloc: Global,
    queries: &[TileCoord],
    report: &ConvertReport,
) -> Result<Vec<u8>, OutOfMemory>
    ensures { IfOk result (λ text. text.items ≡ summary queries.now report.now) }
{
    let mut text = Vec::new(alloc);
    push_answers(alloc, &mut text, queries, report.answers.as_slice())?;
    push_numbers(alloc, &mut text, report)?;
    Ok(text)
}
