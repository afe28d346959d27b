// Counts and sizes of the tiles of a set, in lines.
ghost use Rattle.std.specs.Prelude.{◌≡◌, ◌++◌, IfOk, OnOk, string_bytes};
ghost use Rattle.tile_command.specs.SummaryLines.{number_or_none, summary_text, total_text, zoom_text, zooms_text};

use base_values::OutOfMemory;
use mb_check::{Summary, ZoomInfo};
use std::alloc::Global;

// A line on a zoom.
fn zoom_text(alloc: Global, info: &ZoomInfo) -> Result<String, OutOfMemory>
    ensures { IfOk result (λ t. string_bytes t ≡ zoom_text info.now) }
{
    let (zoom, count, bytes) = (info.zoom, info.tile_count, info.total_size);
    let (least, greatest) = (info.min_tile_size, info.max_tile_size);
    Ok(format!(in alloc; "{zoom} {count} {bytes} {least} {greatest}\n")?)
}

// The lines on zooms.
fn zooms_text(alloc: Global, infos: &[ZoomInfo]) -> Result<String, OutOfMemory>
    ensures { IfOk result (λ t. string_bytes t ≡ zooms_text infos.now) }
{
    let [info, rest @ ..] = infos else {
        return Ok(String::new(alloc));
    };
    let line = zoom_text(alloc, info)?;
    let lines = zooms_text(alloc, rest)?;
    Ok(format!(in alloc; "{line}{lines}")?)
}

// A number, or 0 where there is none.
fn number_or_none(number: Option<u64>) -> u64
    ensures { result ≡ number_or_none number }
{
    match number {
        Some(number) => number,
        None => 0,
    }
}

// The line on all zooms.
fn total_text(alloc: Global, summary: &Summary) -> Result<String, OutOfMemory>
    ensures { IfOk result (λ t. string_bytes t ≡ total_text summary.now) }
{
    let (count, bytes) = (summary.tile_count, summary.total_size);
    let least = number_or_none(summary.min_tile_size);
    let greatest = number_or_none(summary.max_tile_size);
    Ok(format!(in alloc; "all {count} {bytes} {least} {greatest}\n")?)
}

/// The layout of a set, and a line with its numbers for each zoom that has tiles and for all of them: how many tiles
/// there are, their bytes, and the bytes of the
/// least and the greatest one.
pub fn summary_text(alloc: Global, summary: &Summary) -> Result<String, OutOfMemory>
    ensures { IfOk result (λ t. string_bytes t ≡ summary_text summary.now) }
{
    let layout = summary.mbt_type;
    let zooms = zooms_text(alloc, summary.zoom_info.as_slice())?;
    let total = total_text(alloc, summary)?;
    Ok(format!(in alloc; "layout {layout}\nzoom tiles bytes least greatest\n{zooms}{total}")?)
}
