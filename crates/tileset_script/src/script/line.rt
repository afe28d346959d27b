// What one line of a script says.
ghost use Rattle.std.specs.Prelude.{◌≡◌, ◌-◌, length, IfOk, IfSome};
ghost use Rattle.tileset_script.specs.Common.{width, words_of};
ghost use Rattle.tileset_script.specs.Reading.{IsWide};
ghost use Rattle.tileset_script.specs.Script.{layout_words, line_by, line_of, option_words, query_line, query_words, row_of, row_words, table_named};

use super::cell::parse_cell;
use super::setting::{Setting, parse_flag, parse_setting};
use crate::layout::{Layout, layout_of};
use base_values::OutOfMemory;
use line_words::{first_word, is_word, one_word, parse_number, three_words};
use mb_store::{Row, TableName};
use std::alloc::Global;
use tile_ids::TileCoord;

/// A line of a script.
#[derive(Debug, Drop)]
pub enum Line {
    /// An empty line, or one that begins with `#`.
    Nothing,
    /// An option.
    Given(Setting),
    /// The beginning of the base.
    Base(Layout),
    /// The beginning of a patch.
    Patch(Layout),
    /// A row of a table of the base or patch that was begun last.
    Row(TableName, Row),
    /// A coordinate that is asked for.
    Query(TileCoord),
}

// The table of a name.
fn table_of(word: &[u8]) -> Option<TableName>
    ensures { result ≡ table_named word.now }
{
    if is_word(word, "tiles") {
        return Some(TableName::Tiles);
    }
    if is_word(word, "tiles_with_hash") {
        return Some(TableName::TilesWithHash);
    }
    if is_word(word, "map") {
        return Some(TableName::Map);
    }
    if is_word(word, "images") {
        return Some(TableName::Images);
    }
    if is_word(word, "tiles_shallow") {
        return Some(TableName::TilesShallow);
    }
    if is_word(word, "tiles_data") {
        return Some(TableName::TilesData);
    }
    if is_word(word, "tile_cache") {
        return Some(TableName::TileCache);
    }
    if is_word(word, "metadata") {
        return Some(TableName::Metadata);
    }
    None
}

// The row of so many cells that words are, one for each word.
fn parse_row(alloc: Global, words: &[u8], width: usize) -> Result<Option<Row>, OutOfMemory>
    ensures row { IfOk result (λ row. row ≡ row_of width (words_of words.now)) }
    ensures wide { IfOk result (λ row. IfSome row (λ r. length r ≡ width)) }
{
    let mut cells = Vec::with_capacity(alloc, width)?;
    let mut rest = Some(words);
    for _ in 0..width {
        let Some(text) = rest else {
            return Ok(None);
        };
        let (word, more) = first_word(text);
        let Some(cell) = parse_cell(alloc, word)? else {
            return Ok(None);
        };
        cells.push(cell)?;
        rest = more;
    }
    match rest {
        Some(_) => Ok(None),
        None => Ok(Some(Row::new(cells))),
    }
}

// What the words behind `row` say.
fn row_words(alloc: Global, words: &[u8]) -> Result<Option<Line>, OutOfMemory>
    ensures line { IfOk result (λ line. line ≡ row_words (words_of words.now)) }
    ensures wide { IfOk result (λ line. IfSome line IsWide) }
{
    let (name, Some(cells)) = first_word(words) else {
        return Ok(None);
    };
    let Some(table) = table_of(name) else {
        return Ok(None);
    };
    match parse_row(alloc, cells, table.width())? {
        Some(row) => Ok(Some(Line::Row(table, row))),
        None => Ok(None),
    }
}

// The line that asks for a coordinate of zoom 0 to 31.
fn query_line(zoom: &[u8], column: &[u8], row: &[u8]) -> Option<Line>
    ensures line { result ≡ query_line zoom.now column.now row.now }
{
    let z = parse_number(zoom, 31)?;
    let last = (1u64 << z) - 1;
    let x = parse_number(column, last)?;
    let y = parse_number(row, last)?;
    match TileCoord::new(z as u8, x as u32, y as u32) {
        Ok(coord) => Some(Line::Query(coord)),
        Err(_) => None,
    }
}

// What the words behind `query` say.
fn query_words(words: &[u8]) -> Option<Line>
    ensures line { result ≡ query_words (words_of words.now) }
{
    let (zoom, column, row) = three_words(words)?;
    query_line(zoom, column, row)
}

// What the words behind `option` say.
fn option_words(alloc: Global, words: &[u8]) -> Result<Option<Line>, OutOfMemory>
    ensures line { IfOk result (λ line. line ≡ option_words (words_of words.now)) }
    ensures wide { IfOk result (λ line. IfSome line IsWide) }
{
    match first_word(words) {
        (name, Some(values)) => Ok(parse_setting(alloc, name, values)?.map(Line::Given)),
        (name, None) => Ok(parse_flag(name).map(Line::Given)),
    }
}

// The layout that is alone behind `base` or `patch`.
fn layout_words(words: &[u8]) -> Option<Layout>
    ensures { result ≡ layout_words (words_of words.now) }
{
    layout_of(one_word(words)?)
}

// What a first word and those behind it say.
fn line_by(alloc: Global, word: &[u8], words: &[u8]) -> Result<Option<Line>, OutOfMemory>
    ensures line { IfOk result (λ line. line ≡ line_by word.now (words_of words.now)) }
    ensures wide { IfOk result (λ line. IfSome line IsWide) }
{
    if is_word(word, "row") {
        return row_words(alloc, words);
    }
    if is_word(word, "query") {
        return Ok(query_words(words));
    }
    if is_word(word, "option") {
        return option_words(alloc, words);
    }
    if is_word(word, "base") {
        return Ok(layout_words(words).map(Line::Base));
    }
    if is_word(word, "patch") {
        return Ok(layout_words(words).map(Line::Patch));
    }
    Ok(None)
}

#[tactic(auto, unfolding(crate::specs::Script::line_of))]
/// What a line says, or None where it is none of the script's forms.
pub(crate) fn parse_line(alloc: Global, line: &[u8]) -> Result<Option<Line>, OutOfMemory>
    ensures line { IfOk result (λ parsed. parsed ≡ line_of line.now) }
    ensures wide { IfOk result (λ parsed. IfSome parsed IsWide) }
{
    if let [] | [b'#', ..] = line {
        return Ok(Some(Line::Nothing));
    }
    match first_word(line) {
        (word, Some(words)) => line_by(alloc, word, words),
        (_, None) => Ok(None),
    }
}
