// Tables WITHOUT ROWID: which of them are understood, and where their records have the columns.
ghost use Rattle.std.specs.Prelude.{◌≡◌, ◌==◌, filter, length, nat_lt};
ghost use Rattle.std.specs.List.{position_from};
ghost use Rattle.mb_file.specs.Columns.{place_in_record};

use crate::FileError;
use mb_tables::TableName;
use sqlite_ast::{Keyed, Rule, Statement};
use sqlite_schema::schema::Table;
use sqlite_syntax::error::ParseError;
use sqlite_syntax::parse;
use sqlite_value::keys::Collation;
use std::alloc::Global;

// The words behind the columns of such a table.
const WITHOUT: &[u8] = b"without";

const ROWID: &[u8] = b"rowid";

// A text up to its last word, where that is the one that is given, and stands apart.
fn before_word<'a>(text: &'a [u8], word: &[u8]) -> Option<&'a [u8]> {
    let text = text.trim_ascii_end();
    let at = text.len().checked_sub(word.len())?;
    let (front, last) = text.split_at(at);
    let is_apart = match front.last() {
        Some(byte) => byte.is_ascii_whitespace() || *byte == b')',
        None => false,
    };
    if is_apart && last.eq_ignore_ascii_case(word) {
        Some(front)
    } else {
        None
    }
}

// The text that makes a table, up to WITHOUT ROWID, where it ends so.
pub(crate) fn before_without_rowid(text: &[u8]) -> Option<&[u8]> {
    before_word(before_word(text, ROWID)?, WITHOUT)
}

// How many columns the key of a table may have: a place, an id, or what a name is kept with.
fn may_have(table: TableName, columns: usize) -> bool {
    match table {
        TableName::Images | TableName::TilesData => columns == 1,
        TableName::Metadata => columns == 1 || columns == 2,
        _ => columns == 3,
    }
}

// The columns of the primary key, None where there is none, or one that isn't taken for it.
fn primary_key(rules: &[Rule]) -> Option<&[Keyed]> {
    for rule in rules {
        match rule {
            Rule::PrimaryKey(key) => return Some(key.as_slice()),
            Rule::DescendingKey(_) | Rule::CountedKey(_) => return None,
            _ => {}
        }
    }
    None
}

// The column of a part of a key, where that rises by the values as they are, texts by their bytes.
fn plain_column(made: &Table, part: &Keyed) -> Option<usize> {
    let is_binary = |collation: Collation| collation == Collation::Binary;
    if part.descending || !part.collation.is_none_or(is_binary) {
        return None;
    }
    let at = made.column_named(part.name.as_slice())?;
    if is_binary(made.columns.get(at)?.collation) {
        Some(at)
    } else {
        None
    }
}

// The columns of a key, where they are the first ones of the set in their order.
fn columns_of(
    alloc: Global,
    made: &Table,
    names: &[&str],
    key: &[Keyed],
) -> Result<Option<Vec<usize>>, FileError> {
    let mut columns = Vec::new(alloc);
    for (number, part) in key.iter().enumerate() {
        let Some(name) = names.get(number) else {
            return Ok(None);
        };
        if !part.name.as_slice().eq_ignore_ascii_case(name.as_bytes()) {
            return Ok(None);
        }
        let Some(at) = plain_column(made, part) else {
            return Ok(None);
        };
        columns.push(at)?;
    }
    Ok(Some(columns))
}

// The columns of the key of a table WITHOUT ROWID, by the text that makes it, up to these words, and by the names of
// its set's columns. None where the key isn't the place, the id or the name.
pub(crate) fn key_of(
    alloc: Global,
    table: TableName,
    made: &Table,
    names: &[&str],
    text: &[u8],
) -> Result<Option<Vec<usize>>, FileError> {
    let parsed = match parse(alloc, text) {
        Ok(parsed) => parsed,
        Err(ParseError::OutOfMemory) => return Err(FileError::OutOfMemory),
        Err(_) => return Ok(None),
    };
    let Statement::CreateTable(definition) = &parsed.statement else {
        return Ok(None);
    };
    match primary_key(definition.body.rules.as_slice()) {
        Some(key) if may_have(table, key.len()) => columns_of(alloc, made, names, key),
        _ => Ok(None),
    }
}

// Whether a part of a key is a column.
fn is_column(part: usize, column: usize) -> bool
    ensures { result ≡ (part == column) }
{
    part == column
}

// Whether it is a later one.
fn is_later(part: usize, column: usize) -> bool
    ensures { result ≡ nat_lt column part }
{
    part > column
}

// Which part of a key is a column.
fn part_of(key: &[usize], column: usize) -> Option<usize>
    ensures { result ≡ position_from (λ part. part == column) 0 key.now }
{
    key.iter().position(|part| is_column(*part, column))
}

// How many parts of a key are later columns.
fn count_later(key: &[usize], column: usize) -> usize
    ensures { result ≡ length (filter (nat_lt column) key.now) }
{
    key.iter().filter(|part| is_later(**part, column)).count()
}

// Where the records of a table with such a key have a column: those of the key come first, then the others in order.
#[tactic(auto, unfolding(crate::specs::Columns::place_in_record))]
pub(crate) fn place_in_record(key: &[usize], column: usize) -> usize
    ensures { result ≡ place_in_record key.now column }
{
    match part_of(key, column) {
        Some(place) => place,
        None => column.saturating_add(count_later(key, column)),
    }
}
