// Descriptions that are kept: each a name, whether it is a table or a view, its columns with their types, and an index.
use crate::described::{say_layout, say_tables};
use base_values::TextList;
use mb_tables::{ColumnDesc, ColumnList, IndexDesc, IndexList, TableDesc, TableKind};
use rows_shared::{Words, say};
use set_words::{owned, spaced};
use std::alloc::Global;

// Columns that are parted by commas, each a name, a colon and a type.
fn columns(alloc: Global, word: &str) -> Option<ColumnList> {
    let mut columns = Vec::new(alloc);
    for column in word.split(',') {
        let (name, type_name) = column.split_once(':')?;
        let name = owned(alloc, name)?;
        let type_name = spaced(alloc, type_name)?;
        columns.push(ColumnDesc { name, type_name }).ok()?;
    }
    Some(ColumnList::new(columns))
}

fn index(alloc: Global, unique: bool, word: &str) -> Option<IndexDesc> {
    let mut columns = Vec::new(alloc);
    for column in word.split(',') {
        columns.push(owned(alloc, column)?).ok()?;
    }
    Some(IndexDesc {
        unique,
        columns: TextList::new(columns),
    })
}

// An index, `unique:` or `plain:` and its columns, or `-` for none.
fn indexes(alloc: Global, word: &str) -> Option<IndexList> {
    let mut indexes = Vec::new(alloc);
    if let Some(columns) = word.strip_prefix("unique:") {
        indexes.push(index(alloc, true, columns)?).ok()?;
    } else if let Some(columns) = word.strip_prefix("plain:") {
        indexes.push(index(alloc, false, columns)?).ok()?;
    }
    Some(IndexList::new(indexes))
}

fn kind(word: &str) -> Option<TableKind> {
    match word {
        "table" => Some(TableKind::Table),
        "view" => Some(TableKind::View),
        _ => None,
    }
}

fn table_of(alloc: Global, words: &mut Words) -> Option<TableDesc> {
    Some(TableDesc {
        name: owned(alloc, words.next()?)?,
        kind: kind(words.next()?)?,
        columns: columns(alloc, words.next()?)?,
        indexes: indexes(alloc, words.next()?)?,
    })
}

// Adds a copy of a description.
fn push_copy(alloc: Global, tables: &mut Vec<TableDesc>, table: &TableDesc) -> Option<()> {
    tables.push(table.try_clone(alloc).ok()?).ok()
}

fn add(alloc: Global, tables: &mut Vec<TableDesc>, words: &mut Words) -> Option<()> {
    let table = table_of(alloc, words)?;
    push_copy(alloc, tables, &table)
}

pub fn answer(
    alloc: Global,
    out: &mut String,
    tables: &mut Vec<TableDesc>,
    words: &mut Words,
) -> Option<()> {
    match words.next()? {
        "none" => {
            *tables = Vec::new(alloc);
            Some(())
        }
        "add" => add(alloc, tables, words),
        "layout" => say_layout(out, tables.as_slice()),
        "tables" => say_tables(out, tables.as_slice()),
        "all" => say(out, tables),
        _ => None,
    }
}
