// A store: how it is made, which of its calls fail, and what it holds.
use mb_store::{
    ColumnDesc, ColumnList, IndexList, MemStore, PatchType, TableDesc, TableKind, TileStore,
    get_bsdiff_tbl_name,
};
use rows_shared::{Words, said, say};
use set_words::{make, owned, table};
use std::alloc::Global;
use std::fmt::Write;

// The rows of the tables that are named.
fn rows(alloc: Global, out: &mut String, store: &mut MemStore, words: &mut Words) -> Option<()> {
    for word in words {
        let mut name: Words = word.split_whitespace();
        let table = table(&mut name)?;
        write!(out, "{table} ").ok()?;
        said(out, store.rows(alloc, table, 0, 9999))?;
    }
    Some(())
}

// The names and the kinds of what is described.
fn tables(alloc: Global, out: &mut String, store: &mut MemStore) -> Option<()> {
    for table in store.describe(alloc).ok()? {
        write!(out, "{} ", table.name.as_str()).ok()?;
        say(out, &table.kind)?;
    }
    Some(())
}

fn add_column(
    alloc: Global,
    columns: &mut Vec<ColumnDesc>,
    name: &str,
    type_name: &str,
) -> Option<()> {
    let column = ColumnDesc {
        name: owned(alloc, name)?,
        type_name: owned(alloc, type_name)?,
    };
    columns.push(column).ok()
}

// A table of binary differences is described beside the others.
fn differences(alloc: Global, out: &mut String, store: &mut MemStore) -> Option<()> {
    let mut columns = Vec::new(alloc);
    add_column(alloc, &mut columns, "zoom_level", "INTEGER")?;
    add_column(alloc, &mut columns, "tile_column", "INTEGER")?;
    add_column(alloc, &mut columns, "tile_row", "INTEGER")?;
    add_column(alloc, &mut columns, "patch_data", "BLOB")?;
    add_column(alloc, &mut columns, "tile_xxh3_64_hash", "INTEGER")?;
    let mut tables = Vec::new(alloc);
    let table = TableDesc {
        name: owned(alloc, get_bsdiff_tbl_name(PatchType::BinDiffRaw))?,
        kind: TableKind::Table,
        columns: ColumnList::new(columns),
        indexes: IndexList::new(Vec::new(alloc)),
    };
    tables.push(table).ok()?;
    said(out, store.create(alloc, &tables))
}

/// A call of the next word.
pub fn answer(
    alloc: Global,
    out: &mut String,
    store: &mut MemStore,
    words: &mut Words,
) -> Option<()> {
    match words.next()? {
        "rows" => rows(alloc, out, store, words),
        "tables" => tables(alloc, out, store),
        "differences" => differences(alloc, out, store),
        call => make(alloc, store, call, words),
    }
}
