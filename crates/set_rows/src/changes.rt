// Changes: how many, and each `put` or `delete`, a table, a key, and the cells that are put.
ghost use Rattle.std.specs.Prelude.{◌≡◌, List, true, IfSome};
ghost use Rattle.mb_store.specs.Committing.{AreOfTables};
ghost use Rattle.mb_tables.specs.Described.{is_table};
ghost use Rattle.mb_tables.specs.declared.description.TableDesc.{TableDesc};

use mb_store::Changes;
use mb_tables::{RowKey, TableDesc, TableName};
use rows_shared::{Words, number, say};
use set_words::{is_table, key, row_of, table};
use std::alloc::Global;

fn put(
    alloc: Global,
    changes: &mut Changes,
    table: TableName,
    key: RowKey,
    words: &mut Words,
) -> Option<()>
    ensures { (ds : List TableDesc) → AreOfTables ds changes.old → is_table ds table ≡ true
        → AreOfTables ds changes.new }
{
    let row = row_of(alloc, table, words)?;
    if row.cells().len() != table.width() || !key.is_of(table, row.cells()) {
        return None;
    }
    changes.put(table, key, row).ok()
}

fn add(
    alloc: Global,
    changes: &mut Changes,
    call: &str,
    table: TableName,
    words: &mut Words,
) -> Option<()>
    ensures { (ds : List TableDesc) → AreOfTables ds changes.old → is_table ds table ≡ true
        → AreOfTables ds changes.new }
{
    let key = key(alloc, words)?;
    match call {
        "put" => put(alloc, changes, table, key, words),
        "delete" => changes.delete(table, key).ok(),
        _ => None,
    }
}

fn add_any(alloc: Global, changes: &mut Changes, words: &mut Words) -> Option<()> {
    let call = words.next()?;
    let table = table(words)?;
    add(alloc, changes, call, table, words)
}

// Adds a change of a described table.
fn add_described(
    alloc: Global,
    tables: &[TableDesc],
    changes: &mut Changes,
    words: &mut Words,
) -> Option<()>
    requires { AreOfTables tables.now changes.old }
    ensures { AreOfTables tables.now changes.new }
{
    let call = words.next()?;
    let table = table(words)?;
    if !is_table(tables, table) {
        return None;
    }
    add(alloc, changes, call, table, words)
}

// The changes of the words that are left, each of a described table.
pub fn changes_of(alloc: Global, tables: &[TableDesc], words: &mut Words) -> Option<Changes>
    ensures { IfSome result (λ changes. AreOfTables tables.now changes) }
{
    let mut changes = Changes::new(alloc);
    for _ in 0..number::<u8>(words)? {
        add_described(alloc, tables, &mut changes, words)?;
    }
    match words.next() {
        Some(_) => None,
        None => Some(changes),
    }
}

fn say_changes(out: &mut String, changes: &Changes) -> Option<()> {
    say(out, &changes.len())?;
    say(out, &changes.is_empty())?;
    for index in 0..changes.len() {
        say(out, &changes.change_at(index))?;
    }
    Some(())
}

pub fn answer(alloc: Global, out: &mut String, words: &mut Words) -> Option<()> {
    let mut changes = Changes::new(alloc);
    for _ in 0..number::<u8>(words)? {
        add_any(alloc, &mut changes, words)?;
    }
    say_changes(out, &changes)
}
