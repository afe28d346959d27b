// Changes that are committed to a store in memory.
ghost use Rattle.std.specs.Prelude.{IsTrue};
ghost use Rattle.mb_store.specs.Committing.{AreOfTables};

use crate::pushes::is_table;
use mb_store::{Changes, MemStore, TileStore};
use mb_tables::TableDesc;
use rows_shared::said;
use std::alloc::Global;

// Whether all changes are of described tables.
fn are_described(tables: &[TableDesc], changes: &Changes) -> bool
    ensures { IsTrue result → AreOfTables tables.now changes.now }
{
    for index in 0..changes.len() {
        if !is_table(tables, changes.change_at(index).0) {
            return false;
        }
    }
    true
}

/// Commits changes, where all are of described tables, and prints the answer. Asks for the descriptions first.
pub fn commit(
    alloc: Global,
    out: &mut String,
    store: &mut MemStore,
    changes: &Changes,
) -> Option<()> {
    let tables = store.describe(alloc).ok()?;
    if !are_described(tables.as_slice(), changes) {
        return None;
    }
    said(out, store.commit(alloc, changes))
}
