// A store of a script, while its rows come.
ghost use Rattle.std.specs.Prelude.{◌≡◌};
ghost use Rattle.tileset_script.specs.Common.{told_of};
ghost use Rattle.tileset_script.specs.Layout.{tables_of};

use crate::layout::{Layout, has_table, tables_of};
use base_values::OutOfMemory;
use mb_store::{MbtError, MemStore, Row, TableName, TileStore};
use std::alloc::Global;

/// A store of a script, while its rows come.
#[derive(Drop)]
pub struct Section {
    layout: Layout,
    store: MemStore,
    ghost described: { (told_of store).descriptions ≡ tables_of layout },
}

impl Section {
    ghost use Rattle.std.specs.Prelude.{◌≡◌, length, IfOk};
    ghost use Rattle.tileset_script.specs.Common.{no_rows, told_of, width};
    ghost use Rattle.tileset_script.specs.Layout.{tables_of};
    ghost use Rattle.tileset_script.specs.Script.{row_added};
    ghost use Rattle.tileset_script.specs.Reading.{Takes};
    ghost use Rattle.tileset_script.specs.Section.{NeverFails};

    /// A store of the layout without rows. No call of it fails.
    pub(crate) fn new(alloc: Global, layout: Layout) -> Result<Section, OutOfMemory>
        ensures told { IfOk result (λ section. told_of section.store ≡ no_rows (tables_of layout)) }
        ensures unfailing { IfOk result (λ section. NeverFails section.store) }
    {
        let tables = tables_of(alloc, layout)?;
        let mut store = MemStore::new(alloc);
        if store.create(alloc, tables.as_slice()).is_err() {
            return Err(OutOfMemory);
        }
        Ok(Section { layout, store })
    }

    /// Adds a row to a table, and says whether the store has the table, and not yet a row of the same key.
    pub(crate) fn take_row(&mut self, table: TableName, row: Row) -> Result<bool, OutOfMemory>
        requires { length row ≡ width table }
        ensures takes { IfOk result (λ taken. Takes (row_added table row (told_of self.old.store))
            taken (told_of self.new.store)) }
        ensures unfailing { NeverFails self.old.store → NeverFails self.new.store }
    {
        if !has_table(self.layout, table) {
            return Ok(false);
        }
        match self.store.push_row(table, row) {
            Ok(()) => Ok(true),
            Err(MbtError::DuplicateRow(_)) => Ok(false),
            Err(_) => Err(OutOfMemory),
        }
    }

    /// The store with its rows.
    pub(crate) fn into_store(self) -> MemStore
        ensures { result ≡ self.store }
    {
        self.store
    }
}
