// What a store says of one of its tables.
ghost use Rattle.std.specs.Prelude.{◌≡◌, IfOk};

use crate::{ColumnList, IndexList};
use base_values::{OutOfMemory, TextVal};
use std::alloc::Global;

/// Whether a description is of a table, which holds rows, or of a view.
#[derive(Clone, Copy, Debug, PartialEq, Eq)]
pub enum TableKind {
    /// A table of rows.
    Table,
    /// A view over other tables. It holds no rows of its own.
    View,
}

/// What a store says of one of its tables or views.
#[derive(Debug, Drop)]
pub struct TableDesc {
    /// Its name.
    pub name: TextVal,
    /// Whether it is a table or a view.
    pub kind: TableKind,
    /// Its columns in order.
    pub columns: ColumnList,
    /// Its indexes.
    pub indexes: IndexList,
}

impl TableDesc {
    /// A second description of the same table.
    pub fn try_clone(&self, alloc: Global) -> Result<TableDesc, OutOfMemory>
        ensures { IfOk result (λ copy. copy ≡ self.now) }
    {
        let name = self.name.try_clone(alloc)?;
        let columns = self.columns.try_clone(alloc)?;
        let indexes = self.indexes.try_clone(alloc)?;
        Ok(TableDesc {
            name,
            kind: self.kind,
            columns,
            indexes,
        })
    }
}
