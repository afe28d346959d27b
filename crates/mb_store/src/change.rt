// One change of a store.
ghost use Rattle.std.specs.Prelude.{◌≡◌, IfOk};

use crate::{Row, RowKey, TableName};
use base_values::OutOfMemory;
use std::alloc::Global;

/// One change of a store: the row that stands under a key afterwards, or none.
#[derive(Debug, Drop)]
pub struct Change {
    pub(crate) table: TableName,
    pub(crate) key: RowKey,
    pub(crate) row: Option<Row>,
}

impl Change {
    // A second change of the same key and row.
    pub(crate) fn try_clone(&self, alloc: Global) -> Result<Change, OutOfMemory>
        ensures { IfOk result (λ copy. copy ≡ self.now) }
    {
        let key = self.key.try_clone(alloc)?;
        let row = match &self.row {
            Some(row) => Some(row.try_clone(alloc)?),
            None => None,
        };
        Ok(Change {
            table: self.table,
            key,
            row,
        })
    }
}
