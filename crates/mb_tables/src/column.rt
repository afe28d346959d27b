// The columns of a described table.
ghost use Rattle.std.specs.Prelude.{◌≡◌, IfOk};

use base_values::{OutOfMemory, TextVal};
use std::alloc::Global;
use std::marker::Model;

/// A described column: its name, and the text of its type as the description spells it.
#[derive(Debug, Drop)]
pub struct ColumnDesc {
    /// The column's name.
    pub name: TextVal,
    /// The text of its type, as `INTEGER`.
    pub type_name: TextVal,
}

impl ColumnDesc {
    /// A second description of the same column.
    pub fn try_clone(&self, alloc: Global) -> Result<ColumnDesc, OutOfMemory>
        ensures { IfOk result (λ copy. copy ≡ self.now) }
    {
        let name = self.name.try_clone(alloc)?;
        let type_name = self.type_name.try_clone(alloc)?;
        Ok(ColumnDesc { name, type_name })
    }
}

/// The columns of a described table in order.
#[derive(Debug, Drop)]
pub struct ColumnList {
    columns: Vec<ColumnDesc>,
}

impl Model for ColumnList {
    ghost use Rattle.std.specs.Prelude.{List};
    ghost use Rattle.mb_tables.specs.declared.column.ColumnDesc.{ColumnDesc};

    ghost Value = { List ColumnDesc };

    ghost view = { λ l. l.columns.items };
}

impl ColumnList {
    /// The list of these columns.
    pub fn new(columns: Vec<ColumnDesc>) -> ColumnList
        ensures { result ≡ columns.items }
    {
        ColumnList { columns }
    }

    /// The columns in order.
    pub fn as_slice(&self) -> &[ColumnDesc]
        ensures { result.now ≡ self.now }
    {
        self.columns.as_slice()
    }

    /// A second list of the same columns.
    pub fn try_clone(&self, alloc: Global) -> Result<ColumnList, OutOfMemory>
        ensures { IfOk result (λ copy. copy ≡ self.now) }
    {
        let mut columns = Vec::with_capacity(alloc, self.columns.len())?;
        for column in &self.columns {
            columns.push(column.try_clone(alloc)?)?;
        }
        Ok(ColumnList { columns })
    }
}
