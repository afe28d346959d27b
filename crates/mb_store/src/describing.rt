// Descriptions that a store adds to its own.
ghost use Rattle.std.specs.Prelude.{◌≡◌, IfOk};
ghost use Rattle.mb_store.specs.Common.{bytes_eq, list_any};
ghost use Rattle.mb_store.specs.Store.{with_tables};

use crate::TableDesc;
use base_values::OutOfMemory;
use std::alloc::Global;

// Whether a table or view of this name is described.
fn is_named(tables: &[TableDesc], name: &str) -> bool
    ensures { result ≡ list_any (λ d. bytes_eq d.name name.now) tables.now }
{
    tables.iter().any(|d| d.name.as_str() == name)
}

// Copies of descriptions.
pub(crate) fn clone_all(alloc: Global, tables: &[TableDesc]) -> Result<Vec<TableDesc>, OutOfMemory>
    ensures { IfOk result (λ copies. copies.items ≡ tables.now) }
{
    let mut copies = Vec::with_capacity(alloc, tables.len())?;
    for table in tables {
        copies.push(table.try_clone(alloc)?)?;
    }
    Ok(copies)
}

// Copies of descriptions, and of those of a second list whose names are new.
pub(crate) fn with_tables(
    alloc: Global,
    tables: &[TableDesc],
    added: &[TableDesc],
) -> Result<Vec<TableDesc>, OutOfMemory>
    ensures { IfOk result (λ all. all.items ≡ with_tables tables.now added.now) }
{
    let mut all = clone_all(alloc, tables)?;
    for table in added {
        if !is_named(all.as_slice(), table.name.as_str()) {
            all.push(table.try_clone(alloc)?)?;
        }
    }
    Ok(all)
}
