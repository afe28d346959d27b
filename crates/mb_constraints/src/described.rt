// What the descriptions of a set's tables must have.
ghost use Rattle.std.specs.Prelude.{◌≡◌};
ghost use Rattle.mb_constraints.specs.Common.{list_any};
ghost use Rattle.mb_constraints.specs.Described.{has_column, is_metadata};

use mb_store::{TableDesc, TableKind};

// Whether a description has a column of this name, of whatever type.
fn has_column(description: &TableDesc, name: &str) -> bool
    ensures { result ≡ has_column name.now description.now }
{
    let columns = description.columns.as_slice();
    columns.iter().any(|column| column.name.as_str() == name)
}

// Whether a description is of a table of metadata.
fn is_metadata(description: &TableDesc) -> bool
    ensures { result ≡ is_metadata description.now }
{
    description.name.as_str() == "metadata"
        && description.kind == TableKind::Table
        && has_column(description, "name")
        && has_column(description, "value")
}

/// Whether a table of metadata is described: one by that name with columns `name` and `value`, of whatever type.
pub fn has_metadata(tables: &[TableDesc]) -> bool
    ensures { result ≡ list_any is_metadata tables.now }
{
    tables.iter().any(|description| is_metadata(description))
}
