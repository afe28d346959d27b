//! Laws of commits, and those of the tables' own definitions.
ghost use Rattle.std.specs.Prelude.{◌≡◌, false, true, All, List, filter};
ghost use Rattle.std.specs.List.{find as first};
ghost use Rattle.mb_store.specs.Common.{Cell, cells_eq, has_key, key_cells, table_eq, TableName};
ghost use Rattle.mb_tables.specs.declared.key.RowKey.{RowKey};
ghost use Rattle.mb_store.specs.Committing.{CommitsTable};
ghost use Rattle.mb_store.specs.declared.change.Change.{Change};

pub use mb_tables::laws::{solid_at_each_place, tiles_at_each_place};

/// After a commit the row of each change, or none, is found under its key.
pub fn found_after_commit()
    ensures { (changes : List Change) (table : TableName) (old new : List (List Cell))
        → CommitsTable changes table old new
        → All (λ c. table_eq c.table table ≡ true → first (has_key table c.key) new ≡ c.row)
        changes }
{}

/// After a commit the rows of a key that no change has stand as they stood.
pub fn left_after_commit()
    ensures { (changes : List Change) (table : TableName) (old new : List (List Cell))
        → CommitsTable changes table old new → (key : RowKey)
        → All (λ c. table_eq c.table table ≡ true
        → cells_eq (key_cells c.key) (key_cells key) ≡ false) changes
        → filter (has_key table key) new ≡ filter (has_key table key) old }
{}
