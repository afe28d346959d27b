//! What definitions say of pages.
ghost use Rattle.std.specs.Prelude.{ℤ, ◌++◌, List, Option};
ghost use Rattle.sqlite_value.specs.Order as sql;
ghost use Rattle.mb_sqlite.specs.Common.{TableName};
ghost use Rattle.mb_sqlite.specs.Reading.{RisesTo};

/// The `rowid`s of two pages in a row rise over both, so that no row is in both.
pub fn rising_pages()
    ensures { (table : TableName) (from mid last : Option ℤ) (first second : List sql.Row)
        → RisesTo table from first mid → RisesTo table mid second last
        → RisesTo table from (first ++ second) last }
{}
