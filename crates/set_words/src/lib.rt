//! What the programs of rows over tile sets share: cells, rows, keys, tables and layouts by their words, and rows and
//! changes that go into a store in memory.
#![tactic(auto)]

mod cells;
mod commits;
mod layouts;
mod making;
mod printed;
mod pushes;
mod texts;

pub use cells::{cell, key, row, row_of, table};
pub use commits::commit;
pub use layouts::layout;
pub use making::{fail, make, push_rows};
pub use printed::{TABLES, say_all, say_cell, say_table};
pub use pushes::{is_table, push};
pub use texts::{owned, spaced};
