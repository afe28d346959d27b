//! Tile sets that are read of a database of `sqlite` into a store in memory.
#![tactic(auto)]

mod answer;
mod asking;
mod cells;
mod disk_file;
mod error;
mod file;
mod file_read;
mod filling;
mod left_out;
mod master;
mod read_only;
mod reading;
mod rows;
mod set_read;
mod stamps;
mod texts;
mod value_kind;
mod views;

pub use answer::Answer;
pub use disk_file::DiskFile;
pub use error::{BesideFile, ReadError};
pub use file::read_file;
pub use file_read::FileRead;
pub use filling::{Step, misplaced};
pub use left_out::{LeftOut, PlaceValue, PlaceValues};
pub use master::{first_layout, is_there};
pub use reading::read_set;
pub use rows::{is_placed, row_of};
pub use set_read::SetRead;
pub use value_kind::{ValueKind, kind_of};
