//! A tile set read from the pages of a SQLite file, so that no table of it is held in memory.
#![tactic(auto)]

mod catalog;
mod checking;
mod columns;
mod course;
mod cursor;
mod error;
mod fault;
mod file;
mod header;
mod index_cell;
mod key_order;
mod keyed;
mod listing;
mod memory;
mod metadata;
mod numbers;
mod opening;
mod pages;
mod paging;
mod record;
mod scan;
mod set_table;
mod sizing;
mod source;
mod store;
mod true_disk;
mod walk;

pub use error::FileError;
pub use fault::FileFault;
pub use file::SetFile;
pub use store::FileSet;
pub use true_disk::TrueDisk;
