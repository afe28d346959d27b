//! A store of tables over a database of `sqlite`.
#![tactic(auto)]

mod cursor;
mod failure;
pub mod laws;
mod layout;
mod making;
mod paging;
mod query;
mod reading;
mod rows;
mod sizing;
mod statements;
mod store;
mod writing;

pub use store::SqliteStore;
