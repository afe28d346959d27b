//! Loading tile sets: the order of the tests that a store of tables must pass, what the tables hold, and
//! the commit of a loaded set.
#![tactic(auto)]

mod commit;
mod from_rows;
pub mod laws;
mod loading;
mod reading;
mod tiles_of_rows;

pub use commit::commit_loaded;
pub use loading::{load, load_owned};
pub use mb_constraints::{test_base_hashes, test_patch_hashes};
pub use mb_loaded::{Editing, GivenIds, Loaded};
