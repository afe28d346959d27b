//! Archives that are imported into tile sets.
#![tactic(auto)]

mod error;
mod importing;
mod put_over;
mod reading;
mod storing;
mod tiles;
mod walking;

pub use error::ImportError;
pub use importing::import;
pub use put_over::{of_store, put_archive};
pub use reading::{coord_at, of_reader};
pub use storing::load_base;
pub use walking::walk_archive;
