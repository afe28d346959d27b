//! Archives from tiles: runs and contents once, leaves of bounded size, and the writer that puts them onto a medium.
#![tactic(auto)]

mod adding;
mod adding_runs;
mod adds;
mod builder;
mod cutting;
mod finishing;
pub mod laws;
mod level;
mod order;
mod pieces;
mod places;
mod settings;
mod state;
mod stream;

pub use builder::PmTilesWriter;
pub use places::ArchivePlaces;
pub use state::WriterState;
pub use stream::PmTilesStreamWriter;
