//! The archive of several archives, the later ones over the earlier ones.
#![tactic(auto)]

mod adding;
mod error;
mod gathering;
mod headers;
mod joining;
pub mod laws;
mod overlaying;
mod piece;
mod planning;
mod writing;

pub use error::JoinError;
pub use joining::join;
pub use piece::Piece;
