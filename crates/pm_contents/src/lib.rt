//! The different contents of an archive that is written: each once, found by its digest and
//! compared by reading it back.
#![tactic(auto)]

mod content;
mod contents;
mod sought;
mod span;

pub use content::Content;
pub use contents::Contents;
pub use sought::Sought;
