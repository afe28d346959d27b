//! Pairs of a number and a value, of which those that were used last are kept: at most so many, and of at most
//! so much weight together.
#![tactic(auto)]

mod bounded;
mod lighten;
mod weigh;

pub use bounded::BoundedLru;
pub use weigh::Weigh;
