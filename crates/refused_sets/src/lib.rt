//! Calls that promise what the public calls of conversions promise: an edit that makes one of them mean
//! something else must be refused.
#![tactic(auto)]

mod conversion;
mod top_call;

pub use conversion::{base_after, converted, reads_back, summed};
pub use top_call::outcome;
