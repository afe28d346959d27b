//! Archives that are checked: sound, or the first part that is broken.
#![tactic(auto)]

mod broken;
mod checking;
mod error;
pub mod laws;
mod outcome;
mod outcome_text;
mod report;
mod tests_of_entries;
mod top_call;
mod walk;

pub use broken::{Place, Reason};
pub use checking::{verify, walk_all};
pub use error::VerifyError;
pub use outcome::VerifyOutcome;
pub use outcome_text::{verify_line, verify_status};
pub use report::VerifyReport;
pub use top_call::run_verify;
pub use walk::Met;
