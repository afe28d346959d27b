// How a run of the verifier ends.
use crate::{VerifyError, VerifyReport};

/// How a run of the verifier ends.
#[derive(Debug, Drop)]
pub enum VerifyOutcome {
    /// The archive is sound: what it has.
    Done(VerifyReport),
    /// The archive doesn't open or is broken, or its source failed. It is never `VerifyError::OutOfMemory`.
    Refused(VerifyError),
    /// There are words.
    Usage,
    /// Memory ran out.
    OutOfMemory,
}
