// How a run of the server ends.
ghost use Rattle.std.specs.Prelude.{◌≡◌};
ghost use Rattle.tile_serve.specs.Outcomes.{of_input, of_serve, of_sink, status};

use crate::ServeError;
use byte_streams::{InputError, SinkFault};
use pm_format::{archive_status, status};

/// How a run of the server ends.
#[derive(Debug, Drop)]
pub enum ServeOutcome {
    /// The input was read to its end, and the reply to each of its lines is written.
    Done,
    /// The archive doesn't open, or a line wasn't answered. It is never `ServeError::OutOfMemory`.
    Refused(ServeError),
    /// The words aren't the four limits.
    Usage,
    /// The input failed, and its count of faults rose.
    InputFault,
    /// The output failed, and its count of faults rose.
    OutputFault,
    /// The input has more than 268,435,456 bytes.
    InputTooLong,
    /// Memory ran out.
    OutOfMemory,
}

impl From<ServeError> for ServeOutcome {
    ghost from_gives = { λ e o. o ≡ of_serve e };

    fn from(error: ServeError) -> ServeOutcome {
        match error {
            ServeError::OutOfMemory => ServeOutcome::OutOfMemory,
            refusal => ServeOutcome::Refused(refusal),
        }
    }
}

impl From<InputError> for ServeOutcome {
    ghost from_gives = { λ e o. o ≡ of_input e };

    fn from(error: InputError) -> ServeOutcome {
        match error {
            InputError::Fault => ServeOutcome::InputFault,
            InputError::TooLong => ServeOutcome::InputTooLong,
            InputError::OutOfMemory => ServeOutcome::OutOfMemory,
        }
    }
}

impl From<SinkFault> for ServeOutcome {
    ghost from_gives = { λ e o. o ≡ of_sink e };

    fn from(fault: SinkFault) -> ServeOutcome {
        match fault {
            SinkFault::Fault => ServeOutcome::OutputFault,
            SinkFault::OutOfMemory => ServeOutcome::OutOfMemory,
        }
    }
}

/// The status that a program ends with: 0 for `Done`, 1 or, where the backend failed, 6 for `Refused`, 2 for `Usage`, 4
/// for `InputFault`, 5 for `OutputFault`, 7 for `OutOfMemory` and 8 for `InputTooLong`.
pub fn serve_status(outcome: &ServeOutcome) -> u8
    ensures { result ≡ status outcome.now }
{
    match outcome {
        ServeOutcome::Done => status::DONE,
        ServeOutcome::Refused(ServeError::Opening(error)) => archive_status(error),
        ServeOutcome::Refused(ServeError::Fault) => status::FAULT,
        ServeOutcome::Refused(_) => status::REFUSED,
        ServeOutcome::Usage => status::USAGE,
        ServeOutcome::InputFault => status::INPUT_FAULT,
        ServeOutcome::OutputFault => status::OUTPUT_FAULT,
        ServeOutcome::InputTooLong => status::INPUT_TOO_LONG,
        ServeOutcome::OutOfMemory => status::OUT_OF_MEMORY,
    }
}
