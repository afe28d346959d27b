// How a run ends.
ghost use Rattle.std.specs.Prelude.{◌≡◌};

use crate::{InputError, SinkFault};
use base_values::OutOfMemory;
use pm_format::{PmtError, ReadCause, ReadFault};
use std::alloc::AllocError;
use tile_bridge::ConvertError;
use tileset_script::ScriptError;

/// How a run ends.
#[derive(Debug, Drop)]
pub enum Outcome {
    /// The archive and the report are written, and the input was read to its end.
    Done,
    /// The conversion is refused: the medium wasn't empty, directories have a label that can't be written, or the
    /// base or a patch is refused.
    Refused(ConvertError),
    /// The words are no command.
    Usage,
    /// A line of the script is none of its forms in its place, or repeats a key: the number of the first such line.
    BadScript {
        /// The line's number, the first line being 1.
        line: u64,
    },
    /// The source failed, and its count of faults rose.
    InputFault,
    /// The sink failed, and its count of faults rose.
    OutputFault,
    /// The medium failed, and its count of faults rose.
    MediumFault,
    /// Memory ran out.
    OutOfMemory,
    /// The input has more than 268,435,456 bytes.
    InputTooLong,
    /// A medium that tells no bytes gave something else back than what was written to it: why the archive
    /// can't be opened, or not read.
    ReadBack(PmtError),
}

impl From<ConvertError> for Outcome {
    ghost use Rattle.std.specs.Prelude.{◌≡◌};
    ghost use Rattle.tileset.specs.Outcomes.{of_convert};

    ghost from_gives = { λ e o. o ≡ of_convert e };

    fn from(error: ConvertError) -> Outcome {
        match error {
            ConvertError::MediumFault => Outcome::MediumFault,
            ConvertError::ReadBack(error) => Outcome::ReadBack(error),
            ConvertError::OutOfMemory => Outcome::OutOfMemory,
            refusal => Outcome::Refused(refusal),
        }
    }
}

impl From<SinkFault> for Outcome {
    ghost use Rattle.std.specs.Prelude.{◌≡◌};
    ghost use Rattle.tileset.specs.Outcomes.{of_sink};

    ghost from_gives = { λ e o. o ≡ of_sink e };

    fn from(fault: SinkFault) -> Outcome {
        match fault {
            SinkFault::Fault => Outcome::OutputFault,
            SinkFault::OutOfMemory => Outcome::OutOfMemory,
        }
    }
}

impl From<ReadFault> for Outcome {
    ghost use Rattle.std.specs.Prelude.{◌≡◌};
    ghost use Rattle.tileset.specs.Outcomes.{of_read};

    ghost from_gives = { λ e o. o ≡ of_read e };

    fn from(fault: ReadFault) -> Outcome {
        match fault {
            ReadFault::Fault => Outcome::MediumFault,
            ReadFault::PastEnd => Outcome::ReadBack(PmtError::Reading(ReadCause::PastEnd)),
            ReadFault::Short { asked, got } => {
                Outcome::ReadBack(PmtError::UnexpectedNumberOfBytesReturned(asked, got))
            }
            ReadFault::OutOfMemory => Outcome::OutOfMemory,
        }
    }
}

impl From<InputError> for Outcome {
    ghost use Rattle.std.specs.Prelude.{◌≡◌};
    ghost use Rattle.tileset.specs.Outcomes.{of_input};

    ghost from_gives = { λ e o. o ≡ of_input e };

    fn from(error: InputError) -> Outcome {
        match error {
            InputError::Fault => Outcome::InputFault,
            InputError::TooLong => Outcome::InputTooLong,
            InputError::OutOfMemory => Outcome::OutOfMemory,
        }
    }
}

impl From<ScriptError> for Outcome {
    ghost use Rattle.std.specs.Prelude.{◌≡◌};
    ghost use Rattle.tileset.specs.Outcomes.{of_script};

    ghost from_gives = { λ e o. o ≡ of_script e };

    fn from(error: ScriptError) -> Outcome {
        match error {
            ScriptError::BadLine(line) => Outcome::BadScript { line },
            ScriptError::OutOfMemory => Outcome::OutOfMemory,
        }
    }
}

impl From<OutOfMemory> for Outcome {
    ghost use Rattle.std.specs.Prelude.{◌≡◌};
    ghost use Rattle.tileset.specs.declared.outcome.Outcome.TheVariants as outcomes;

    ghost from_gives = { λ _ o. o ≡ outcomes.OutOfMemory };

    fn from(_: OutOfMemory) -> Outcome {
        Outcome::OutOfMemory
    }
}

impl From<AllocError> for Outcome {
    ghost use Rattle.std.specs.Prelude.{◌≡◌};
    ghost use Rattle.tileset.specs.declared.outcome.Outcome.TheVariants as outcomes;

    ghost from_gives = { λ _ o. o ≡ outcomes.OutOfMemory };

    fn from(_: AllocError) -> Outcome {
        Outcome::OutOfMemory
    }
}
