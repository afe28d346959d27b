// How a conversion of the sets in files ends.
ghost use Rattle.std.specs.Prelude.{◌≡◌};
ghost use Rattle.set_conversion.specs.Outcome.{status};

use pm_format::{PmtError, status};
use std::alloc::AllocError;
use tile_bridge::ConvertError;
use tile_streaming::StreamReport;

/// How a conversion of the sets in files ends.
#[derive(Debug, Drop)]
pub enum ConversionOutcome {
    /// The archive is written and at its place.
    Done(StreamReport),
    /// The conversion is refused.
    Refused(ConvertError),
    /// A file is there that isn't to be replaced, or is one of the sets.
    Taken,
    /// The file of a set is there, and isn't read as a set.
    Unread,
    /// The archive would leave something out that the set has, and the words ask that nothing is.
    LeftOut,
    /// The words ask for nothing.
    Usage,
    /// The file of a set isn't there, or has no set.
    NoSet,
    /// The file of a set is there, and can't be read.
    InputFault,
    /// The text on the archive can't be written.
    OutputFault,
    /// The archive can't be written, or not put at its place.
    MediumFault,
    /// Memory ran out.
    OutOfMemory,
    /// The file of the archive gave something else back than what was written to it: why the archive can't be opened.
    ReadBack(PmtError),
    /// The set is in a form that isn't read here.
    OtherForm,
}

impl From<ConvertError> for ConversionOutcome {
    ghost use Rattle.std.specs.Prelude.{◌≡◌};
    ghost use Rattle.set_conversion.specs.Outcome.{of_convert};

    ghost from_gives = { λ e o. o ≡ of_convert e };

    fn from(error: ConvertError) -> ConversionOutcome {
        match error {
            ConvertError::MediumFault => ConversionOutcome::MediumFault,
            ConvertError::ReadBack(error) => ConversionOutcome::ReadBack(error),
            ConvertError::OutOfMemory => ConversionOutcome::OutOfMemory,
            refusal => ConversionOutcome::Refused(refusal),
        }
    }
}

impl From<AllocError> for ConversionOutcome {
    ghost use Rattle.std.specs.Prelude.{◌≡◌};
    ghost use Rattle.set_conversion.specs.declared.outcome.ConversionOutcome.TheVariants as outcomes;

    ghost from_gives = { λ _ o. o ≡ outcomes.OutOfMemory };

    fn from(_: AllocError) -> ConversionOutcome {
        ConversionOutcome::OutOfMemory
    }
}

/// The status that a program ends with: 0 for `Done`, 1 for `Refused`, `Taken`, `Unread` and `LeftOut`, 2 for `Usage`,
/// 3 for `NoSet`, 4 for `InputFault`, 5 for `OutputFault`, 6 for `MediumFault`, 7 for `OutOfMemory`, 9 for `ReadBack`
/// and 10 for `OtherForm`.
pub fn conversion_status(outcome: &ConversionOutcome) -> u8
    ensures { result ≡ status outcome.now }
{
    match outcome {
        ConversionOutcome::Done(_) => status::DONE,
        ConversionOutcome::Refused(_) => status::REFUSED,
        ConversionOutcome::Taken => status::REFUSED,
        ConversionOutcome::Unread => status::REFUSED,
        ConversionOutcome::LeftOut => status::REFUSED,
        ConversionOutcome::Usage => status::USAGE,
        ConversionOutcome::NoSet => status::NO_INPUT,
        ConversionOutcome::InputFault => status::INPUT_FAULT,
        ConversionOutcome::OutputFault => status::OUTPUT_FAULT,
        ConversionOutcome::MediumFault => status::FAULT,
        ConversionOutcome::OutOfMemory => status::OUT_OF_MEMORY,
        ConversionOutcome::ReadBack(_) => status::READ_BACK,
        ConversionOutcome::OtherForm => status::OTHER_FORM,
    }
}
