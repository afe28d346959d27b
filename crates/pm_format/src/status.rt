//! The statuses that the programs end with. One number has one meaning in all of them.
ghost use Rattle.std.specs.Prelude.{◌≡◌};
ghost use Rattle.pm_format.specs.Status.{archive_status};

use crate::{PmtError, ReadCause};

/// What was asked for is done.
pub const DONE: u8 = 0;

/// It is refused.
pub const REFUSED: u8 = 1;

/// The words of the command line are no command.
pub const USAGE: u8 = 2;

/// There is nothing to read: no such file, no set in it, or a script with a line that can't stand there.
pub const NO_INPUT: u8 = 3;

/// The input can't be read.
pub const INPUT_FAULT: u8 = 4;

/// A text can't be written on standard output.
pub const OUTPUT_FAULT: u8 = 5;

/// The file that is written, or the archive that is looked up, checked or cut, can't be opened, read or written.
pub const FAULT: u8 = 6;

/// Memory ran out.
pub const OUT_OF_MEMORY: u8 = 7;

/// The input is longer than the program takes.
pub const INPUT_TOO_LONG: u8 = 8;

/// The file gave something else back than was written to it.
pub const READ_BACK: u8 = 9;

/// The input is in a form that isn't read.
pub const OTHER_FORM: u8 = 10;

/// The status for a refusal of an archive: `FAULT` where its bytes can't be read, and `REFUSED` for any other, also
/// where a range passes their end.
pub fn archive_status(error: &PmtError) -> u8
    ensures { result ≡ archive_status error.now }
{
    match error {
        PmtError::Reading(cause) => match cause {
            ReadCause::Fault => FAULT,
            ReadCause::PastEnd => REFUSED,
        },
        _ => REFUSED,
    }
}
