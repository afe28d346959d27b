// Where bytes come from.
ghost use Rattle.std.specs.Prelude.{◌≡◌, ℕ, List, OnErr, OnOk};
ghost use Rattle.byte_streams.specs.Common.{Option, Rose};
ghost use Rattle.byte_streams.specs.Kept.{KeepsSource};
ghost use Rattle.byte_streams.specs.Streams.{ReadTakes, CountsRead};

use thiserror::Error;

/// The source failed, and its count of faults rose. Nothing was taken.
#[derive(Clone, Copy, Debug, PartialEq, Eq, Error)]
#[error("input fault")]
pub struct SourceFault;

/// An object that bytes are taken from, one after another.
pub trait Source {
    /// The bytes that are left, where the source tells them.
    ghost left: { Self → Option (List ℕ) };

    /// How often the source has failed. It never falls, and stands where a call answers Ok.
    ghost faults: { Self → ℕ };

    /// How many bytes were taken.
    ghost taken: { Self → ℕ };

    /// No call from here on fails.
    ghost steady: { Self → Type 0 };

    /// Takes the next bytes, at most as many as the buffer has. None, for a buffer that has room, is the end.
    fn read(&mut self, buffer: &mut [u8]) -> Result<usize, SourceFault>
        ensures takes { ReadTakes (left self.old) (left self.new) result buffer.new }
        ensures cause { OnErr result (Rose (faults self.old) (faults self.new)) }
        ensures still { OnOk result (faults self.new ≡ faults self.old) }
        ensures counts { CountsRead (taken self.old) (taken self.new) result }
        ensures kept { KeepsSource left taken faults steady self.old self.new };
}
