// Where bytes go.
ghost use Rattle.std.specs.Prelude.{◌≡◌, ℕ, List, IsErrOf, OnOk};
ghost use Rattle.byte_streams.specs.Common.{Option, Rose};
ghost use Rattle.byte_streams.specs.Kept.{KeepsSink};
ghost use Rattle.byte_streams.specs.Streams.{WriteAppends};

use thiserror::Error;

/// Why nothing was appended.
#[derive(Clone, Copy, Debug, PartialEq, Eq, Error)]
pub enum SinkFault {
    /// The sink failed, and its count of faults rose.
    #[error("output fault")]
    Fault,
    /// Memory ran out.
    #[error("out of memory")]
    OutOfMemory,
}

/// An object that bytes are appended to.
pub trait Sink {
    /// The bytes that the sink holds, where it tells them.
    ghost held: { Self → Option (List ℕ) };

    /// How often the sink has failed. It never falls, and stands where a call answers Ok.
    ghost faults: { Self → ℕ };

    /// No call from here on fails.
    ghost steady: { Self → Type 0 };

    /// Appends a front of the piece, of at least one byte where the piece has one.
    fn write(&mut self, piece: &[u8]) -> Result<usize, SinkFault>
        ensures appends { WriteAppends (held self.old) (held self.new) result piece.now }
        ensures cause { IsErrOf result SinkFault.Fault → Rose (faults self.old) (faults self.new) }
        ensures still { OnOk result (faults self.new ≡ faults self.old) }
        ensures kept { KeepsSink held faults steady self.old self.new };
}
