// Reading all of the input.
ghost use Rattle.std.specs.Prelude.{◌≡◌, ◌<◌, [], length, OnOk, IfErr, IfOk, IfSome, IsErrOf};
ghost use Rattle.byte_streams.specs.Common.{Rose};
ghost use Rattle.byte_streams.specs.Input.{FaultsStand, InputCounts, StopCounts, TakesAll};
ghost use Rattle.byte_streams.specs.Kept.{KeepsSource};
ghost use Rattle.byte_streams.specs.Streams.{Loses, IsAtEnd};

use crate::{InputTaker, Source};
use base_values::OutOfMemory;
use std::alloc::Global;
use thiserror::Error;

/// The greatest number of bytes that an input may have.
pub const MAX_INPUT: usize = 268_435_456;

const CHUNK: usize = 65_536;

/// Why the input wasn't read to its end.
#[derive(Clone, Copy, Debug, PartialEq, Eq, Error)]
pub enum InputError {
    /// The source failed, and its count of faults rose.
    #[error("input fault")]
    Fault,
    /// More than `MAX_INPUT` bytes were taken.
    #[error("input too long")]
    TooLong,
    /// Memory ran out.
    #[error("out of memory")]
    OutOfMemory,
}

impl From<OutOfMemory> for InputError {
    ghost use Rattle.std.specs.Prelude.{◌≡◌};
    ghost use Rattle.byte_streams.specs.declared.input.InputError.TheVariants as errors;

    ghost from_gives = { λ _ e. e ≡ errors.OutOfMemory };

    fn from(_: OutOfMemory) -> Self {
        InputError::OutOfMemory
    }
}

#[tactic(auto, using(crate::proofs::StreamsLemmas::reading))]
/// Hands all the bytes that are left to a taker that has taken none, where they aren't too many:
/// piece by piece, as they come.
pub fn take_input<S: Source, T: InputTaker>(source: &mut S, taker: &mut T) -> Result<(), InputError>
    requires { T.took taker.old [] }
    // What was left is taken, and nothing is left.
    ensures all { OnOk result (TakesAll (T.took taker.new) (S.left source.old) (S.left source.new)
        (S.taken source.old) (S.taken source.new)) }
    ensures end { OnOk result (IsAtEnd (S.left source.new)) }
    // Too much was taken exactly where the answer is TooLong.
    ensures counted { IfErr result (StopCounts (S.taken source.old) (S.taken source.new)) }
    ensures too_long_told { IsErrOf result InputError.TooLong
        → IfSome (S.left source.old) (λ left. MAX_INPUT < length left) }
    ensures fault { IsErrOf result InputError.Fault
        → Rose (S.faults source.old) (S.faults source.new) }
    ensures still { FaultsStand (S.faults source.old) (S.faults source.new) result }
    ensures kept { KeepsSource S.left S.taken S.faults S.steady source.old source.new }
{
    let mut buffer = [0u8; CHUNK];
    let mut total = 0usize;
    loop {
        let Ok(count) = source.read(&mut buffer) else {
            return Err(InputError::Fault);
        };
        if count == 0 {
            return Ok(());
        }
        if count > MAX_INPUT - total {
            return Err(InputError::TooLong);
        }
        taker.take(&buffer[..count])?;
        total += count;
    }
}

/// All the bytes that are left, where they aren't too many. Memory is asked for as they come.
pub fn read_input<S: Source>(alloc: Global, source: &mut S) -> Result<Vec<u8>, InputError>
    // What is answered is what was left, and nothing is left.
    ensures all { IfOk result (λ bytes. Loses (S.left source.old) (S.left source.new) bytes.items) }
    ensures end { OnOk result (IsAtEnd (S.left source.new)) }
    // Too much was taken exactly where the answer is TooLong.
    ensures counted { InputCounts (S.taken source.old) (S.taken source.new) result }
    ensures too_long_told { IsErrOf result InputError.TooLong
        → IfSome (S.left source.old) (λ left. MAX_INPUT < length left) }
    ensures fault { IsErrOf result InputError.Fault
        → Rose (S.faults source.old) (S.faults source.new) }
    ensures still { FaultsStand (S.faults source.old) (S.faults source.new) result }
    ensures kept { KeepsSource S.left S.taken S.faults S.steady source.old source.new }
{
    let mut bytes = Vec::new(alloc);
    take_input(source, &mut bytes)?;
    Ok(bytes)
}
