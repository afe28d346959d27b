// The dump of a medium's bytes, read back and written piece by piece.
ghost use Rattle.std.specs.Prelude.{◌≡◌, ◌≤◌, ◌<◌, ◌+◌, ◌^◌, length, take, drop, IfSome, OnOk, IsErrOf};
ghost use Rattle.tileset.specs.Common.{Gains, GainsFront, KeepsMedium, KeepsSink, Rose};
ghost use Rattle.tileset.specs.Dump.{DumpCauses, HasLength};
ghost use Rattle.tileset.specs.HexDump.{hex_dump};
ghost use Rattle.tileset.specs.Printed.{Grows};
ghost use Rattle.tileset.specs.Run.{outcome_of};
ghost use Rattle.tileset.specs.Stands.{MediumStands, OutputStands};

use crate::hex_dump::push_hex_dump;
use crate::{Outcome, Sink, write_all};
use pm_format::Medium;
use std::alloc::Global;

// A whole number of lines.
const PIECE: u64 = 16_384;

// Writes the lines of a range of the medium, through a text that serves each range.
fn write_piece<O: Sink, M: Medium>(
    alloc: Global,
    at: u64,
    size: u64,
    text: &mut Vec<u8>,
    output: &mut O,
    medium: &mut M,
) -> Result<(), Outcome>
    requires small { at + size < 2 ^ 64 }
    requires within { IfSome (M.told medium.old) (λ b. at + size ≤ length b) }
    ensures all { OnOk result (IfSome (M.told medium.old) (λ b. Gains (O.held output.old)
        (O.held output.new) (hex_dump at (take size (drop at b))))) }
    ensures front { IfSome (M.told medium.old) (λ b. GainsFront (O.held output.old)
        (O.held output.new) (hex_dump at (take size (drop at b)))) }
    ensures grows { Grows (O.held output.old) (O.held output.new) }
    ensures told { M.told medium.new ≡ M.told medium.old }
    ensures causes { DumpCauses (M.told medium.old) result }
    ensures output_fault { IsErrOf result Outcome.OutputFault
        → Rose (O.faults output.old) (O.faults output.new) }
    ensures medium_fault { IsErrOf result Outcome.MediumFault
        → Rose (M.faults medium.old) (M.faults medium.new) }
    ensures output_kept { KeepsSink O.held O.faults O.steady output.old output.new }
    ensures medium_kept { KeepsMedium M.told M.versions M.reads M.faults M.steady
        medium.old medium.new }
    ensures output_still { OutputStands (O.faults output.old) (O.faults output.new)
        (outcome_of result) }
    ensures medium_still { MediumStands (M.faults medium.old) (M.faults medium.new)
        (outcome_of result) }
{
    let response = medium.read_exact(alloc, at, size)?;
    text.clear();
    push_hex_dump(text, at, response.bytes.as_slice())?;
    write_all(output, text.as_slice())?;
    Ok(())
}

/// Writes the lines of all bytes of a medium, whose length this is.
pub(crate) fn write_dump<O: Sink, M: Medium>(
    alloc: Global,
    length: u64,
    output: &mut O,
    medium: &mut M,
) -> Result<(), Outcome>
    requires whole { IfSome (M.told medium.old) (HasLength length) }
    ensures all { OnOk result (IfSome (M.told medium.old) (λ b. Gains (O.held output.old)
        (O.held output.new) (hex_dump 0 b))) }
    ensures front { IfSome (M.told medium.old) (λ b. GainsFront (O.held output.old)
        (O.held output.new) (hex_dump 0 b)) }
    ensures grows { Grows (O.held output.old) (O.held output.new) }
    ensures told { M.told medium.new ≡ M.told medium.old }
    ensures causes { DumpCauses (M.told medium.old) result }
    ensures output_fault { IsErrOf result Outcome.OutputFault
        → Rose (O.faults output.old) (O.faults output.new) }
    ensures medium_fault { IsErrOf result Outcome.MediumFault
        → Rose (M.faults medium.old) (M.faults medium.new) }
    ensures output_kept { KeepsSink O.held O.faults O.steady output.old output.new }
    ensures medium_kept { KeepsMedium M.told M.versions M.reads M.faults M.steady
        medium.old medium.new }
    ensures output_still { OutputStands (O.faults output.old) (O.faults output.new)
        (outcome_of result) }
    ensures medium_still { MediumStands (M.faults medium.old) (M.faults medium.new)
        (outcome_of result) }
{
    let mut text = Vec::new(alloc);
    let mut at = 0;
    while at < length {
        let size = (length - at).min(PIECE);
        write_piece(alloc, at, size, &mut text, output, medium)?;
        at += size;
    }
    Ok(())
}
