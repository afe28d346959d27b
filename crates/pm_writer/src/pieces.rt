// Pieces that are written to a medium, and the order in which an archive is finished.
ghost use Rattle.std.specs.Prelude.{◌≡◌, ◌≤◌, ◌<◌, ◌+◌, ◌^◌, length, IfSome, OnOk, IsErrOf};
ghost use Rattle.pm_writer.specs.Common.{BothTold, EndsBelow, IsWithin, KeepsMedium, written, WroteFront, FaultsStand};
ghost use Rattle.pm_writer.specs.Pieces.{IsHiddenOr, IsOpenTo, PutCauses, finished};

use pm_format::{Header, Medium, PmtError, PmtResult, ReadCause, WriteFault};

/// Writes a piece at a place. A fault may leave a front of the piece written; after `OutOfMemory` nothing is written.
pub(crate) fn put<M: Medium>(medium: &mut M, offset: u64, piece: &[u8]) -> PmtResult<()>
    requires within { IfSome (M.told medium.old) (IsWithin offset) }
    requires fits { EndsBelow offset piece.now (2 ^ 64) }
    ensures done { OnOk result
        (BothTold (λ b c. c ≡ written b offset piece.now) (M.told medium.old) (M.told medium.new)) }
    ensures part { BothTold (WroteFront offset piece.now) (M.told medium.old) (M.told medium.new) }
    ensures memory { IsErrOf result PmtError.OutOfMemory
        → BothTold (λ b c. c ≡ b) (M.told medium.old) (M.told medium.new) }
    ensures causes { PutCauses (M.faults medium.old) (M.faults medium.new) result }
    ensures still { FaultsStand (M.faults medium.old) (M.faults medium.new) result }
    ensures reads { M.reads medium.new ≡ M.reads medium.old }
    ensures kept { KeepsMedium M.told M.versions M.reads M.faults M.steady medium.old medium.new }
{
    match medium.write_at(offset, piece) {
        Ok(()) => Ok(()),
        Err(WriteFault::Fault) => Err(PmtError::Reading(ReadCause::Fault)),
        Err(WriteFault::OutOfMemory) => Err(PmtError::OutOfMemory),
    }
}

/// Finishes an archive whose contents end at a place: the directories below the root behind them, the root at 127,
/// the header with 0 in place of its label of directories, and last this label. So until the last byte no reader
/// takes the bytes for an archive.
pub(crate) fn write_parts<M: Medium>(
    medium: &mut M,
    end: u64,
    below: &[u8],
    root: &[u8],
    header: &[u8; 127],
) -> PmtResult<()>
    requires front { 16384 ≤ end }
    requires small { length root.now ≤ 16257 }
    requires fits { end + length below.now < 2 ^ 64 }
    requires open { IfSome (M.told medium.old) (IsOpenTo end) }
    ensures done { OnOk result
        (BothTold (λ b c. c ≡ finished b below.now root.now header.now)
        (M.told medium.old) (M.told medium.new)) }
    ensures shown { BothTold (λ b c. IsHiddenOr (finished b below.now root.now header.now) c)
        (M.told medium.old) (M.told medium.new) }
    ensures causes { PutCauses (M.faults medium.old) (M.faults medium.new) result }
    ensures still { FaultsStand (M.faults medium.old) (M.faults medium.new) result }
    ensures reads { M.reads medium.new ≡ M.reads medium.old }
    ensures kept { KeepsMedium M.told M.versions M.reads M.faults M.steady medium.old medium.new }
{
    let label = header[97];
    let mut front = *header;
    front[97] = 0;
    put(medium, end, below)?;
    put(medium, 127, root)?;
    put(medium, 0, &front)?;
    put(medium, 97, &[label])
}
