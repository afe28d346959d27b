// One cursor for each column of a directory.
ghost use Rattle.std.specs.Prelude.{◌≡◌, ℕ, suc, ◌+◌, ◌∷◌, None, option_map, IfOk, IfErr, OnErr};
ghost use Rattle.pm_reader.specs.Rows.{AreWithin, fit, rows_at};

use pm_format::{DirEntry, PmtError, PmtResult, offset_by, read_varint_u32, read_varint_u64};

/// The places of the next row in the four columns, with the id of the row before and where its bytes end.
#[derive(Clone, Copy)]
pub(crate) struct Cursors {
    pub(crate) ids: usize,
    pub(crate) runs: usize,
    pub(crate) lengths: usize,
    pub(crate) offsets: usize,
    pub(crate) last: u64,
    pub(crate) end: Option<u64>,
}

/// The entry of the next row, and the places after it. `InvalidEntry` where there is none.
pub(crate) fn next_entry(bytes: &[u8], at: Cursors) -> PmtResult<(DirEntry, Cursors)>
    requires { AreWithin bytes.now at }
    ensures found { IfOk result
        (λ r. (n : ℕ) → rows_at (suc n) bytes.now at ≡ option_map
        (λ es. r.0 ∷ es) (rows_at n bytes.now r.1)) }
    ensures within { IfOk result (λ r. AreWithin bytes.now r.1) }
    ensures none { OnErr result ((n : ℕ) → rows_at (suc n) bytes.now at ≡ None) }
    ensures error { IfErr result (λ e. e ≡ PmtError.InvalidEntry) }
{
    let (step, ids) = read_varint_u64(bytes, at.ids)?;
    let (run, runs) = read_varint_u32(bytes, at.runs)?;
    let (length, lengths) = read_varint_u32(bytes, at.lengths)?;
    let (number, offsets) = read_varint_u64(bytes, at.offsets)?;
    let Some(id) = sum(at.last, step) else {
        return Err(PmtError::InvalidEntry);
    };
    let Some(offset) = offset_by(at.end, number) else {
        return Err(PmtError::InvalidEntry);
    };
    let next = Cursors {
        ids,
        runs,
        lengths,
        offsets,
        last: id,
        end: sum(offset, u64::from(length)),
    };
    Ok((DirEntry::new(id, offset, length, run), next))
}

// A sum, where it is within u64.
fn sum(a: u64, b: u64) -> Option<u64>
    ensures { result ≡ fit (a + b) }
{
    a.checked_add(b)
}
