// The runs of an archive laid over those of others.
ghost use Rattle.std.specs.Prelude.{◌≡◌, ◌≢◌, ◌≤◌, ◌<◌, ◌+◌, ◌++◌, ℕ, [], ◌∷◌, MatchOption, None, IfOk, OnOk};
ghost use Rattle.tile_ids.specs.declared.id.TheConstants.{MAX_TILE_ID};
ghost use Rattle.tile_join.specs.Common.{AreOrdered};
ghost use Rattle.tile_join.specs.Over.{AreLeft, InOrder, between, cut_out, end_of, numbered, over};

use crate::Piece;
use base_values::OutOfMemory;
use pm_format::DirEntry;
use std::alloc::Global;
use tile_ids::MAX_TILE_ID;

// The part of a run of tiles from one id on and below another, if there is one.
fn cut_out(piece: Piece, low: u64, end: u64) -> Option<Piece>
    requires within { end_of piece ≤ MAX_TILE_ID + 1 }
    ensures { MatchOption result (cut_out low end piece ≡ [])
        (λ part. cut_out low end piece ≡ part ∷ []) }
{
    let entry = piece.entry;
    let first = entry.tile_id().max(low);
    let last = (entry.tile_id() + u64::from(entry.run_length())).min(end);
    if last <= first {
        return None;
    }
    let count = (last - first) as u32;
    Some(Piece {
        source: piece.source,
        entry: DirEntry::new(first, entry.offset(), entry.length(), count),
    })
}

// Pushes the part of a run from one id on and below another, if there is one.
fn push_part(pushed: &mut Vec<Piece>, piece: Piece, low: u64, end: u64) -> Result<(), OutOfMemory>
    requires within { end_of piece ≤ MAX_TILE_ID + 1 }
    ensures { OnOk result (pushed.new.items ≡ pushed.old.items ++ cut_out low end piece) }
{
    if let Some(part) = cut_out(piece, low, end) {
        pushed.push(part)?;
    }
    Ok(())
}

// Pushes those of several runs, and answers the runs of which something may lie behind.
fn push_between<'a>(
    pushed: &mut Vec<Piece>,
    pieces: &'a [Piece],
    low: u64,
    end: u64,
) -> Result<&'a [Piece], OutOfMemory>
    requires ordered { (n : ℕ) × (from : ℕ) × InOrder n from pieces.now }
    ensures pushed { IfOk result (λ rest. pushed.new.items
        ≡ pushed.old.items ++ between low end pieces.now) }
    ensures left { IfOk result (λ rest. AreLeft end pieces.now rest.now) }
    ensures ordered { IfOk result (λ rest. (n : ℕ) × (from : ℕ) × InOrder n from rest.now) }
{
    let mut rest = pieces;
    while let Some((piece, others)) = rest.split_first() {
        push_part(pushed, *piece, low, end)?;
        if end < piece.entry.tile_id() + u64::from(piece.entry.run_length()) {
            return Ok(rest);
        }
        rest = others;
    }
    Ok(rest)
}

/// The runs of a source with this number laid over those of others: where it has an id, it alone has it.
///
/// The runs are in order and apart, and so are those that come of them. Each is gone through once, whatever its length.
pub(crate) fn lay_over(
    alloc: Global,
    source: usize,
    entries: &[DirEntry],
    pieces: &[Piece],
) -> Result<Vec<Piece>, OutOfMemory>
    requires entries { AreOrdered 0 entries.now None }
    requires pieces { (n : ℕ) × InOrder n 0 pieces.now }
    ensures { IfOk result (λ laid. laid.items ≡ over 0 (numbered source entries.now) pieces.now) }
{
    let mut laid = Vec::new(alloc);
    let mut below = pieces;
    let mut rest = entries;
    let mut low = 0;
    while let Some((entry, others)) = rest.split_first() {
        let left = push_between(&mut laid, below, low, entry.tile_id())?;
        below = left;
        laid.push(Piece {
            source,
            entry: *entry,
        })?;
        low = entry.tile_id() + u64::from(entry.run_length());
        rest = others;
    }
    push_between(&mut laid, below, low, MAX_TILE_ID + 1)?;
    Ok(laid)
}
