// The part of a set that is converted: its tiles whose ids lie in intervals.
ghost use Rattle.std.specs.Prelude.{◌≡◌, ◌++◌, ◌∷◌, [], cond, false, filter, IfOk, List, ltb, MatchOption, OnOk, true};
ghost use Rattle.pm_walk.specs.Intervals.{AreApart, in_intervals};
ghost use Rattle.std.specs.List.Sorted.{IsPartitionPoint};
ghost use Rattle.tile_streaming.specs.Part.{lies, part_in};
ghost use Rattle.tile_streaming.specs.declared.mark.Mark.{Mark};

use crate::Mark;
use crate::patched_set::PatchedSet;
use base_values::OutOfMemory;
use std::alloc::Global;
use tile_extract::IdIntervals;

// How many of some intervals in order end before an id.
fn ended_before(intervals: &[(u64, u64)], id: u64) -> usize
    requires { AreApart 0 intervals.now }
    ensures { IsPartitionPoint (λ i. ltb i.1 id ≡ true) (λ i. ltb i.1 id ≡ false)
        intervals.now result }
{
    intervals.partition_point(|interval| interval.1 < id)
}

// Whether an id lies in one of some intervals in order: in the first that doesn't end before it.
fn lies_in(intervals: &[(u64, u64)], id: u64) -> bool
    requires { AreApart 0 intervals.now }
    ensures { result ≡ in_intervals id intervals.now }
{
    let first = ended_before(intervals, id);
    if first >= intervals.len() {
        return false;
    }
    intervals[first].0 <= id
}

// Puts a mark behind others, where it is one of them.
fn push_where(kept: &mut Vec<Mark>, mark: &Mark, is_kept: bool) -> Result<(), OutOfMemory>
    ensures { OnOk result (kept.new.items ≡ kept.old.items ++ cond is_kept (mark.now ∷ []) []) }
{
    if is_kept {
        kept.push(*mark)?;
    }
    Ok(())
}

// The marks whose ids lie in intervals.
fn marks_in(
    alloc: Global,
    intervals: &IdIntervals,
    marks: &[Mark],
) -> Result<Vec<Mark>, OutOfMemory>
    ensures { IfOk result (λ kept. kept.items ≡ filter (lies intervals.now) marks.now) }
{
    let items = intervals.as_slice();
    let mut kept = Vec::new(alloc);
    for mark in marks {
        push_where(&mut kept, mark, lies_in(items, mark.id.value()))?;
    }
    Ok(kept)
}

/// The marks of a part of a set: a list of their own for intervals, and none where they are all.
pub(crate) fn part_marks(
    alloc: Global,
    part: &Option<IdIntervals>,
    set: &PatchedSet,
) -> Result<Option<Vec<Mark>>, OutOfMemory>
    ensures { IfOk result (λ found. MatchOption found
        (part_in part.now set.now.marked ≡ set.now.marked.marks.items)
        (λ kept. part_in part.now set.now.marked ≡ kept.items)) }
{
    match part {
        Some(intervals) => Ok(Some(marks_in(alloc, intervals, &set.marked.marks)?)),
        None => Ok(None),
    }
}

/// The marks of a list, or where there is none all those of a set.
pub(crate) fn chosen_marks<'a>(found: &'a Option<Vec<Mark>>, set: &'a PatchedSet) -> &'a [Mark]
    ensures { (marks : List Mark) → MatchOption found.now (marks ≡ set.now.marked.marks.items)
        (λ kept. marks ≡ kept.items) → result.now ≡ marks }
{
    match found {
        Some(marks) => marks,
        None => &set.marked.marks,
    }
}
