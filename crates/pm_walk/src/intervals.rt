// Intervals that meet a range of ids.
ghost use Rattle.std.specs.Prelude.{◌≡◌, ◌+◌};
ghost use Rattle.pm_walk.specs.Intervals.{is_below, is_met, stays_within};
ghost use Rattle.pm_walk.specs.Walk.{meets};

use crate::Extent;

/// Whether an id lies below an end, where there is one.
pub(crate) fn is_below(end: Option<u64>, id: u64) -> bool
    ensures { result ≡ is_below end id }
{
    match end {
        None => true,
        Some(end) => id < end,
    }
}

/// Whether a run of so many ids from one on stays within an end, where there is one.
pub(crate) fn stays_within(end: Option<u64>, id: u64, run: u32) -> bool
    ensures { result ≡ stays_within end (id + run) }
{
    match end {
        None => true,
        Some(end) => id <= end && u64::from(run) <= end - id,
    }
}

// Whether some id from the first one on and below an end, where there is one, lies in an interval.
fn is_met(intervals: &[(u64, u64)], first: u64, end: Option<u64>) -> bool
    ensures { result ≡ is_met intervals.now first end }
{
    if !is_below(end, first) {
        return false;
    }
    let mut rest = intervals;
    while let Some((interval, others)) = rest.split_first() {
        if first <= interval.1 && is_below(end, interval.0) {
            return true;
        }
        rest = others;
    }
    false
}

/// Whether a leaf of such a range is met.
pub(crate) fn meets(extent: Extent, intervals: &[(u64, u64)], first: u64, end: Option<u64>) -> bool
    ensures { result ≡ meets extent intervals.now first end }
{
    match extent {
        Extent::Within => is_met(intervals, first, end),
        Extent::Whole => true,
    }
}
