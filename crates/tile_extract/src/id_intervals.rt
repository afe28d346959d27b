// Intervals of ids, in order and apart.
ghost use Rattle.std.specs.Prelude.{◌≡◌, ◌↔◌, ◌≤◌, IsSome, IfSome, IsTrue};
ghost use Rattle.tile_extract.specs.Common.{AreApart};
ghost use Rattle.tile_extract.specs.Gathering.{low_behind};

use std::marker::Model;

/// Intervals of ids, each by its first and its last id: none is empty, and each ends before the next one begins.
#[derive(Debug, Drop)]
pub struct IdIntervals {
    items: Vec<(u64, u64)>,
}

impl Model for IdIntervals {
    ghost use Rattle.std.specs.Prelude.{ℕ, List};
    ghost use Rattle.tile_extract.specs.Common.{AreApart};

    ghost Value = { List (ℕ × ℕ) };

    ghost view = { λ s. s.items.items };

    ghost invariant = { λ s. AreApart 0 s.items.items };
}

// Whether an interval has an id, and begins behind another one, if there is one.
fn follows(before: Option<u64>, interval: (u64, u64)) -> bool
    ensures { IsTrue result ↔ ((low_behind before ≤ interval.0) × (interval.0 ≤ interval.1)) }
{
    let (first, last) = interval;
    match before {
        None => first <= last,
        Some(end) => end < first && first <= last,
    }
}

// Whether intervals are in order and apart.
fn are_apart(items: &[(u64, u64)]) -> bool
    ensures { IsTrue result ↔ AreApart 0 items.now }
{
    let mut rest = items;
    let mut before = None;
    while let Some((first, others)) = rest.split_first() {
        if !follows(before, *first) {
            return false;
        }
        before = Some(first.1);
        rest = others;
    }
    true
}

impl IdIntervals {
    /// These intervals, or none where one of them is empty or doesn't begin behind the one before it.
    pub fn new(items: Vec<(u64, u64)>) -> Option<IdIntervals>
        ensures valid { IsSome result ↔ AreApart 0 items.items }
        ensures value { IfSome result (λ found. found ≡ items.items) }
    {
        if !are_apart(items.as_slice()) {
            return None;
        }
        Some(IdIntervals { items })
    }

    /// Those that are known to be apart.
    pub(crate) fn of_apart(items: Vec<(u64, u64)>) -> IdIntervals
        requires { AreApart 0 items.items }
        ensures { result ≡ items.items }
    {
        IdIntervals { items }
    }

    /// The first and the last id of each, in order.
    pub fn as_slice(&self) -> &[(u64, u64)]
        ensures value { result.now ≡ self.now }
        ensures apart { AreApart 0 self.now }
    {
        self.items.as_slice()
    }
}
