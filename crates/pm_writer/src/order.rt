// Entries by rising id.
ghost use Rattle.std.specs.Prelude.{◌≡◌, ℕ, List, MatchResult};
ghost use Rattle.std.specs.List.Sorted.{IsNonDecreasingBy, IsPermutation};
ghost use Rattle.pm_writer.specs.Adds.{entries_of_adds};
ghost use Rattle.pm_writer.specs.Means.{Means};
ghost use Rattle.pm_writer.specs.Twice.{Distinct, IsLeastTwice, first_within};

use crate::adds::Adds;
use pm_format::DirEntry;

// The id of the first entry that begins within the run of the one before it.
fn first_overlap(entries: &[DirEntry]) -> Option<u64>
    ensures { result ≡ first_within entries.now }
{
    for i in 1..entries.len() {
        let before = entries[i - 1];
        let next = entries[i];
        if next.tile_id().saturating_sub(before.tile_id()) < u64::from(before.run_length()) {
            return Some(next.tile_id());
        }
    }
    None
}

fn sort_by_id(entries: &mut Vec<DirEntry>)
    ensures same { IsPermutation entries.old.items entries.new.items }
    ensures rising { IsNonDecreasingBy (λ e. e.tile_id) entries.new.items }
{
    entries.sort_unstable_by_key(|entry| entry.tile_id());
}

impl Adds {
    /// The entries by rising id, or the least id that was added twice.
    pub(crate) fn into_entries(self) -> Result<Vec<DirEntry>, u64>
        ensures { (adds : List (ℕ × List ℕ)) → Means self adds
            → MatchResult result (λ v. (v.items ≡ entries_of_adds adds) × Distinct adds)
            (IsLeastTwice adds) }
    {
        let mut entries = self.into_unsorted();
        sort_by_id(&mut entries);
        match first_overlap(&entries) {
            Some(id) => Err(id),
            None => Ok(entries),
        }
    }
}
