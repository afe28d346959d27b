// The entries of an archive, one after another.
ghost use Rattle.std.specs.Prelude.{◌≡◌};

use crate::DirectoryCache;
use crate::walk::WalkState;
use pm_format::{Backend, DirEntry, PmtResult};

/// The entries of tiles of an archive: those of the root, then those of the leaves that it names, and so on. Each leaf
/// spends a unit of a budget and is read once at most. An error ends the walk: that of a leaf, or `BudgetSpent` where a
/// leaf comes next and no unit is left.
pub struct Entries<'a, B: Backend, C: DirectoryCache, S = WalkState> {
    pub(crate) backend: &'a mut B,
    pub(crate) cache: C,
    pub(crate) state: S,
}

// What is let go leaves the backend as it is.
impl<B: Backend, C: DirectoryCache + Drop, S: Drop> Drop for Entries<'_, B, C, S> {
    fn drop(self)
        ensures same { self.exit.0.now ≡ self.entry.backend.now }
    {
        let Entries {
            backend: _,
            cache: _,
            state: _,
        } = self;
    }
}

impl<'a, B: Backend, C: DirectoryCache + Drop> Iterator for Entries<'a, B, C> {
    type Item = PmtResult<DirEntry>;

    ghost use Rattle.std.specs.Iterator.{at_most};
    ghost use Rattle.pm_reader.specs.WalkSteps.{left_at_most};
    ghost use Rattle.pm_reader.specs.EntriesSteps.{Walks};

    ghost next_gives = { λ s item t. Walks B.told B.versions B.reads B.faults B.steady s item t };

    ghost remaining = { λ s. at_most (left_at_most s.state) };

    fn next(&mut self) -> Option<PmtResult<DirEntry>> {
        self.state.next_item(self.backend)
    }
}
