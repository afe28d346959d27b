// What the tiles of marks say of an archive.
ghost use Rattle.std.specs.Prelude.{◌≡◌};
ghost use Rattle.tile_streaming.specs.Common.{facts_of, State};
ghost use Rattle.tile_streaming.specs.Marks.{IsMarkedAs};
ghost use Rattle.tile_streaming.specs.MarkFacts.{facts_of_marks, is_empty, with_mark};

use crate::mark::{Mark, MarkedSet};
use set_options::TileFacts;
use tile_ids::TileCoord;

/// Whether a mark is of no byte.
pub(crate) fn is_empty(mark: &Mark) -> bool
    ensures { result ≡ is_empty mark.now }
{
    mark.length == 0 && !mark.is_long
}

// The same with a tile more.
fn with_mark(facts: TileFacts, mark: &Mark) -> TileFacts
    ensures { result ≡ with_mark facts mark.now }
{
    if is_empty(mark) {
        return facts;
    }
    let coord = TileCoord::from(mark.id);
    facts.with_tile(coord.z(), mark.gzip)
}

// What all of them say.
fn facts_of_marks(marks: &[Mark]) -> TileFacts
    ensures { result ≡ facts_of_marks marks.now }
{
    let mut facts = TileFacts::none();
    for mark in marks {
        let next = with_mark(facts, mark);
        facts = next;
    }
    facts
}

impl MarkedSet {
    /// What its tiles of at least one byte say of an archive.
    pub fn tile_facts(&self) -> TileFacts
        ensures { (s : State) → IsMarkedAs s self.now → result ≡ facts_of s.tiles }
    {
        facts_of_marks(&self.marks)
    }
}
