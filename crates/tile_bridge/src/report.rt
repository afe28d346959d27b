// What a conversion reports.
ghost use Rattle.std.specs.Prelude.{◌≡◌};

use base_values::{BlobVal, TextVal};
use pm_writer::ArchivePlaces;
use std::marker::Model;

/// The tiles at the coordinates that were asked for, in their order: None where there is no byte.
#[derive(Debug, Drop)]
pub struct Answers {
    tiles: Vec<Option<BlobVal>>,
}

impl Model for Answers {
    ghost use Rattle.std.specs.Prelude.{ℕ, List};
    ghost use Rattle.std.specs.declared.option.Option.{Option};

    ghost Value = { List (Option (List ℕ)) };

    ghost view = { λ a. a.tiles.items };
}

impl Answers {
    /// The answers that these tiles are.
    pub fn new(tiles: Vec<Option<BlobVal>>) -> Answers
        ensures { result ≡ tiles.items }
    {
        Answers { tiles }
    }

    /// The answers in order.
    pub fn as_slice(&self) -> &[Option<BlobVal>]
        ensures { result.now ≡ self.now }
    {
        self.tiles.as_slice()
    }
}

/// What a conversion found and wrote.
#[derive(Debug, Drop)]
pub struct ConvertReport {
    /// The tiles that were asked for.
    pub answers: Answers,
    /// The aggregate hash of the tile set.
    pub aggregate: TextVal,
    /// Where the parts of the archive lie, and what it counts.
    pub places: ArchivePlaces,
}
