// How many entries a directory of tile entries below the root may have.
ghost use Rattle.std.specs.Prelude.{◌≡◌, ◌≤◌, IfSome};
ghost use Rattle.tileset_script.specs.LeafEntries.{IsLeafEntries, leaf_entries_of};

use line_words::parse_number;
use std::marker::Model;

/// The number from 16 to 65,536 that a word spells.
pub(crate) fn parse_leaf_entries(word: &[u8]) -> Option<u32>
    ensures value { result ≡ leaf_entries_of word.now }
    ensures within { IfSome result IsLeafEntries }
{
    let entries = parse_number(word, 65_536)?;
    if entries < 16 {
        return None;
    }
    Some(entries as u32)
}

/// How many entries a directory of tile entries below the root may have: 16 to 65,536.
#[derive(Debug, Drop)]
pub struct LeafEntries {
    entries: u32,
}

impl Model for LeafEntries {
    ghost use Rattle.std.specs.Prelude.{ℕ, ◌≤◌};

    ghost Value = { ℕ };

    ghost view = { λ l. l.entries };

    ghost invariant = { λ l. (16 ≤ l.entries) × (l.entries ≤ 65536) };
}

impl LeafEntries {
    /// The number that a word spells.
    pub(crate) fn parse(word: &[u8]) -> Option<LeafEntries>
        ensures { result ≡ leaf_entries_of word.now }
    {
        let entries = parse_leaf_entries(word)?;
        Some(LeafEntries { entries })
    }

    /// The number.
    pub fn value(&self) -> u32
        ensures value { result ≡ self.now }
        ensures least { 16 ≤ result }
        ensures most { result ≤ 65536 }
    {
        self.entries
    }
}
