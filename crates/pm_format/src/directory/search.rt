// Look-ups in directories by halves.
ghost use Rattle.std.specs.Prelude.{◌≡◌, ◌≤◌, ◌<◌, ◌+◌, ◌*◌, ◌-◌, ◌^◌, ◌↔◌, IsTrue, length, option_copied};
ghost use Rattle.pm_format.specs.Directory.{IdsDontFall};
ghost use Rattle.pm_format.specs.Scan.{Parts, covers, scan};

use super::Directory;
use crate::{DirEntry, Steps};
use std::marker::Brand;
use std::sync::ledger::{Blank, Ledger};
use tile_ids::TileId;

impl Directory {
    /// The last entry whose id is at most the given one, where it covers it: a leaf entry covers all ids up to the next
    /// entry, another one its run.
    pub fn find_tile_id(&self, tile_id: TileId) -> Option<&DirEntry>
        ensures { option_copied result ≡ scan self.now tile_id }
    {
        find_from::<Brand>(self, tile_id, Blank::new(1))
    }

    /// The same, with one step for each entry whose id is compared.
    pub fn find_tile_id_counted<L: Ledger>(
        &self,
        tile_id: TileId,
        steps: &mut Steps<L>,
    ) -> Option<&DirEntry>
        ensures found { option_copied result ≡ scan self.now tile_id }
        ensures later { steps.old ≤ steps.new }
        ensures cost { 2 ^ (steps.new - steps.old) ≤ 2 * length self.now + 1 }
    {
        let entries = self.entries();
        let id = tile_id.value();
        let begun = count_begun(entries, id, steps);
        if begun == 0 {
            return None;
        }
        covering(&entries[begun - 1], id)
    }
}

fn find_from<L: Ledger>(directory: &Directory, tile_id: TileId, blank: Blank) -> Option<&DirEntry>
    requires name { blank.name ≡ L.name }
    requires parts { blank.parts ≡ L.parts }
    requires some { 0 < blank.parts }
    ensures { option_copied result ≡ scan directory.now tile_id }
{
    let mut steps: Steps<L> = Steps::new(blank);
    directory.find_tile_id_counted(tile_id, &mut steps)
}

// The only comparison of an entry's id: it takes a step.
fn begins_by<L: Ledger>(entry: &DirEntry, id: u64, steps: &mut Steps<L>) -> bool
    ensures value { IsTrue result ↔ (entry.now.tile_id ≤ id) }
    ensures step { steps.new ≡ steps.old + 1 }
{
    steps.tick();
    entry.tile_id <= id
}

// How many entries begin at the id or before it.
fn count_begun<L: Ledger>(entries: &[DirEntry], id: u64, steps: &mut Steps<L>) -> usize
    requires { IdsDontFall entries.now }
    ensures parts { Parts entries.now id result }
    ensures later { steps.old ≤ steps.new }
    ensures cost { 2 ^ (steps.new - steps.old) ≤ 2 * length entries.now + 1 }
{
    let mut low = 0;
    let mut high = entries.len();
    while low < high {
        let middle = low + (high - low) / 2;
        if begins_by(&entries[middle], id, steps) {
            low = middle + 1;
        } else {
            high = middle;
        }
    }
    low
}

/// The entry, where it covers an id from its own on: it leads to a leaf, or its run has the id.
pub fn covering(entry: &DirEntry, id: u64) -> Option<&DirEntry>
    requires { entry.now.tile_id ≤ id }
    ensures { option_copied result ≡ covers id entry.now }
{
    if entry.run_length == 0 {
        return Some(entry);
    }
    if id - entry.tile_id < u64::from(entry.run_length) {
        Some(entry)
    } else {
        None
    }
}
