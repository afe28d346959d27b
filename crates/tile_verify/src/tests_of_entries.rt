// The tests of a directory's ids and runs, in the order of its entries.
ghost use Rattle.std.specs.Prelude.{◌≡◌, ◌+◌, None};
ghost use Rattle.tile_verify.specs.FirstBreak.{entry_break, limits_break};

use crate::Reason;
use pm_format::DirEntry;

// The first test that an entry fails, behind another one and between two limits: no id below the first,
// none from the second on.
fn entry_reason(before: Option<DirEntry>, low: u64, limit: u64, entry: DirEntry) -> Option<Reason>
    ensures { result ≡ entry_break before low limit entry }
{
    if let Some(last) = before {
        if entry.tile_id() <= last.tile_id() {
            return Some(Reason::IdsFall);
        }
        if entry.tile_id() - last.tile_id() < u64::from(last.run_length()) {
            return Some(Reason::RunOverlaps);
        }
    }
    if entry.tile_id() < low || limit <= entry.tile_id() {
        return Some(Reason::OutsideRange);
    }
    if !entry.run_in_range() {
        return Some(Reason::PastMaxId);
    }
    if limit < entry.tile_id() + u64::from(entry.run_length()) {
        return Some(Reason::OutsideRange);
    }
    None
}

/// The first entry of a directory that fails a test of ids and runs, by its index, and why.
pub(crate) fn limits_reason(entries: &[DirEntry], low: u64, limit: u64) -> Option<(u64, Reason)>
    ensures { result ≡ limits_break None low limit 0 entries.now }
{
    let mut before = None;
    let mut index = 0;
    while index < entries.len() {
        let entry = entries[index];
        if let Some(reason) = entry_reason(before, low, limit, entry) {
            return Some((index as u64, reason));
        }
        before = Some(entry);
        index += 1;
    }
    None
}
