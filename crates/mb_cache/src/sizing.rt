// Throwing tiles out of a cache by size.
ghost use Rattle.std.specs.Prelude.{◌≡◌, ◌+◌, ◌-◌, ◌^◌, ◌<◌, true, IfErr, IfOk, Ok, OnErr, OnOk, drop, length, min, take};
ghost use Rattle.mb_cache.specs.Sizing.{SomeRounds, WithoutRounds, oversize, size_at, sizes_at};
ghost use Rattle.mb_cache.specs.State.{Agrees, without};
ghost use Rattle.mb_cache.specs.Common.{FaultsCounted, is_free, Keeps, live_size_of, ReadsOnly};

use crate::CacheState;
use crate::entries::Entry;
use crate::evicting::evict;
use base_values::OutOfMemory;
use mb_store::{MbtError, MbtResult, TableName, TileStore, size_with_cells};
use std::alloc::Global;
use std::collections::BTreeSet;

// How many entries a round throws out.
const ROUND: usize = 64;

// A size and that of the row of an entry, at most the greatest count.
fn with_row_of<S: TileStore>(
    alloc: Global,
    store: &mut S,
    size: u64,
    entry: &Entry,
) -> MbtResult<u64>
    ensures size { S.tells store.old ≡ true →
        IfOk result (λ sum. sum ≡ min (size + size_at (S.told store.old) entry.now) (2 ^ 64 - 1)) }
    ensures free { IfErr result (λ e. is_free e ≡ true) }
    ensures kept { ReadsOnly S.told S.tells S.faults S.steady store.old store.new }
    ensures fault { FaultsCounted S.faults store.old store.new result MbtError.StoreFault }
{
    match store.find(alloc, TableName::TileCache, &entry.key())? {
        Some(row) => Ok(size_with_cells(size, row.cells())),
        None => Ok(size),
    }
}

// The sizes of the rows of entries, at most the greatest count.
fn sizes_of<S: TileStore>(alloc: Global, store: &mut S, entries: &[Entry]) -> MbtResult<u64>
    ensures size { S.tells store.old ≡ true →
        IfOk result (λ size. size ≡ min (sizes_at (S.told store.old) entries.now) (2 ^ 64 - 1)) }
    ensures free { IfErr result (λ e. is_free e ≡ true) }
    ensures kept { ReadsOnly S.told S.tells S.faults S.steady store.old store.new }
    ensures fault { FaultsCounted S.faults store.old store.new result MbtError.StoreFault }
{
    let mut size = 0;
    for entry in entries {
        let next = with_row_of(alloc, store, size, entry)?;
        size = next;
    }
    Ok(size)
}

// The entries of the next round: the first 64, or all where they are fewer.
fn next_round(alloc: Global, entries: &BTreeSet<Entry>) -> Result<Vec<Entry>, OutOfMemory>
    ensures { IfOk result (λ round. round.items ≡ take 64 entries.now.keys) }
{
    let mut round = Vec::with_capacity(alloc, ROUND)?;
    for entry in entries {
        if round.len() >= ROUND {
            return Ok(round);
        }
        round.push(*entry)?;
    }
    Ok(round)
}

// Throws out the next round in one commit, and answers the sizes of its rows, at most the greatest count.
// Refused, nothing is changed.
fn evict_round<S: TileStore>(
    alloc: Global,
    store: &mut S,
    entries: &mut BTreeSet<Entry>,
) -> MbtResult<u64>
    requires agrees { S.tells store.old ≡ true → Agrees (S.told store.old) entries.old.keys }
    ensures evicted { S.tells store.old ≡ true →
        OnOk result (S.told store.new ≡ without (take 64 entries.old.keys) (S.told store.old)) }
    ensures size { S.tells store.old ≡ true →
        IfOk result (λ size. size ≡
        min (sizes_at (S.told store.old) (take 64 entries.old.keys)) (2 ^ 64 - 1)) }
    ensures agrees { S.tells store.old ≡ true → Agrees (S.told store.new) entries.new.keys }
    ensures left { OnOk result (entries.new.keys ≡ drop 64 entries.old.keys) }
    ensures err { OnErr result (S.told store.new ≡ S.told store.old) }
    ensures same { OnErr result (entries.new.keys ≡ entries.old.keys) }
    ensures free { IfErr result (λ e. is_free e ≡ true) }
    ensures kept { Keeps S.tells S.faults S.steady store.old store.new }
    ensures fault { FaultsCounted S.faults store.old store.new result MbtError.StoreFault }
{
    let round = next_round(alloc, entries)?;
    let size = sizes_of(alloc, store, &round)?;
    evict(alloc, store, entries, &round)?;
    Ok(size)
}

// The live size behind a commit that took rows of a size from a store of a live size. The greatest count may stand for
// more, so that the store is asked then.
fn size_after<S: TileStore>(store: &mut S, size: u64, gone: u64) -> MbtResult<u64>
    ensures known { size < 2 ^ 64 - 1 → result ≡ Ok (size - gone) }
    ensures asked { S.tells store.old ≡ true → size ≡ 2 ^ 64 - 1 →
        IfOk result (λ left. left ≡ live_size_of (S.told store.old)) }
    ensures free { IfErr result (λ e. is_free e ≡ true) }
    ensures kept { ReadsOnly S.told S.tells S.faults S.steady store.old store.new }
    ensures fault { FaultsCounted S.faults store.old store.new result MbtError.StoreFault }
{
    if size < u64::MAX {
        return Ok(size.saturating_sub(gone));
    }
    Ok(store.live_size()?)
}

// Makes rounds while the live size is above a number and entries are left. Refused, the rounds stand that were made.
fn evict_rounds<S: TileStore>(
    alloc: Global,
    store: &mut S,
    entries: &mut BTreeSet<Entry>,
    most: u64,
    live: u64,
) -> MbtResult<()>
    requires agrees { S.tells store.old ≡ true → Agrees (S.told store.old) entries.old.keys }
    requires live { S.tells store.old ≡ true → live ≡ live_size_of (S.told store.old) }
    ensures purged { S.tells store.old ≡ true →
        OnOk result (S.told store.new ≡
        without (oversize most entries.old.keys (S.told store.old)) (S.told store.old)) }
    ensures left { S.tells store.old ≡ true →
        OnOk result (length entries.new.keys
        + length (oversize most entries.old.keys (S.told store.old)) ≡ length entries.old.keys) }
    ensures agrees { S.tells store.old ≡ true → Agrees (S.told store.new) entries.new.keys }
    ensures err { S.tells store.old ≡ true →
        OnErr result (SomeRounds most entries.old.keys (S.told store.old) (S.told store.new)) }
    ensures rounds { WithoutRounds entries.old.keys entries.new.keys }
    ensures free { IfErr result (λ e. is_free e ≡ true) }
    ensures kept { Keeps S.tells S.faults S.steady store.old store.new }
    ensures fault { FaultsCounted S.faults store.old store.new result MbtError.StoreFault }
{
    let mut size = live;
    while size > most && !entries.is_empty() {
        let gone = evict_round(alloc, store, entries)?;
        let left = size_after(store, size, gone)?;
        size = left;
    }
    Ok(())
}

impl CacheState {
    /// Throws tiles out, null ones included, by rounds of 64 or of all that are left, each in one commit, while the
    /// live size of the store is above a number of bytes and tiles are left. They go by rising expiry, those that never
    /// expire last, and then by zoom, column and row from the bottom. It answers how many went. Refused, the rounds
    /// stand that were made, each whole, in their order.
    pub fn purge_cache_to_size<S: TileStore>(
        &mut self,
        store: &mut S,
        max_bytes: u64,
    ) -> MbtResult<u64>
        requires { S.tells store.old ≡ true → Agrees (S.told store.old) self.old }
        ensures count { S.tells store.old ≡ true →
            IfOk result (λ count. count ≡ length (oversize max_bytes self.old (S.told store.old))) }
        ensures purged { S.tells store.old ≡ true →
            OnOk result (S.told store.new ≡
            without (oversize max_bytes self.old (S.told store.old)) (S.told store.old)) }
        ensures agrees { S.tells store.old ≡ true → Agrees (S.told store.new) self.new }
        ensures own { IfOk result (λ count. length self.new + count ≡ length self.old) }
        ensures rounds { WithoutRounds self.old self.new }
        ensures free { IfErr result (λ e. is_free e ≡ true) }
        ensures err { S.tells store.old ≡ true →
            OnErr result (SomeRounds max_bytes self.old (S.told store.old) (S.told store.new)) }
        ensures kept { Keeps S.tells S.faults S.steady store.old store.new }
        ensures fault { FaultsCounted S.faults store.old store.new result MbtError.StoreFault }
    {
        let before = self.entries.len();
        let live = store.live_size()?;
        evict_rounds(self.alloc, store, &mut self.entries, max_bytes, live)?;
        Ok((before - self.entries.len()) as u64)
    }
}
