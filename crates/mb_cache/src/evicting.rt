// Throwing entries out of a cache.
ghost use Rattle.std.specs.Prelude.{◌≡◌, List, true, IfErr, IfOk, OnErr, OnOk, drop, length, take};
ghost use Rattle.mb_cache.specs.Evicting.{AreDeletes};
ghost use Rattle.mb_cache.specs.State.{Agrees, without};
ghost use Rattle.mb_cache.specs.Common.{AreOfTables, FaultsCounted, is_free, is_table, Keeps, TableDesc, TileCache};

use crate::entries::Entry;
use base_values::OutOfMemory;
use mb_store::{Changes, MbtError, MbtResult, TableName, TileStore};
use std::alloc::Global;
use std::collections::BTreeSet;

// The changes that remove the rows of entries.
fn deletes_of(alloc: Global, entries: &[Entry]) -> Result<Changes, OutOfMemory>
    ensures deletes { IfOk result (AreDeletes entries.now) }
    ensures tables { IfOk result (λ changes. (ds : List TableDesc) → is_table ds TileCache ≡ true →
        AreOfTables ds changes) }
{
    let mut changes = Changes::new(alloc);
    for entry in entries {
        changes.delete(TableName::TileCache, entry.key())?;
    }
    Ok(changes)
}

// Removes so many entries from the front.
fn pop_all(entries: &mut BTreeSet<Entry>, count: usize)
    ensures { entries.new.keys ≡ drop count entries.old.keys }
{
    let mut left = count;
    while left > 0 {
        entries.pop_first();
        left -= 1;
    }
}

/// Throws out the first entries of a cache, which are these, in one commit. Refused, nothing is changed.
pub(crate) fn evict<S: TileStore>(
    alloc: Global,
    store: &mut S,
    entries: &mut BTreeSet<Entry>,
    evicted: &[Entry],
) -> MbtResult<()>
    requires agrees { S.tells store.old ≡ true → Agrees (S.told store.old) entries.old.keys }
    requires first { take (length evicted.now) entries.old.keys ≡ evicted.now }
    ensures evicted { S.tells store.old ≡ true →
        OnOk result (S.told store.new ≡ without evicted.now (S.told store.old)) }
    ensures agrees { S.tells store.old ≡ true → Agrees (S.told store.new) entries.new.keys }
    ensures left { OnOk result (entries.new.keys ≡ drop (length evicted.now) entries.old.keys) }
    ensures err { OnErr result (S.told store.new ≡ S.told store.old) }
    ensures same { OnErr result (entries.new.keys ≡ entries.old.keys) }
    ensures free { IfErr result (λ e. is_free e ≡ true) }
    ensures kept { Keeps S.tells S.faults S.steady store.old store.new }
    ensures fault { FaultsCounted S.faults store.old store.new result MbtError.StoreFault }
{
    let changes = deletes_of(alloc, evicted)?;
    store.commit(alloc, &changes)?;
    pop_all(entries, evicted.len());
    Ok(())
}
