// Throwing tiles out of a cache by age.
ghost use Rattle.std.specs.Prelude.{◌≡◌, true, drop, IfErr, IfOk, length, OnErr, OnOk};
ghost use Rattle.mb_cache.specs.Common.{FaultsCounted, is_free, Keeps, take_while};
ghost use Rattle.mb_cache.specs.Entries.{is_expired_entry};
ghost use Rattle.mb_cache.specs.Purging.{expired_rows, without_expired};
ghost use Rattle.mb_cache.specs.State.{Agrees};

use crate::entries::Entry;
use crate::evicting::evict;
use crate::{CacheState, UnixSeconds};
use base_values::OutOfMemory;
use mb_store::{MbtError, MbtResult, TileStore};
use std::alloc::Global;
use std::collections::BTreeSet;

// The entries that expire before a moment, which are the first ones.
fn expired(
    alloc: Global,
    entries: &BTreeSet<Entry>,
    now: UnixSeconds,
) -> Result<Vec<Entry>, OutOfMemory>
    ensures { IfOk result (λ expired. expired.items ≡
        take_while (is_expired_entry now) entries.now.keys) }
{
    let mut expired = Vec::new(alloc);
    for entry in entries {
        if !entry.is_expired(now) {
            return Ok(expired);
        }
        expired.push(*entry)?;
    }
    Ok(expired)
}

impl CacheState {
    /// Throws out exactly the tiles that have an expiry below a moment, null ones included, in one commit, and answers
    /// how many they were. Refused, nothing is changed.
    pub fn purge_expired<S: TileStore>(&mut self, store: &mut S, now: UnixSeconds) -> MbtResult<u64>
        requires { S.tells store.old ≡ true → Agrees (S.told store.old) self.old }
        ensures count { S.tells store.old ≡ true →
            IfOk result (λ count. count ≡ length (expired_rows now (S.told store.old))) }
        ensures purged { S.tells store.old ≡ true →
            OnOk result (S.told store.new ≡ without_expired now (S.told store.old)) }
        ensures agrees { S.tells store.old ≡ true → Agrees (S.told store.new) self.new }
        ensures own { IfOk result (λ count. count ≡
            length (take_while (is_expired_entry now) self.old)) }
        ensures left { IfOk result (λ count. self.new ≡ drop count self.old) }
        ensures free { IfErr result (λ e. is_free e ≡ true) }
        ensures err { OnErr result (S.told store.new ≡ S.told store.old) }
        ensures same { OnErr result (self.new ≡ self.old) }
        ensures kept { Keeps S.tells S.faults S.steady store.old store.new }
        ensures fault { FaultsCounted S.faults store.old store.new result MbtError.StoreFault }
    {
        let expired = expired(self.alloc, &self.entries, now)?;
        evict(self.alloc, store, &mut self.entries, &expired)?;
        Ok(expired.len() as u64)
    }
}
