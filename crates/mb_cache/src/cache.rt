// A cache that borrows its store.
ghost use Rattle.std.specs.Prelude.{◌≡◌, ◌≢◌, ◌<◌, ◌+◌, ◌-◌, ◌^◌, Err, IfErr, IfOk, None, Ok, OnErr, OnOk, codes, drop, false, length, true};
ghost use Rattle.std.specs.Borrow.{sem, RestsIfErr};
ghost use Rattle.mb_cache.specs.Common.{Answers, FaultsCounted, is_free, IsBegun, Keeps, metadata_answer, ReadsOnly, Tables, take_while};
ghost use Rattle.mb_cache.specs.Entries.{is_expired_entry};
ghost use Rattle.mb_cache.specs.Finding.{coord_in};
ghost use Rattle.mb_cache.specs.Opening.{OpensAs, begun_with, done, open_answer};
ghost use Rattle.mb_cache.specs.Purging.{expired_rows, without_expired};
ghost use Rattle.mb_cache.specs.Reading.{IsRead, bytes_of, cached_of};
ghost use Rattle.mb_cache.specs.Refused.{LeftByOpening};
ghost use Rattle.mb_cache.specs.Setting.{SetsEntry, SetsTile, UpdatesEntry, UpdatesMeta, set_answer};
ghost use Rattle.mb_cache.specs.Sizing.{SomeRounds, WithoutRounds, oversize};
ghost use Rattle.mb_cache.specs.State.{Agrees, without};

use crate::{CacheEntryMeta, CacheState, CachedTile, Metadata, UnixSeconds};
use base_values::BlobVal;
use mb_store::{MbtError, MbtResult, TileStore};
use std::alloc::Global;

/// A cache of tiles in a store, to which nobody else writes while the cache borrows it.
pub struct MbtilesCache<'a, S: TileStore, C = CacheState> {
    pub(crate) store: &'a mut S,
    pub(crate) state: C,
}

// What is let go leaves the store as it is.
impl<S: TileStore, C: Drop> Drop for MbtilesCache<'_, S, C> {
    fn drop(self)
        ensures same { self.exit.0.now ≡ self.entry.store.now }
    {
        let MbtilesCache { store: _, state: _ } = self;
    }
}

impl<'a, S: TileStore> MbtilesCache<'a, S> {
    /// The cache of a store: `CacheState::open`, and then `over`.
    ///
    /// After an error a store that tells what it holds holds what it held, or has its new tables without rows; the
    /// count of faults didn't fall, and rose where `StoreFault` came (`rests`). Whoever needs this for a proof
    /// calls `CacheState::open`.
    pub fn open_cache(alloc: Global, store: &'a mut S) -> MbtResult<Self>
        ensures* rests { sem 𝓛 (RestsIfErr S.row store.entry (λ c. c.store.ghost_name) result
            (LeftByOpening S.tells S.told S.faults S.steady store.old result)) }
        ensures answer { S.tells store.old ≡ true →
            Answers (open_answer (S.told store.old)) (done result) }
        ensures unfailing { S.steady store.old →
            S.faults store.old < 2 ^ 64 - 1 →
            result ≢ Err MbtError.StoreFault }
        ensures same_reference { IfOk result (λ c. c.store.ghost_name ≡ store.entry.ghost_name) }
        ensures begun { S.tells store.old ≡ true →
            IfOk result (λ c. S.told c.store.now ≡ begun_with (S.told store.old)) }
        ensures agrees { S.tells store.old ≡ true →
            IfOk result (λ c. Agrees (S.told c.store.now) c.state) }
        ensures kept { IfOk result (λ c. Keeps S.tells S.faults S.steady store.old c.store.now) }
        ensures still { IfOk result (λ c. S.faults c.store.now ≡ S.faults store.old) }
        ensures own { IfErr result (λ e. (t : Tables) × OpensAs t (Err e)) }
    {
        match CacheState::open(alloc, store) {
            Ok(state) => Ok(MbtilesCache { store, state }),
            Err(error) => Err(error),
        }
    }

    /// The cache with this state over this store, over which the state was opened.
    pub fn over(store: &'a mut S, state: CacheState) -> MbtilesCache<'a, S>
        ensures same_reference { result.store.ghost_name ≡ store.entry.ghost_name }
        ensures same { result.store.now ≡ store.old }
        ensures state { result.state ≡ state }
    {
        MbtilesCache { store, state }
    }

    /// The tile that `CacheState::get_cached` answers.
    pub fn get_cached(&mut self, z: u8, x: u32, y: u32) -> MbtResult<Option<CachedTile>>
        ensures same_reference { self.new.store.ghost_name ≡ self.old.store.ghost_name }
        ensures answer { IsRead cached_of z x y (S.tells self.old.store.now)
            (S.told self.old.store.now) result }
        ensures state { self.new.state ≡ self.old.state }
        ensures kept { ReadsOnly S.told S.tells S.faults S.steady self.old.store.now
            self.new.store.now }
        ensures fault { FaultsCounted S.faults self.old.store.now self.new.store.now result
            MbtError.StoreFault }
    {
        self.state.get_cached(self.store, z, x, y)
    }

    /// Keeps a tile, as `CacheState::set_cached` does.
    pub fn set_cached(
        &mut self,
        z: u8,
        x: u32,
        y: u32,
        bytes: &[u8],
        meta: CacheEntryMeta<'_>,
    ) -> MbtResult<()>
        requires { S.tells self.old.store.now ≡ true →
            Agrees (S.told self.old.store.now) self.old.state }
        ensures same_reference { self.new.store.ghost_name ≡ self.old.store.ghost_name }
        ensures set { S.tells self.old.store.now ≡ true →
            OnOk result (SetsTile (coord_in z x y) meta.entry bytes.now
            (S.told self.old.store.now) (S.told self.new.store.now)) }
        ensures agrees { S.tells self.old.store.now ≡ true →
            Agrees (S.told self.new.store.now) self.new.state }
        ensures own { OnOk result (SetsEntry (coord_in z x y) meta.entry self.old.state
            self.new.state) }
        ensures answer { Answers (set_answer z x y) result }
        ensures err { OnErr result (S.told self.new.store.now ≡ S.told self.old.store.now) }
        ensures same { OnErr result (self.new.state ≡ self.old.state) }
        ensures kept { Keeps S.tells S.faults S.steady self.old.store.now self.new.store.now }
        ensures fault { FaultsCounted S.faults self.old.store.now self.new.store.now result
            MbtError.StoreFault }
    {
        self.state.set_cached(self.store, z, x, y, bytes, meta)
    }

    /// Keeps other times and another tag of a tile, as `CacheState::update_cached_meta` does.
    pub fn update_cached_meta(
        &mut self,
        z: u8,
        x: u32,
        y: u32,
        meta: CacheEntryMeta<'_>,
    ) -> MbtResult<bool>
        requires { S.tells self.old.store.now ≡ true →
            Agrees (S.told self.old.store.now) self.old.state }
        ensures same_reference { self.new.store.ghost_name ≡ self.old.store.ghost_name }
        ensures updated { S.tells self.old.store.now ≡ true →
            IfOk result (λ is. UpdatesMeta (coord_in z x y) meta.entry is
            (S.told self.old.store.now) (S.told self.new.store.now)) }
        ensures agrees { S.tells self.old.store.now ≡ true →
            Agrees (S.told self.new.store.now) self.new.state }
        ensures own { IfOk result (λ is. UpdatesEntry (coord_in z x y) meta.entry is
            self.old.state self.new.state) }
        ensures nowhere { coord_in z x y ≡ None → result ≡ Ok false }
        ensures free { IfErr result (λ e. is_free e ≡ true) }
        ensures err { OnErr result (S.told self.new.store.now ≡ S.told self.old.store.now) }
        ensures same { OnErr result (self.new.state ≡ self.old.state) }
        ensures kept { Keeps S.tells S.faults S.steady self.old.store.now self.new.store.now }
        ensures fault { FaultsCounted S.faults self.old.store.now self.new.store.now result
            MbtError.StoreFault }
    {
        self.state.update_cached_meta(self.store, z, x, y, meta)
    }

    /// Throws out the tiles that have an expiry below a moment, as `CacheState::purge_expired` does.
    pub fn purge_expired(&mut self, now: UnixSeconds) -> MbtResult<u64>
        requires { S.tells self.old.store.now ≡ true →
            Agrees (S.told self.old.store.now) self.old.state }
        ensures same_reference { self.new.store.ghost_name ≡ self.old.store.ghost_name }
        ensures count { S.tells self.old.store.now ≡ true →
            IfOk result (λ count. count ≡ length (expired_rows now (S.told self.old.store.now))) }
        ensures purged { S.tells self.old.store.now ≡ true →
            OnOk result (S.told self.new.store.now ≡ without_expired now
            (S.told self.old.store.now)) }
        ensures agrees { S.tells self.old.store.now ≡ true →
            Agrees (S.told self.new.store.now) self.new.state }
        ensures own { IfOk result (λ count. count ≡
            length (take_while (is_expired_entry now) self.old.state)) }
        ensures left { IfOk result (λ count. self.new.state ≡ drop count self.old.state) }
        ensures free { IfErr result (λ e. is_free e ≡ true) }
        ensures err { OnErr result (S.told self.new.store.now ≡ S.told self.old.store.now) }
        ensures same { OnErr result (self.new.state ≡ self.old.state) }
        ensures kept { Keeps S.tells S.faults S.steady self.old.store.now self.new.store.now }
        ensures fault { FaultsCounted S.faults self.old.store.now self.new.store.now result
            MbtError.StoreFault }
    {
        self.state.purge_expired(self.store, now)
    }

    /// Throws tiles out by rounds while the store holds more than so many bytes, as
    /// `CacheState::purge_cache_to_size` does.
    pub fn purge_cache_to_size(&mut self, max_bytes: u64) -> MbtResult<u64>
        requires { S.tells self.old.store.now ≡ true →
            Agrees (S.told self.old.store.now) self.old.state }
        ensures same_reference { self.new.store.ghost_name ≡ self.old.store.ghost_name }
        ensures count { S.tells self.old.store.now ≡ true →
            IfOk result (λ count. count ≡ length (oversize max_bytes self.old.state
            (S.told self.old.store.now))) }
        ensures purged { S.tells self.old.store.now ≡ true →
            OnOk result (S.told self.new.store.now ≡ without (oversize max_bytes self.old.state
            (S.told self.old.store.now)) (S.told self.old.store.now)) }
        ensures agrees { S.tells self.old.store.now ≡ true →
            Agrees (S.told self.new.store.now) self.new.state }
        ensures own { IfOk result (λ count. length self.new.state + count ≡ length self.old.state) }
        ensures rounds { WithoutRounds self.old.state self.new.state }
        ensures free { IfErr result (λ e. is_free e ≡ true) }
        ensures err { S.tells self.old.store.now ≡ true →
            OnErr result (SomeRounds max_bytes self.old.state (S.told self.old.store.now)
            (S.told self.new.store.now)) }
        ensures kept { Keeps S.tells S.faults S.steady self.old.store.now self.new.store.now }
        ensures fault { FaultsCounted S.faults self.old.store.now self.new.store.now result
            MbtError.StoreFault }
    {
        self.state.purge_cache_to_size(self.store, max_bytes)
    }

    /// The bytes of a tile, as `CacheState::get_tile` answers them.
    pub fn get_tile(&mut self, z: u8, x: u32, y: u32) -> MbtResult<Option<BlobVal>>
        ensures same_reference { self.new.store.ghost_name ≡ self.old.store.ghost_name }
        ensures answer { IsRead bytes_of z x y (S.tells self.old.store.now)
            (S.told self.old.store.now) result }
        ensures state { self.new.state ≡ self.old.state }
        ensures kept { ReadsOnly S.told S.tells S.faults S.steady self.old.store.now
            self.new.store.now }
        ensures fault { FaultsCounted S.faults self.old.store.now self.new.store.now result
            MbtError.StoreFault }
    {
        self.state.get_tile(self.store, z, x, y)
    }

    /// What the set says of itself, as `CacheState::get_metadata` answers it.
    pub fn get_metadata(&mut self) -> MbtResult<Metadata>
        ensures same_reference { self.new.store.ghost_name ≡ self.old.store.ghost_name }
        ensures answer { IsBegun (metadata_answer (codes "unknown")) (S.tells self.old.store.now)
            (S.told self.old.store.now) result }
        ensures state { self.new.state ≡ self.old.state }
        ensures kept { ReadsOnly S.told S.tells S.faults S.steady self.old.store.now
            self.new.store.now }
        ensures fault { FaultsCounted S.faults self.old.store.now self.new.store.now result
            MbtError.StoreFault }
    {
        self.state.get_metadata(self.store)
    }
}
