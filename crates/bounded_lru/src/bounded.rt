// Pairs within two bounds, the latest used first.
ghost use Rattle.std.specs.Prelude.{◌≡◌, ◌≤◌, [], None, Some, IfNone, IfOk, IfSome, is_some, nat_eq, option_copied, option_map, slice_get};
ghost use Rattle.bounded_lru.specs.Common.{lookup};
ghost use Rattle.bounded_lru.specs.Bounded.{IsWithin, Puts, bounded, used, weight_of as weight_of_pairs};

use crate::Weigh;
use crate::lighten::{lighten, weight_of};
use base_values::OutOfMemory;
use lru::LruCache;
use std::alloc::Global;
use std::marker::Model;
use std::num::NonZeroUsize;

/// Values by numbers, of which those that were used last are kept: at most so many, and of at most so much weight
/// together where there is a limit.
#[derive(Drop)]
pub struct BoundedLru<V: Weigh> {
    pairs: LruCache<u64, V>,
    limit: Option<u64>,
    // what all pairs weigh, where there is a limit
    weight: u64,
}

impl<V: Weigh> Model for BoundedLru<V> {
    ghost use Rattle.std.specs.Prelude.{◌≡◌, ◌≤◌, ◌<◌, length, IfSome};
    ghost use Rattle.bounded_lru.specs.Bounded.{Bounded, bounded, bounded_code, weight_of};

    ghost Value = { Bounded V };

    ghost coded = { bounded_code V.code };

    ghost view = { λ b. bounded b.pairs.entries b.pairs.cap b.limit };

    ghost invariant = { λ b. (length b.pairs.entries ≤ b.pairs.cap) × (0 < b.pairs.cap)
        × IfSome b.limit
        (λ most. (b.weight ≡ weight_of V.weight b.pairs.entries) × (b.weight ≤ most)) };
}

impl<V: Weigh> BoundedLru<V> {
    /// Nothing yet, and later at most so many pairs, which weigh no more than the limit together. The capacity is to be
    /// at least 1. Room is made only as pairs come.
    pub fn new(
        alloc: Global,
        capacity: usize,
        limit: Option<u64>,
    ) -> Result<BoundedLru<V>, OutOfMemory>
        requires { 1 ≤ capacity }
        ensures { IfOk result (λ b. b ≡ bounded [] capacity limit) }
    {
        let capacity = NonZeroUsize::new(capacity).unwrap();
        Ok(BoundedLru {
            pairs: LruCache::sparse(alloc, capacity)?,
            limit,
            weight: 0,
        })
    }

    /// What all pairs weigh together, where there is a limit; else 0.
    pub fn weight(&self) -> u64
        ensures limited { IfSome self.now.limit
            (λ _. result ≡ weight_of_pairs V.weight self.now.pairs) }
        ensures unlimited { IfNone self.now.limit (result ≡ 0) }
        ensures within { IsWithin V.weight self.now }
    {
        match self.limit {
            None => 0,
            Some(_) => self.weight,
        }
    }

    /// Makes the pair of a key the latest used, and says whether there is one.
    pub fn promote(&mut self, key: u64) -> bool
        ensures found { result ≡ is_some (lookup (nat_eq key) self.old.pairs) }
        ensures used { self.new ≡ used self.old key }
        ensures within { IsWithin V.weight self.new }
    {
        self.pairs.promote(&key)
    }

    /// The value of the latest used pair.
    pub fn latest(&self) -> Option<&V>
        ensures { option_copied result ≡ option_map (λ e. e.1) (slice_get self.now.pairs 0) }
    {
        match self.pairs.peek_mru() {
            Some((_, value)) => Some(value),
            None => None,
        }
    }
}

impl<V: Weigh + Drop> BoundedLru<V> {
    /// Puts a value at a key, in front of the others, and gives up the last of these until the rest is within
    /// the bounds. `Ok(false)` comes exactly for a value that weighs more than the limit. It changes nothing,
    /// as running out of memory doesn't.
    pub fn insert(&mut self, key: u64, value: V) -> Result<bool, OutOfMemory>
        ensures puts { Puts V.weight self.old self.new key value result }
        ensures within { IsWithin V.weight self.new }
    {
        match self.limit {
            None => self.insert_any(key, value),
            Some(limit) => self.insert_within(limit, key, value),
        }
    }

    fn insert_any(&mut self, key: u64, value: V) -> Result<bool, OutOfMemory>
        requires { self.old.limit ≡ None }
        ensures puts { Puts V.weight self.old self.new key value result }
        ensures within { IsWithin V.weight self.new }
    {
        self.pairs.put(key, value)?;
        Ok(true)
    }

    // The others are lightened once the new pair is in front of them.
    fn insert_within(&mut self, limit: u64, key: u64, value: V) -> Result<bool, OutOfMemory>
        requires { self.old.limit ≡ Some limit }
        ensures puts { Puts V.weight self.old self.new key value result }
        ensures within { IsWithin V.weight self.new }
    {
        let held = self.weight;
        let weight = value.weigh();
        if weight > limit {
            return Ok(false);
        }
        let displaced = self.pairs.push(key, value)?;
        let others = held - weight_of(displaced);
        self.weight = weight + lighten(&mut self.pairs, others, limit - weight);
        Ok(true)
    }
}
