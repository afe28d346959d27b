// How the last pairs are given up.
ghost use Rattle.std.specs.Prelude.{◌≡◌, ◌<◌, ◌≤◌, ◌-◌, ◌++◌, length, take, drop};
ghost use Rattle.bounded_lru.specs.Common.{last_entry, lru_cache};
ghost use Rattle.bounded_lru.specs.Bounded.{light_front, weight_of as weight_of_pairs, weight_of_pair};

use crate::Weigh;
use lru::LruCache;

/// Gives up the last pairs until those behind the first one weigh no more than this. `others` is what they weigh
/// before, and the answer is what they weigh then.
pub(crate) fn lighten<V: Weigh + Drop>(pairs: &mut LruCache<u64, V>, others: u64, room: u64) -> u64
    requires some { 0 < length pairs.old.entries }
    requires weight { others ≡ weight_of_pairs V.weight (drop 1 pairs.old.entries) }
    ensures pairs { pairs.new ≡ lru_cache
        (take 1 pairs.old.entries ++ light_front V.weight room (drop 1 pairs.old.entries))
        pairs.old.cap }
    ensures weight { result ≡ weight_of_pairs V.weight
        (light_front V.weight room (drop 1 pairs.old.entries)) }
    ensures light { result ≤ room }
{
    let mut left = others;
    while left > room {
        left -= give_up_last(pairs);
    }
    left
}

// Gives up the last pair, and answers what it weighs.
fn give_up_last<V: Weigh + Drop>(pairs: &mut LruCache<u64, V>) -> u64
    ensures pairs { pairs.new ≡ lru_cache
        (take (length pairs.old.entries - 1) pairs.old.entries) pairs.old.cap }
    ensures weight { result ≡ weight_of_pair V.weight (last_entry pairs.old.entries) }
{
    weight_of(pairs.pop_lru())
}

/// What a pair weighs, if there is one.
pub(crate) fn weight_of<V: Weigh + Drop>(pair: Option<(u64, V)>) -> u64
    ensures { result ≡ weight_of_pair V.weight pair }
{
    match pair {
        Some((_, value)) => value.weigh(),
        None => 0,
    }
}
