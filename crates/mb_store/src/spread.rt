// How full the groups of a hash set are. The kit's hash has a fixed seed, and its set looks through one group of
// entries after another; so numbers could be picked of which each is looked for behind all others.
use std::alloc::{AllocError, Global};
use std::collections::HashSet;
use std::hash::BuildHasher;

// The entries that a group holds on average where its set is full, and those for which it has room.
const GROUP_LOAD: usize = 9;

const GROUP_ROOM: u8 = 12;

// The groups that are looked through for one place at most. Among a million numbers that weren't
// picked one needs some 25.
const MOST_GROUPS: usize = 64;

// How many numbers each group of a set of this capacity holds, as the set itself puts them there.
#[derive(Debug, Drop)]
pub(crate) struct Spread {
    groups: Vec<u8>,
    capacity: usize,
}

impl Spread {
    // Nothing is counted.
    pub fn none(alloc: Global) -> Spread {
        Spread {
            groups: Vec::new(alloc),
            capacity: 0,
        }
    }

    // Puts numbers of a digest into the first group that has room for them. Whether it is found soon.
    fn put(&mut self, digest: u64) -> bool {
        let last = self.groups.len().wrapping_sub(1);
        let mut at = (digest ^ (digest >> 32)) as usize;
        for _ in 0..MOST_GROUPS {
            let Some(held) = self.groups.get_mut(at & last) else {
                return false;
            };
            if *held < GROUP_ROOM {
                *held += 1;
                return true;
            }
            at = at.wrapping_add(1);
        }
        false
    }

    // Puts the numbers of a set that has another capacity now. Whether a group is found soon for each.
    fn put_all(&mut self, seen: &HashSet<(u32, u32, u32)>) -> Result<bool, AllocError> {
        self.capacity = seen.capacity();
        self.groups.clear();
        self.groups.resize((self.capacity / GROUP_LOAD).max(1), 0)?;
        for numbers in seen.iter() {
            if !self.put(seen.hasher().hash_one(*numbers)) {
                return Ok(false);
            }
        }
        Ok(true)
    }

    // Puts numbers that a set may get. Whether a group is found soon for them.
    pub fn admits(&mut self, seen: &HashSet<(u32, u32, u32)>, numbers: (u32, u32, u32)) -> bool {
        if self.groups.is_empty() || self.capacity != seen.capacity() {
            let Ok(true) = self.put_all(seen) else {
                return false;
            };
        }
        self.put(seen.hasher().hash_one(numbers))
    }
}
