// The state of a cache: all that it owns, beside the store that it borrows.
use crate::entries::Entry;
use std::alloc::Global;
use std::collections::BTreeSet;
use std::marker::Model;

/// What a cache owns beside the store that it borrows: of each tile when it expires and where it stands, 24 bytes in a
/// set in the order in which tiles are thrown out. Contents stay in the store.
///
/// Each call takes the store that the state was opened over, to which nobody else writes.
#[derive(Drop)]
pub struct CacheState {
    pub(crate) alloc: Global,
    pub(crate) entries: BTreeSet<Entry>,
}

impl Model for CacheState {
    ghost use Rattle.std.specs.Prelude.{List};
    ghost use Rattle.mb_cache.specs.declared.entries.Entry.{Entry};

    ghost Value = { List Entry };

    ghost view = { λ s. s.entries.keys };
}
