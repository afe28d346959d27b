// A set that was read, and what was left out of it.
use crate::LeftOut;
use mb_store::MemStore;

/// A set that was read.
#[derive(Drop)]
pub struct SetRead {
    /// Its tables.
    pub store: MemStore,
    /// What they lack of the rows that were read.
    pub left_out: LeftOut,
}
