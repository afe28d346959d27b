// What takes the tile entries of a walk.
ghost use Rattle.std.specs.Prelude.{◌≡◌, ◌≢◌, ◌+◌, ◌≤◌, ℕ, List, [], ◌∷◌, ◌++◌, OnOk};
ghost use Rattle.pm_walk.specs.Common.{Entry, MAX_TILE_ID};
ghost use Rattle.pm_walk.specs.Collected.{Collected};
ghost use Rattle.pm_walk.specs.Collecting.{taken};
ghost use Rattle.pm_walk.specs.Taker.{Holds, with_part};

use base_values::OutOfMemory;
use bytes::Bytes;
use pm_format::DirEntry;

/// What takes the tile entries of a walk, one after another in order of their ids, each as soon as
/// it has passed its tests.
pub trait TakesEntries {
    /// These entries, with these contents beside them, were given to it, and it holds what it makes of them.
    ghost holds: { Self → List Entry → List (List ℕ) → Type 0 };

    /// Takes a tile entry, whose run is one of tiles, and its contents. Where a part of an archive is walked, the
    /// contents aren't read, and none are given.
    fn take_entry(&mut self, entry: DirEntry, contents: Bytes) -> Result<(), OutOfMemory>
        requires run { entry.run_length ≢ 0 }
        requires within { entry.tile_id + entry.run_length ≤ MAX_TILE_ID + 1 }
        ensures { (es : List Entry) (cs : List (List ℕ)) → holds self.old es cs → OnOk result
            (holds self.new (es ++ entry ∷ []) (cs ++ contents ∷ [])) };
}

/// What takes the parts that are met, and for how many more tiles there is room. There is none once it didn't
/// suffice; then parts are missing.
#[derive(Drop)]
pub(crate) struct Collecting<T> {
    pub taker: T,
    pub room: Option<u64>,
}

/// The room that is left behind so many tiles, where there is enough.
pub(crate) fn room_behind(room: Option<u64>, count: u32) -> Option<u64>
    ensures { result ≡ taken room count }
{
    match room {
        None => None,
        Some(room) => room.checked_sub(u64::from(count)),
    }
}

impl<T: TakesEntries> Collecting<T> {
    /// One more part with its contents, where there is room for its tiles.
    pub(crate) fn add_part(&mut self, part: DirEntry, contents: Bytes) -> Result<(), OutOfMemory>
        requires run { part.run_length ≢ 0 }
        requires within { part.tile_id + part.run_length ≤ MAX_TILE_ID + 1 }
        ensures { (c : Collected) → Holds T.holds self.old.taker self.old.room c → OnOk result
            (Holds T.holds self.new.taker self.new.room (with_part c part contents)) }
    {
        self.room = room_behind(self.room, part.run_length());
        if self.room.is_some() {
            self.taker.take_entry(part, contents)?;
        }
        Ok(())
    }
}
