// The adds so far: their contents once each, and their entries.
ghost use Rattle.std.specs.Prelude.{◌≡◌, ◌<◌, ◌≤◌, ◌&&◌, ◌+◌, ℕ, List, [], ◌∷◌, ◌++◌, ◌^◌, length, IfSome, IfOk, OnOk, OnErr, IsErrOf, vec_len};
ghost use Rattle.pm_writer.specs.Common.{Finds, found_in, FoundAs, IsAlike, IsSought, IsTold, IsWithin, KeepsMedium, LeavesPiece, MAX_TILE_ID, piece_sought, place_sought, ReadsOnly, Rose};
ghost use Rattle.pm_writer.specs.Common.{vec_capacity, xxh3_64};
ghost use Rattle.pm_writer.specs.Adding.{TakenFor};
ghost use Rattle.pm_writer.specs.Adds.{contents_from, longest_run};
ghost use Rattle.pm_writer.specs.Archive.{ids_of, rising};
ghost use Rattle.pm_writer.specs.Growing.{grows, put_run, taken_by, with_run};
ghost use Rattle.pm_writer.specs.Means.{Means, is_above};
ghost use Rattle.pm_writer.specs.Took.{AreUnlike};

use base_values::OutOfMemory;
use pm_contents::{Contents, Sought};
use pm_format::{DirEntry, Medium, WriteFault};
use std::alloc::{AllocError, Global};

/// The contents and entries of the adds so far.
#[derive(Drop)]
pub(crate) struct Adds {
    contents: Contents,
    entries: Vec<DirEntry>,
    last: Option<u64>,
    rises: bool,
}

// Whether the entry is the one before the id, of the contents at the place, and its run isn't full.
fn is_next(last: &DirEntry, id: u64, place: u64) -> bool
    ensures { result ≡ grows longest_run id place last.now }
{
    last.offset() == place
        && id >= last.tile_id()
        && id - last.tile_id() == u64::from(last.run_length())
        && last.run_length() < u32::MAX
}

// How many ids of a run of the contents at the place the entry takes: what is left of its run, where it is the
// one before the first id.
fn take_ids(last: &DirEntry, id: u64, place: u64, count: u32) -> u32
    ensures is { result ≡ taken_by longest_run id place count last.now }
    ensures most { result ≤ count }
    ensures within { last.now.run_length + result < 2 ^ 32 }
{
    let room = u32::MAX - last.run_length();
    if is_next(last, id, place) {
        return count.min(room);
    }
    0
}

// Grows the last entry by a run, and puts a new one of what it doesn't take behind it. Refused, it changes nothing.
fn put_entry(
    entries: &mut Vec<DirEntry>,
    id: u64,
    count: u32,
    place: u64,
    size: u32,
) -> Result<(), AllocError>
    requires some { 0 < count }
    requires within { id + count ≤ MAX_TILE_ID + 1 }
    ensures ok { OnOk result
        (entries.new.items ≡ put_run longest_run id place size count entries.old.items) }
    ensures err { OnErr result (entries.new.items ≡ entries.old.items) }
    ensures full { OnErr result (vec_capacity entries.old ≤ vec_len entries.old) }
{
    let len = entries.len();
    if len == 0 {
        if entries.push(DirEntry::new(id, place, size, count)).is_err() {
            return Err(AllocError);
        }
        return Ok(());
    }
    let last = entries[len - 1];
    let taken = take_ids(&last, id, place, count);
    let grown = DirEntry::new(
        last.tile_id(),
        last.offset(),
        last.length(),
        last.run_length() + taken,
    );
    if taken < count {
        let rest = DirEntry::new(id + u64::from(taken), place, size, count - taken);
        if entries.push(rest).is_err() {
            return Err(AllocError);
        }
        entries[len - 1] = grown;
        return Ok(());
    }
    entries[len - 1] = grown;
    Ok(())
}

// Whether ids that rose so far rise with one more.
fn still_rises(rises: bool, last: Option<u64>, id: u64) -> bool
    ensures { result ≡ (rises && is_above last id) }
{
    match last {
        None => rises,
        Some(last) => rises && last < id,
    }
}

impl Adds {
    /// No add.
    pub(crate) fn new(alloc: Global) -> Adds
        ensures means { Means result [] }
        ensures finds { Finds xxh3_64 result.contents [] }
    {
        Adds {
            contents: Contents::new(alloc),
            entries: Vec::new(alloc),
            last: None,
            rises: true,
        }
    }

    /// How many bytes the contents have together.
    pub(crate) fn total(&self) -> u64
        ensures { result ≡ self.now.contents.total }
    {
        self.contents.total()
    }

    /// How many contents there are.
    pub(crate) fn count(&self) -> u64
        ensures { (adds : List (ℕ × List ℕ)) → Means self.now adds
            → result ≡ length (contents_from [] adds) }
    {
        self.contents.count()
    }

    /// Whether the ids rose so far.
    pub(crate) fn rises(&self) -> bool
        ensures { (adds : List (ℕ × List ℕ)) → Means self.now adds → result ≡ rising (ids_of adds) }
    {
        self.rises
    }

    /// Makes room for the entries of so many more adds. After each answer the adds are as before.
    pub(crate) fn reserve(&mut self, additional: usize) -> Result<(), OutOfMemory>
        ensures same { (adds : List (ℕ × List ℕ)) → Means self.old adds → Means self.new adds }
        ensures contents { self.new.contents ≡ self.old.contents }
        ensures room { OnOk result
            (vec_len self.new.entries + additional ≤ vec_capacity self.new.entries) }
    {
        self.entries.reserve(additional)?;
        Ok(())
    }

    /// What bytes of this digest are found as, among contents that lie on a medium from a place on: `Contents::seek`.
    pub(crate) fn seek<M: Medium>(
        &self,
        alloc: Global,
        medium: &mut M,
        from: u64,
        digest: u64,
        bytes: &[u8],
    ) -> Result<Sought, WriteFault>
        requires digest { digest ≡ xxh3_64 bytes.now }
        requires some { 0 < length bytes.now }
        requires ends { from + self.now.contents.total < 2 ^ 64 }
        requires within { IfSome (M.told medium.old) (IsWithin (from + self.now.contents.total)) }
        requires means { (adds : List (ℕ × List ℕ)) × Means self.now adds }
        ensures found { (adds : List (ℕ × List ℕ)) → Means self.now adds
            → IfSome (M.told medium.old) (IsTold xxh3_64 from self.now.contents
            (contents_from [] adds))
            → IfOk result (λ s. TakenFor M.told M.reads medium.old medium.new bytes.now
            (FoundAs xxh3_64 self.now.contents (contents_from [] adds) bytes.now s)) }
        ensures sought { IfOk result (IsSought xxh3_64 self.now.contents bytes.now) }
        ensures quiet { (adds : List (ℕ × List ℕ)) → Means self.now adds
            → AreUnlike (contents_from [] adds) bytes.now
            → M.reads medium.new ≡ M.reads medium.old }
        ensures cause { IsErrOf result WriteFault.Fault
            → Rose (M.faults medium.old) (M.faults medium.new) }
        ensures still { OnOk result (M.faults medium.new ≡ M.faults medium.old) }
        ensures counted { M.reads medium.old ≤ M.reads medium.new }
        ensures reads { M.reads medium.new ≤ M.reads medium.old + 1 }
        ensures kept { ReadsOnly M.told M.versions M.faults M.steady medium.old medium.new }
    {
        self.contents.seek(alloc, medium, from, digest, bytes)
    }

    /// Adds bytes that were sought at each id of a run. New ones are written behind the others on the medium, once.
    /// Memory is taken before anything is written. Refused, the adds are as before.
    pub(crate) fn add<M: Medium>(
        &mut self,
        medium: &mut M,
        from: u64,
        id: u64,
        count: u32,
        bytes: &[u8],
        size: u32,
        sought: Sought,
    ) -> Result<(), WriteFault>
        requires counted { 0 < count }
        requires id { id + count ≤ MAX_TILE_ID + 1 }
        requires some { 0 < length bytes.now }
        requires size { size ≡ length bytes.now }
        requires sought { IsSought xxh3_64 self.old.contents bytes.now sought }
        requires within { IfSome (M.told medium.old) (IsWithin (from + self.old.contents.total)) }
        requires fits { from + self.old.contents.total + length (piece_sought sought bytes.now)
            < 2 ^ 64 }
        ensures added { (adds : List (ℕ × List ℕ)) (taken : List ℕ) → Means self.old adds
            → FoundAs xxh3_64 self.old.contents (contents_from [] adds) bytes.now sought taken
            → OnOk result (Means self.new (with_run adds id count taken)) }
        ensures finds { (adds : List (ℕ × List ℕ)) → Means self.old adds
            → Finds xxh3_64 self.old.contents (contents_from [] adds)
            → found_in (contents_from [] adds) bytes.now ≡ place_sought sought
            → OnOk result
            (Finds xxh3_64 self.new.contents (contents_from [] (with_run adds id count bytes.now))) }
        ensures refused { (adds : List (ℕ × List ℕ)) → Means self.old adds
            → OnErr result (Means self.new adds) }
        ensures alike { OnErr result (IsAlike self.old.contents self.new.contents) }
        ensures leaves { LeavesPiece (from + self.old.contents.total)
            (piece_sought sought bytes.now) result (M.told medium.old) (M.told medium.new) }
        ensures cause { IsErrOf result WriteFault.Fault
            → Rose (M.faults medium.old) (M.faults medium.new) }
        ensures still { OnOk result (M.faults medium.new ≡ M.faults medium.old) }
        ensures reads { M.reads medium.new ≡ M.reads medium.old }
        ensures kept { KeepsMedium M.told M.versions M.reads M.faults M.steady
            medium.old medium.new }
    {
        self.entries.reserve(1)?;
        let place = self.contents.put(medium, from, bytes, sought)?;
        let Ok(()) = put_entry(&mut self.entries, id, count, place, size) else {
            unreachable!()
        };
        self.rises = still_rises(self.rises, self.last, id);
        self.last = Some(id + u64::from(count - 1));
        Ok(())
    }

    /// The entries in order of the adds.
    pub(crate) fn into_unsorted(self) -> Vec<DirEntry>
        ensures { result ≡ self.entries }
    {
        let Adds {
            contents: _,
            entries,
            last: _,
            rises: _,
        } = self;
        entries
    }
}
