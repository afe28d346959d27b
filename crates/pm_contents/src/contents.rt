// The different contents so far, found by their digests and their bytes.
ghost use Rattle.std.specs.Prelude.{◌≡◌, ◌≤◌, ◌<◌, ◌+◌, ◌^◌, ℕ, List, [], length, None, Some, IfSome, IfOk, OnOk, OnErr, IsErrOf};
ghost use Rattle.pm_contents.specs.Common.{get, IsWithin, KeepsMedium, ReadsOnly, Rose};
ghost use Rattle.std.specs.HashMap as hashed;
ghost use Rattle.pm_contents.specs.Contents.{Finds, Holds, IsAlike, IsTold, IsUnasked, content_cmp, first_of};
ghost use Rattle.pm_contents.specs.Pieces.{LeavesPiece};
ghost use Rattle.pm_contents.specs.Places.{IsNew, found_in, put_new};
ghost use Rattle.pm_contents.specs.Sought.{FoundAs, IsSought, piece_sought, place_sought};
ghost use Rattle.pm_contents.specs.Span.{Stood};
ghost use Rattle.pm_contents.specs.declared.sought.Sought.TheVariants as sought;
ghost use Rattle.pm_contents.specs.declared.span.Span.{Span};

use crate::span::Span;
use crate::{Content, Sought};
use byte_media::{Medium, WriteFault};
use std::alloc::{AllocError, Global};
use std::collections::btree_map::Entry;
use std::collections::{BTreeMap, HashMap};

/// The different contents, which lie on a medium one behind another in order of first add. The first content of each
/// digest is found by it, and compared by reading it back. Others of its digest are found in an ordered map, so that
/// among contents that were picked to share a digest one is found by as many comparisons as the logarithm of their
/// number. The caller says what the digests are: in contracts they come from a function, `name`.
#[derive(Drop)]
pub struct Contents {
    firsts: HashMap<u64, Span>,
    others: BTreeMap<Content, u64>,
    total: u64,
}

impl Contents {
    /// No content.
    pub fn new(alloc: Global) -> Contents
        ensures holds { (name : List ℕ → ℕ) → Holds name result [] }
        ensures finds { (name : List ℕ → ℕ) → Finds name result [] }
    {
        Contents {
            firsts: HashMap::new(alloc),
            others: BTreeMap::new(alloc),
            total: 0,
        }
    }

    /// How many bytes they have together.
    pub fn total(&self) -> u64
        ensures { result ≡ self.now.total }
    {
        self.total
    }

    /// How many there are.
    pub fn count(&self) -> u64
        ensures { (name : List ℕ → ℕ) (cs : List (List ℕ)) → Holds name self.now cs
            → result ≡ length cs }
    {
        self.firsts.len() as u64 + self.others.len() as u64
    }

    /// What bytes of this digest are found as. The first content of the digest, where it has as many bytes, is read
    /// back from the medium, on which the contents lie from a place on. A range that the medium doesn't have, and a
    /// read that ends early, are another content; of a medium that tells nothing this is tested only.
    pub fn seek<M: Medium>(
        &self,
        alloc: Global,
        medium: &mut M,
        from: u64,
        digest: u64,
        bytes: &[u8],
    ) -> Result<Sought, WriteFault>
        requires some { 0 < length bytes.now }
        requires ends { from + self.now.total < 2 ^ 64 }
        requires within { IfSome (M.told medium.old) (IsWithin (from + self.now.total)) }
        requires holds { (name : List ℕ → ℕ) × (cs : List (List ℕ)) × Holds name self.now cs }
        ensures found { (name : List ℕ → ℕ) (cs : List (List ℕ)) → digest ≡ name bytes.now
            → Holds name self.now cs
            → IfOk result (λ s. (taken : List ℕ) × FoundAs name self.now cs bytes.now s taken) }
        ensures known { (name : List ℕ → ℕ) (cs : List (List ℕ)) → digest ≡ name bytes.now
            → Holds name self.now cs → IfSome (M.told medium.old) (IsTold name from self.now cs)
            → IfSome (M.told medium.old) (λ b. IfOk result
            (λ s. found_in cs bytes.now ≡ place_sought s)) }
        ensures sought { (name : List ℕ → ℕ) → digest ≡ name bytes.now
            → IfOk result (IsSought name self.now bytes.now) }
        ensures asked { Stood (M.reads medium.old) (M.reads medium.new)
            → IsUnasked self.now digest (length bytes.now) }
        ensures quiet { IsUnasked self.now digest (length bytes.now)
            → M.reads medium.new ≡ M.reads medium.old }
        ensures cause { IsErrOf result WriteFault.Fault
            → Rose (M.faults medium.old) (M.faults medium.new) }
        ensures still { OnOk result (M.faults medium.new ≡ M.faults medium.old) }
        ensures counted { M.reads medium.old ≤ M.reads medium.new }
        ensures reads { M.reads medium.new ≤ M.reads medium.old + 1 }
        ensures kept { ReadsOnly M.told M.versions M.faults M.steady medium.old medium.new }
    {
        let first = match self.firsts.get(&digest) {
            None => return Ok(Sought::First(digest)),
            Some(first) => *first,
        };
        if first.has(alloc, medium, from, bytes)? {
            return Ok(Sought::Known(first.place));
        }
        let content = Content::new(alloc, bytes)?;
        match self.others.get(&content) {
            Some(place) => Ok(Sought::Known(*place)),
            None => Ok(Sought::Other(content)),
        }
    }

    // Makes room for a content that is the first of its digest. After each answer the contents are as before.
    fn reserve(&mut self) -> Result<(), AllocError>
        ensures alike { IsAlike self.old self.new }
        ensures room { OnOk result (1 ≤ hashed.spare self.new.firsts) }
    {
        self.firsts.reserve(1)
    }

    // Puts a content behind the others, none of which has its digest, where there is room.
    fn push_first(&mut self, digest: u64, size: u64)
        requires none { first_of self.old digest ≡ None }
        requires room { 1 ≤ hashed.spare self.old.firsts }
        requires fits { self.old.total + size < 2 ^ 64 }
        ensures put { (name : List ℕ → ℕ) (cs : List (List ℕ)) (x : List ℕ)
            → Holds name self.old cs → digest ≡ name x → length x ≡ size → IsNew cs x
            → Holds name self.new (put_new cs x) }
        ensures finds { (name : List ℕ → ℕ) (cs : List (List ℕ)) (x : List ℕ)
            → Holds name self.old cs → Finds name self.old cs → digest ≡ name x → length x ≡ size
            → IsNew cs x → Finds name self.new (put_new cs x) }
    {
        let span = Span {
            place: self.total,
            length: size,
        };
        let Ok(_) = self.firsts.insert(digest, span) else {
            unreachable!()
        };
        self.total += size;
    }

    // Writes bytes behind the contents, none of which has their digest, and puts them there.
    fn put_first<M: Medium>(
        &mut self,
        medium: &mut M,
        from: u64,
        digest: u64,
        bytes: &[u8],
    ) -> Result<u64, WriteFault>
        requires none { first_of self.old digest ≡ None }
        requires within { IfSome (M.told medium.old) (IsWithin (from + self.old.total)) }
        requires fits { from + self.old.total + length bytes.now < 2 ^ 64 }
        ensures put { (name : List ℕ → ℕ) (cs : List (List ℕ)) → Holds name self.old cs
            → digest ≡ name bytes.now → IsNew cs bytes.now
            → OnOk result (Holds name self.new (put_new cs bytes.now)) }
        ensures finds { (name : List ℕ → ℕ) (cs : List (List ℕ)) → Holds name self.old cs
            → Finds name self.old cs → digest ≡ name bytes.now → IsNew cs bytes.now
            → OnOk result (Finds name self.new (put_new cs bytes.now)) }
        ensures place { IfOk result (λ place. place ≡ self.old.total) }
        ensures refused { OnErr result (IsAlike self.old self.new) }
        ensures leaves { LeavesPiece (from + self.old.total) bytes.now result
            (M.told medium.old) (M.told medium.new) }
        ensures cause { IsErrOf result WriteFault.Fault
            → Rose (M.faults medium.old) (M.faults medium.new) }
        ensures still { OnOk result (M.faults medium.new ≡ M.faults medium.old) }
        ensures reads { M.reads medium.new ≡ M.reads medium.old }
        ensures kept { KeepsMedium M.told M.versions M.reads M.faults M.steady
            medium.old medium.new }
    {
        let place = self.total;
        self.reserve()?;
        medium.write_at(from + place, bytes)?;
        self.push_first(digest, bytes.len() as u64);
        Ok(place)
    }

    // Writes bytes behind the contents, one of which has their digest, and puts them among those that
    // aren't the first of theirs.
    fn put_other<M: Medium>(
        &mut self,
        medium: &mut M,
        from: u64,
        content: Content,
    ) -> Result<u64, WriteFault>
        requires other { get content_cmp self.old.others content ≡ None }
        requires within { IfSome (M.told medium.old) (IsWithin (from + self.old.total)) }
        requires fits { from + self.old.total + length content < 2 ^ 64 }
        ensures put { (name : List ℕ → ℕ) (cs : List (List ℕ)) (s : Span) (taken : List ℕ)
            → first_of self.old (name content) ≡ Some s → Holds name self.old cs
            → FoundAs name self.old cs content (sought.Other content) taken
            → OnOk result (Holds name self.new (put_new cs taken)) }
        ensures finds { (name : List ℕ → ℕ) (cs : List (List ℕ)) (s : Span)
            → first_of self.old (name content) ≡ Some s → Holds name self.old cs
            → Finds name self.old cs → IsNew cs content
            → OnOk result (Finds name self.new (put_new cs content)) }
        ensures place { IfOk result (λ place. place ≡ self.old.total) }
        ensures refused { OnErr result (IsAlike self.old self.new) }
        ensures leaves { LeavesPiece (from + self.old.total) content result
            (M.told medium.old) (M.told medium.new) }
        ensures cause { IsErrOf result WriteFault.Fault
            → Rose (M.faults medium.old) (M.faults medium.new) }
        ensures still { OnOk result (M.faults medium.new ≡ M.faults medium.old) }
        ensures reads { M.reads medium.new ≡ M.reads medium.old }
        ensures kept { KeepsMedium M.told M.versions M.reads M.faults M.steady
            medium.old medium.new }
    {
        let place = self.total;
        match self.others.entry(content) {
            Ok(Entry::Occupied(_)) => unreachable!(),
            Ok(Entry::Vacant(new)) => {
                let entry = new.insert_entry(place);
                let bytes = entry.key().as_bytes();
                let end = place + bytes.len() as u64;
                match medium.write_at(from + place, bytes) {
                    Ok(()) => {
                        self.total = end;
                        Ok(place)
                    }
                    Err(fault) => {
                        entry.remove();
                        Err(fault)
                    }
                }
            }
            Err(_) => Err(WriteFault::OutOfMemory),
        }
    }

    /// Where bytes begin that were sought. New ones are written behind the contents on the medium, and put there.
    /// Memory is taken before anything is written. Refused, the contents are as before.
    pub fn put<M: Medium>(
        &mut self,
        medium: &mut M,
        from: u64,
        bytes: &[u8],
        sought: Sought,
    ) -> Result<u64, WriteFault>
        requires sought { (name : List ℕ → ℕ) × IsSought name self.old bytes.now sought }
        requires within { IfSome (M.told medium.old) (IsWithin (from + self.old.total)) }
        requires fits { from + self.old.total + length (piece_sought sought bytes.now) < 2 ^ 64 }
        ensures put { (name : List ℕ → ℕ) (cs : List (List ℕ)) (taken : List ℕ)
            → IsSought name self.old bytes.now sought → Holds name self.old cs
            → FoundAs name self.old cs bytes.now sought taken
            → OnOk result (Holds name self.new (put_new cs taken)) }
        ensures finds { (name : List ℕ → ℕ) (cs : List (List ℕ))
            → IsSought name self.old bytes.now sought → Holds name self.old cs
            → Finds name self.old cs → found_in cs bytes.now ≡ place_sought sought
            → OnOk result (Finds name self.new (put_new cs bytes.now)) }
        ensures place { (name : List ℕ → ℕ) (cs : List (List ℕ)) (taken : List ℕ)
            → Holds name self.old cs → found_in cs taken ≡ place_sought sought
            → IfOk result (λ place. found_in (put_new cs taken) taken ≡ Some place) }
        ensures refused { OnErr result (IsAlike self.old self.new) }
        ensures leaves { LeavesPiece (from + self.old.total) (piece_sought sought bytes.now) result
            (M.told medium.old) (M.told medium.new) }
        ensures cause { IsErrOf result WriteFault.Fault
            → Rose (M.faults medium.old) (M.faults medium.new) }
        ensures still { OnOk result (M.faults medium.new ≡ M.faults medium.old) }
        ensures reads { M.reads medium.new ≡ M.reads medium.old }
        ensures kept { KeepsMedium M.told M.versions M.reads M.faults M.steady
            medium.old medium.new }
    {
        match sought {
            Sought::Known(place) => Ok(place),
            Sought::First(digest) => self.put_first(medium, from, digest, bytes),
            Sought::Other(content) => self.put_other(medium, from, content),
        }
    }
}
