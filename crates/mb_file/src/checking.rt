// The test that pages are a sound tree of a table: a scan of such a tree leaves no row out.
ghost use Rattle.std.specs.Prelude.{◌↔◌, ◌≡◌, IsTrue, None, Some};
ghost use Rattle.sqlite_btree.specs.Calls.Check.{FindsIndex, FindsTable, PassesTable};
ghost use Rattle.sqlite_btree.specs.Check.{KeepsMarks};
ghost use Rattle.sqlite_pages.specs.Calls.{Continues, NamesDamage};
ghost use Rattle.sqlite_record.specs.Strict as strict;
ghost use Rattle.mb_file.specs.FilePages.{pages_of};
ghost use Rattle.mb_file.specs.KeyOrder.{record_below};
ghost use Rattle.mb_file.specs.Source.{IsSameSource};

use crate::key_order::KeyOrder;
use crate::pages::FilePages;
use crate::source::Source;
use sqlite_btree::{PayloadTest, check};
use sqlite_disk::Disk;
use sqlite_pages::{Error, Pages};
use sqlite_record::check::is_record;
use std::alloc::Global;

// The test that a payload is a record that SQLite reads without complaint.
struct IsRecord;

impl PayloadTest for IsRecord {
    ghost use Rattle.sqlite_record.specs.Strict as strict;

    ghost passes = { λ _. strict.IsRecord };

    fn test(&self, payload: &[u8]) -> bool {
        is_record(payload)
    }
}

// The test of the tree with a root, none of whose pages may be taken. They are taken then.
pub(crate) fn test_tree<D: Disk>(
    alloc: Global,
    source: &mut Source<D>,
    root: u32,
) -> Result<(), Error>
    ensures sound { FindsTable ⟦<FilePages<D> as Pages>⟧ source.old.pages source.new.pages
        strict.IsRecord source.old.taken.items source.new.taken.items root result }
    ensures complete { PassesTable ⟦<FilePages<D> as Pages>⟧ source.old.pages source.new.pages
        strict.IsRecord source.old.taken.items source.new.taken.items root result }
    ensures keeps { KeepsMarks source.old.taken.items source.new.taken.items }
    ensures honest { NamesDamage ⟦<FilePages<D> as Pages>⟧ source.old.pages source.new.pages ⊥
        result }
    ensures kept { Continues ⟦<FilePages<D> as Pages>⟧ source.old.pages source.new.pages }
    ensures pages { pages_of source.new.pages ≡ pages_of source.old.pages }
    ensures same { IsSameSource source.old source.new }
{
    check::table(
        &mut source.pages,
        alloc,
        source.taken.as_mut_slice(),
        root,
        &IsRecord,
    )
}

// The same of a table of a set, whose key has so many columns where it is WITHOUT ROWID.
pub(crate) fn test_table<D: Disk>(
    alloc: Global,
    source: &mut Source<D>,
    root: u32,
    key: Option<usize>,
) -> Result<(), Error>
    ensures sound { key ≡ None
        → FindsTable ⟦<FilePages<D> as Pages>⟧ source.old.pages source.new.pages
        strict.IsRecord source.old.taken.items source.new.taken.items root result }
    ensures ordered { (columns : _) → key ≡ Some columns
        → FindsIndex ⟦<FilePages<D> as Pages>⟧ source.old.pages source.new.pages strict.IsRecord
        (record_below columns) source.old.taken.items source.new.taken.items root result }
    ensures keeps { KeepsMarks source.old.taken.items source.new.taken.items }
    ensures honest { NamesDamage ⟦<FilePages<D> as Pages>⟧ source.old.pages source.new.pages ⊥
        result }
    ensures kept { Continues ⟦<FilePages<D> as Pages>⟧ source.old.pages source.new.pages }
    ensures pages { pages_of source.new.pages ≡ pages_of source.old.pages }
    ensures same { IsSameSource source.old source.new }
{
    let Some(columns) = key else {
        return test_tree(alloc, source, root);
    };
    check::index(
        &mut source.pages,
        alloc,
        source.taken.as_mut_slice(),
        root,
        &KeyOrder { columns },
        &IsRecord,
    )
}
