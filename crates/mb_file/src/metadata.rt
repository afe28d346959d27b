// The metadata of a set, which is held in memory.
ghost use Rattle.std.specs.Prelude.{◌≡◌, ◌++◌, [], IfOk, OnOk, length, not, option_map, true};
ghost use Rattle.std.specs.List.{cons_option};
ghost use Rattle.std.specs.Option.{option_copied};
ghost use Rattle.mb_reading.specs.Answer.{answer_row};
ghost use Rattle.mb_reading.specs.Filling.{noted, step_of, taken, with_new};
ghost use Rattle.mb_store.specs.MemStore.{told_of};
ghost use Rattle.mb_store.specs.Store.{is_duplicate};
ghost use Rattle.mb_tables.specs.Described.{is_table};
ghost use Rattle.mb_tables.specs.Table.{width};
ghost use Rattle.sqlite_btree.specs.Check.{KeepsMarks, MarksFree};
ghost use Rattle.sqlite_value.specs.Value.{owned};
ghost use Rattle.sqlite_value.specs.declared.value.Value.TheVariants.{Text};
ghost use Rattle.mb_file.specs.FilePages.{GoesOn, IsTrusted, pages_of};
ghost use Rattle.mb_file.specs.Metadata.{AreNames, Fills, held_in, name_in, no_names, spelling, three_of};
ghost use Rattle.mb_file.specs.Standing.{HoldsNames};

use crate::FileError;
use crate::catalog::Listed;
use crate::checking::test_table;
use crate::columns::{Columns, columns_by};
use crate::course::Course;
use crate::record::{answer_of, spelled};
use crate::source::Source;
use mb_reading::{Answer, LeftOut, Step, row_of};
use mb_store::{MbtError, MbtType, MemStore};
use mb_tables::TableName;
use sqlite_disk::Disk;
use sqlite_value::row::Row;
use sqlite_value::value::ValueRef;
use std::alloc::Global;

// Adds a row, where its name is new, and says whether it was.
#[tactic(auto, using(crate::proofs::MetadataLemmas::names_same, crate::proofs::MetadataLemmas::names_with))]
fn push(names: &mut MemStore, row: mb_tables::Row) -> Result<bool, FileError>
    requires described { is_table (told_of names.old).descriptions TableName.Metadata ≡ true }
    requires wide { length row ≡ width TableName.Metadata }
    requires metadata { HoldsNames names.old }
    ensures told { OnOk result
        (told_of names.new ≡ with_new TableName.Metadata row (told_of names.old)) }
    ensures new { IfOk result
        (λ is_new. is_new ≡ not (is_duplicate (told_of names.old) TableName.Metadata row)) }
    ensures described { (told_of names.new).descriptions ≡ (told_of names.old).descriptions }
    ensures metadata { HoldsNames names.new }
{
    match names.push_row(TableName::Metadata, row) {
        Ok(()) => Ok(true),
        Err(MbtError::DuplicateRow(_)) => Ok(false),
        Err(_) => Err(FileError::OutOfMemory),
    }
}

// Adds the row of a name and a value, where it is one and its name is new.
fn taken(alloc: Global, names: &mut MemStore, answer: Answer<'_>) -> Result<Step, FileError>
    requires described { is_table (told_of names.old).descriptions TableName.Metadata ≡ true }
    requires metadata { HoldsNames names.old }
    ensures told { OnOk result (told_of names.new
        ≡ taken TableName.Metadata (told_of names.old) (answer_row answer.entry)) }
    ensures step { IfOk result (λ step. step
        ≡ step_of TableName.Metadata (told_of names.old) (answer_row answer.entry)) }
    ensures described { (told_of names.new).descriptions ≡ (told_of names.old).descriptions }
    ensures metadata { HoldsNames names.new }
{
    let Some(row) = row_of(alloc, TableName::Metadata, answer)? else {
        return Ok(Step::Odd);
    };
    if push(names, row)? {
        Ok(Step::Added)
    } else {
        Ok(Step::Repeated)
    }
}

// Adds the text that SQLite spells a number in.
fn push_spelled(values: &mut Row, value: ValueRef<'_>) -> Result<(), FileError>
    ensures { OnOk result (values.new
        ≡ values.old ++ cons_option (option_map Text (spelling (owned value.entry))) []) }
{
    match spelled(value) {
        Some(text) => {
            values.push(ValueRef::Text(text.as_slice()))?;
            Ok(())
        }
        None => Ok(()),
    }
}

// The name and the value of a record, and the text that SQLite spells the value in where it is a number.
fn values_of(alloc: Global, columns: &Columns, rowid: i64, record: &[u8]) -> Result<Row, FileError>
    ensures { IfOk result (λ values. three_of values ≡ name_in columns.now (rowid, record.now)) }
{
    let answer = answer_of(columns, rowid, record);
    let mut values = Row::new(alloc);
    values.push(answer.first)?;
    values.push(answer.second)?;
    push_spelled(&mut values, answer.second)?;
    Ok(values)
}

// Adds the row of such values, where it is one and its name is new. What is left out, with it.
fn add(
    alloc: Global,
    names: &mut MemStore,
    left_out: LeftOut,
    values: &Row,
) -> Result<LeftOut, FileError>
    requires described { is_table (told_of names.old).descriptions TableName.Metadata ≡ true }
    requires metadata { HoldsNames names.old }
    ensures noted { IfOk result (λ left. held_in names.new left
        ≡ noted TableName.Metadata (held_in names.old left_out) (three_of values.now)) }
    ensures described { (told_of names.new).descriptions ≡ (told_of names.old).descriptions }
    ensures metadata { HoldsNames names.new }
{
    let answer = Answer {
        first: values.get(0),
        second: values.get(1),
        third: values.get(2),
        fourth: ValueRef::Null,
        fifth: ValueRef::Null,
    };
    let step = taken(alloc, names, answer)?;
    Ok(left_out.counted(TableName::Metadata, answer, step))
}

// Reads all rows of the metadata.
fn fill<D: Disk>(
    alloc: Global,
    source: &mut Source<D>,
    names: &mut MemStore,
    root: u32,
    columns: &Columns,
) -> Result<(), FileError>
    requires described { is_table (told_of names.old).descriptions TableName.Metadata ≡ true }
    requires metadata { HoldsNames names.old }
    ensures read { Fills source.old.pages source.new.pages root columns.now
        (held_in names.old source.old.left_out) (held_in names.new source.new.left_out) result }
    ensures metadata { HoldsNames names.new }
    ensures taken { source.new.taken ≡ source.old.taken }
    ensures kept { GoesOn source.old.pages source.new.pages }
    ensures pages { pages_of source.new.pages ≡ pages_of source.old.pages }
{
    let mut course = Course::new(alloc, columns.key.is_some());
    'rows: for _ in 0..u64::MAX {
        if !course.advance(&mut source.pages, &mut source.scratch, root)? {
            return Ok(());
        }
        let values = values_of(alloc, columns, course.number(), course.record())?;
        source.left_out = add(alloc, names, source.left_out, &values)?;
    }
    Err(FileError::Damaged)
}

// Reads the metadata, where its database lists such a table.
fn read_names<D: Disk>(
    alloc: Global,
    source: &mut Source<D>,
    names: &mut MemStore,
    listed: Option<&Listed>,
) -> Result<(), FileError>
    requires described { is_table (told_of names.old).descriptions TableName.Metadata ≡ true }
    requires metadata { HoldsNames names.old }
    ensures read { IsTrusted source.new.pages
        → MarksFree source.old.taken.items (pages_of source.old.pages)
        → OnOk result (AreNames source.old.pages.usable (pages_of source.old.pages)
        (option_copied listed.entry) (held_in names.old source.old.left_out)
        (held_in names.new source.new.left_out)) }
    ensures metadata { HoldsNames names.new }
    ensures marks { KeepsMarks source.old.taken.items source.new.taken.items }
    ensures kept { GoesOn source.old.pages source.new.pages }
    ensures pages { pages_of source.new.pages ≡ pages_of source.old.pages }
{
    let Some(listed) = listed else {
        return Ok(());
    };
    let columns = columns_by(alloc, TableName::Metadata, listed.text.as_slice())?;
    test_table(alloc, source, listed.root, columns.key)?;
    fill(alloc, source, names, listed.root, &columns)
}

// The metadata of a set, none where its database lists no such table.
#[tactic(auto, using(crate::proofs::MetadataLemmas::has_names, crate::proofs::MetadataLemmas::names_first))]
pub(crate) fn metadata<D: Disk>(
    alloc: Global,
    source: &mut Source<D>,
    listed: Option<&Listed>,
) -> Result<MemStore, FileError>
    ensures read { IsTrusted source.new.pages
        → MarksFree source.old.taken.items (pages_of source.old.pages)
        → IfOk result (λ names. AreNames source.old.pages.usable (pages_of source.old.pages)
        (option_copied listed.entry) (no_names, source.old.left_out)
        (held_in names source.new.left_out)) }
    ensures metadata { IfOk result HoldsNames }
    ensures marks { KeepsMarks source.old.taken.items source.new.taken.items }
    ensures kept { GoesOn source.old.pages source.new.pages }
    ensures pages { pages_of source.new.pages ≡ pages_of source.old.pages }
{
    let Ok(mut names) = MemStore::with_layout(alloc, MbtType::Flat) else {
        return Err(FileError::OutOfMemory);
    };
    read_names(alloc, source, &mut names, listed)?;
    Ok(names)
}
