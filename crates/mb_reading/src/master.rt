// What `sqlite_master` says of the tables of a set.
ghost use Rattle.std.specs.Prelude.{◌≡◌, ◌++◌, IfOk, OnOk};
ghost use Rattle.mb_reading.specs.Common.{column, list_any, owned};
ghost use Rattle.mb_reading.specs.Master.{behind_view, described, first_layout, is_own, is_text, is_there, is_view_value, named_layout, names_it, names_own, views};

use crate::views::is_view_text;
use base_values::OutOfMemory;
use mb_tables::{MbtType, TableDesc, TableName, detect_type, table_of, view_of};
use sqlite::types::ValueRef;
use std::alloc::Global;

// Whether a value is a text.
fn is_value(value: ValueRef<'_>, text: &str) -> bool
    ensures { result ≡ is_text (owned value.entry) text.now }
{
    match value {
        ValueRef::Text(bytes) => bytes == text.as_bytes(),
        ValueRef::Null | ValueRef::Int(_) | ValueRef::Real(_) | ValueRef::Blob(_) => false,
    }
}

// Whether the value of an answer in a column is a text.
#[tactic(auto, using(crate::proofs::MasterLemmas::past_end))]
fn is_text(answer: &sqlite::Row, at: usize, text: &str) -> bool
    ensures { result ≡ is_text (column answer.now at) text.now }
{
    match answer.get_ref(at) {
        Ok(value) => is_value(value, text),
        Err(_) => false,
    }
}

// Whether an answer names a table or a view of this name.
fn names_it(table: TableName, answer: &sqlite::Row) -> bool
    ensures { result ≡ names_it table answer.now }
{
    is_text(answer, 1, table.name())
}

// Whether an answer names a table of this name.
fn names_own(table: TableName, answer: &sqlite::Row) -> bool
    ensures { result ≡ names_own table answer.now }
{
    is_text(answer, 0, "table") && names_it(table, answer)
}

/// Whether a table or a view of the name is there. Each answer is the kind of one, its name in lower case
/// and the text that makes it.
pub fn is_there(master: &[sqlite::Row], table: TableName) -> bool
    ensures { result ≡ is_there master.now table }
{
    master.iter().any(|answer| names_it(table, answer))
}

// Whether it is a table.
fn is_own(master: &[sqlite::Row], table: TableName) -> bool
    ensures { result ≡ is_own master.now table }
{
    master.iter().any(|answer| names_own(table, answer))
}

// Adds the description of a table or view that is there. Its columns aren't asked for: the statement that reads it is
// refused where it lacks one.
#[tactic(auto, unfolding(crate::specs::Master::described))]
fn describe(
    alloc: Global,
    tables: &mut Vec<TableDesc>,
    master: &[sqlite::Row],
    table: TableName,
) -> Result<(), OutOfMemory>
    ensures { OnOk result (tables.new.items ≡ tables.old.items ++ described master.now table) }
{
    if is_own(master, table) {
        tables.push(table_of(alloc, table)?)?;
    } else if is_there(master, table) {
        tables.push(view_of(alloc, table)?)?;
    }
    Ok(())
}

// The layout of the tables that are there.
#[tactic(auto, unfolding(crate::specs::Master::named_layout))]
fn named_layout(alloc: Global, master: &[sqlite::Row]) -> Result<Option<MbtType>, OutOfMemory>
    ensures { IfOk result (λ layout. layout ≡ named_layout master.now) }
{
    let mut tables = Vec::new(alloc);
    describe(alloc, &mut tables, master, TableName::Map)?;
    describe(alloc, &mut tables, master, TableName::Images)?;
    describe(alloc, &mut tables, master, TableName::TilesShallow)?;
    describe(alloc, &mut tables, master, TableName::TilesData)?;
    describe(alloc, &mut tables, master, TableName::TilesWithHash)?;
    describe(alloc, &mut tables, master, TableName::Tiles)?;
    match detect_type(tables.as_slice()) {
        Ok(layout) => Ok(Some(layout)),
        Err(_) => Ok(None),
    }
}

// Whether a value is a text that makes a view of exactly the tiles of a layout's tables.
fn is_view_value(alloc: Global, layout: MbtType, value: ValueRef<'_>) -> Result<bool, OutOfMemory>
    ensures { IfOk result (λ is. is ≡ is_view_value layout (owned value.entry)) }
{
    match value {
        ValueRef::Text(text) => is_view_text(alloc, layout, text),
        ValueRef::Null | ValueRef::Int(_) | ValueRef::Real(_) | ValueRef::Blob(_) => Ok(false),
    }
}

// Whether an answer has such a text in its third column.
#[tactic(auto, using(crate::proofs::MasterLemmas::past_end))]
fn has_view_text(alloc: Global, layout: MbtType, answer: &sqlite::Row) -> Result<bool, OutOfMemory>
    ensures { IfOk result (λ is. is ≡ is_view_value layout (column answer.now 2)) }
{
    match answer.get_ref(2) {
        Ok(value) => is_view_value(alloc, layout, value),
        Err(_) => Ok(false),
    }
}

// Whether an answer names `tiles`, and makes such a view.
fn views(alloc: Global, layout: MbtType, answer: &sqlite::Row) -> Result<bool, OutOfMemory>
    ensures { IfOk result (λ is. is ≡ views layout answer.now) }
{
    if names_it(TableName::Tiles, answer) {
        has_view_text(alloc, layout, answer)
    } else {
        Ok(false)
    }
}

// Whether one of the answers does.
#[tactic(auto, using(crate::proofs::MasterLemmas::none_more, crate::proofs::MasterLemmas::one_passes, crate::proofs::MasterLemmas::none_passes))]
fn any_views(alloc: Global, layout: MbtType, master: &[sqlite::Row]) -> Result<bool, OutOfMemory>
    ensures { IfOk result (λ is. is ≡ list_any (views layout) master.now) }
{
    for index in 0..master.len() {
        if views(alloc, layout, &master[index])? {
            return Ok(true);
        }
    }
    Ok(false)
}

// The layout behind a view `tiles`: that of the tables, where the view has exactly their tiles; else flat.
fn behind_view(
    alloc: Global,
    master: &[sqlite::Row],
    named: Option<MbtType>,
) -> Result<MbtType, OutOfMemory>
    ensures { IfOk result (λ layout. layout ≡ behind_view master.now named) }
{
    let Some(layout) = named else {
        return Ok(MbtType::Flat);
    };
    if any_views(alloc, layout, master)? {
        Ok(layout)
    } else {
        Ok(MbtType::Flat)
    }
}

/// The layout in which a set is read first: a table `tiles` as itself, a view by what it has, and without either by the
/// tables. Each answer is the kind of a table or view, its name in lower case and the text that makes it.
#[tactic(auto, unfolding(crate::specs::Master::first_layout))]
pub fn first_layout(alloc: Global, master: &[sqlite::Row]) -> Result<Option<MbtType>, OutOfMemory>
    ensures { IfOk result (λ layout. layout ≡ first_layout master.now) }
{
    if is_own(master, TableName::Tiles) {
        return Ok(Some(MbtType::Flat));
    }
    let named = named_layout(alloc, master)?;
    if is_there(master, TableName::Tiles) {
        Ok(Some(behind_view(alloc, master, named)?))
    } else {
        Ok(named)
    }
}
