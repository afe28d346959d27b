// The tables and views of a set that a database lists, by the tree at its first page.
ghost use Rattle.std.specs.Prelude.{◌≡◌, ◌++◌, ◌∷◌, [], IfOk, IfSome, OnOk, find, map, option_map};
ghost use Rattle.std.specs.List.{cons_option};
ghost use Rattle.std.specs.Option.{option_copied};
ghost use Rattle.mb_reading.specs.Master.{is_there};
ghost use Rattle.sqlite_pages.specs.Calls.{Continues};
ghost use Rattle.sqlite_record.specs.Record.{decode};
ghost use Rattle.sqlite_value.specs.Order.{column};
ghost use Rattle.sqlite_value.specs.Value.{owned};
ghost use Rattle.mb_file.specs.Catalog.{Adds, ReadsCatalog, entry_by, entry_of, has_page, is_entry, is_headed, is_named, is_sound, is_table, master_row, page_of, table_in, table_named, text_of};

use crate::FileError;
use crate::cursor::Cursor;
use crate::record::field;
use mb_reading::is_there;
use mb_tables::TableName;
use sqlite_btree::Scratch;
use sqlite_exec::work::FromRow;
use sqlite_pages::Pages;
use sqlite_syntax::names_object;
use sqlite_trees::sound::{bytes_of, fits_kind, is_text_only, is_virtual, same_name};
use sqlite_value::row::Row;
use sqlite_value::value::ValueRef;
use std::alloc::Global;

// The page with the root of the catalog.
pub(crate) const ROOT: u32 = 1;

// The kinds of what has rows.
const TABLE: &str = "table";

const VIEW: &str = "view";

// A table of a set.
#[derive(Drop)]
pub(crate) struct Listed {
    pub(crate) table: TableName,
    // The page with its root.
    pub(crate) root: u32,
    // The text that makes it.
    pub(crate) text: Vec<u8>,
}

// The tables and views of a set.
#[derive(Drop)]
pub(crate) struct Catalog {
    // Each by its kind, its name in lower case and its text, as `first_layout` reads them.
    pub(crate) master: Vec<sqlite::Row>,
    // The tables alone.
    pub(crate) tables: Vec<Listed>,
}

// The tables of sets, of which a cache is none.
const TABLES: [TableName; 7] = [
    TableName::Tiles,
    TableName::TilesWithHash,
    TableName::Map,
    TableName::Images,
    TableName::TilesShallow,
    TableName::TilesData,
    TableName::Metadata,
];

// Whether a name is that of a table, in any ASCII case.
#[tactic(auto, unfolding(crate::specs::Catalog::is_named))]
fn is_named(name: &[u8], table: TableName) -> bool
    ensures { result ≡ is_named name.now table }
{
    same_name(name, table.name().as_bytes())
}

// The first of some tables that has a name.
fn named_in(tables: &[TableName], name: &[u8]) -> Option<TableName>
    ensures { result ≡ find (is_named name.now) tables.now }
{
    tables.iter().copied().find(|table| is_named(name, *table))
}

// The table of a set that has a name, in any ASCII case.
#[tactic(auto, unfolding(crate::specs::Catalog::table_named))]
fn named(name: &[u8]) -> Option<TableName>
    ensures { result ≡ table_named name.now }
{
    named_in(&TABLES, name)
}

// A value of a record, null behind its last one.
fn value_at(record: &[u8], at: usize) -> ValueRef<'_>
    ensures { owned result ≡ column (decode record.now) at }
{
    match field(record, at) {
        Some(value) => value,
        None => ValueRef::Null,
    }
}

// The bytes of a text, none of another value.
fn text_at(record: &[u8], at: usize) -> &[u8]
    ensures { result.now ≡ text_of (column (decode record.now) at) }
{
    match value_at(record, at) {
        ValueRef::Text(text) => text,
        _ => &[],
    }
}

// The number of a page.
fn page_at(record: &[u8], at: usize) -> Option<u32>
    ensures { result ≡ page_of (column (decode record.now) at) }
{
    match value_at(record, at) {
        ValueRef::Int(number) => u32::try_from(number).ok(),
        _ => None,
    }
}

// Whether a record names one of so many pages, or 0.
#[tactic(auto, unfolding(crate::specs::Catalog::has_page))]
fn has_page(record: &[u8], pages: usize) -> bool
    ensures { result ≡ has_page pages (decode record.now) }
{
    match page_at(record, 3) {
        Some(page) => (page as usize) <= pages,
        None => false,
    }
}

// Whether its text, if it isn't one that SQLite made by itself or of a virtual table, makes what the record names.
#[tactic(auto, unfolding(crate::specs::Catalog::is_headed))]
fn is_headed(alloc: Global, record: &[u8]) -> Result<bool, FileError>
    ensures { IfOk result (λ is. is ≡ is_headed (decode record.now)) }
{
    let (kind, text) = (value_at(record, 0), value_at(record, 4));
    let is_own = matches!(text, ValueRef::Null);
    if is_own || is_virtual(kind, text) && !is_text_only(kind) {
        return Ok(true);
    }
    let name = value_at(record, 1);
    Ok(names_object(alloc, bytes_of(kind), bytes_of(name), bytes_of(text))?)
}

// Whether SQLite takes a record of the catalog: its kind, its names and its text fit one another, and its page
// is one of so many, or 0.
#[tactic(auto, unfolding(crate::specs::Catalog::is_sound))]
fn is_sound(alloc: Global, record: &[u8], pages: usize) -> Result<bool, FileError>
    ensures { IfOk result (λ is. is ≡ is_sound pages (decode record.now)) }
{
    let (kind, name) = (value_at(record, 0), value_at(record, 1));
    if !fits_kind(kind, name, value_at(record, 2), value_at(record, 4)) {
        return Ok(false);
    }
    if !has_page(record, pages) {
        return Ok(false);
    }
    is_headed(alloc, record)
}

// Whether a record is of a table.
#[tactic(auto, unfolding(crate::specs::Catalog::is_table))]
fn is_table(record: &[u8]) -> bool
    ensures { result ≡ is_table (decode record.now) }
{
    text_at(record, 0) == TABLE.as_bytes()
}

// The table of a set that a record lists, as a table or as a view.
#[tactic(auto, unfolding(crate::specs::Catalog::table_in, crate::specs::Catalog::is_view))]
fn table_in(record: &[u8]) -> Option<TableName>
    ensures { result ≡ table_in (decode record.now) }
{
    if !is_table(record) && text_at(record, 0) != VIEW.as_bytes() {
        return None;
    }
    named(text_at(record, 1))
}

// Whether a table has a name.
fn is_listed(listed: &Listed, table: TableName) -> bool
    ensures { result ≡ is_entry table (entry_of listed.now) }
{
    listed.table == table
}

// The first of some tables with a name.
fn listed_in(tables: &[Listed], table: TableName) -> Option<&Listed>
    ensures { option_copied result ≡ find (λ l. is_entry table (entry_of l)) tables.now }
{
    tables.iter().find(|listed| is_listed(listed, table))
}

impl Catalog {
    // Notes a table or a view of a set as `first_layout` reads it.
    fn add_master(
        &mut self,
        alloc: Global,
        table: TableName,
        record: &[u8],
    ) -> Result<(), FileError>
        ensures master { OnOk result (self.new.master.items ≡ self.old.master.items
            ++ master_row (decode record.now) table ∷ []) }
        ensures tables { self.new.tables ≡ self.old.tables }
    {
        let mut row = Row::new(alloc);
        row.push(ValueRef::Text(text_at(record, 0)))?;
        row.push(ValueRef::Text(table.name().as_bytes()))?;
        row.push(ValueRef::Text(text_at(record, 4)))?;
        self.master.push(sqlite::Row::from_row(alloc, &row)?)?;
        Ok(())
    }

    // Notes a table of a set.
    fn add_table(&mut self, alloc: Global, table: TableName, record: &[u8]) -> Result<(), FileError>
        ensures tables { OnOk result
            (map entry_of self.new.tables.items ≡ map entry_of self.old.tables.items
            ++ cons_option (entry_by (decode record.now) table) []) }
        ensures master { self.new.master ≡ self.old.master }
    {
        let Some(root) = page_at(record, 3) else {
            return Err(FileError::Damaged);
        };
        let text = Vec::from_slice(alloc, text_at(record, 4))?;
        self.tables.push(Listed { table, root, text })?;
        Ok(())
    }

    // Adds what a record of the catalog lists, where it is a table or a view of a set.
    #[tactic(auto, unfolding(crate::specs::Catalog::master_in, crate::specs::Catalog::entry_in))]
    fn add(&mut self, alloc: Global, record: &[u8]) -> Result<(), FileError>
        ensures { OnOk result (Adds (decode record.now) self.old self.new) }
    {
        let Some(table) = table_in(record) else {
            return Ok(());
        };
        if is_there(self.master.as_slice(), table) {
            return Err(FileError::Damaged);
        }
        self.add_master(alloc, table, record)?;
        if is_table(record) {
            self.add_table(alloc, table, record)?;
        }
        Ok(())
    }

    // A table by its name.
    pub(crate) fn table(&self, table: TableName) -> Option<&Listed>
        ensures { option_map entry_of (option_copied result)
            ≡ find (is_entry table) (map entry_of self.now.tables.items) }
    {
        listed_in(self.tables.as_slice(), table)
    }
}

// Reads the catalog of a database of so many pages.
pub(crate) fn read_catalog<P: Pages>(
    alloc: Global,
    pages: &mut P,
    scratch: &mut Scratch,
    count: usize,
) -> Result<Catalog, FileError>
    ensures read { ReadsCatalog P.Pages pages.old pages.new count result }
    ensures kept { Continues P.Pages pages.old pages.new }
    ensures pages { P.Pages.pages pages.new ≡ P.Pages.pages pages.old }
{
    let mut catalog = Catalog {
        master: Vec::new(alloc),
        tables: Vec::new(alloc),
    };
    let mut cursor = Cursor::new(alloc);
    for _ in 0..u64::MAX {
        if !cursor.advance(pages, scratch, ROOT)? {
            return Ok(catalog);
        }
        if !is_sound(alloc, cursor.record(), count)? {
            return Err(FileError::Damaged);
        }
        catalog.add(alloc, cursor.record())?;
    }
    Err(FileError::Damaged)
}
