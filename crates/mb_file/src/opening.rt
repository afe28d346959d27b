// The parts of a set: its layout, its tables and its metadata, by the catalog.
ghost use Rattle.std.specs.Prelude.{◌≡◌, IfOk, IfSome, map};
ghost use Rattle.std.specs.Option.{option_map};
ghost use Rattle.mb_store.specs.MemStore.{told_of};
ghost use Rattle.mb_tables.specs.Kind.{contents_of, schema_of};
ghost use Rattle.sqlite_btree.specs.Check.{KeepsMarks, MarksFree};
ghost use Rattle.mb_file.specs.Catalog.{entry_of};
ghost use Rattle.mb_file.specs.FilePages.{GoesOn, IsTrusted, pages_of};
ghost use Rattle.mb_file.specs.Held.{HoldsMetadata};
ghost use Rattle.mb_file.specs.Opened.{AreOf};
ghost use Rattle.mb_file.specs.Opening.{AreOpened, IsOpened};
ghost use Rattle.mb_file.specs.Parts.{AreParts, HoldsParts, IsPlaced};
ghost use Rattle.mb_file.specs.Recovered.{image_of};
ghost use Rattle.mb_file.specs.Standing.{AreOfLayout, HoldsNames};

use crate::FileError;
use crate::catalog::{Catalog, ROOT, read_catalog};
use crate::checking::{test_table, test_tree};
use crate::columns::columns_by;
use crate::listing::Listing;
use crate::metadata::metadata;
use crate::pages::FilePages;
use crate::set_table::SetTable;
use crate::source::Source;
use mb_reading::{first_layout, is_there};
use mb_store::MemStore;
use mb_tables::{MbtType, TableName};
use sqlite_disk::{Disk, Files};
use std::alloc::Global;

// The table of a set that its database lists as one, once it is a sound tree.
fn listing<D: Disk>(
    alloc: Global,
    source: &mut Source<D>,
    catalog: &Catalog,
    table: TableName,
) -> Result<Listing, FileError>
    ensures opened { IsTrusted source.new.pages
        → MarksFree source.old.taken.items (pages_of source.old.pages)
        → IfOk result (IsOpened source.old.pages.usable (pages_of source.old.pages)) }
    ensures found { IfOk result (IsPlaced (map entry_of catalog.now.tables.items)) }
    ensures table { IfOk result (λ listing. listing.table ≡ table) }
    ensures marks { KeepsMarks source.old.taken.items source.new.taken.items }
    ensures kept { GoesOn source.old.pages source.new.pages }
    ensures pages { pages_of source.new.pages ≡ pages_of source.old.pages }
{
    let Some(listed) = catalog.table(table) else {
        return Err(if table == TableName::Tiles {
            FileError::View
        } else {
            FileError::Table { table }
        });
    };
    let columns = columns_by(alloc, table, listed.text.as_slice())?;
    let root = listed.root;
    test_table(alloc, source, root, columns.key)?;
    Ok(Listing::new(alloc, table, SetTable { root, columns }))
}

// The table of contents, where the layout has one.
fn contents<D: Disk>(
    alloc: Global,
    source: &mut Source<D>,
    catalog: &Catalog,
    layout: MbtType,
) -> Result<Option<Listing>, FileError>
    ensures opened { IsTrusted source.new.pages
        → MarksFree source.old.taken.items (pages_of source.old.pages)
        → IfOk result (λ listing. IfSome listing
        (IsOpened source.old.pages.usable (pages_of source.old.pages))) }
    ensures found { IfOk result
        (λ contents. IfSome contents (IsPlaced (map entry_of catalog.now.tables.items))) }
    ensures placed { IfOk result (λ contents. option_map (λ listing. listing.table) contents
        ≡ option_map contents_of (schema_of layout)) }
    ensures marks { KeepsMarks source.old.taken.items source.new.taken.items }
    ensures kept { GoesOn source.old.pages source.new.pages }
    ensures pages { pages_of source.new.pages ≡ pages_of source.old.pages }
{
    match layout.normalized_schema() {
        Some(schema) => Ok(Some(listing(alloc, source, catalog, schema.contents())?)),
        None => Ok(None),
    }
}

// What a set has beside its pages.
#[derive(Drop)]
pub(crate) struct Parts {
    pub(crate) layout: MbtType,
    pub(crate) tiles: Listing,
    pub(crate) contents: Option<Listing>,
    pub(crate) names: MemStore,
}

// The tables of a layout.
fn tables<D: Disk>(
    alloc: Global,
    source: &mut Source<D>,
    catalog: &Catalog,
    layout: MbtType,
    names: MemStore,
) -> Result<Parts, FileError>
    ensures opened { IsTrusted source.new.pages
        → MarksFree source.old.taken.items (pages_of source.old.pages)
        → IfOk result (AreOpened source.old.pages.usable (pages_of source.old.pages)) }
    ensures placed { IfOk result
        (λ parts. AreOfLayout parts.layout parts.tiles parts.contents) }
    ensures layout { IfOk result (λ parts. parts.layout ≡ layout) }
    ensures found { IfOk result
        (λ parts. IsPlaced (map entry_of catalog.now.tables.items) parts.tiles) }
    ensures beside { IfOk result
        (λ parts. IfSome parts.contents (IsPlaced (map entry_of catalog.now.tables.items))) }
    ensures names { IfOk result (λ parts. parts.names ≡ names) }
    ensures marks { KeepsMarks source.old.taken.items source.new.taken.items }
    ensures kept { GoesOn source.old.pages source.new.pages }
    ensures pages { pages_of source.new.pages ≡ pages_of source.old.pages }
{
    let contents = contents(alloc, source, catalog, layout)?;
    let tiles = listing(alloc, source, catalog, layout.tile_table())?;
    Ok(Parts {
        layout,
        tiles,
        contents,
        names,
    })
}

// The metadata that a catalog lists.
fn names<D: Disk>(
    alloc: Global,
    source: &mut Source<D>,
    catalog: &Catalog,
) -> Result<MemStore, FileError>
    ensures holds { IsTrusted source.new.pages
        → MarksFree source.old.taken.items (pages_of source.old.pages)
        → IfOk result (λ names. HoldsMetadata source.old.pages.usable
        (pages_of source.old.pages) (map entry_of catalog.now.tables.items)
        ((told_of names).rows TableName.Metadata)) }
    ensures metadata { IfOk result HoldsNames }
    ensures marks { KeepsMarks source.old.taken.items source.new.taken.items }
    ensures kept { GoesOn source.old.pages source.new.pages }
    ensures pages { pages_of source.new.pages ≡ pages_of source.old.pages }
{
    let table = TableName::Metadata;
    let listed = catalog.table(table);
    if listed.is_none() && is_there(catalog.master.as_slice(), table) {
        return Err(FileError::Table { table });
    }
    metadata(alloc, source, listed)
}

// The parts of the set that a catalog lists.
fn listed_parts<D: Disk>(
    alloc: Global,
    source: &mut Source<D>,
    catalog: &Catalog,
) -> Result<Parts, FileError>
    ensures opened { IsTrusted source.new.pages
        → MarksFree source.old.taken.items (pages_of source.old.pages)
        → IfOk result (AreOpened source.old.pages.usable (pages_of source.old.pages)) }
    ensures holds { IsTrusted source.new.pages
        → MarksFree source.old.taken.items (pages_of source.old.pages)
        → IfOk result (AreParts source.old.pages.usable (pages_of source.old.pages)
        catalog.now.master.items (map entry_of catalog.now.tables.items)) }
    ensures placed { IfOk result
        (λ parts. AreOfLayout parts.layout parts.tiles parts.contents) }
    ensures metadata { IfOk result (λ parts. HoldsNames parts.names) }
    ensures marks { KeepsMarks source.old.taken.items source.new.taken.items }
    ensures kept { GoesOn source.old.pages source.new.pages }
    ensures pages { pages_of source.new.pages ≡ pages_of source.old.pages }
{
    let Some(layout) = first_layout(alloc, catalog.master.as_slice())? else {
        return Err(FileError::NotASet);
    };
    let names = names(alloc, source, catalog)?;
    tables(alloc, source, catalog, layout, names)
}

// The parts of the set that pages have.
pub(crate) fn read_parts<D: Disk>(alloc: Global, source: &mut Source<D>) -> Result<Parts, FileError>
    ensures opened { IsTrusted source.new.pages
        → MarksFree source.old.taken.items (pages_of source.old.pages)
        → IfOk result (AreOpened source.old.pages.usable (pages_of source.old.pages)) }
    ensures holds { IsTrusted source.new.pages
        → MarksFree source.old.taken.items (pages_of source.old.pages)
        → IfOk result (HoldsParts source.old.pages.usable (pages_of source.old.pages)) }
    ensures placed { IfOk result
        (λ parts. AreOfLayout parts.layout parts.tiles parts.contents) }
    ensures metadata { IfOk result (λ parts. HoldsNames parts.names) }
    ensures marks { KeepsMarks source.old.taken.items source.new.taken.items }
    ensures kept { GoesOn source.old.pages source.new.pages }
    ensures pages { pages_of source.new.pages ≡ pages_of source.old.pages }
{
    test_tree(alloc, source, ROOT)?;
    let pages = source.taken.len().saturating_sub(1);
    let catalog = read_catalog(alloc, &mut source.pages, &mut source.scratch, pages)?;
    listed_parts(alloc, source, &catalog)
}

// Opens the pages of a file and its log, and reads the parts of its set.
pub(crate) fn open_parts<D: Disk + Drop>(
    alloc: Global,
    files: Files<D>,
    cache_pages: usize,
) -> Result<(Source<D>, Parts), FileError>
    ensures opened { IfOk result (λ read. IsTrusted read.0.pages
        → AreOpened read.0.pages.usable (pages_of read.0.pages) read.1) }
    ensures found { IfOk result (λ read. IsTrusted read.0.pages
        → AreOf (image_of D.Disk files) read.0.pages.usable (pages_of read.0.pages)) }
    ensures holds { IfOk result (λ read. IsTrusted read.0.pages
        → HoldsParts read.0.pages.usable (pages_of read.0.pages) read.1) }
    ensures placed { IfOk result
        (λ read. AreOfLayout read.1.layout read.1.tiles read.1.contents) }
    ensures metadata { IfOk result (λ read. HoldsNames read.1.names) }
{
    let secret = files.log.key();
    let pages = FilePages::open(alloc, files, cache_pages)?;
    let mut source = Source::new(alloc, pages, secret)?;
    match read_parts(alloc, &mut source) {
        Ok(parts) => Ok((source, parts)),
        Err(error) => Err(error),
    }
}
