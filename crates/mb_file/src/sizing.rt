// How many rows a set has, and how many bytes their cells.
ghost use Rattle.std.specs.Prelude.{◌≡◌, true, IfOk, IfSome, length};
ghost use Rattle.mb_store.specs.Sizes.{live_size_of};
ghost use Rattle.mb_file.specs.FilePages.{GoesOn, IsTrusted};
ghost use Rattle.mb_file.specs.Standing.{IsShown, rows_told};
ghost use Rattle.mb_file.specs.Told.{contents_size, IsSameSet, may_be_told, tiles_size, told_by_set};

use crate::{FileFault, FileSet};
use mb_store::TileStore;
use mb_tables::TableName;
use sqlite_disk::Disk;
use std::alloc::Global;

impl<D: Disk> FileSet<D> {
    // How many rows a table has.
    pub(crate) fn counted(&mut self, alloc: Global, table: TableName) -> Result<u64, FileFault>
        ensures shown { IsTrusted self.new.source.pages → IsShown self.old.source self.old.tiles
            → IfSome self.old.contents (IsShown self.old.source)
            → IfOk result (λ count. count ≡ length (rows_told self.old.source self.old.names
            self.old.tiles self.old.contents table)) }
        ensures same { IsSameSet self.old self.new }
        ensures faults { self.new.faults ≡ self.old.faults }
    {
        if table == TableName::Metadata {
            return Ok(self.names.count_rows(table)?);
        }
        if self.tiles.is_of(table) {
            return self.tiles.count(alloc, &mut self.source);
        }
        match &mut self.contents {
            Some(contents) => {
                if contents.is_of(table) {
                    return contents.count(alloc, &mut self.source);
                }
                Ok(0)
            }
            None => Ok(0),
        }
    }

    // The bytes of the cells of the table of places.
    fn places_sized(&mut self, alloc: Global) -> Result<u64, FileFault>
        ensures share { IsTrusted self.new.source.pages → may_be_told self.old ≡ true
            → IfOk result (λ size. size ≡ tiles_size self.old) }
        ensures kept { GoesOn self.old.source.pages self.new.source.pages }
        ensures same { IsSameSet self.old self.new }
        ensures faults { self.new.faults ≡ self.old.faults }
    {
        self.tiles.size(alloc, &mut self.source)
    }

    // The bytes of the cells of the table of contents, where there is one.
    fn contents_sized(&mut self, alloc: Global) -> Result<u64, FileFault>
        ensures share { IsTrusted self.new.source.pages → may_be_told self.old ≡ true
            → IfOk result (λ size. size ≡ contents_size self.old) }
        ensures kept { GoesOn self.old.source.pages self.new.source.pages }
        ensures same { IsSameSet self.old self.new }
        ensures faults { self.new.faults ≡ self.old.faults }
    {
        match &mut self.contents {
            Some(contents) => contents.size(alloc, &mut self.source),
            None => Ok(0),
        }
    }

    // The bytes of the cells of all tables.
    pub(crate) fn sized(&mut self, alloc: Global) -> Result<u64, FileFault>
        ensures shown { IsTrusted self.new.source.pages → may_be_told self.old ≡ true
            → IfOk result (λ size. size ≡ live_size_of (told_by_set self.old)) }
        ensures same { IsSameSet self.old self.new }
        ensures faults { self.new.faults ≡ self.old.faults }
    {
        let names = self.names.live_size()?;
        let places = self.places_sized(alloc)?;
        let contents = self.contents_sized(alloc)?;
        Ok(names.saturating_add(places).saturating_add(contents))
    }
}
