// What the lines of a script said so far.
ghost use Rattle.std.specs.Prelude.{◌≡◌, ◌++◌, length, IfOk, IfSome, OnOk};
ghost use Rattle.tileset_script.specs.Common.{option_map, option_to_list, width};
ghost use Rattle.tileset_script.specs.Script.{begun, ended, no_lines, with_line};

use super::ParsedScript;
use super::line::Line;
use super::setting::{Setting, options_of};
use crate::layout::Layout;
use crate::section::Section;
use base_values::OutOfMemory;
use mb_store::{MemStore, Row, TableName};
use std::alloc::Global;
use tile_ids::TileCoord;

/// What the lines of a script said so far.
#[derive(Drop)]
pub struct Draft {
    settings: Vec<Setting>,
    earlier: Vec<MemStore>,
    latest: Option<Section>,
    queries: Vec<TileCoord>,
}

impl Draft {
    ghost use Rattle.tileset_script.specs.Reading.{ScriptNeverFails, DraftNeverFails, IsWide, Takes, drafted, script_text};

    /// Before the first line.
    pub(crate) fn new(alloc: Global) -> Draft
        ensures empty { drafted result ≡ no_lines }
        ensures unfailing { DraftNeverFails result }
    {
        Draft {
            settings: Vec::new(alloc),
            earlier: Vec::new(alloc),
            latest: None,
            queries: Vec::new(alloc),
        }
    }

    /// Takes a line, and says whether it stands in its section, and a row in a table that has no row of its key.
    pub(crate) fn take(&mut self, alloc: Global, line: Line) -> Result<bool, OutOfMemory>
        requires { IsWide line }
        ensures takes { IfOk result (λ taken. Takes (with_line (drafted self.old) line) taken
            (drafted self.new)) }
        ensures unfailing { OnOk result (DraftNeverFails self.old → DraftNeverFails self.new) }
    {
        match line {
            Line::Nothing => Ok(true),
            Line::Given(setting) => self.take_setting(setting),
            Line::Base(layout) => self.take_base(alloc, layout),
            Line::Patch(layout) => self.take_patch(alloc, layout),
            Line::Row(table, row) => self.take_row(table, row),
            Line::Query(coord) => self.take_query(coord),
        }
    }

    // An option stands before the base.
    fn take_setting(&mut self, setting: Setting) -> Result<bool, OutOfMemory>
        ensures takes { IfOk result (λ taken. Takes (with_line (drafted self.old)
            (Line.Given setting)) taken (drafted self.new)) }
        ensures unfailing { OnOk result (DraftNeverFails self.old → DraftNeverFails self.new) }
    {
        if self.latest.is_some() {
            return Ok(false);
        }
        self.settings.push(setting)?;
        Ok(true)
    }

    // Begins a store behind those that were begun before.
    fn begin(&mut self, alloc: Global, layout: Layout) -> Result<(), OutOfMemory>
        ensures begun { OnOk result (drafted self.new ≡ begun (drafted self.old) layout) }
        ensures unfailing { OnOk result (DraftNeverFails self.old → DraftNeverFails self.new) }
    {
        let section = Section::new(alloc, layout)?;
        if let Some(before) = self.latest.replace(section) {
            self.earlier.push(before.into_store())?;
        }
        Ok(())
    }

    // There is one base.
    fn take_base(&mut self, alloc: Global, layout: Layout) -> Result<bool, OutOfMemory>
        ensures takes { IfOk result (λ taken. Takes (with_line (drafted self.old)
            (Line.Base layout)) taken (drafted self.new)) }
        ensures unfailing { OnOk result (DraftNeverFails self.old → DraftNeverFails self.new) }
    {
        if self.latest.is_some() {
            return Ok(false);
        }
        self.begin(alloc, layout)?;
        Ok(true)
    }

    // A patch stands behind the base and before the queries.
    fn take_patch(&mut self, alloc: Global, layout: Layout) -> Result<bool, OutOfMemory>
        ensures takes { IfOk result (λ taken. Takes (with_line (drafted self.old)
            (Line.Patch layout)) taken (drafted self.new)) }
        ensures unfailing { OnOk result (DraftNeverFails self.old → DraftNeverFails self.new) }
    {
        if self.latest.is_none() || !self.queries.is_empty() {
            return Ok(false);
        }
        self.begin(alloc, layout)?;
        Ok(true)
    }

    // A row stands behind the base or a patch and before the queries, and goes to the store that was begun last.
    fn take_row(&mut self, table: TableName, row: Row) -> Result<bool, OutOfMemory>
        requires { length row ≡ width table }
        ensures takes { IfOk result (λ taken. Takes (with_line (drafted self.old)
            (Line.Row table row)) taken (drafted self.new)) }
        ensures unfailing { OnOk result (DraftNeverFails self.old → DraftNeverFails self.new) }
    {
        if !self.queries.is_empty() {
            return Ok(false);
        }
        match &mut self.latest {
            Some(section) => section.take_row(table, row),
            None => Ok(false),
        }
    }

    // A query stands behind the base.
    fn take_query(&mut self, coord: TileCoord) -> Result<bool, OutOfMemory>
        ensures takes { IfOk result (λ taken. Takes (with_line (drafted self.old)
            (Line.Query coord)) taken (drafted self.new)) }
        ensures unfailing { OnOk result (DraftNeverFails self.old → DraftNeverFails self.new) }
    {
        if self.latest.is_none() {
            return Ok(false);
        }
        self.queries.push(coord)?;
        Ok(true)
    }

    /// The script, where there was a base line.
    pub(crate) fn finish(self) -> Result<Option<ParsedScript>, OutOfMemory>
        ensures script { IfOk result (λ script. option_map script_text script ≡ ended
            (drafted self)) }
        ensures unfailing { IfOk result (λ script. DraftNeverFails self
            → IfSome script ScriptNeverFails) }
    {
        let Draft {
            settings,
            earlier,
            latest,
            queries,
        } = self;
        let mut stores = all_stores(earlier, latest)?;
        if stores.is_empty() {
            return Ok(None);
        }
        let base = stores.remove(0);
        Ok(Some(ParsedScript {
            options: options_of(settings),
            base,
            patches: stores,
            queries,
        }))
    }
}

// All stores, the latest behind the others.
fn all_stores(
    mut earlier: Vec<MemStore>,
    latest: Option<Section>,
) -> Result<Vec<MemStore>, OutOfMemory>
    ensures { IfOk result (λ stores. stores.items ≡ earlier.items ++ option_to_list
        (option_map (λ s. s.store) latest)) }
{
    if let Some(section) = latest {
        earlier.push(section.into_store())?;
    }
    Ok(earlier)
}
