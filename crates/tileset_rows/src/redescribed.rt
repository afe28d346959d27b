// Conversions over a store that first describes the tables of another layout, and takes no commit.
use crate::answers::said_outcome;
use crate::fields::{Fields, bytes_of};
use crate::said::say_medium;
use crate::stores::{Options, converted, options_of, script_of};
use mb_store::{Changes, MemStore, Row, RowKey, StoreError, TableDesc, TableName, TileStore};
use pm_format::MemMedium;
use std::alloc::Global;
use tileset::Outcome;
use tileset_script::ParsedScript;

// A store that is described as another one where this is first asked. It tells nothing.
#[derive(Drop)]
struct Redescribed {
    store: MemStore,
    other: MemStore,
    asked: bool,
}

impl TileStore for Redescribed {
    ghost use Rattle.std.specs.Prelude.{false, [], ◌≡◌};
    ghost use Rattle.std.proofs.lemmas.Bool.{false≢true};
    ghost use Rattle.mb_store.specs.Store.{no_rows};
    ghost use Rattle.mb_store.specs.MemStore.{faults_of};

    ghost tells = { λ _. false };

    ghost told = { λ _. no_rows [] };

    ghost faults = { λ s. faults_of s.store };

    ghost steady = { λ _. ⊥ };

    fn describe(&mut self, alloc: Global) -> Result<Vec<TableDesc>, StoreError> {
        if self.asked {
            return self.store.describe(alloc);
        }
        self.asked = true;
        match self.other.describe(alloc) {
            Ok(tables) => Ok(tables),
            Err(_) => Err(StoreError::OutOfMemory),
        }
    }

    fn count_rows(&mut self, table: TableName) -> Result<u64, StoreError> {
        self.store.count_rows(table)
    }

    fn rows(
        &mut self,
        alloc: Global,
        table: TableName,
        from: u64,
        limit: u64,
    ) -> Result<Vec<Row>, StoreError> {
        self.store.rows(alloc, table, from, limit)
    }

    fn find(
        &mut self,
        alloc: Global,
        table: TableName,
        key: &RowKey,
    ) -> Result<Option<Row>, StoreError> {
        self.store.find(alloc, table, key)
    }

    fn create(&mut self, alloc: Global, tables: &[TableDesc]) -> Result<(), StoreError> {
        self.store.create(alloc, tables)
    }

    fn commit(&mut self, _: Global, _: &Changes) -> Result<(), StoreError> {
        Err(StoreError::OutOfMemory)
    }

    fn live_size(&mut self) -> Result<u64, StoreError> {
        self.store.live_size()
    }

    ghost sound = { λ _ tells. absurd (false≢true tells) };
}

// Appends how a conversion over such a store ends, and the archive.
fn say_redescribed(
    alloc: Global,
    out: &mut String,
    script: ParsedScript,
    other: MemStore,
    options: Options,
) -> Option<()> {
    let ParsedScript {
        options: given,
        base: store,
        mut patches,
        queries,
    } = script;
    let mut store = Redescribed {
        store,
        other,
        asked: false,
    };
    let mut medium = MemMedium::new(alloc);
    let answer = converted(
        alloc,
        &mut store,
        &mut patches,
        queries.as_slice(),
        &options_of(given),
        options,
        &mut medium,
    );
    match answer {
        Ok(_) => said_outcome(alloc, out, Outcome::Done)?,
        Err(error) => said_outcome(alloc, out, Outcome::Refused(error))?,
    }
    say_medium(alloc, out, &medium)
}

/// A case of a script, and of another one whose base is described first: how the conversion ends, and the archive.
pub fn answer(
    alloc: Global,
    out: &mut String,
    fields: &mut Fields,
    options: Options,
) -> Option<()> {
    let script = bytes_of(alloc, fields.next())?;
    let other = bytes_of(alloc, fields.next())?;
    let ParsedScript {
        options: _,
        base: other,
        patches: _,
        queries: _,
    } = script_of(alloc, other.as_slice())?;
    let script = script_of(alloc, script.as_slice())?;
    say_redescribed(alloc, out, script, other, options)
}
