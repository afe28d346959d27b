// Conversions that hold no contents, over a store that changes between the readings.
use crate::answers::{said_outcome, say_label};
use crate::fields::{Fields, bytes_of};
use crate::parts::{part_converted, part_of};
use crate::stores::{Options, converted, options_of, script_of};
use base_values::TextVal;
use mb_store::{Changes, MemStore, Row, RowKey, StoreError, TableDesc, TableName, TileStore};
use pm_format::MemMedium;
use std::alloc::Global;
use tile_bridge::{ConvertError, ConvertOptions, ConvertReport};
use tile_extract::IdIntervals;
use tile_ids::TileCoord;
use tileset::Outcome;
use tileset_script::ParsedScript;

// A store of which one row that is sought is another one. It tells nothing.
#[derive(Drop)]
struct Changing {
    store: MemStore,
    finds: u64,
    changed: u64,
    other: Option<RowKey>,
}

impl TileStore for Changing {
    ghost use Rattle.std.specs.Prelude.{false, [], ◌≡◌};
    ghost use Rattle.std.proofs.lemmas.Bool.{false≢true};
    ghost use Rattle.mb_store.specs.Store.{no_rows};
    ghost use Rattle.mb_store.specs.MemStore.{faults_of};

    ghost tells = { λ _. false };

    ghost told = { λ _. no_rows [] };

    ghost faults = { λ s. faults_of s.store };

    ghost steady = { λ _. ⊥ };

    fn describe(&mut self, alloc: Global) -> Result<Vec<TableDesc>, StoreError> {
        self.store.describe(alloc)
    }

    fn count_rows(&mut self, table: TableName) -> Result<u64, StoreError> {
        self.store.count_rows(table)
    }

    fn rows(
        &mut self,
        alloc: Global,
        table: TableName,
        from: u64,
        limit: u64,
    ) -> Result<Vec<Row>, StoreError> {
        self.store.rows(alloc, table, from, limit)
    }

    fn find(
        &mut self,
        alloc: Global,
        table: TableName,
        key: &RowKey,
    ) -> Result<Option<Row>, StoreError> {
        self.finds = self.finds.saturating_add(1);
        if self.finds != self.changed {
            return self.store.find(alloc, table, key);
        }
        match &self.other {
            Some(other) => self.store.find(alloc, table, other),
            None => Ok(None),
        }
    }

    fn create(&mut self, alloc: Global, tables: &[TableDesc]) -> Result<(), StoreError> {
        self.store.create(alloc, tables)
    }

    fn commit(&mut self, _: Global, _: &Changes) -> Result<(), StoreError> {
        Err(StoreError::OutOfMemory)
    }

    fn live_size(&mut self) -> Result<u64, StoreError> {
        self.store.live_size()
    }

    ghost sound = { λ _ tells. absurd (false≢true tells) };
}

// The key of a place, of which the zoom is read.
fn place_of(zoom: &str, fields: &mut Fields) -> Option<RowKey> {
    let zoom = zoom.parse::<u8>().ok()?;
    let column = fields.next().parse::<u32>().ok()?;
    let row = fields.next().parse::<u32>().ok()?;
    Some(RowKey::Tile { zoom, column, row })
}

// The key that three numbers are, or a word for its kind and an id; none where there are none.
fn key_of(alloc: Global, fields: &mut Fields) -> Option<RowKey> {
    match fields.next() {
        "text" => {
            let id = String::from_str(alloc, fields.next()).ok()?;
            Some(RowKey::TextId(TextVal::new(id)))
        }
        "number" => Some(RowKey::IntId(fields.next().parse::<i64>().ok()?)),
        zoom => place_of(zoom, fields),
    }
}

// A conversion over a changing store, with the options of a script: of a part, or by the call for all tiles.
fn answered(
    alloc: Global,
    store: &mut Changing,
    (options, patches, coords): (&ConvertOptions, &mut Vec<MemStore>, &[TileCoord]),
    part: Option<IdIntervals>,
    medium: &mut MemMedium,
) -> Result<ConvertReport, ConvertError> {
    if part.is_some() {
        let asked = (options, Options::Streamed);
        return part_converted(alloc, (store, patches), &part, coords, asked, medium);
    }
    converted(
        alloc,
        store,
        patches,
        coords,
        options,
        Options::Streamed,
        medium,
    )
}

// Appends how a conversion over a changing store ends, and what stands at byte 97 of the medium.
fn say_changed(
    alloc: Global,
    out: &mut String,
    (script, part): (ParsedScript, Option<IdIntervals>),
    changed: u64,
    other: Option<RowKey>,
) -> Option<()> {
    let ParsedScript {
        options,
        base,
        mut patches,
        queries,
    } = script;
    let mut store = Changing {
        store: base,
        finds: 0,
        changed,
        other,
    };
    let mut medium = MemMedium::new(alloc);
    let options = options_of(options);
    let asked = (&options, &mut patches, queries.as_slice());
    match answered(alloc, &mut store, asked, part, &mut medium) {
        Ok(_) => said_outcome(alloc, out, Outcome::Done)?,
        Err(error) => said_outcome(alloc, out, Outcome::Refused(error))?,
    }
    say_label(out, medium.as_bytes())
}

// The fields of a case behind those of a part.
fn answer_of(
    alloc: Global,
    out: &mut String,
    fields: &mut Fields,
    part: Option<IdIntervals>,
) -> Option<()> {
    let script = bytes_of(alloc, fields.next())?;
    let changed = fields.next().parse::<u64>().ok()?;
    let other = key_of(alloc, fields);
    let script = script_of(alloc, script.as_slice())?;
    say_changed(alloc, out, (script, part), changed, other)
}

/// A case of a script, the number of a row that is sought, and the key of the row that is found in its place, if any:
/// three numbers, or `text` or `number` and an id. How the conversion ends, and byte 97 of the medium.
pub fn answer(alloc: Global, out: &mut String, fields: &mut Fields) -> Option<()> {
    answer_of(alloc, out, fields, None)
}

/// The same of the part that intervals are, which stand in front.
pub fn of_part(alloc: Global, out: &mut String, fields: &mut Fields) -> Option<()> {
    let part = part_of(alloc, fields.next())?;
    answer_of(alloc, out, fields, part)
}
