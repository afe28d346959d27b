// The calls of a set on its metadata.
ghost use Rattle.std.specs.Prelude.{◌≡◌, Ok, OnErr, OnOk, true};
ghost use Rattle.mb_access.specs.FileName.{file_name};
ghost use Rattle.mb_access.specs.Common.{FaultsCounted, IsBegun, Keeps, ReadsOnly, State, state_of};
ghost use Rattle.mb_metadata.specs.Inserting.{IsWithoutFloat, insert_edits};
ghost use Rattle.mb_metadata.specs.NameEdits.{EditsNames, done_answer};
ghost use Rattle.mb_metadata.specs.Reading.{metadata_answer};
ghost use Rattle.mb_metadata.specs.Updating.{state_updated, update_edits};
ghost use Rattle.mb_metadata.specs.Values.{delete_edits, set_edits, value_answer, zoom_value_answer};

use crate::Mbtiles;
use base_values::TextVal;
use mb_metadata::{Metadata, UpdateZoomType};
use mb_store::{MbtError, MbtResult, TileStore};
use std::alloc::Global;
use tile_json::TileJson;

impl Mbtiles {
    /// What `get_metadata` of `mb_metadata` answers, with the name of the file as its id.
    pub fn get_metadata<S: TileStore>(&self, alloc: Global, store: &mut S) -> MbtResult<Metadata>
        ensures answer { IsBegun (metadata_answer (file_name self.now))
            (S.tells store.old) (S.told store.old) result }
        ensures kept { ReadsOnly S.told S.tells S.faults S.steady store.old store.new }
        ensures fault { FaultsCounted S.faults store.old store.new result MbtError.StoreFault }
    {
        mb_metadata::get_metadata(alloc, store, self.filename())
    }

    /// What `get_metadata_value` of `mb_metadata` answers.
    pub fn get_metadata_value<S: TileStore>(
        &self,
        alloc: Global,
        store: &mut S,
        key: &str,
    ) -> MbtResult<Option<TextVal>>
        ensures answer { IsBegun (value_answer key.now)
            (S.tells store.old) (S.told store.old) result }
        ensures kept { ReadsOnly S.told S.tells S.faults S.steady store.old store.new }
        ensures fault { FaultsCounted S.faults store.old store.new result MbtError.StoreFault }
    {
        mb_metadata::get_metadata_value(alloc, store, key)
    }

    /// What `get_metadata_zoom_value` of `mb_metadata` answers.
    pub fn get_metadata_zoom_value<S: TileStore>(
        &self,
        alloc: Global,
        store: &mut S,
        zoom_name: &'static str,
    ) -> MbtResult<Option<u8>>
        ensures answer { IsBegun (zoom_value_answer zoom_name.entry)
            (S.tells store.old) (S.told store.old) result }
        ensures kept { ReadsOnly S.told S.tells S.faults S.steady store.old store.new }
        ensures fault { FaultsCounted S.faults store.old store.new result MbtError.StoreFault }
    {
        mb_metadata::get_metadata_zoom_value(alloc, store, zoom_name)
    }

    /// What `set_metadata_value` of `mb_metadata` does.
    pub fn set_metadata_value<S: TileStore>(
        &self,
        alloc: Global,
        store: &mut S,
        key: &str,
        value: &str,
    ) -> MbtResult<()>
        ensures answer { IsBegun done_answer (S.tells store.old) (S.told store.old) result }
        ensures committed { S.tells store.old ≡ true → OnOk result
            (EditsNames (set_edits key.now value.now) (S.told store.old) (S.told store.new)) }
        ensures refused { OnErr result (S.told store.new ≡ S.told store.old) }
        ensures kept { Keeps S.tells S.faults S.steady store.old store.new }
        ensures fault { FaultsCounted S.faults store.old store.new result MbtError.StoreFault }
    {
        mb_metadata::set_metadata_value(alloc, store, key, value)
    }

    /// What `delete_metadata_value` of `mb_metadata` does.
    pub fn delete_metadata_value<S: TileStore>(
        &self,
        alloc: Global,
        store: &mut S,
        key: &str,
    ) -> MbtResult<()>
        ensures answer { IsBegun done_answer (S.tells store.old) (S.told store.old) result }
        ensures committed { S.tells store.old ≡ true → OnOk result
            (EditsNames (delete_edits key.now) (S.told store.old) (S.told store.new)) }
        ensures refused { OnErr result (S.told store.new ≡ S.told store.old) }
        ensures kept { Keeps S.tells S.faults S.steady store.old store.new }
        ensures fault { FaultsCounted S.faults store.old store.new result MbtError.StoreFault }
    {
        mb_metadata::delete_metadata_value(alloc, store, key)
    }

    /// What `insert_metadata` of `mb_metadata` does.
    pub fn insert_metadata<S: TileStore>(
        &self,
        alloc: Global,
        store: &mut S,
        tile_json: &TileJson,
    ) -> MbtResult<()>
        requires { IsWithoutFloat tile_json.now }
        ensures answer { IsBegun done_answer (S.tells store.old) (S.told store.old) result }
        ensures committed { S.tells store.old ≡ true → OnOk result
            (EditsNames (insert_edits tile_json.now) (S.told store.old) (S.told store.new)) }
        ensures refused { OnErr result (S.told store.new ≡ S.told store.old) }
        ensures kept { Keeps S.tells S.faults S.steady store.old store.new }
        ensures fault { FaultsCounted S.faults store.old store.new result MbtError.StoreFault }
    {
        mb_metadata::insert_metadata(alloc, store, tile_json)
    }

    /// What `update_metadata` of `mb_metadata` does.
    pub fn update_metadata<S: TileStore>(
        &self,
        alloc: Global,
        store: &mut S,
        update_zoom: UpdateZoomType,
    ) -> MbtResult<()>
        ensures answer { IsBegun done_answer (S.tells store.old) (S.told store.old) result }
        ensures committed { S.tells store.old ≡ true → OnOk result
            (EditsNames (update_edits update_zoom) (S.told store.old) (S.told store.new)) }
        ensures again { S.tells store.old ≡ true → OnOk result ((s : State)
            → state_of (S.told store.old) ≡ Ok s
            → state_of (S.told store.new) ≡ Ok (state_updated update_zoom s)) }
        ensures refused { OnErr result (S.told store.new ≡ S.told store.old) }
        ensures kept { Keeps S.tells S.faults S.steady store.old store.new }
        ensures fault { FaultsCounted S.faults store.old store.new result MbtError.StoreFault }
    {
        mb_metadata::update_metadata(alloc, store, update_zoom)
    }
}
