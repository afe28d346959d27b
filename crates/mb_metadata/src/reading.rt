// What a set says of itself.
ghost use Rattle.mb_metadata.specs.Common.{Answers, FaultsCounted, IsBegun, ReadsOnly};
ghost use Rattle.std.specs.Prelude.{◌≡◌, ◌≢◌, Err, IfOk};
ghost use Rattle.mb_metadata.specs.Reading.{document_said, metadata_answer, metadata_of};

use crate::Metadata;
use crate::clamping::document_within;
use crate::others::others_said;
use crate::said::{bounds_said, center_said, text_said};
use crate::said_json::json_said;
use crate::zoom_text::zoom_at;
use crate::zooms::zooms_in;
use base_values::{OutOfMemory, TextList, TextVal};
use mb_load::load;
use mb_loaded::Loaded;
use mb_store::{AGG_TILES_HASH, MbtError, MbtResult, TileStore};
use std::alloc::Global;
use tile_json::TileJson;

// The document that the names of a loaded set say, without layers.
fn document_said(alloc: Global, set: &Loaded) -> Result<TileJson, OutOfMemory>
    ensures { IfOk result (λ document. document ≡ document_said set.now.state.metadata) }
{
    let name = text_said(alloc, set, "name")?;
    let version = text_said(alloc, set, "version")?;
    let description = text_said(alloc, set, "description")?;
    let attribution = text_said(alloc, set, "attribution")?;
    let legend = text_said(alloc, set, "legend")?;
    let template = text_said(alloc, set, "template")?;
    let bounds = bounds_said(alloc, set)?;
    let center = center_said(alloc, set)?;
    let other = others_said(alloc, set)?;
    let minzoom = zoom_at(set, "minzoom");
    let maxzoom = zoom_at(set, "maxzoom");
    let tiles = TextList::new(Vec::new(alloc));
    Ok(TileJson {
        tiles,
        name,
        version,
        description,
        attribution,
        legend,
        template,
        minzoom,
        maxzoom,
        bounds,
        center,
        vector_layers: None,
        other,
    })
}

// What a loaded set says of itself.
fn metadata_of(alloc: Global, set: &Loaded, id: &str) -> Result<Metadata, OutOfMemory>
    ensures { IfOk result (λ metadata. metadata ≡ metadata_of id.now set.now.state) }
{
    let file = String::from_str(alloc, id)?;
    let layer_type = text_said(alloc, set, "type")?;
    let agg_tiles_hash = text_said(alloc, set, AGG_TILES_HASH)?;
    let document = document_said(alloc, set)?;
    let said = json_said(alloc, set)?;
    let tiles = zooms_in(set);
    let tilejson = document_within(tiles, document, said.layers);
    Ok(Metadata {
        id: TextVal::new(file),
        layer_type,
        tilejson,
        json: said.json,
        agg_tiles_hash,
    })
}

// The same as an answer of a call on a set.
fn answer_of(alloc: Global, set: &Loaded, id: &str) -> MbtResult<Metadata>
    ensures answer { Answers (metadata_answer id.now set.now.state) result }
    ensures fault { result ≢ Err MbtError.StoreFault }
{
    Ok(metadata_of(alloc, set, id)?)
}

/// What the set says of itself, `id` being the name of its file. Empty and null values say nothing. Each
/// other one goes by its name:
///
/// - `name`, `version`, `description`, `attribution`, `legend`, `template`, `bounds` and `center` are texts of the
///   document; `type` and `agg_tiles_hash` have fields beside it; `scheme` is passed over.
/// - `minzoom` and `maxzoom` are numbers from 0 to 255, and None where the text is none.
/// - `json` is a value of JSON, and None where the text isn't JSON, nested at most 127 deep, in which no number is held
///   as a float. `vector_layers` is taken out of an object, and fills its field where it is a list of layers; an object
///   that has no member then is None.
/// - All others are texts in `other`.
///
/// Where the set has tiles, let a and b be their least and greatest zoom, p and q what is said for both, a and b where
/// it isn't: the least zoom is then the least of a, q and p, and the greatest zoom the greatest of a, q and p, but at
/// most b. Each layer has its zooms so by what it says itself.
///
/// It answers the refusals of `load`. The store holds what it held, whatever the answer.
pub fn get_metadata<S: TileStore>(alloc: Global, store: &mut S, id: &str) -> MbtResult<Metadata>
    ensures answer { IsBegun (metadata_answer id.now) (S.tells store.old) (S.told store.old)
        result }
    ensures kept { ReadsOnly S.told S.tells S.faults S.steady store.old store.new }
    ensures fault { FaultsCounted S.faults store.old store.new result MbtError.StoreFault }
{
    let set = load(alloc, store)?;
    answer_of(alloc, &set, id)
}
