// Calls of tile_json.
use crate::fields;
use base_values::TextList;
use pm_format::{Compression, Header, TileType};
use rows_shared::{Words, owned, said, say, text, texts};
use serde_json::Value;
use std::alloc::Global;
use tile_json::{JsonFields, LayerList, TextFields, VectorLayer};

fn document(alloc: Global, out: &mut String, words: &mut Words) -> Option<()> {
    let metadata = text(alloc, words)?;
    let header = Header::new(Compression::None, TileType::Unknown);
    let document = header.get_tilejson(alloc, texts(alloc, words)?);
    said(out, document.with_metadata(alloc, metadata.as_str()))
}

fn layers(alloc: Global, out: &mut String, words: &mut Words) -> Option<()> {
    let value = Value::from_str(alloc, text(alloc, words)?.as_str()).ok()?;
    said(out, LayerList::from_json(alloc, value))
}

fn layer(alloc: Global, words: &mut Words) -> Option<VectorLayer> {
    Some(VectorLayer {
        id: owned(alloc, words)?,
        fields: TextFields::new(alloc),
        description: None,
        minzoom: Some(0),
        maxzoom: None,
        other: JsonFields::new(alloc),
    })
}

fn listed(alloc: Global, out: &mut String, words: &mut Words) -> Option<()> {
    let mut layers = Vec::new(alloc);
    layers.push(layer(alloc, words)?).ok()?;
    layers.push(layer(alloc, words)?).ok()?;
    let list = LayerList::new(layers);
    for layer in list.as_slice() {
        say(out, &layer.id)?;
    }
    say(out, &list)
}

fn list(alloc: Global, out: &mut String, words: &mut Words) -> Option<()> {
    let texts = TextList::new(texts(alloc, words)?);
    say(out, &texts.as_slice())
}

pub fn answer(alloc: Global, out: &mut String, words: &mut Words) -> Option<()> {
    match words.next()? {
        "document" => document(alloc, out, words),
        "layers" => layers(alloc, out, words),
        "listed" => listed(alloc, out, words),
        "list" => list(alloc, out, words),
        "texts" => fields::texts(alloc, out, words),
        "values" => fields::values(alloc, out, words),
        _ => None,
    }
}
