// The document that an archive says of itself.
ghost use Rattle.std.specs.Prelude.{◌≡◌, IfOk, IsErrOf, None, OnOk, Some, codes, option_copied, option_map};
ghost use Rattle.set_options.specs.Common.{as_object, insert, is_bare, IsWithoutFloat, members_view, object, string, view};
ghost use Rattle.set_options.specs.Document.{IsAnswered, IsJsonOf, IsOfMembers, document_of, format_of, names_of, object_in, with_any};
ghost use Rattle.set_options.specs.ArchiveJson.{IsTextOf};

use crate::extents_text::{bounds_said, center_said};
use crate::parting::{Parts, parted};
use base_values::{OutOfMemory, TextVal};
use pm_format::{Header, TileType};
use serde_json::{Map, Value};
use std::alloc::Global;
use tile_json::{DocumentError, JsonFields, JsonVal, TileJson};

// The word under `format` for a type of tiles.
fn format_of(tile_type: TileType) -> Option<&'static str>
    ensures { option_copied result ≡ format_of tile_type }
{
    match tile_type {
        TileType::Unknown => None,
        TileType::Mvt => Some("pbf"),
        TileType::Png => Some("png"),
        TileType::Jpeg => Some("jpg"),
        TileType::Webp => Some("webp"),
        TileType::Avif => Some("avif"),
        TileType::Mlt => Some("mlt"),
    }
}

// Puts a text at a name.
fn put_text(
    alloc: Global,
    names: &mut JsonFields,
    name: &str,
    text: &str,
) -> Result<(), OutOfMemory>
    ensures { OnOk result (names.new ≡ insert names.old name.now (string text.now)) }
{
    let name = TextVal::new(String::from_str(alloc, name)?);
    let value = JsonVal::new(Value::try_from_str(alloc, text)?);
    names.insert(name, value)
}

// Puts the word of a type of tiles at `format`, if it has one.
fn put_format(alloc: Global, names: &mut JsonFields, tile_type: TileType) -> Result<(), OutOfMemory>
    ensures { OnOk result (names.new ≡ with_any names.old (codes "format") (format_of tile_type)) }
{
    match format_of(tile_type) {
        Some(word) => put_text(alloc, names, "format", word),
        None => Ok(()),
    }
}

// Puts a text at `json`, if there is one.
fn put_json(alloc: Global, names: &mut JsonFields, json: Option<TextVal>) -> Result<(), OutOfMemory>
    ensures { OnOk result (names.new ≡ with_any names.old (codes "json") json) }
{
    match json {
        Some(text) => put_text(alloc, names, "json", text.as_str()),
        None => Ok(()),
    }
}

// The names without a field of their own.
fn names_of(
    alloc: Global,
    tile_type: TileType,
    names: JsonFields,
    json: Option<TextVal>,
) -> Result<JsonFields, OutOfMemory>
    ensures { IfOk result (λ all. all ≡ names_of tile_type names json) }
{
    let mut names = names;
    put_format(alloc, &mut names, tile_type)?;
    put_json(alloc, &mut names, json)?;
    Ok(names)
}

// The document of a header, of names and of a text of `json`.
fn document_of(
    alloc: Global,
    header: &Header,
    names: JsonFields,
    json: Option<TextVal>,
) -> Result<TileJson, OutOfMemory>
    ensures { IfOk result (λ t. t ≡ document_of header.now names json) }
{
    let other = names_of(alloc, header.tile_type, names, json)?;
    let bounds = bounds_said(alloc, header)?;
    let center = center_said(alloc, header)?;
    let mut document = header.get_tilejson(alloc, Vec::new(alloc));
    document.bounds = bounds;
    document.center = center;
    document.other = other;
    Ok(document)
}

// Whether there are no members.
fn is_bare(members: &Map<String, Value>) -> bool
    ensures { result ≡ is_bare (object (members_view members.now.entries)) }
{
    members.is_empty()
}

// The text of an object of members.
fn text_of(alloc: Global, members: Map<String, Value>) -> Result<TextVal, OutOfMemory>
    ensures { IfOk result (λ text. IsTextOf text (object (members_view members.entries))) }
{
    let value = Value::Object(members);
    Ok(TextVal::new(value.to_string(alloc)?))
}

// The text of `json`, if it keeps a member.
fn json_text(alloc: Global, kept: Map<String, Value>) -> Result<Option<TextVal>, OutOfMemory>
    ensures { IfOk result (IsJsonOf (members_view kept.entries)) }
{
    if is_bare(&kept) {
        return Ok(None);
    }
    Ok(Some(text_of(alloc, kept)?))
}

// The document of a header and of members.
fn document_of_members(
    alloc: Global,
    header: &Header,
    members: Map<String, Value>,
) -> Result<TileJson, OutOfMemory>
    ensures { IfOk result (IsOfMembers header.now (members_view members.entries)) }
{
    let Parts { names, kept } = parted(alloc, members)?;
    let json = json_text(alloc, kept)?;
    let document = document_of(alloc, header, names, json)?;
    Ok(document)
}

// The members of a value that is an object.
fn members_of(value: Value) -> Option<Map<String, Value>>
    ensures { option_map (λ members. members_view members.entries) result ≡ as_object (view value) }
{
    match value {
        Value::Object(members) => Some(members),
        _ => None,
    }
}

// The members of the object that a text of JSON is.
fn object_in(alloc: Global, text: &str) -> Result<Map<String, Value>, DocumentError>
    ensures members { IfOk result
        (λ members. object_in text.now ≡ Some (members_view members.entries)) }
    ensures invalid { IsErrOf result DocumentError.Invalid → object_in text.now ≡ None }
{
    match Value::from_str(alloc, text) {
        Ok(value) => match members_of(value) {
            Some(members) => Ok(members),
            None => Err(DocumentError::Invalid),
        },
        Err(error) if error.is_memory() => Err(DocumentError::OutOfMemory),
        Err(_) => Err(DocumentError::Invalid),
    }
}

/// What an archive says of itself, by its header and the text of its metadata, as the document that
/// `mb_metadata::insert_metadata` puts into a set. `Invalid` comes exactly where the text isn't an object of JSON,
/// nested at most 127 deep.
///
/// - `minzoom` and `maxzoom` are those of the header, `bounds` and `center` its degrees as decimals, parted by commas,
///   the center with its zoom;
/// - bounds of the world, with which a header begins, are none; a center is none where it is the middle of bounds that
///   a set can say, at the least zoom, or in the bounds of the world at zoom 0;
/// - `format` is the word for its type of tiles: `pbf`, `png`, `jpg`, `webp`, `avif` or `mlt`, and none
///   where the type isn't known;
/// - a member of the metadata that is a text stands under its name, unless `set_options::is_left_out` names it;
/// - all other members stand in the object under `json`, where there are any.
///
/// So a set that has no other names says the same of its archive again, but for zooms and label,
/// which are those of its tiles.
pub fn document_of_archive(
    alloc: Global,
    header: &Header,
    metadata: &str,
) -> Result<TileJson, DocumentError>
    ensures answer { IsAnswered header.now metadata.now result }
    ensures whole { IfOk result IsWithoutFloat }
{
    let members = match object_in(alloc, metadata) {
        Ok(members) => members,
        Err(DocumentError::Invalid) => return Err(DocumentError::Invalid),
        Err(DocumentError::OutOfMemory) => return Err(DocumentError::OutOfMemory),
    };
    match document_of_members(alloc, header, members) {
        Ok(document) => Ok(document),
        Err(_) => Err(DocumentError::OutOfMemory),
    }
}
