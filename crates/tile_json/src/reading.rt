// A document from the metadata of an archive.
ghost use Rattle.std.specs.Prelude.{◌≡◌, Some, string_bytes};
ghost use Rattle.tile_json.specs.Common.{members_view, view};
ghost use Rattle.tile_json.specs.Errors.{Answers, Leaves};
ghost use Rattle.tile_json.specs.Reading.{tilejson_in, whole_data, with_member, with_members, with_other, with_text, with_value};

use crate::floats::has_float;
use crate::{DocumentError, JsonVal, LayerList, TileJson};
use base_values::TextVal;
use serde_json::{Map, Value};
use std::alloc::Global;

impl TileJson {
    /// The document with what the metadata of an archive says, a text of JSON. `Invalid` comes exactly where the text
    /// isn't an object of JSON, nested at most 127 deep, in which no number is held as a float, or where
    /// `vector_layers` is neither a text nor a list of layers.
    pub fn with_metadata(self, alloc: Global, text: &str) -> Result<TileJson, DocumentError>
        ensures { Answers (tilejson_in self text.now) result }
    {
        let mut document = self;
        match document.add_metadata(alloc, text) {
            Ok(()) => Ok(document),
            Err(error) => Err(error),
        }
    }

    // Adds what a text of JSON says.
    #[tactic(auto, unfolding(crate::specs::Reading::tilejson_in))]
    fn add_metadata(&mut self, alloc: Global, text: &str) -> Result<(), DocumentError>
        ensures { Leaves (tilejson_in self.old text.now) self.new result }
    {
        match whole_value(alloc, text)?.into_value() {
            Value::Object(members) => self.add_members(alloc, members),
            _ => Err(DocumentError::Invalid),
        }
    }

    // Adds all members of an object.
    fn add_members(
        &mut self,
        alloc: Global,
        members: Map<String, Value>,
    ) -> Result<(), DocumentError>
        ensures { Leaves (with_members self.old (members_view members.entries)) self.new result }
    {
        for (name, value) in members {
            self.add_member(alloc, name, value)?;
        }
        Ok(())
    }

    // Adds one member.
    fn add_member(&mut self, alloc: Global, name: String, value: Value) -> Result<(), DocumentError>
        ensures { Leaves (with_member self.old (string_bytes name) (view value)) self.new result }
    {
        match value {
            Value::String(text) => self.add_text(name, text),
            value => self.add_value(alloc, name, value),
        }
    }

    // Adds a member that is a text.
    fn add_text(&mut self, name: String, text: String) -> Result<(), DocumentError>
        ensures { Leaves (Some (with_text self.old (string_bytes name) (string_bytes text)))
            self.new result }
    {
        match name.as_str() {
            "description" => self.description = Some(TextVal::new(text)),
            "attribution" => self.attribution = Some(TextVal::new(text)),
            "legend" => self.legend = Some(TextVal::new(text)),
            "name" => self.name = Some(TextVal::new(text)),
            "version" => self.version = Some(TextVal::new(text)),
            "minzoom" | "maxzoom" => {}
            _ => self.add_other(name, Value::String(text))?,
        }
        Ok(())
    }

    // Adds a member that isn't a text.
    fn add_value(&mut self, alloc: Global, name: String, value: Value) -> Result<(), DocumentError>
        ensures { Leaves (with_value self.old (string_bytes name) (view value)) self.new result }
    {
        if name.as_str() == "vector_layers" {
            self.vector_layers = Some(LayerList::from_json(alloc, value)?);
            return Ok(());
        }
        self.add_other(name, value)
    }

    // Adds a member to those that have no field of their own.
    fn add_other(&mut self, name: String, value: Value) -> Result<(), DocumentError>
        ensures { Leaves (Some (with_other self.old (string_bytes name) (view value)))
            self.new result }
    {
        Ok(self.other.insert(TextVal::new(name), JsonVal::new(value))?)
    }
}

// The value that a text of JSON is, in which no number is held as a float.
pub(crate) fn whole_value(alloc: Global, text: &str) -> Result<JsonVal, DocumentError>
    ensures { Answers (whole_data text.now) result }
{
    match Value::from_str(alloc, text) {
        Ok(value) if !has_float(&value) => Ok(JsonVal::new(value)),
        Ok(_) => Err(DocumentError::Invalid),
        Err(error) if error.is_memory() => Err(DocumentError::OutOfMemory),
        Err(_) => Err(DocumentError::Invalid),
    }
}
