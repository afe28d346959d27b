// Values of JSON from texts, and members taken out of them.
ghost use Rattle.std.specs.Prelude.{◌≡◌, option_map};
ghost use Rattle.tile_json.specs.Common.{get, view};
ghost use Rattle.tile_json.specs.Errors.{Answers};
ghost use Rattle.tile_json.specs.JsonReading.{without_member};
ghost use Rattle.tile_json.specs.Reading.{whole_data};

use crate::members::take_member;
use crate::reading::whole_value;
use crate::{DocumentError, JsonVal};
use serde_json::Value;
use std::alloc::Global;

impl JsonVal {
    /// The value that a text of JSON is. `Invalid` comes exactly where the text isn't JSON, nested at most 127 deep, in
    /// which no number is held as a float.
    pub fn from_text(alloc: Global, text: &str) -> Result<JsonVal, DocumentError>
        ensures { Answers (whole_data text.now) result }
    {
        whole_value(alloc, text)
    }

    /// The value without the member of a name, and that member. A value that is no object has none, and stays as it is.
    pub fn without_member(self, name: &str) -> (JsonVal, Option<JsonVal>)
        ensures left { result.0 ≡ without_member name.now self }
        ensures taken { result.1 ≡ get name.now self }
    {
        match self.into_value() {
            Value::Object(members) => {
                let mut members = members;
                let taken = take_member(&mut members, name);
                (JsonVal::new(Value::Object(members)), seen(taken))
            }
            value => (JsonVal::new(value), None),
        }
    }
}

// A value that may be there, as contracts see it.
fn seen(value: Option<Value>) -> Option<JsonVal>
    ensures { result ≡ option_map view value }
{
    match value {
        Some(value) => Some(JsonVal::new(value)),
        None => None,
    }
}
