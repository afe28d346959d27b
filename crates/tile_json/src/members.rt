// The members of an object of JSON.
ghost use Rattle.std.specs.Prelude.{◌≡◌, Some, option_map};
ghost use Rattle.std.specs.FinMap as map;
ghost use Rattle.tile_json.specs.Common.{get_member, members_view, view};
ghost use Rattle.tile_json.specs.Errors.{Answers};
ghost use Rattle.tile_json.specs.Members.{with_all, with_texts, without};

use crate::{DocumentError, JsonFields, JsonVal, TextFields};
use base_values::TextVal;
use serde_json::{Map, Value};
use std::alloc::Global;

// Takes the value of a name out of an object.
pub(crate) fn take_member(members: &mut Map<String, Value>, name: &str) -> Option<Value>
    ensures value { option_map view result
        ≡ get_member name.now (members_view members.old.entries) }
    ensures left { members_view members.new.entries
        ≡ without name.now (members_view members.old.entries) }
{
    members.remove(name)
}

// All members as a map.
pub(crate) fn json_fields(
    alloc: Global,
    members: Map<String, Value>,
) -> Result<JsonFields, DocumentError>
    ensures { Answers (Some (with_all map.empty (members_view members.entries))) result }
{
    let mut fields = JsonFields::new(alloc);
    for (name, value) in members {
        fields.insert(TextVal::new(name), JsonVal::new(value))?;
    }
    Ok(fields)
}

// All members as a map, where all are texts.
pub(crate) fn text_fields(
    alloc: Global,
    members: Map<String, Value>,
) -> Result<TextFields, DocumentError>
    ensures { Answers (with_texts map.empty (members_view members.entries)) result }
{
    let mut fields = TextFields::new(alloc);
    for (name, value) in members {
        let Value::String(text) = value else {
            return Err(DocumentError::Invalid);
        };
        fields.insert(TextVal::new(name), TextVal::new(text))?;
    }
    Ok(fields)
}
