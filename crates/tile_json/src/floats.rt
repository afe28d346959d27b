// Numbers that are held as floats.
ghost use Rattle.std.specs.Prelude.{◌≡◌};
ghost use Rattle.tile_json.specs.Common.{has_float, items_have_float, items_view, members_have_float, members_view, view};

use serde_json::{Map, Value};

/// Whether a number of the value is held as a float: one with a fraction or an exponent, or one that no
/// integer of 64 bits holds.
#[cycle(floats)]
pub fn has_float(value: &Value) -> bool
    ensures { result ≡ has_float (view value.now) }
{
    match value {
        Value::Null | Value::Bool(_) | Value::String(_) => false,
        Value::Number(number) => number.is_f64(),
        Value::Array(items) => items_have_float(items),
        Value::Object(members) => members_have_float(members),
    }
}

#[cycle(floats)]
fn items_have_float(items: &Vec<Value>) -> bool
    ensures { result ≡ items_have_float (items_view items.now.items) }
{
    for item in items {
        if has_float(item) {
            return true;
        }
    }
    false
}

#[cycle(floats)]
fn members_have_float(members: &Map<String, Value>) -> bool
    ensures { result ≡ members_have_float (members_view members.now.entries) }
{
    for (_, member) in members.iter() {
        if has_float(member) {
            return true;
        }
    }
    false
}
