// A value of JSON, which contracts see as its data.
ghost use Rattle.std.specs.Prelude.{◌≡◌};
ghost use Rattle.tile_json.specs.Common.{view};

use serde_json::Value;
use std::marker::Model;

/// A value of JSON: null, a truth value, a number, a text, a list or an object.
#[derive(Debug, Drop)]
pub struct JsonVal {
    value: Value,
}

impl Model for JsonVal {
    ghost use Rattle.tile_json.specs.Common.{Data};
    ghost use Rattle.serde_json.specs.View.{view as data_of};
    ghost use Rattle.tile_json.specs.JsonCode.{coded_data};

    ghost Value = { Data };

    ghost coded = { coded_data };

    ghost view = { λ j. data_of j.value };
}

impl JsonVal {
    /// The value of JSON that this is.
    pub fn new(value: Value) -> JsonVal
        ensures { result ≡ view value }
    {
        JsonVal { value }
    }

    /// The value itself.
    pub fn as_value(&self) -> &Value
        ensures { view result.now ≡ self.now }
    {
        &self.value
    }

    /// The value itself, taken out.
    pub fn into_value(self) -> Value
        ensures { view result ≡ self }
    {
        self.value
    }
}
