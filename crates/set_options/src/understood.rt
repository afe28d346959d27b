// Whether a row of metadata is in a form that its name asks for.
ghost use Rattle.std.specs.Prelude.{◌≡◌, is_some, IfOk, Some};
ghost use Rattle.set_options.specs.Common.{as_object, option_and_then, read, view};
ghost use Rattle.set_options.specs.Format.{type_of};
ghost use Rattle.set_options.specs.Understood.{is_known, is_understood};

use crate::extents::{bounds_in, center_in};
use crate::format::type_said;
use base_values::OutOfMemory;
use pm_format::TileType;
use serde_json::Value;
use std::alloc::Global;

fn is_known(tile_type: TileType) -> bool
    ensures { result ≡ is_known tile_type }
{
    !matches!(tile_type, TileType::Unknown)
}

// Whether a value is an object.
fn is_object(value: &Value) -> bool
    ensures { result ≡ is_some (as_object (view value.now)) }
{
    matches!(value, Value::Object(_))
}

// Whether a text is an object of JSON.
fn says_object(alloc: Global, text: &str) -> Result<bool, OutOfMemory>
    ensures { IfOk result (λ r. r ≡ is_some (option_and_then as_object (read text.now))) }
{
    match Value::from_str(alloc, text) {
        Ok(value) => Ok(is_object(&value)),
        Err(error) if error.is_memory() => Err(OutOfMemory),
        Err(_) => Ok(false),
    }
}

/// Whether a row of a set's metadata is in a form that its name asks for, so that an archive takes what it says:
/// `format` names a known type of tiles, `bounds` and `center` are numbers in their ranges, as `SetOptions` reads them,
/// and `json` is an object of JSON, nested at most 127 deep. Nothing is asked of other names. Of a center in form a
/// zoom that is no number from 0 to 30 is left out alone.
pub fn is_understood(alloc: Global, name: &str, value: &str) -> Result<bool, OutOfMemory>
    ensures { IfOk result (λ r. r ≡ is_understood name.now value.now) }
{
    match name {
        "format" => Ok(is_known(type_said(value))),
        "bounds" => Ok(bounds_in(value.as_bytes()).is_some()),
        "center" => Ok(center_in(value.as_bytes()).is_some()),
        "json" => says_object(alloc, value),
        _ => Ok(true),
    }
}
