// The kinds of values of SQLite.
ghost use Rattle.std.specs.Prelude.{◌≡◌};
ghost use Rattle.mb_reading.specs.Cells.{kind_of};
ghost use Rattle.mb_reading.specs.Common.{owned};

use sqlite::types::ValueRef;
use std::fmt;

/// The kinds of values of SQLite.
#[derive(Clone, Copy, Debug, PartialEq, Eq)]
pub enum ValueKind {
    /// No value.
    Null,
    /// A whole number.
    Integer,
    /// A floating point number.
    Real,
    /// A text.
    Text,
    /// Bytes.
    Blob,
}

/// The kind of a value.
pub fn kind_of(value: ValueRef<'_>) -> ValueKind
    ensures { result ≡ kind_of (owned value.entry) }
{
    match value {
        ValueRef::Null => ValueKind::Null,
        ValueRef::Int(_) => ValueKind::Integer,
        ValueRef::Real(_) => ValueKind::Real,
        ValueRef::Text(_) => ValueKind::Text,
        ValueRef::Blob(_) => ValueKind::Blob,
    }
}

impl fmt::Display for ValueKind {
    fn fmt<W: fmt::Write>(&self, f: &mut fmt::Formatter<W>) -> fmt::Result {
        f.write_str(match self {
            ValueKind::Null => "null",
            ValueKind::Integer => "a whole number",
            ValueKind::Real => "a floating point number",
            ValueKind::Text => "a text",
            ValueKind::Blob => "bytes",
        })
    }
}
