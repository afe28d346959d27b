// The values of a record by the columns of its table.
ghost use Rattle.std.specs.Prelude.{◌≡◌, option_map};
ghost use Rattle.mb_reading.specs.Answer.{answer_row};
ghost use Rattle.sqlite_record.specs.Affinity.{as_real};
ghost use Rattle.sqlite_value.specs.Value.{owned};
ghost use Rattle.mb_file.specs.Metadata.{spelling};
ghost use Rattle.mb_file.specs.Record.{field, value_if, value_in, values_in};

use crate::columns::{Column, Columns};
use mb_reading::Answer;
use sqlite_record::fields::Fields;
use sqlite_schema::code::lend_value;
use sqlite_sql::spelling::{Spelled, of_float, of_integer};
use sqlite_value::value::ValueRef;
use std::num::nearest_i64_to_f64;

// The greatest whole number up to which each one is a floating point number.
const EXACT: u64 = 1 << 53;

// A value of a record by its place, None behind the last one.
pub(crate) fn field(record: &[u8], at: usize) -> Option<ValueRef<'_>>
    ensures { option_map owned result ≡ field record.now at }
{
    Fields::new(record).nth(at)
}

// A value of a column of the type REAL, which stores a whole number as such a one.
fn as_real(value: ValueRef<'_>) -> ValueRef<'_>
    ensures { owned result ≡ as_real (owned value.entry) }
{
    match value {
        ValueRef::Int(number) if number.unsigned_abs() <= EXACT => {
            ValueRef::Real(nearest_i64_to_f64(number))
        }
        other => other,
    }
}

// The value of a row in a column: the rowid of its key, else what the record has there, else the default of the column,
// which was added to the table later.
fn value_in<'a>(column: &'a Column, rowid: i64, record: &'a [u8]) -> ValueRef<'a>
    ensures { owned result ≡ value_in column.now rowid record.now }
{
    if column.is_key {
        return ValueRef::Int(rowid);
    }
    match field(record, column.at) {
        Some(value) if column.is_real => as_real(value),
        Some(value) => value,
        None => lend_value(&column.default),
    }
}

// The same, null where there is no such column.
fn value_if<'a>(column: &'a Option<Column>, rowid: i64, record: &'a [u8]) -> ValueRef<'a>
    ensures { owned result ≡ value_if column.now rowid record.now }
{
    match column {
        Some(column) => value_in(column, rowid, record),
        None => ValueRef::Null,
    }
}

// The values of a row in the columns of its set.
pub(crate) fn answer_of<'a>(columns: &'a Columns, rowid: i64, record: &'a [u8]) -> Answer<'a>
    ensures { answer_row result ≡ values_in columns.now rowid record.now }
{
    Answer {
        first: value_in(&columns.first, rowid, record),
        second: value_in(&columns.second, rowid, record),
        third: value_if(&columns.third, rowid, record),
        fourth: value_if(&columns.fourth, rowid, record),
        fifth: value_if(&columns.fifth, rowid, record),
    }
}

// The text that SQLite spells a number in, None of another value.
pub(crate) fn spelled(value: ValueRef<'_>) -> Option<Spelled>
    ensures { result ≡ spelling (owned value.entry) }
{
    match value {
        ValueRef::Int(number) => Some(of_integer(number)),
        ValueRef::Real(real) => Some(of_float(real)),
        ValueRef::Null | ValueRef::Text(_) | ValueRef::Blob(_) => None,
    }
}
