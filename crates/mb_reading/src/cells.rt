// Values of a file as cells of a set. None is a value that no set has in its column.
ghost use Rattle.std.specs.Prelude.{◌≡◌, ◌==◌, IfOk};
ghost use Rattle.mb_reading.specs.Common.{is_ascii_hexdigit, list_all, list_any, owned};
ghost use Rattle.mb_reading.specs.Cells.{data_cell, digest_cell, is_digest, name_cell, number_cell, place_cell, plain_cell, real_cell, spelled_cell, spelling_cell, text_cell, value_cell};

use base_values::{BlobVal, OutOfMemory, TextVal};
use line_words::parse_number;
use mb_tables::Cell;
use sqlite::types::ValueRef;
use std::alloc::Global;
use std::num::{nearest_i64_to_f64, saturating_f64_to_i64};

// The greatest number of nine digits.
const MOST: u64 = 999_999_999;

// A floating point number that is whole as that number, another one as null.
fn real_cell(real: f64) -> Cell
    ensures { result ≡ real_cell real }
{
    let number = saturating_f64_to_i64(real);
    if nearest_i64_to_f64(number) == real {
        Cell::Int(number)
    } else {
        Cell::Null
    }
}

// The number that a text spells in at most nine digits, null where it spells none.
fn spelled_cell(text: &[u8]) -> Cell
    ensures { result ≡ spelled_cell text.now }
{
    match parse_number(text, MOST) {
        Some(number) => Cell::Int(number as i64),
        None => Cell::Null,
    }
}

// A zoom, a column or a row. What isn't a whole number is null.
pub(crate) fn place_cell(value: ValueRef<'_>) -> Cell
    ensures { result ≡ place_cell (owned value.entry) }
{
    match value {
        ValueRef::Null | ValueRef::Blob(_) => Cell::Null,
        ValueRef::Int(number) => Cell::Int(number),
        ValueRef::Real(real) => real_cell(real),
        ValueRef::Text(text) => spelled_cell(text),
    }
}

// Contents. A text is its bytes.
pub(crate) fn data_cell(alloc: Global, value: ValueRef<'_>) -> Result<Option<Cell>, OutOfMemory>
    ensures { IfOk result (λ cell. cell ≡ data_cell (owned value.entry)) }
{
    Ok(match value {
        ValueRef::Null => Some(Cell::Null),
        ValueRef::Text(bytes) => Some(Cell::Blob(BlobVal::new(Vec::from_slice(alloc, bytes)?))),
        ValueRef::Blob(bytes) => Some(Cell::Blob(BlobVal::new(Vec::from_slice(alloc, bytes)?))),
        ValueRef::Int(_) | ValueRef::Real(_) => None,
    })
}

// A text in UTF-8.
#[tactic(auto, using(crate::proofs::CellLemmas::utf8_cell, crate::proofs::CellLemmas::other_cell))]
fn text_cell(alloc: Global, text: &[u8]) -> Result<Option<Cell>, OutOfMemory>
    ensures { IfOk result (λ cell. cell ≡ text_cell text.now) }
{
    match std::str::from_utf8(text) {
        Ok(text) => Ok(Some(Cell::Text(TextVal::new(String::from_str(alloc, text)?)))),
        Err(_) => Ok(None),
    }
}

// Whether all bytes are hexadecimal digits.
fn are_digits(text: &[u8]) -> bool
    ensures { result ≡ list_all is_ascii_hexdigit text.now }
{
    text.iter().all(|byte| byte.is_ascii_hexdigit())
}

// Whether a text is 16 or 32 hexadecimal digits.
fn is_digest(text: &[u8]) -> bool
    ensures { result ≡ is_digest text.now }
{
    let length = text.len();
    if length == 16 || length == 32 {
        are_digits(text)
    } else {
        false
    }
}

// A digest, or null.
pub(crate) fn digest_cell(alloc: Global, value: ValueRef<'_>) -> Result<Option<Cell>, OutOfMemory>
    ensures { IfOk result (λ cell. cell ≡ digest_cell (owned value.entry)) }
{
    match value {
        ValueRef::Null => Ok(Some(Cell::Null)),
        ValueRef::Text(text) => {
            if is_digest(text) {
                text_cell(alloc, text)
            } else {
                Ok(None)
            }
        }
        ValueRef::Int(_) | ValueRef::Real(_) | ValueRef::Blob(_) => Ok(None),
    }
}

// The number of contents, or null.
pub(crate) fn number_cell(value: ValueRef<'_>) -> Option<Cell>
    ensures { result ≡ number_cell (owned value.entry) }
{
    match value {
        ValueRef::Null => Some(Cell::Null),
        ValueRef::Int(number) => Some(Cell::Int(number)),
        ValueRef::Real(_) | ValueRef::Text(_) | ValueRef::Blob(_) => None,
    }
}

// Whether a text has a zero byte.
fn has_zero(text: &[u8]) -> bool
    ensures { result ≡ list_any (λ b. b == 0) text.now }
{
    text.iter().any(|byte| *byte == 0)
}

// A text of the metadata: UTF-8 without a zero byte.
fn plain_cell(alloc: Global, text: &[u8]) -> Result<Option<Cell>, OutOfMemory>
    ensures { IfOk result (λ cell. cell ≡ plain_cell text.now) }
{
    if has_zero(text) {
        return Ok(None);
    }
    text_cell(alloc, text)
}

// A name of the metadata.
pub(crate) fn name_cell(alloc: Global, value: ValueRef<'_>) -> Result<Option<Cell>, OutOfMemory>
    ensures { IfOk result (λ cell. cell ≡ name_cell (owned value.entry)) }
{
    match value {
        ValueRef::Text(text) => {
            if text.len() == 0 {
                Ok(None)
            } else {
                plain_cell(alloc, text)
            }
        }
        ValueRef::Null | ValueRef::Int(_) | ValueRef::Real(_) | ValueRef::Blob(_) => Ok(None),
    }
}

// The text of a value, where it is one.
fn spelling_cell(alloc: Global, value: ValueRef<'_>) -> Result<Option<Cell>, OutOfMemory>
    ensures { IfOk result (λ cell. cell ≡ spelling_cell (owned value.entry)) }
{
    match value {
        ValueRef::Text(text) => plain_cell(alloc, text),
        ValueRef::Null | ValueRef::Int(_) | ValueRef::Real(_) | ValueRef::Blob(_) => Ok(None),
    }
}

// A value of the metadata. A number is the text that SQLite spells it in.
pub(crate) fn value_cell(
    alloc: Global,
    value: ValueRef<'_>,
    spelling: ValueRef<'_>,
) -> Result<Option<Cell>, OutOfMemory>
    ensures { IfOk result (λ cell. cell ≡ value_cell (owned value.entry) (owned spelling.entry)) }
{
    match value {
        ValueRef::Null => Ok(Some(Cell::Null)),
        ValueRef::Int(_) | ValueRef::Real(_) => spelling_cell(alloc, spelling),
        ValueRef::Text(text) => plain_cell(alloc, text),
        ValueRef::Blob(_) => Ok(None),
    }
}
