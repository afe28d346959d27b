// What a reading leaves out, counted.
ghost use Rattle.std.specs.Prelude.{◌≡◌};
ghost use Rattle.mb_reading.specs.Answer.{answer_row};
ghost use Rattle.mb_reading.specs.Common.{owned};
ghost use Rattle.mb_reading.specs.LeftOut.{counted, nothing_left, one_more, or_first, place_value, place_values};

use crate::answer::answer_of;
use crate::{Answer, Step};
use mb_tables::TableName;
use sqlite::types::ValueRef;
use std::fmt;

/// A value of a column of places, without the letters of a text.
#[derive(Clone, Copy, Debug)]
pub enum PlaceValue {
    /// No value.
    Null,
    /// A whole number.
    Integer(i64),
    /// A floating point number.
    Real(f64),
    /// A text.
    Text,
    /// Bytes.
    Blob,
}

/// The place of a row of tiles, as it stands in the database.
#[derive(Clone, Copy, Debug)]
pub struct PlaceValues {
    /// The zoom.
    pub zoom_level: PlaceValue,
    /// The column.
    pub tile_column: PlaceValue,
    /// The row.
    pub tile_row: PlaceValue,
}

/// How many rows a reading leaves out, and why. A count stays at the greatest number of 64 bits.
#[derive(Clone, Copy, Debug)]
pub struct LeftOut {
    /// Rows of tiles of which the zoom, the column or the row is no whole number of 64 bits.
    pub without_number: u64,
    /// Rows of tiles of a zoom of 31 or more.
    pub too_deep: u64,
    /// Other rows of tiles outside the grid of their zoom.
    pub outside_grid: u64,
    /// The place of the first of these rows.
    pub first: Option<PlaceValues>,
    /// Rows of the metadata whose name is empty or no text, or whose value is no text.
    pub without_text: u64,
    /// Rows of the metadata whose name stands in an earlier row.
    pub repeated_names: u64,
}

fn place_value(value: ValueRef<'_>) -> PlaceValue
    ensures { result ≡ place_value (owned value.entry) }
{
    match value {
        ValueRef::Null => PlaceValue::Null,
        ValueRef::Int(number) => PlaceValue::Integer(number),
        ValueRef::Real(real) => PlaceValue::Real(real),
        ValueRef::Text(_) => PlaceValue::Text,
        ValueRef::Blob(_) => PlaceValue::Blob,
    }
}

fn place_values(answer: Answer<'_>) -> PlaceValues
    ensures { result ≡ place_values (answer_row answer.entry) }
{
    PlaceValues {
        zoom_level: place_value(answer.first),
        tile_column: place_value(answer.second),
        tile_row: place_value(answer.third),
    }
}

fn or_first(first: Option<PlaceValues>, answer: Answer<'_>) -> Option<PlaceValues>
    ensures { result ≡ or_first first (place_values (answer_row answer.entry)) }
{
    match first {
        Some(first) => Some(first),
        None => Some(place_values(answer)),
    }
}

fn one_more(count: u64) -> u64
    ensures { result ≡ one_more count }
{
    if count == u64::MAX { count } else { count + 1 }
}

impl LeftOut {
    /// Nothing.
    pub const NOTHING: LeftOut = LeftOut {
        without_number: 0,
        too_deep: 0,
        outside_grid: 0,
        first: None,
        without_text: 0,
        repeated_names: 0,
    };

    /// With a row of a table of which this became, by its values.
    pub fn counted(self, table: TableName, answer: Answer<'_>, step: Step) -> LeftOut
        ensures { result ≡ counted table (answer_row answer.entry) step self }
    {
        match (table, step) {
            (_, Step::NoNumber) => LeftOut {
                without_number: one_more(self.without_number),
                first: or_first(self.first, answer),
                ..self
            },
            (_, Step::TooDeep) => LeftOut {
                too_deep: one_more(self.too_deep),
                first: or_first(self.first, answer),
                ..self
            },
            (_, Step::Outside) => LeftOut {
                outside_grid: one_more(self.outside_grid),
                first: or_first(self.first, answer),
                ..self
            },
            (TableName::Metadata, Step::Odd) => LeftOut {
                without_text: one_more(self.without_text),
                ..self
            },
            (TableName::Metadata, Step::Repeated) => LeftOut {
                repeated_names: one_more(self.repeated_names),
                ..self
            },
            _ => self,
        }
    }

    // With an answer of which this became.
    #[tactic(auto, using(crate::proofs::AnswerLemmas::same_count))]
    pub(crate) fn counted_answer(
        self,
        table: TableName,
        answer: &sqlite::Row,
        step: Step,
    ) -> LeftOut
        ensures { result ≡ counted table answer.now step self }
    {
        self.counted(table, answer_of(answer), step)
    }
}

impl fmt::Display for PlaceValue {
    fn fmt<W: fmt::Write>(&self, f: &mut fmt::Formatter<W>) -> fmt::Result {
        match self {
            PlaceValue::Null => f.write_str("NULL"),
            PlaceValue::Integer(number) => write!(f, "{number}"),
            PlaceValue::Real(real) => write!(f, "{real}"),
            PlaceValue::Text => f.write_str("a text"),
            PlaceValue::Blob => f.write_str("bytes"),
        }
    }
}
