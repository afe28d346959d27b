// The order of a table WITHOUT ROWID, by the columns of its key.
ghost use Rattle.std.specs.Prelude.{◌≡◌};
ghost use Rattle.sqlite_record.specs.Fields.{fields_left};
ghost use Rattle.mb_file.specs.KeyOrder.{is_below};

use sqlite_btree::RecordOrder;
use sqlite_record::fields::Fields;
use sqlite_value::order::compare;
use std::cmp::Ordering;

// By so many columns, which records have first. Each rises as SQLite compares values, and texts by their bytes.
#[derive(Clone, Copy, Debug)]
pub(crate) struct KeyOrder {
    pub(crate) columns: usize,
}

// Whether one record comes before another one by so many of their fields.
fn is_below(columns: usize, first: Fields<'_>, second: Fields<'_>) -> bool
    ensures { result ≡ is_below columns (fields_left first.entry) (fields_left second.entry) }
{
    if columns == 0 {
        return false;
    }
    let (mut first, mut second) = (first, second);
    let Some(value) = first.next() else {
        return false;
    };
    let Some(other) = second.next() else {
        return false;
    };
    match compare(value, other) {
        Ordering::Less => true,
        Ordering::Greater => false,
        Ordering::Equal => is_below(columns - 1, first, second),
    }
}

impl RecordOrder for KeyOrder {
    ghost use Rattle.mb_file.specs.KeyOrder.{record_below};

    ghost order = { λ it. record_below it.columns };

    fn is_before(&self, first: &[u8], second: &[u8]) -> bool {
        is_below(self.columns, Fields::new(first), Fields::new(second))
    }
}
