// The values of an answer that a set has columns for.
ghost use Rattle.std.specs.Prelude.{◌≡◌};
ghost use Rattle.mb_reading.specs.Answer.{SameAnswer, answer_row};
ghost use Rattle.mb_reading.specs.Common.{column, owned};

use sqlite::types::ValueRef;

/// The values of a row of a table, in the order of its set's columns.
#[derive(Clone, Copy, Debug)]
pub struct Answer<'a> {
    /// The first.
    pub first: ValueRef<'a>,
    /// The second.
    pub second: ValueRef<'a>,
    /// The third.
    pub third: ValueRef<'a>,
    /// The fourth, null where the set has no such column.
    pub fourth: ValueRef<'a>,
    /// The fifth, null where the set has no such column.
    pub fifth: ValueRef<'a>,
}

// The value of an answer in a column, null behind its last one.
#[tactic(auto, using(crate::proofs::MasterLemmas::past_end))]
fn value_at(answer: &sqlite::Row, at: usize) -> ValueRef<'_>
    ensures { owned result ≡ column answer.now at }
{
    match answer.get_ref(at) {
        Ok(value) => value,
        Err(_) => ValueRef::Null,
    }
}

// The values of an answer.
pub(crate) fn answer_of(answer: &sqlite::Row) -> Answer<'_>
    ensures { SameAnswer (answer_row result) answer.now }
{
    Answer {
        first: value_at(answer, 0),
        second: value_at(answer, 1),
        third: value_at(answer, 2),
        fourth: value_at(answer, 3),
        fifth: value_at(answer, 4),
    }
}
