//! The lines of an input, the words of a line, and the numbers that words spell.
#![tactic(auto)]

mod lines;
mod number;
mod parting;

pub use lines::{next_line, next_whole_line};
pub use number::{parse_integer, parse_number};
pub use parting::{
    first_separator, first_word, four_words, is_word, one_word, three_words, two_words,
};
