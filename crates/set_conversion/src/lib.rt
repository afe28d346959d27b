//! The options of a conversion that its set says of itself, and how a conversion is asked for and told.
#![tactic(auto)]

mod outcome;
mod outcome_text;
mod part;
mod part_words;
mod said_options;
mod words;

pub use outcome::{ConversionOutcome, conversion_status};
pub use outcome_text::conversion_text;
pub use part::{SetPart, part_intervals};
pub use said_options::OptionsOfSet;
pub use words::{ConversionFlags, asked_of};
