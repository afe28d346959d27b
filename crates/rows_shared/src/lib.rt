//! What the programs of rows share: the words of a line, the text of its answer, and the loop over the lines;
//! for those over archives a backend that counts its calls and a medium that tells nothing.
#![tactic(auto)]

mod counted;
mod mute;
mod running;
mod words;

pub use counted::Counted;
pub use mute::{Mode, Mute};
pub use running::{Rows, run};
pub use words::{Words, bytes, number, owned, said, say, say_bytes, say_text, text, texts};
