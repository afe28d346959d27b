//! What turns words and bytes into a script: commands, lines and their cells, options, the base and the patches with
//! their rows, queries, and the set of `bulk`.
#![tactic(auto)]

mod bulk;
mod layout;
mod leaf_entries;
mod script;
mod section;
mod words;

pub use bulk::bulk_base;
pub use script::{ParsedScript, ScriptError, ScriptOptions, ScriptReader, parse_script};
pub use words::{Command, MAX_BULK_REPEAT, MAX_BULK_TILES, command_of};
