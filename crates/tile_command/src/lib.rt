//! The command line of `fatyngu`, and what its subcommands print.
#![tactic(auto)]

mod asked;
mod boxes;
mod choices;
mod copier;
mod document_text;
mod header_lines;
mod layout;
mod status;
mod subcommand;
mod summary_lines;
mod words;

pub use asked::Asked;
pub use boxes::{boxes_of, is_outlined_within};
pub use choices::{agg_hash_of, max_tiles_of, scheme_of};
pub use copier::copier_of;
pub use document_text::{names_text, tilejson_text};
pub use header_lines::header_text;
pub use layout::layout_for;
pub use status::{join_status, part_status, read_status, set_status, source_status};
pub use subcommand::{Subcommand, subcommand_of};
pub use summary_lines::summary_text;
pub use words::asked_of;
