//! The metadata of a tile set: what it says of itself, how that is written, and between which zooms its tiles lie.
#![tactic(auto)]

mod clamping;
mod document_text;
mod inserting;
mod json_object;
pub mod laws;
mod layer_json;
mod metadata;
mod name_edits;
mod others;
mod reading;
mod said;
mod said_json;
mod updating;
mod values;
mod whole_documents;
mod zoom_choice;
mod zoom_text;
mod zooms;

pub use inserting::{insert_metadata, with_document};
pub use layer_json::layers_value;
pub use metadata::Metadata;
pub use reading::get_metadata;
pub use updating::{update_metadata, with_zooms};
pub use values::{
    delete_metadata_value, get_metadata_value, get_metadata_zoom_value, set_metadata_value,
};
pub use whole_documents::is_without_float;
pub use zoom_choice::UpdateZoomType;
pub use zoom_text::zoom_of;
pub use zooms::compute_min_max_zoom;
