//! The conversion of tile sets to archives.
#![tactic(auto)]

mod adds;
mod conversion;
mod error;
mod loading;
mod options;
mod owned;
mod patching;
mod reading_back;
mod report;
mod resolving;
mod writing;

pub use conversion::convert;
pub use error::ConvertError;
pub use loading::{load_at, of_store};
pub use options::{ArchiveOptions, ConvertOptions};
pub use owned::convert_owned;
pub use reading_back::read_answers;
pub use report::{Answers, ConvertReport};
