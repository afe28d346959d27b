// How what a header says wrong is shown: a line.
ghost use Rattle.std.specs.Prelude.{◌≡◌, IfOk};
ghost use Rattle.tile_header_check.specs.FaultText.{fault_line, metadata_name};

use crate::{HeaderFault, MetadataFault};
use base_values::{OutOfMemory, TextVal};
use std::alloc::Global;

/// The line that tells what a header says wrong, ended by a line feed.
pub fn fault_line(alloc: Global, fault: &HeaderFault) -> Result<TextVal, OutOfMemory>
    ensures { IfOk result (λ text. text ≡ fault_line fault.now) }
{
    Ok(TextVal::new(match *fault {
        HeaderFault::AddressedTiles { stated, found } => {
            format!(in alloc; "header addressed tiles {stated}, found {found}\n")?
        }
        HeaderFault::TileEntries { stated, found } => {
            format!(in alloc; "header tile entries {stated}, found {found}\n")?
        }
        HeaderFault::TileContents { stated, found } => {
            format!(in alloc; "header tile contents {stated}, found {found}\n")?
        }
        HeaderFault::MinZoom { stated, found } => {
            format!(in alloc; "header min zoom {stated}, found {found}\n")?
        }
        HeaderFault::MaxZoom { stated, found } => {
            format!(in alloc; "header max zoom {stated}, found {found}\n")?
        }
        HeaderFault::Clustered { entry, due, found } => {
            format!(in alloc; "header clustered, tile entry {entry} at {found} and not at {due}\n")?
        }
        HeaderFault::Metadata(fault) => {
            let name = name_of(fault);
            format!(in alloc; "header metadata {name}\n")?
        }
    }))
}

fn name_of(fault: MetadataFault) -> &'static str
    ensures { result.now ≡ metadata_name fault }
{
    match fault {
        MetadataFault::PastEnd => "PastEnd",
        MetadataFault::NotUtf8 => "NotUtf8",
        MetadataFault::NotJson => "NotJson",
        MetadataFault::NotAnObject => "NotAnObject",
    }
}
