// Archives that are made of others, beside the place where they are wanted.
use crate::TOOL;
use crate::reading::{FileKind, kind_of};
use pm_format::status;
use program_words::{Taken, are_one_file, take_beside, take_over};

/// What is written, and how.
#[derive(Clone, Copy)]
pub struct Wanted<'a> {
    /// The path.
    pub to: &'a str,
    /// The most tiles that it may have.
    pub max_tiles: u64,
    /// Whether it replaces what is there.
    pub overwrite: bool,
}

/// Makes the file beside the archive's place.
pub fn take(rt: &HostRuntime, wanted: Wanted<'_>) -> Taken {
    if wanted.overwrite {
        take_over(rt, TOOL, wanted.to)
    } else {
        take_beside(rt, TOOL, wanted.to)
    }
}

/// The status that a source is refused with, of which standard error says the cause: it has to be an archive, and
/// another file than the one that is written.
pub fn source_status_for(rt: &HostRuntime, from: &str, to: &str) -> u8 {
    match kind_of(rt, from) {
        Ok(FileKind::Archive) => {}
        Ok(FileKind::Set) => {
            let _ = eprintln!(rt;
                "{TOOL}: {from} is a set; fatyngu convert makes an archive of it"
            );
            return status::REFUSED;
        }
        Err(status) => return status,
    }
    if are_one_file(rt, from, to) {
        let _ = eprintln!(rt;
            "{TOOL}: {from} and {to} are one file; give another name for the new archive"
        );
        return status::REFUSED;
    }
    status::DONE
}
