// What programs say on standard error. Where that can't be written, nothing is said.
use crate::print_for;
use pm_format::{PmtError, ReadCause, status};
use std::fs;
use std::fs::File;

/// Says why a file can't be opened or read. What is no regular file isn't opened, since that may
/// wait for another program.
pub fn say_source_fault(rt: &HostRuntime, tool: &str, path: &str) {
    let opened = match fs::metadata(rt, path) {
        Ok(found) if !found.is_file() => {
            let _ = eprintln!(rt; "{tool}: {path}: no regular file");
            return;
        }
        Ok(_) => File::open(rt, path),
        Err(error) => Err(error),
    };
    let _ = match opened {
        Err(error) => eprintln!(rt; "{tool}: {path}: {error}"),
        Ok(_) => eprintln!(rt; "{tool}: {path}: the file can't be read"),
    };
}

/// Says why an archive can't be opened or read, prints `source fault`, and gives the status.
pub fn tell_source_fault(rt: &HostRuntime, tool: &str, path: &str, status: u8) -> u8 {
    say_source_fault(rt, tool, path);
    say_unwritten(rt, tool, print_for(rt, "source fault\n", status))
}

/// Says why a file isn't taken as an archive.
pub fn say_opening(rt: &HostRuntime, tool: &str, path: &str, error: &PmtError) {
    let advice = match error {
        PmtError::Reading(ReadCause::Fault) => return say_source_fault(rt, tool, path),
        PmtError::InvalidMagicNumber | PmtError::InvalidHeader => {
            "; it isn't an archive of the PMTiles format, or isn't whole"
        }
        PmtError::UnsupportedCompression(_) => {
            "; archives whose directories and metadata are plain are read alone, as bin/tileset writes them"
        }
        _ => "",
    };
    let _ = eprintln!(rt; "{tool}: {path}: {error}{advice}");
}

/// Says that the file of an archive has bytes, and isn't written to.
pub fn say_not_empty(rt: &HostRuntime, tool: &str, path: &str, length: u64) {
    let _ = eprintln!(rt;
        "{tool}: {path}: the file has {length} bytes and stays as it is; give the name of a file that is new or empty"
    );
}

/// Says that the file of an archive gave something else back than was written to it.
pub fn say_read_back(rt: &HostRuntime, tool: &str, path: &str, error: &PmtError) {
    let _ = eprintln!(rt;
        "{tool}: {path}: the file gave other bytes back than were written to it: {error}"
    );
}

/// Says that standard input can't be read.
pub fn say_input_fault(rt: &HostRuntime, tool: &str) {
    let _ = eprintln!(rt; "{tool}: standard input can't be read");
}

/// Says that standard output can't be written.
pub fn say_output_fault(rt: &HostRuntime, tool: &str) {
    let _ = eprintln!(rt;
        "{tool}: standard output can't be written: it is closed, nobody reads it, or its disk is full"
    );
}

/// Says that a text can't be written, where that is the status, and gives the status.
pub fn say_unwritten(rt: &HostRuntime, tool: &str, status: u8) -> u8 {
    if status == status::OUTPUT_FAULT {
        say_output_fault(rt, tool);
    }
    status
}

/// Says that the words of the command line are none of the program's.
pub fn say_usage(rt: &HostRuntime, tool: &str) {
    let _ = eprintln!(rt; "{tool}: these words are no command; {tool} --help tells all");
}

/// Says that the words of the command line can't be read, as where one of them isn't text in UTF-8.
pub(crate) fn say_unread_words(rt: &HostRuntime, tool: &str) {
    let _ = eprintln!(rt;
        "{tool}: a word isn't text in UTF-8; give the file a name that is, or a link with such a name"
    );
}

/// Says that memory ran out.
pub fn say_out_of_memory(rt: &HostRuntime, tool: &str) {
    let _ = eprintln!(rt; "{tool}: out of memory; a smaller set needs less");
}
