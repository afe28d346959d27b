// The check of what an archive's header says.
use crate::TOOL;
use crate::saying::out_of_memory;
use base_values::{OutOfMemory, TextVal};
use pm_format::status;
use program_words::{open_archive, print_for, say_source_fault, say_unwritten};
use tile_header_check::{HeaderError, HeaderFault, check_header, fault_line};
use tile_verify::{VerifyError, VerifyOutcome, verify_line, verify_status};

// Prints a line that was made, if memory was there for it.
fn print_line(rt: &HostRuntime, line: Result<TextVal, OutOfMemory>, status: u8) -> u8 {
    match line {
        Ok(line) => say_unwritten(rt, TOOL, print_for(rt, line.as_str(), status)),
        Err(_) => out_of_memory(rt),
    }
}

// Tells what the header says wrong.
fn say_wrong(rt: &HostRuntime, path: &str, fault: &HeaderFault) -> u8 {
    let _ = eprintln!(rt; "{TOOL}: {path}: the header is wrong: {fault}");
    print_line(rt, fault_line(rt.alloc(), fault), status::REFUSED)
}

// Tells why the archive isn't told to be sound, by the line of tile_verify.
fn say_unsound(rt: &HostRuntime, path: &str, error: VerifyError) -> u8 {
    if matches!(error, VerifyError::OutOfMemory) {
        return out_of_memory(rt);
    }
    let _ = eprintln!(rt; "{TOOL}: {path}: {error}");
    let outcome = VerifyOutcome::Refused(error);
    print_line(
        rt,
        verify_line(rt.alloc(), &outcome),
        verify_status(&outcome),
    )
}

/// Tests what the header of an archive says. Nothing is printed where all of it is so.
pub fn check(rt: &HostRuntime, path: &str) -> u8 {
    let Some(mut source) = open_archive(rt, path) else {
        say_source_fault(rt, TOOL, path);
        return status::FAULT;
    };
    match check_header(rt.alloc(), &mut source) {
        Ok(_) => status::DONE,
        Err(HeaderError::Header(fault)) => say_wrong(rt, path, &fault),
        Err(HeaderError::Unsound(error)) => say_unsound(rt, path, error),
    }
}
