// Database files that are made beside their place, and put there once they are whole.
use crate::TOOL;
use crate::filling::{Edit, ROLLED_BACK, Unfilled, fill, is_of_memory};
use crate::saying::{out_of_memory, refused};
use base_values::TextVal;
use mb_store::MbtType;
use pm_format::status;
use program_words::{
    Beside, Put, Taken, put_beside, put_over, remove_beside, remove_made, take_beside,
};
use sqlite::{Error, ErrorCode};
use std::fs;

// Says why the file beside a path wasn't filled.
fn say_unfilled(rt: &HostRuntime, path: &str, is_new: bool, error: &Unfilled) -> u8 {
    if is_of_memory(error) {
        return out_of_memory(rt);
    }
    match error {
        Unfilled::Set(error) => refused(rt, path, error),
        Unfilled::Database(Error::SqliteFailure(ErrorCode::DiskFull)) => {
            let _ = eprintln!(rt; "{TOOL}: {path}: the file can't be written: the disk is full");
            status::FAULT
        }
        Unfilled::Database(error) if !is_new => {
            let _ = eprintln!(rt;
                "{TOOL}: {path} is a database of a form that isn't written here, or the disk is full ({error}); fatyngu copy makes a plain set of it"
            );
            status::OTHER_FORM
        }
        Unfilled::Database(error) => {
            let _ = eprintln!(rt; "{TOOL}: {path}: the file can't be written: {error}");
            status::FAULT
        }
        Unfilled::File(error) => {
            let _ = eprintln!(rt; "{TOOL}: {path}: the file can't be written: {error}");
            status::FAULT
        }
    }
}

/// Removes the log beside a database. Standard error says where it can't be removed.
pub fn remove_log(rt: &HostRuntime, path: &str) {
    match format!(in rt.alloc(); "{path}-wal") {
        Ok(log) => remove_made(rt, TOOL, log.as_str()),
        Err(_) => {
            let _ = eprintln!(rt; "{TOOL}: {path}-wal: out of memory; it may be there still");
        }
    }
}

/// Puts a file that is whole at its path, in the place of what is there or where nothing is; the status, of which
/// standard error says the cause.
pub fn put(rt: &HostRuntime, beside: &Beside, path: &str, is_new: bool) -> u8 {
    let put = if is_new {
        put_beside(rt, TOOL, beside, path)
    } else {
        put_over(rt, TOOL, beside, path)
    };
    match put {
        Put::Done => status::DONE,
        Put::There => status::REFUSED,
        Put::Failed => status::FAULT,
    }
}

/// Puts a database that was filled at its path, or says why it wasn't filled. The file beside the path is gone in the
/// end.
pub fn finish(
    rt: &HostRuntime,
    beside: &Beside,
    path: &str,
    is_new: bool,
    filled: Result<TextVal, Unfilled>,
) -> Result<TextVal, u8> {
    let answer = match filled {
        Ok(hash) => match put(rt, beside, path, is_new) {
            status::DONE => Ok(hash),
            status => Err(status),
        },
        Err(error) => Err(say_unfilled(rt, path, is_new, &error)),
    };
    remove_log(rt, beside.path());
    remove_beside(rt, TOOL, beside);
    answer
}

/// Whether a file stands beside the place of a database by whose name SQLite would take it for its log or its
/// journal; refused where it does, but for an empty
/// one. Standard error says so.
pub fn log_status(rt: &HostRuntime, path: &str, end: &str) -> u8 {
    let Ok(log) = format!(in rt.alloc(); "{path}{end}") else {
        return out_of_memory(rt);
    };
    match fs::symlink_metadata(rt, log.as_str()) {
        Ok(found) if !found.is_file() || found.len() > 0 => {
            let _ = eprintln!(rt;
                "{TOOL}: {log} is there: a program has the database open, or was cut off; end it, or have sqlite3 do 'pragma wal_checkpoint(truncate)' in it"
            );
            status::REFUSED
        }
        _ => status::DONE,
    }
}

// Makes a set at a path beside which no log stands.
fn make_at(rt: &HostRuntime, path: &str, layout: MbtType, edit: Edit) -> u8 {
    match take_beside(rt, TOOL, path) {
        Taken::Made(beside) => {
            // the log of a run that was stopped, whose database is gone
            remove_log(rt, beside.path());
            let filled = fill(rt, beside.path(), layout, edit, ROLLED_BACK);
            match finish(rt, &beside, path, true, filled) {
                Ok(_) => status::DONE,
                Err(status) => status,
            }
        }
        Taken::There => status::REFUSED,
        Taken::Failed => status::FAULT,
    }
}

/// Makes a new set of a layout at a path where nothing is, and does an edit to it.
pub fn make_set(rt: &HostRuntime, path: &str, layout: MbtType, edit: Edit) -> u8 {
    match log_status(rt, path, "-wal") {
        status::DONE => {}
        status => return status,
    }
    match log_status(rt, path, "-journal") {
        status::DONE => make_at(rt, path, layout, edit),
        status => status,
    }
}
