//! Makes a database of the archive that the words of the command line name.
#![tactic(auto)]

use base_values::TextVal;
use mb_sqlite::SqliteStore;
use mb_store::{MbtError, MbtType};
use pm_format::{FileBackend, PmtError, ReadCause, status};
use program_words::{
    Beside, Put, SourceFile, Taken, hold_streams, print_for, put_beside, remove_beside,
    remove_made, say_beside_fault, say_opening, say_out_of_memory, say_unwritten, source_file,
    take_beside, tell_source_fault, words_to_run,
};
use set_import::{import_status, import_streamed, limit_of};
use sqlite::{Connection, Error, ErrorCode};
use std::fs::File;
use std::io::{Seek, SeekFrom, Write};
use std::process::ExitCode;
use std::{fs, io};
use tile_import::ImportError;

const HELP: &str = "Makes MBTiles databases of archives of the PMTiles format.

usage: pmtiles-to-mbtiles IN.pmtiles OUT.mbtiles [MAX_TILES]

pmtiles-to-mbtiles IN.pmtiles OUT.mbtiles [MAX_TILES]
                writes to the new file OUT.mbtiles the flat set of the tiles
                of the archive IN.pmtiles, of which there are MAX_TILES at
                most, 10000000 where it isn't said. They are written some at
                a time: in memory are the directories' entries of the archive
                and the tiles of one step, and not all tiles. Its metadata
                is what the archive says of itself: format, bounds, center,
                minzoom and maxzoom by its header, texts of its metadata
                under their names, and all else of it under json. Tiles are
                copied as they are, be they compressed or not. The file
                IN.pmtiles isn't changed. Nothing is printed where both
                files can be opened. OUT.mbtiles is
                made as OUT.mbtiles.new, beside which OUT.mbtiles.new-wal
                stands meanwhile, and put in place when it is whole and
                synced. One that is there is refused. A run that ends with
                another status than 0 leaves none of these; one that is
                killed may leave OUT.mbtiles.new, which the next one makes
                anew
source fault    the file IN.pmtiles can't be opened
store fault     the file OUT.mbtiles can't be made
--help, -h      prints this text
--version       prints the version

status: 0 done, 1 refused, 2 no command, 3 no such file, 4 IN.pmtiles can't be
read, 5 the text can't be written, 6 OUT.mbtiles can't be made or written, 7 out
of memory
";

const USAGE: &str = "usage: pmtiles-to-mbtiles IN.pmtiles OUT.mbtiles [MAX_TILES]
";

const VERSION: &str = "pmtiles-to-mbtiles 0.1.0\n";

const TOOL: &str = "pmtiles-to-mbtiles";

fn store_fault() -> ImportError {
    ImportError::Store(MbtError::StoreFault)
}

// The import's word for an error of the database.
fn of_database(error: Error) -> ImportError {
    match error {
        Error::SqliteFailure(ErrorCode::OutOfMemory) => ImportError::OutOfMemory,
        _ => store_fault(),
    }
}

// Says in the header of a closed database that it has no log (SQLite's file format, bytes 18 and 19), so that it is
// read where nothing can be written.
fn leave_log(rt: &HostRuntime, path: &str) -> io::Result<()> {
    let mut file = File::options().read(true).write(true).open(rt, path)?;
    file.seek(SeekFrom::Start(18))?;
    file.write_all(&[1, 1])?;
    file.sync_all()
}

// Fills a new database, and copies its log into it.
fn fill(
    rt: &HostRuntime,
    source: &mut FileBackend,
    path: &str,
    limit: u64,
) -> Result<u64, ImportError> {
    let connection = match Connection::open(rt, path) {
        Ok(connection) => connection,
        Err(error) => return Err(of_database(error)),
    };
    let mut store = SqliteStore::adopt(rt.alloc(), connection, MbtType::Flat);
    let count = import_streamed(rt.alloc(), source, &mut store, limit)?;
    if let Err(error) = store.into_connection().close() {
        return Err(of_database(error));
    }
    match leave_log(rt, path) {
        Ok(()) => Ok(count),
        Err(_) => Err(store_fault()),
    }
}

// The file of the log beside a database.
fn remove_log(rt: &HostRuntime, beside: &str) {
    match format!(in rt.alloc(); "{beside}-wal") {
        Ok(log) => remove_made(rt, TOOL, log.as_str()),
        Err(_) => {
            let _ = eprintln!(rt; "{TOOL}: {beside}-wal: out of memory; it may be there still");
        }
    }
}

// Puts a whole database in its place.
fn put(rt: &HostRuntime, beside: &Beside, to: &str) -> u8 {
    match put_beside(rt, TOOL, beside, to) {
        Put::Done => status::DONE,
        Put::There => status::REFUSED,
        Put::Failed => status::FAULT,
    }
}

// Fills a database beside its place, and puts it there, or removes it.
fn make(
    rt: &HostRuntime,
    source: &mut FileBackend,
    (from, to): (&str, &str),
    beside: &Beside,
    limit: u64,
) -> u8 {
    // the log of a run that was stopped, whose database is gone
    remove_log(rt, beside.path());
    let answer = fill(rt, source, beside.path(), limit);
    if let Err(error) = &answer {
        say_refusal(rt, (from, to), beside.path(), error);
    }
    remove_log(rt, beside.path());
    let status = match status_of_answer(&answer) {
        status::DONE => put(rt, beside, to),
        status => status,
    };
    if status != status::DONE {
        remove_beside(rt, TOOL, beside);
    }
    status
}

// The status of an import; that of a fault of the source is its own.
fn status_of_answer(answer: &Result<u64, ImportError>) -> u8 {
    match answer {
        Err(ImportError::Archive(PmtError::Reading(ReadCause::Fault))) => status::INPUT_FAULT,
        other => import_status(other),
    }
}

fn say_refusal(rt: &HostRuntime, (from, to): (&str, &str), beside: &str, error: &ImportError) {
    let _ = match error {
        ImportError::Archive(error) => return say_opening(rt, TOOL, from, error),
        ImportError::Store(MbtError::StoreFault) => {
            return say_beside_fault(rt, TOOL, to, beside);
        }
        ImportError::Store(error) => eprintln!(rt; "{TOOL}: {to}: {error}"),
        ImportError::TooManyTiles(limit) => {
            eprintln!(rt;
                "{TOOL}: {from}: the archive has more than {limit} tiles; give a greater number behind the files"
            )
        }
        ImportError::OutOfMemory => return say_out_of_memory(rt, TOOL),
        other => eprintln!(rt; "{TOOL}: {from}: {other}"),
    };
}

// Whether a file stands beside the place of a database by whose name SQLite would take it for its log; 1 where it does.
fn log_status(rt: &HostRuntime, to: &str, end: &str) -> u8 {
    let Ok(path) = format!(in rt.alloc(); "{to}{end}") else {
        say_out_of_memory(rt, TOOL);
        return status::OUT_OF_MEMORY;
    };
    match fs::symlink_metadata(rt, path.as_str()) {
        Ok(_) => {
            let _ = eprintln!(rt;
                "{TOOL}: {path} is there, the log of another database; remove it, or give another name"
            );
            status::REFUSED
        }
        Err(_) => status::DONE,
    }
}

// The same of both kinds of log.
fn logs_status(rt: &HostRuntime, to: &str) -> u8 {
    match log_status(rt, to, "-wal") {
        status::DONE => log_status(rt, to, "-journal"),
        status => status,
    }
}

// Makes a database of an archive at a place beside which no log stands.
fn make_at(rt: &HostRuntime, source: &mut FileBackend, from: &str, to: &str, limit: u64) -> u8 {
    match take_beside(rt, TOOL, to) {
        Taken::Made(beside) => make(rt, source, (from, to), &beside, limit),
        Taken::There => status::REFUSED,
        Taken::Failed => say_unwritten(rt, TOOL, print_for(rt, "store fault\n", status::FAULT)),
    }
}

// Makes a database of an archive, which is opened first.
fn convert(rt: &HostRuntime, from: &str, to: &str, limit: u64) -> u8 {
    match source_file(rt, from) {
        SourceFile::Readable => {}
        SourceFile::Missing => return tell_source_fault(rt, TOOL, from, status::NO_INPUT),
        SourceFile::Unreadable => return tell_source_fault(rt, TOOL, from, status::INPUT_FAULT),
    }
    let Ok(mut source) = FileBackend::open(rt, from) else {
        return tell_source_fault(rt, TOOL, from, status::INPUT_FAULT);
    };
    match logs_status(rt, to) {
        status::DONE => make_at(rt, &mut source, from, to, limit),
        status => status,
    }
}

fn usage(rt: &HostRuntime) -> u8 {
    let _ = eprint!(rt; "{TOOL}: {USAGE}");
    status::USAGE
}

// For words that are no command nothing is opened.
fn run_words(rt: &HostRuntime, words: &[TextVal]) -> u8 {
    let [from, to, rest @ ..] = words else {
        return usage(rt);
    };
    match limit_of(rest) {
        Some(limit) => convert(rt, from.as_str(), to.as_str(), limit),
        None => usage(rt),
    }
}

fn main(rt: HostRuntime) -> ExitCode {
    let _streams = hold_streams(&rt);
    ExitCode::from(match words_to_run(&rt, TOOL, HELP, VERSION) {
        Ok(words) => run_words(&rt, words.as_slice()),
        Err(status) => status,
    })
}
