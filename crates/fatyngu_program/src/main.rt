//! Runs the subcommand that the words of the command line name.
#![tactic(auto)]

mod beside;
mod checking;
mod copying;
mod editing;
mod extracting;
mod filling;
mod help;
mod joining;
mod looking;
mod reading;
mod saying;
mod serving;
mod showing;
mod trees;
mod wanted;

use base_values::TextVal;
use help::help_of;
use pm_format::status;
use program_words::{hold_streams, words_to_run};
use saying::{out_of_memory, printed, usage};
use std::process::ExitCode;
use tile_command::{Asked, Subcommand, asked_of, subcommand_of};

const HELP: &str = "Works on archives of the PMTiles format and on MBTiles files.

usage: fatyngu SUBCOMMAND WORDS

show FILE             what an archive says of itself, or counts of a set's tiles
tile FILE Z X Y       the bytes of a tile
summary SET           counts and sizes of a set's tiles, by zooms
validate SET          tests a set and its hashes
hash SET              the hash of all tiles
serve FILE            answers requests for an archive's tiles, a line each
header FILE           tests what an archive's header says
meta get SET NAME     the text under a name of the metadata
meta set SET NAME [VALUE]
meta all SET          all names and their texts
extract IN OUT BOX .. the archive of the tiles that one has in boxes
join IN .. OUT        the archive of several, the later ones over the earlier
copy SRC DST          copies a set
patch BASE PATCH      puts a patch on a set
pack FOLDER OUT       makes a set of files z/x/y.extension
unpack SET FOLDER     writes such files

fatyngu SUBCOMMAND --help tells more of each. Words behind -- are no options.

A file that is changed or made is written beside its place, as FILE.new, and
put there once it is whole and synced: at any time it is the old or the new one.

status: 0 done, 1 refused, 2 no command, 3 no such file or no set, 4 a file
can't be read, 5 standard output can't be written, 6 a file can't be written, 7
out of memory, 10 a set's file is in a form that isn't read or written here
";

const VERSION: &str = "fatyngu 0.1.0\n";

/// The name before what is said on standard error.
pub const TOOL: &str = "fatyngu";

// The subcommands that make a file, or write into one.
fn run_making(rt: &HostRuntime, subcommand: Subcommand, asked: &Asked) -> u8 {
    match subcommand {
        Subcommand::Copy => copying::copy(rt, asked),
        Subcommand::Patch => editing::patch(rt, asked),
        Subcommand::Pack => trees::pack_folder(rt, asked),
        Subcommand::Unpack => trees::unpack_set(rt, asked),
        Subcommand::Extract => extracting::extract(rt, asked),
        Subcommand::Join => joining::join_archives(rt, asked),
        Subcommand::MetaSet => editing::set(rt, asked),
        _ => status::USAGE,
    }
}

// All of them.
fn run(rt: &HostRuntime, subcommand: Subcommand, asked: &Asked) -> u8 {
    match subcommand {
        Subcommand::Show => showing::show(rt, asked),
        Subcommand::Tile => looking::tile(rt, asked),
        Subcommand::Summary => looking::summarise(rt, asked.word(0)),
        Subcommand::Validate => looking::check(rt, asked),
        Subcommand::Hash => looking::hash(rt, asked),
        Subcommand::MetaGet => looking::get(rt, asked.word(0), asked.word(1)),
        Subcommand::MetaAll => looking::all(rt, asked.word(0)),
        Subcommand::Serve => serving::serve(rt, asked),
        Subcommand::Header => checking::check(rt, asked.word(0)),
        _ => run_making(rt, subcommand, asked),
    }
}

// Whether words ask for the text of a subcommand.
fn asks_help(words: &[TextVal]) -> bool {
    match words {
        [word] => matches!(word.as_str(), "--help" | "-h"),
        _ => false,
    }
}

// Runs a subcommand by the words behind it.
fn run_with(rt: &HostRuntime, subcommand: Subcommand, words: &[TextVal]) -> u8 {
    if asks_help(words) {
        return printed(rt, help_of(subcommand));
    }
    match asked_of(rt.alloc(), subcommand, words) {
        Ok(Some(asked)) => run(rt, subcommand, &asked),
        Ok(None) => usage(rt, subcommand),
        Err(_) => out_of_memory(rt),
    }
}

fn run_words(rt: &HostRuntime, words: &[TextVal]) -> u8 {
    if let Some((subcommand, rest)) = subcommand_of(words) {
        return run_with(rt, subcommand, rest);
    }
    let _ = eprintln!(rt; "{TOOL}: these words are no command; {TOOL} --help tells all");
    status::USAGE
}

fn main(rt: HostRuntime) -> ExitCode {
    let _streams = hold_streams(&rt);
    ExitCode::from(match words_to_run(&rt, TOOL, HELP, VERSION) {
        Ok(words) => run_words(&rt, words.as_slice()),
        Err(status) => status,
    })
}
