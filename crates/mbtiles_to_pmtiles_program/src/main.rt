//! Converts the sets of map tiles that the words of the command line name to an archive.
#![tactic(auto)]

mod converting;
mod left_out;
mod paged;
mod reading;
mod saying;

use base_values::TextVal;
use converting::convert_files;
use program_words::{hold_streams, print, say_out_of_memory, say_output_fault, words_to_run};
use set_conversion::{ConversionOutcome, asked_of, conversion_status, conversion_text};
use std::process::ExitCode;

const HELP: &str = "Makes an archive of the PMTiles format of a set of map tiles in an MBTiles
file, and of patches to it.

usage: mbtiles-to-pmtiles [--force] [--verify] [--hash] [--overwrite] [--strict]
                          [--part Z X Y | --ids FIRST LAST]
                          BASE.mbtiles [PATCH.mbtiles ..] OUT.pmtiles

Patches are put on the base in their order; no set's file is changed. Type and
label of the tiles, zooms, bounds, center and metadata are those that the set
says to which they come. OUT is written beside its place, as OUT.new, and put
there once it is whole. Lines at the end say how many tiles and different contents
OUT has, its bytes, and, where it was made, the aggregate hash of its tiles. On a
terminal each step is told.

The base takes some 100 bytes of memory a tile, whatever its tiles weigh, and one
with a table of its own for contents holds their ids too; patches are held in
memory, and so is a base whose file isn't understood page by page.

--force      takes patches without the hashes that chain them; without it each
             has to name the aggregate hash of the set that it is for, and
             that of what comes of it
--verify     asks for the aggregate hash of what is converted, which has to be
             stored and right; hashes of single tiles are always tested
--hash       prints the aggregate hash of the tiles, which is also made where it is
             verified, and where there are patches
--part       converts only a tile, by its zoom, column and row (counted from the
             top), and all tiles below it
--ids        converts only the tiles whose ids lie from FIRST to LAST, both of
             which belong to them
--overwrite  replaces OUT where it is there; without it that is refused
--strict     refuses a set of which rows of tiles or metadata would be left out
--           what follows are files, also where they begin with a dash
--help, -h   prints this text
--version    prints the version

Flags may stand anywhere in front of --. A part is read and tested with its whole
set, and says of itself what the whole archive says: where each tile lies in one
of some parts, joining their archives gives that of the whole set. The hash of a
part is that of all tiles, and is made only with --hash or --verify.

status: 0 done, 1 refused, 2 no command, 3 no such file or no set, 4 a set's
file can't be read, 5 the lines can't be written, 6 OUT can't be written, 7 out
of memory, 9 read back, 10 a set's file is in a form that isn't read here
";

const USAGE: &str =
    "usage: mbtiles-to-pmtiles [--force] [--verify] [--hash] [--overwrite] [--strict] [--part Z X Y | --ids FIRST LAST] BASE.mbtiles [PATCH.mbtiles ..] OUT.pmtiles
";

const VERSION: &str = "mbtiles-to-pmtiles 0.1.0\n";

/// The name before what is said on standard error.
pub const TOOL: &str = "mbtiles-to-pmtiles";

// Prints the text of an outcome. Where it finds no memory, or can't be written, that is the outcome.
fn tell(rt: &HostRuntime, outcome: ConversionOutcome) -> ConversionOutcome {
    let Ok(text) = conversion_text(rt.alloc(), &outcome) else {
        say_out_of_memory(rt, TOOL);
        return ConversionOutcome::OutOfMemory;
    };
    if text.as_str().is_empty() || print(rt, text.as_str()) {
        return outcome;
    }
    say_output_fault(rt, TOOL);
    ConversionOutcome::OutputFault
}

// Converts what the words ask for.
fn convert_words(rt: &HostRuntime, words: &[TextVal]) -> ConversionOutcome {
    match asked_of(rt.alloc(), words) {
        Ok(Some((flags, files))) => convert_files(rt, flags, files.as_slice()),
        Ok(None) => {
            let _ = eprint!(rt; "{TOOL}: {USAGE}");
            ConversionOutcome::Usage
        }
        Err(_) => {
            say_out_of_memory(rt, TOOL);
            ConversionOutcome::OutOfMemory
        }
    }
}

fn main(rt: HostRuntime) -> ExitCode {
    let _streams = hold_streams(&rt);
    ExitCode::from(match words_to_run(&rt, TOOL, HELP, VERSION) {
        Ok(words) => conversion_status(&tell(&rt, convert_words(&rt, words.as_slice()))),
        Err(status) => status,
    })
}
