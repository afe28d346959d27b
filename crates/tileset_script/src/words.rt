// The words of a command line.
ghost use Rattle.std.specs.Prelude.{◌≡◌, IfSome};
ghost use Rattle.tileset_script.specs.LeafEntries.{IsLeafEntries};
ghost use Rattle.tileset_script.specs.Words.{IsCommand, bulk_command, command};

use crate::leaf_entries::parse_leaf_entries;
use base_values::TextVal;
use line_words::parse_number;

/// The greatest number of tiles of `bulk`.
pub const MAX_BULK_TILES: u64 = 100_000;

/// The greatest number of ids with the same contents of `bulk`.
pub const MAX_BULK_REPEAT: u64 = 1_000_000;

/// What the words ask for.
#[derive(Clone, Copy, Debug, PartialEq, Eq)]
pub enum Command {
    /// `convert hex`: the script is the input, and the archive is printed in hexadecimal.
    ConvertHex,
    /// `convert file PATH`: the script is the input, and the archive is what the medium holds. The path
    /// is its caller's to open.
    ConvertFile,
    /// `bulk N K`, `bulk N K L`: the set is made from two numbers, and where the parts of its archive lie is printed.
    Bulk {
        /// How many tiles there are, those of the first ids: 0 to 100,000.
        tiles: u64,
        /// How many ids that follow each other have the same contents: 1 to 1,000,000.
        repeat: u64,
        /// How many entries a directory of tile entries below the root may have, where that is said: 16 to 65,536.
        leaf_entries: Option<u32>,
    },
}

/// The command that words are, if they are one.
pub fn command_of(words: &[TextVal]) -> Option<Command>
    ensures value { result ≡ command words.now }
    ensures within { IfSome result IsCommand }
{
    match words {
        [first, second] if first.as_str() == "convert" && second.as_str() == "hex" => {
            Some(Command::ConvertHex)
        }
        [first, tiles, repeat] if first.as_str() == "bulk" => bulk_command(tiles, repeat, None),
        [first, tiles, repeat, leaf] if first.as_str() == "bulk" => {
            let leaf = parse_leaf_entries(leaf.as_str().as_bytes())?;
            bulk_command(tiles, repeat, Some(leaf))
        }
        [first, second, _] if first.as_str() == "convert" && second.as_str() == "file" => {
            Some(Command::ConvertFile)
        }
        _ => None,
    }
}

// The command of two numbers, and maybe of how many entries a leaf may have.
fn bulk_command(tiles: &TextVal, repeat: &TextVal, leaf_entries: Option<u32>) -> Option<Command>
    requires { IfSome leaf_entries IsLeafEntries }
    ensures value { result ≡ bulk_command tiles.now repeat.now leaf_entries }
    ensures within { IfSome result IsCommand }
{
    let tiles = parse_number(tiles.as_str().as_bytes(), MAX_BULK_TILES)?;
    let repeat = parse_number(repeat.as_str().as_bytes(), MAX_BULK_REPEAT)?;
    if repeat == 0 {
        return None;
    }
    Some(Command::Bulk {
        tiles,
        repeat,
        leaf_entries,
    })
}
