// The script that the input spells.
ghost use Rattle.std.specs.Prelude.{◌≡◌, Some, IfOk, IfErr, IfSome, OnOk, IsErrOf, map};
ghost use Rattle.std.specs.Option.{option_to_list};
ghost use Rattle.tileset.specs.Common.{bulk_script, IsAtEnd, IsCommand, IsShort, KeepsSource, Rose, script_text, ScriptNeverFails};
ghost use Rattle.tileset_script.specs.LeafEntries.{IsLeafEntries};
ghost use Rattle.tileset.specs.Run.{IsReadFor, IsScriptOf, IsUntaken, LoadCauses, LoadTakes, ScriptCauses, Spells, outcome_of};
ghost use Rattle.tileset.specs.Stands.{InputStands};
ghost use Rattle.tileset_script.specs.Setting.{options_of};
ghost use Rattle.tileset_script.specs.declared.script.setting.Setting.TheVariants.{MaxLeafEntries};
ghost use Rattle.tileset_script.specs.declared.words.Command.TheVariants as commands;

use crate::{Command, Outcome, Source, take_input};
use base_values::OutOfMemory;
use pm_format::TileType;
use pm_writer::PmTilesWriter;
use std::alloc::Global;
use tileset_script::{ParsedScript, ScriptOptions, ScriptReader, bulk_base};

// The script that the input spells, which is read to its end.
fn load<I: Source>(alloc: Global, input: &mut I) -> Result<ParsedScript, Outcome>
    ensures script { IfOk result (λ s. Spells (I.left input.old) (script_text s)) }
    ensures unfailing { IfOk result ScriptNeverFails }
    ensures short { OnOk result (IsShort (I.left input.old)) }
    ensures read { OnOk result (IsAtEnd (I.left input.new)) }
    ensures taken { LoadTakes (I.taken input.old) (I.taken input.new) result }
    ensures causes { IfErr result (LoadCauses (I.left input.old)) }
    ensures fault { IsErrOf result Outcome.InputFault
        → Rose (I.faults input.old) (I.faults input.new) }
    ensures input_kept { KeepsSource I.left I.taken I.faults I.steady input.old input.new }
    ensures input_still { InputStands (I.faults input.old) (I.faults input.new)
        (outcome_of result) }
{
    let mut reader = ScriptReader::new(alloc);
    take_input(input, &mut reader)?;
    Ok(reader.finish()?)
}

// The options of a set that is made from two numbers.
fn bulk_writer(leaf_entries: Option<u32>) -> PmTilesWriter
    requires { IfSome leaf_entries IsLeafEntries }
    ensures { result ≡ (options_of (map MaxLeafEntries (option_to_list leaf_entries))).writer }
{
    let writer = PmTilesWriter::new(TileType::Unknown);
    match leaf_entries {
        Some(entries) => writer.max_leaf_entries(entries),
        None => writer,
    }
}

// The script of two numbers: a set that is made from them, no other option than how many entries a leaf
// may have, and no queries.
fn bulk(
    alloc: Global,
    tiles: u64,
    repeat: u64,
    leaf_entries: Option<u32>,
) -> Result<ParsedScript, OutOfMemory>
    requires within { IsCommand (commands.Bulk tiles repeat leaf_entries) }
    ensures script { IfOk result (λ s. script_text s ≡ bulk_script tiles repeat leaf_entries) }
    ensures unfailing { IfOk result ScriptNeverFails }
{
    Ok(ParsedScript {
        options: ScriptOptions {
            force: false,
            verify: false,
            writer: bulk_writer(leaf_entries),
        },
        base: bulk_base(alloc, tiles, repeat)?,
        patches: Vec::new(alloc),
        queries: Vec::new(alloc),
    })
}

/// The script of a command: the one that the input spells, which is read to its end, or that of two numbers.
pub(crate) fn script_for<I: Source>(
    alloc: Global,
    command: Command,
    input: &mut I,
) -> Result<ParsedScript, Outcome>
    requires within { IsCommand command }
    ensures script { IfOk result (λ s. IsScriptOf command (I.left input.old) (script_text s)) }
    ensures unfailing { IfOk result ScriptNeverFails }
    ensures read { OnOk result (IsReadFor (Some command) (I.left input.new)) }
    ensures untaken { IsUntaken (Some command) (I.left input.old) (I.left input.new)
        (I.taken input.old) (I.taken input.new) (I.faults input.old) (I.faults input.new) }
    ensures taken { LoadTakes (I.taken input.old) (I.taken input.new) result }
    ensures causes { IfErr result (ScriptCauses command (I.left input.old)) }
    ensures fault { IsErrOf result Outcome.InputFault
        → Rose (I.faults input.old) (I.faults input.new) }
    ensures input_kept { KeepsSource I.left I.taken I.faults I.steady input.old input.new }
    ensures input_still { InputStands (I.faults input.old) (I.faults input.new)
        (outcome_of result) }
{
    match command {
        Command::ConvertHex | Command::ConvertFile => load(alloc, input),
        Command::Bulk {
            tiles,
            repeat,
            leaf_entries,
        } => Ok(bulk(alloc, tiles, repeat, leaf_entries)?),
    }
}
