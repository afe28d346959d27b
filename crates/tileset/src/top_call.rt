// The whole converter as one call.
ghost use Rattle.std.specs.Prelude.{◌≡◌, ◌⊎◌, Ok, IsErrOf};
ghost use Rattle.tileset.specs.Common.{command, KeepsMedium, KeepsSink, KeepsSource, Rose, Script, script_text, ScriptNeverFails};
ghost use Rattle.tileset.specs.Run.{AnsweredBy, Causes, Gives, IsReadFor, IsUntaken, IsValid, LeavesMedium, LeavesOutput, LeftBy, PrintedBy, PrintsReport, Taken, WrittenBy, answer, answer_script, given_of, outcome_of};
ghost use Rattle.tileset.specs.Stands.{InputStands, MediumStands, OutputStands};

use crate::converting::convert_stores;
use crate::load::script_for;
use crate::report::write_report;
use crate::{Command, Outcome, Sink, Source};
use base_values::TextVal;
use pm_format::Medium;
use std::alloc::Global;
use tileset_script::{ParsedScript, command_of};

/// Runs the command that the words are: reads a script from the input, writes the archive of its base after its
/// patches to the medium, and the report to the output. It tests the words, the input, the script, the medium, the
/// label of directories, the base, each patch in turn and what comes of them, in this order, and writes to the output
/// only on the way to Done.
pub fn run<I: Source, O: Sink, M: Medium>(
    alloc: Global,
    words: &[TextVal],
    input: &mut I,
    output: &mut O,
    medium: &mut M,
) -> Outcome
    // The answer is that of the order of tests, or running out of memory, or a fault whose count rose.
    ensures exact { Gives (answer (given_of words.now (I.left input.old) (M.told medium.old)))
        result }
    // Where all is valid and no count rose, it is Done, or memory ran out.
    ensures complete { (s : Script)
        → IsValid (given_of words.now (I.left input.old) (M.told medium.old)) s
        → ¬ Rose (I.faults input.old) (I.faults input.new)
        → ¬ Rose (O.faults output.old) (O.faults output.new)
        → ¬ Rose (M.faults medium.old) (M.faults medium.new)
        → (result ≡ Outcome.Done) ⊎ (result ≡ Outcome.OutOfMemory) }
    // When each answer comes, whatever tells.
    ensures causes { Causes (given_of words.now (I.left input.old) (M.told medium.old)) result }
    // After Done the medium holds the archive of the script's set, and the output its report.
    ensures medium { LeavesMedium (given_of words.now (I.left input.old) (M.told medium.old))
        (M.told medium.new) result }
    ensures output { LeavesOutput (given_of words.now (I.left input.old) (M.told medium.old))
        (M.told medium.new) (O.held output.old) (O.held output.new) result }
    // After Done the lines of the output come of the script's set, whatever tells.
    ensures printed { PrintsReport (given_of words.now (I.left input.old) (M.told medium.old))
        (O.held output.old) (O.held output.new) result }
    ensures read { result ≡ Outcome.Done → IsReadFor (command words.now) (I.left input.new) }
    ensures untaken { IsUntaken (command words.now) (I.left input.old) (I.left input.new)
        (I.taken input.old) (I.taken input.new) (I.faults input.old) (I.faults input.new) }
    ensures taken { Taken (I.taken input.old) (I.taken input.new) result }
    ensures input_fault { result ≡ Outcome.InputFault
        → Rose (I.faults input.old) (I.faults input.new) }
    ensures output_fault { result ≡ Outcome.OutputFault
        → Rose (O.faults output.old) (O.faults output.new) }
    ensures medium_fault { result ≡ Outcome.MediumFault
        → Rose (M.faults medium.old) (M.faults medium.new) }
    // Counts don't fall, what tells goes on to tell, and an object whose calls don't fail has no fault.
    ensures input_kept { KeepsSource I.left I.taken I.faults I.steady input.old input.new }
    ensures output_kept { KeepsSink O.held O.faults O.steady output.old output.new }
    ensures medium_kept { KeepsMedium M.told M.versions M.reads M.faults M.steady
        medium.old medium.new }
    // Counts stand at Done, and at the answers that the definitions don't leave out.
    ensures input_still { InputStands (I.faults input.old) (I.faults input.new) result }
    ensures output_still { OutputStands (O.faults output.old) (O.faults output.new) result }
    ensures medium_still { MediumStands (M.faults medium.old) (M.faults medium.new) result }
{
    match attempt(alloc, words, input, output, medium) {
        Ok(()) => Outcome::Done,
        Err(outcome) => outcome,
    }
}

// Converts the set of a script, and writes a command's text on the archive.
fn convert_script<O: Sink, M: Medium>(
    alloc: Global,
    command: Command,
    script: ParsedScript,
    output: &mut O,
    medium: &mut M,
) -> Result<(), Outcome>
    requires stores { ScriptNeverFails script }
    ensures exact { Gives (answer_script (Ok (script_text script)) (M.told medium.old))
        (outcome_of result) }
    ensures causes { AnsweredBy (script_text script) (M.told medium.old) (outcome_of result) }
    ensures medium { LeftBy (script_text script) (M.told medium.old) (M.told medium.new)
        (outcome_of result) }
    ensures output { WrittenBy command (script_text script) (M.told medium.old)
        (M.told medium.new) (O.held output.old) (O.held output.new) (outcome_of result) }
    ensures printed { PrintedBy command (script_text script) (M.told medium.old)
        (O.held output.old) (O.held output.new) (outcome_of result) }
    ensures output_fault { IsErrOf result Outcome.OutputFault
        → Rose (O.faults output.old) (O.faults output.new) }
    ensures medium_fault { IsErrOf result Outcome.MediumFault
        → Rose (M.faults medium.old) (M.faults medium.new) }
    ensures output_kept { KeepsSink O.held O.faults O.steady output.old output.new }
    ensures medium_kept { KeepsMedium M.told M.versions M.reads M.faults M.steady
        medium.old medium.new }
    ensures output_still { OutputStands (O.faults output.old) (O.faults output.new)
        (outcome_of result) }
    ensures medium_still { MediumStands (M.faults medium.old) (M.faults medium.new)
        (outcome_of result) }
{
    let ParsedScript {
        options,
        base,
        patches,
        queries,
    } = script;
    let queries = queries.as_slice();
    let report = convert_stores(alloc, base, patches, queries, options, medium)?;
    write_report(alloc, command, queries, &report, output, medium)?;
    Ok(())
}

fn attempt<I: Source, O: Sink, M: Medium>(
    alloc: Global,
    words: &[TextVal],
    input: &mut I,
    output: &mut O,
    medium: &mut M,
) -> Result<(), Outcome>
    ensures exact { Gives (answer (given_of words.now (I.left input.old) (M.told medium.old)))
        (outcome_of result) }
    ensures causes { Causes (given_of words.now (I.left input.old) (M.told medium.old))
        (outcome_of result) }
    ensures medium { LeavesMedium (given_of words.now (I.left input.old) (M.told medium.old))
        (M.told medium.new) (outcome_of result) }
    ensures output { LeavesOutput (given_of words.now (I.left input.old) (M.told medium.old))
        (M.told medium.new) (O.held output.old) (O.held output.new) (outcome_of result) }
    ensures printed { PrintsReport (given_of words.now (I.left input.old) (M.told medium.old))
        (O.held output.old) (O.held output.new) (outcome_of result) }
    ensures read { outcome_of result ≡ Outcome.Done
        → IsReadFor (command words.now) (I.left input.new) }
    ensures untaken { IsUntaken (command words.now) (I.left input.old) (I.left input.new)
        (I.taken input.old) (I.taken input.new) (I.faults input.old) (I.faults input.new) }
    ensures taken { Taken (I.taken input.old) (I.taken input.new) (outcome_of result) }
    ensures input_fault { outcome_of result ≡ Outcome.InputFault
        → Rose (I.faults input.old) (I.faults input.new) }
    ensures output_fault { outcome_of result ≡ Outcome.OutputFault
        → Rose (O.faults output.old) (O.faults output.new) }
    ensures medium_fault { outcome_of result ≡ Outcome.MediumFault
        → Rose (M.faults medium.old) (M.faults medium.new) }
    ensures input_kept { KeepsSource I.left I.taken I.faults I.steady input.old input.new }
    ensures output_kept { KeepsSink O.held O.faults O.steady output.old output.new }
    ensures medium_kept { KeepsMedium M.told M.versions M.reads M.faults M.steady
        medium.old medium.new }
    ensures input_still { InputStands (I.faults input.old) (I.faults input.new)
        (outcome_of result) }
    ensures output_still { OutputStands (O.faults output.old) (O.faults output.new)
        (outcome_of result) }
    ensures medium_still { MediumStands (M.faults medium.old) (M.faults medium.new)
        (outcome_of result) }
{
    let Some(command) = command_of(words) else {
        return Err(Outcome::Usage);
    };
    let script = script_for(alloc, command, input)?;
    convert_script(alloc, command, script, output, medium)
}
