// The report on a written archive.
ghost use Rattle.std.specs.Prelude.{◌≡◌, ◌++◌, List, ℕ, IfSome, IfErr, OnOk, IsErrOf};
ghost use Rattle.tileset.specs.Common.{Gains, GainsFront, KeepsMedium, KeepsSink, Rose};
ghost use Rattle.tileset.specs.Places.{places_text};
ghost use Rattle.tileset.specs.Printed.{Prints};
ghost use Rattle.tileset.specs.Report.{report_text};
ghost use Rattle.tileset.specs.Run.{IsReported, LinesCauses, ReportCauses, command_text, outcome_of};
ghost use Rattle.tileset.specs.Stands.{MediumStands, OutputStands};
ghost use Rattle.tileset.specs.Summary.{summary};

use crate::dump::write_dump;
use crate::places::places_text;
use crate::summary::summary_of;
use crate::{Command, Outcome, Sink, write_all};
use pm_format::Medium;
use pm_writer::ArchivePlaces;
use std::alloc::Global;
use tile_bridge::ConvertReport;
use tile_ids::TileCoord;

// Writes the lines of the answers, the aggregate and the numbers.
fn write_summary<O: Sink>(
    alloc: Global,
    queries: &[TileCoord],
    report: &ConvertReport,
    output: &mut O,
) -> Result<(), Outcome>
    ensures all { OnOk result (Gains (O.held output.old) (O.held output.new)
        (summary queries.now report.now)) }
    ensures front { GainsFront (O.held output.old) (O.held output.new)
        (summary queries.now report.now) }
    ensures causes { IfErr result LinesCauses }
    ensures output_fault { IsErrOf result Outcome.OutputFault
        → Rose (O.faults output.old) (O.faults output.new) }
    ensures output_kept { KeepsSink O.held O.faults O.steady output.old output.new }
    ensures output_still { OutputStands (O.faults output.old) (O.faults output.new)
        (outcome_of result) }
{
    let text = summary_of(alloc, queries, report)?;
    write_all(output, text.as_slice())?;
    Ok(())
}

// Writes the report on the archive that a medium holds, whose bytes are read back for the dump.
fn write_hex_report<O: Sink, M: Medium>(
    alloc: Global,
    queries: &[TileCoord],
    report: &ConvertReport,
    output: &mut O,
    medium: &mut M,
) -> Result<(), Outcome>
    requires reported { IfSome (M.told medium.old) (IsReported queries.now report.now) }
    ensures all { OnOk result (IfSome (M.told medium.old) (λ b. Gains (O.held output.old)
        (O.held output.new) (report_text queries.now report.now.aggregate b))) }
    ensures front { IfSome (M.told medium.old) (λ b. GainsFront (O.held output.old)
        (O.held output.new) (report_text queries.now report.now.aggregate b)) }
    ensures printed { OnOk result ((dump : List ℕ) × Gains (O.held output.old)
        (O.held output.new) (summary queries.now report.now ++ dump)) }
    ensures told { M.told medium.new ≡ M.told medium.old }
    ensures causes { IfErr result (ReportCauses (M.told medium.old)) }
    ensures output_fault { IsErrOf result Outcome.OutputFault
        → Rose (O.faults output.old) (O.faults output.new) }
    ensures medium_fault { IsErrOf result Outcome.MediumFault
        → Rose (M.faults medium.old) (M.faults medium.new) }
    ensures output_kept { KeepsSink O.held O.faults O.steady output.old output.new }
    ensures medium_kept { KeepsMedium M.told M.versions M.reads M.faults M.steady
        medium.old medium.new }
    ensures output_still { OutputStands (O.faults output.old) (O.faults output.new)
        (outcome_of result) }
    ensures medium_still { MediumStands (M.faults medium.old) (M.faults medium.new)
        (outcome_of result) }
{
    write_summary(alloc, queries, report, output)?;
    write_dump(alloc, report.places.length, output, medium)?;
    Ok(())
}

// Writes the lines of the places of an archive, with the number of upper directories where that is wanted.
fn write_places<O: Sink>(
    alloc: Global,
    places: &ArchivePlaces,
    uppers: bool,
    output: &mut O,
) -> Result<(), Outcome>
    ensures all { OnOk result (Gains (O.held output.old) (O.held output.new)
        (places_text uppers places.now)) }
    ensures front { GainsFront (O.held output.old) (O.held output.new)
        (places_text uppers places.now) }
    ensures causes { IfErr result LinesCauses }
    ensures output_fault { IsErrOf result Outcome.OutputFault
        → Rose (O.faults output.old) (O.faults output.new) }
    ensures output_kept { KeepsSink O.held O.faults O.steady output.old output.new }
    ensures output_still { OutputStands (O.faults output.old) (O.faults output.new)
        (outcome_of result) }
{
    let text = places_text(alloc, places, uppers)?;
    write_all(output, text.as_bytes())?;
    Ok(())
}

/// Writes the text of a command on the archive that a medium holds.
pub(crate) fn write_report<O: Sink, M: Medium>(
    alloc: Global,
    command: Command,
    queries: &[TileCoord],
    report: &ConvertReport,
    output: &mut O,
    medium: &mut M,
) -> Result<(), Outcome>
    requires reported { IfSome (M.told medium.old) (IsReported queries.now report.now) }
    ensures all { OnOk result (IfSome (M.told medium.old) (λ b. Gains (O.held output.old)
        (O.held output.new) (command_text command queries.now report.now.aggregate b))) }
    ensures front { IfSome (M.told medium.old) (λ b. GainsFront (O.held output.old)
        (O.held output.new) (command_text command queries.now report.now.aggregate b)) }
    ensures printed { OnOk result (Prints command queries.now report.now (O.held output.old)
        (O.held output.new)) }
    ensures told { M.told medium.new ≡ M.told medium.old }
    ensures causes { IfErr result (ReportCauses (M.told medium.old)) }
    ensures output_fault { IsErrOf result Outcome.OutputFault
        → Rose (O.faults output.old) (O.faults output.new) }
    ensures medium_fault { IsErrOf result Outcome.MediumFault
        → Rose (M.faults medium.old) (M.faults medium.new) }
    ensures output_kept { KeepsSink O.held O.faults O.steady output.old output.new }
    ensures medium_kept { KeepsMedium M.told M.versions M.reads M.faults M.steady
        medium.old medium.new }
    ensures output_still { OutputStands (O.faults output.old) (O.faults output.new)
        (outcome_of result) }
    ensures medium_still { MediumStands (M.faults medium.old) (M.faults medium.new)
        (outcome_of result) }
{
    match command {
        Command::ConvertHex => write_hex_report(alloc, queries, report, output, medium),
        Command::ConvertFile => write_summary(alloc, queries, report, output),
        Command::Bulk { leaf_entries, .. } => {
            write_places(alloc, &report.places, leaf_entries.is_some(), output)
        }
    }
}
