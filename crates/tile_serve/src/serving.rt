// The lines of an input, one after another.
ghost use Rattle.std.specs.Prelude.{◌≡◌, ◌≤◌, ℕ, List, IfErr};
ghost use Rattle.tile_serve.specs.Common.{Bounded, KeepsSink, ReadsOnly, Rose};
ghost use Rattle.tile_serve.specs.Answers.{IsUniform, OverOneLength};
ghost use Rattle.tile_serve.specs.Course.{Goes, course};
ghost use Rattle.tile_serve.specs.Outcomes.{outcome_of};
ghost use Rattle.tile_serve.specs.Serving.{IsStop, IsUnmodifiedRun, LinesEnd, LinesTexts, WritesLine, WritesLines};
ghost use Rattle.tile_serve.specs.State.{IsServing, opened_as, tiles_of};
ghost use Rattle.tile_serve.specs.Faults.{OutputStands, SourceStands};

use crate::{ServeOutcome, ServerState};
use byte_streams::{Sink, write_all};
use line_words::next_line;
use pm_format::Backend;

// Answers a line, and writes the reply.
fn serve_line<B: Backend, O: Sink>(
    state: &mut ServerState,
    source: &mut B,
    output: &mut O,
    line: &[u8],
) -> Result<(), ServeOutcome>
    requires serving { IsServing (B.told source.old) (B.versions source.old) state.old }
    ensures serving { IsServing (B.told source.new) (B.versions source.new) state.new }
    ensures writes { OverOneLength (B.told source.old)
        (λ b. WritesLine b line.now (O.held output.old) (O.held output.new) (outcome_of result)) }
    ensures goes { OverOneLength (B.told source.old)
        (λ b. (start : Bounded (List ℕ)) (reads : ℕ)
        → Goes b (course (opened_as state.old) (B.versions source.old) start reads)
        line.now (tiles_of state.old) (tiles_of state.new)
        (B.reads source.old) (B.reads source.new) (outcome_of result)) }
    ensures texts { LinesTexts (opened_as state.old) (B.versions source.old) (B.reads source.new)
        (outcome_of result) }
    ensures end { LinesEnd (B.told source.old) (B.faults source.old) (B.faults source.new)
        (outcome_of result) }
    ensures source_still { SourceStands (B.faults source.old) (B.faults source.new) (outcome_of result) }
    ensures same { opened_as state.new ≡ opened_as state.old }
    ensures later { B.reads source.old ≤ B.reads source.new }
    ensures stops { IfErr result IsStop }
    ensures unmodified { IsUniform (B.versions source.old) → IsUnmodifiedRun (outcome_of result) }
    ensures fault { outcome_of result ≡ ServeOutcome.OutputFault
        → Rose (O.faults output.old) (O.faults output.new) }
    ensures output_still { OutputStands (O.faults output.old) (O.faults output.new) (outcome_of result) }
    ensures source_kept { ReadsOnly B.told B.versions B.faults B.steady source.old source.new }
    ensures output_kept { KeepsSink O.held O.faults O.steady output.old output.new }
{
    let text = state.answer(source, line)?;
    write_all(output, text.as_bytes())?;
    Ok(())
}

/// Answers each line of requests, and writes its reply before the next one is answered.
pub(crate) fn serve_lines<B: Backend, O: Sink>(
    state: &mut ServerState,
    source: &mut B,
    output: &mut O,
    requests: &[u8],
) -> Result<(), ServeOutcome>
    requires serving { IsServing (B.told source.old) (B.versions source.old) state.old }
    ensures writes { OverOneLength (B.told source.old)
        (λ b. WritesLines b
        (course (opened_as state.old) (B.versions source.old) (tiles_of state.old)
        (B.reads source.old))
        requests.now (B.reads source.new) (O.held output.old) (O.held output.new)
        (outcome_of result)) }
    ensures texts { LinesTexts (opened_as state.old) (B.versions source.old) (B.reads source.new)
        (outcome_of result) }
    ensures later { B.reads source.old ≤ B.reads source.new }
    ensures end { LinesEnd (B.told source.old) (B.faults source.old) (B.faults source.new)
        (outcome_of result) }
    ensures source_still { SourceStands (B.faults source.old) (B.faults source.new) (outcome_of result) }
    ensures unmodified { IsUniform (B.versions source.old) → IsUnmodifiedRun (outcome_of result) }
    ensures fault { outcome_of result ≡ ServeOutcome.OutputFault
        → Rose (O.faults output.old) (O.faults output.new) }
    ensures output_still { OutputStands (O.faults output.old) (O.faults output.new) (outcome_of result) }
    ensures source_kept { ReadsOnly B.told B.versions B.faults B.steady source.old source.new }
    ensures output_kept { KeepsSink O.held O.faults O.steady output.old output.new }
{
    let mut rest = requests;
    while let Some((line, behind)) = next_line(rest) {
        serve_line(state, source, output, line)?;
        rest = behind;
    }
    Ok(())
}
