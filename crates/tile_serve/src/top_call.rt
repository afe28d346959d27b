// The whole server as one call.
ghost use Rattle.std.specs.Prelude.{◌≡◌, ◌⊎◌, ◌<◌, true, IfSome, IsOk, is_some, length};
ghost use Rattle.tile_serve.specs.Common.{IsAtEnd, KeepsSink, KeepsSource, MAX_INPUT, opened, ReadsOnly, Rose};
ghost use Rattle.byte_streams.specs.Input.{IsShort};
ghost use Rattle.tile_serve.specs.Answers.{IsUniform, OverOneLength};
ghost use Rattle.tile_serve.specs.Limits.{IsLimits, limits_in};
ghost use Rattle.tile_serve.specs.Outcomes.{outcome_of};
ghost use Rattle.tile_serve.specs.Serving.{IsUnmodifiedRun, RunTexts, Writes};
ghost use Rattle.tile_serve.specs.TopCall.{IsFor, IsRead, IsSilent, IsUnopened, OpensFor, SourceCauses, Taken};
ghost use Rattle.tile_serve.specs.Faults.{InputStands, OutputStands, SourceStands};

use crate::limits::limits_of;
use crate::serving::serve_lines;
use crate::{ServeLimits, ServeOutcome, ServerState};
use base_values::TextVal;
use byte_streams::{Sink, Source, read_input};
use pm_format::Backend;
use std::alloc::Global;

// Opens an archive, and serves the lines of requests.
fn serve_requests<B: Backend, O: Sink>(
    alloc: Global,
    limits: ServeLimits,
    source: &mut B,
    output: &mut O,
    requests: &[u8],
) -> Result<(), ServeOutcome>
    requires limits { IsLimits limits }
    ensures writes { OverOneLength (B.told source.old)
        (λ b. Writes limits (B.versions source.old) (B.reads source.old) (B.reads source.new)
        b requests.now (O.held output.old) (O.held output.new) (outcome_of result)) }
    ensures texts { RunTexts (B.versions source.old) (B.reads source.old) (B.reads source.new)
        (outcome_of result) }
    ensures opens { IfSome (B.told source.old) (λ b. OpensFor (opened b) (outcome_of result)) }
    ensures read { IsRead (outcome_of result) }
    ensures silent { IsSilent (outcome_of result) → O.held output.new ≡ O.held output.old }
    ensures causes { SourceCauses (B.told source.old) (B.faults source.old) (B.faults source.new)
        (outcome_of result) }
    ensures source_still { SourceStands (B.faults source.old) (B.faults source.new) (outcome_of result) }
    ensures unmodified { IsUniform (B.versions source.old) → IsUnmodifiedRun (outcome_of result) }
    ensures fault { outcome_of result ≡ ServeOutcome.OutputFault
        → Rose (O.faults output.old) (O.faults output.new) }
    ensures output_still { OutputStands (O.faults output.old) (O.faults output.new) (outcome_of result) }
    ensures source_kept { ReadsOnly B.told B.versions B.faults B.steady source.old source.new }
    ensures output_kept { KeepsSink O.held O.faults O.steady output.old output.new }
{
    let mut state = ServerState::open(alloc, source, limits)?;
    serve_lines(&mut state, source, output, requests)
}

fn attempt<B: Backend, I: Source, O: Sink>(
    alloc: Global,
    words: &[TextVal],
    source: &mut B,
    input: &mut I,
    output: &mut O,
) -> Result<(), ServeOutcome>
    ensures words { IsFor (limits_in words.now) (outcome_of result) }
    ensures writes { IfSome (limits_in words.now)
        (λ limits. OverOneLength (B.told source.old) (λ b. IfSome (I.left input.old) (λ requests.
        Writes limits (B.versions source.old) (B.reads source.old) (B.reads source.new) b requests
        (O.held output.old) (O.held output.new) (outcome_of result)))) }
    ensures texts { RunTexts (B.versions source.old) (B.reads source.old) (B.reads source.new)
        (outcome_of result) }
    ensures opens { IfSome (B.told source.old) (λ b. OpensFor (opened b) (outcome_of result)) }
    ensures silent { IsSilent (outcome_of result) → O.held output.new ≡ O.held output.old }
    ensures read { outcome_of result ≡ ServeOutcome.Done → IsAtEnd (I.left input.new) }
    ensures taken { Taken (I.taken input.old) (I.taken input.new) (outcome_of result) }
    ensures too_long { outcome_of result ≡ ServeOutcome.InputTooLong
        → IfSome (I.left input.old) (λ requests. MAX_INPUT < length requests) }
    ensures untaken { outcome_of result ≡ ServeOutcome.Usage → input.new ≡ input.old }
    ensures unread { IsUnopened (outcome_of result) → source.new ≡ source.old }
    ensures causes { SourceCauses (B.told source.old) (B.faults source.old) (B.faults source.new)
        (outcome_of result) }
    ensures source_still { SourceStands (B.faults source.old) (B.faults source.new) (outcome_of result) }
    ensures unmodified { IsUniform (B.versions source.old) → IsUnmodifiedRun (outcome_of result) }
    ensures input_fault { outcome_of result ≡ ServeOutcome.InputFault
        → Rose (I.faults input.old) (I.faults input.new) }
    ensures input_still { InputStands (I.faults input.old) (I.faults input.new) (outcome_of result) }
    ensures output_fault { outcome_of result ≡ ServeOutcome.OutputFault
        → Rose (O.faults output.old) (O.faults output.new) }
    ensures output_still { OutputStands (O.faults output.old) (O.faults output.new) (outcome_of result) }
    ensures source_kept { ReadsOnly B.told B.versions B.faults B.steady source.old source.new }
    ensures input_kept { KeepsSource I.left I.taken I.faults I.steady input.old input.new }
    ensures output_kept { KeepsSink O.held O.faults O.steady output.old output.new }
{
    let Some(limits) = limits_of(words) else {
        return Err(ServeOutcome::Usage);
    };
    let requests = read_input(alloc, input)?;
    serve_requests(alloc, limits, source, output, requests.as_slice())
}

/// Serves the requests of an input: tests the words, which are the four limits, reads the input to its end, opens the
/// archive of the backend, and writes the reply to each line before it answers the next one.
///
/// `Usage`, `InputFault`, `InputTooLong` and `Refused` with `Opening` come before anything is written. `Refused` has
/// the first error of opening or answering other than running out of memory, and then the replies to the lines before
/// are written. `Modified` has the version texts of the first and of the last read. After `OutputFault` and
/// `OutOfMemory` a front of all replies is written.
pub fn run_serve<B: Backend, I: Source, O: Sink>(
    alloc: Global,
    words: &[TextVal],
    source: &mut B,
    input: &mut I,
    output: &mut O,
) -> ServeOutcome
    ensures words { IsFor (limits_in words.now) result }
    // What is written are the replies of a server without caches.
    ensures writes { IfSome (limits_in words.now)
        (λ limits. OverOneLength (B.told source.old) (λ b. IfSome (I.left input.old) (λ requests.
        Writes limits (B.versions source.old) (B.reads source.old) (B.reads source.new) b requests
        (O.held output.old) (O.held output.new) result))) }
    ensures texts { RunTexts (B.versions source.old) (B.reads source.old) (B.reads source.new)
        result }
    ensures opens { IfSome (B.told source.old) (λ b. OpensFor (opened b) result) }
    // Where the words are limits, the input is within its limit, the archive opens, its version texts don't differ and
    // no count rose, it is Done, or memory ran out.
    ensures complete { is_some (limits_in words.now) ≡ true → IsShort (I.left input.old)
        → is_some (I.left input.old) ≡ true
        → is_some (B.told source.old) ≡ true → IfSome (B.told source.old) (λ b. IsOk (opened b))
        → IsUniform (B.versions source.old)
        → ¬ Rose (I.faults input.old) (I.faults input.new)
        → ¬ Rose (O.faults output.old) (O.faults output.new)
        → ¬ Rose (B.faults source.old) (B.faults source.new)
        → (result ≡ ServeOutcome.Done) ⊎ (result ≡ ServeOutcome.OutOfMemory) }
    ensures silent { IsSilent result → O.held output.new ≡ O.held output.old }
    ensures read { result ≡ ServeOutcome.Done → IsAtEnd (I.left input.new) }
    ensures taken { Taken (I.taken input.old) (I.taken input.new) result }
    ensures too_long { result ≡ ServeOutcome.InputTooLong
        → IfSome (I.left input.old) (λ requests. MAX_INPUT < length requests) }
    ensures untaken { result ≡ ServeOutcome.Usage → input.new ≡ input.old }
    ensures unread { IsUnopened result → source.new ≡ source.old }
    ensures causes { SourceCauses (B.told source.old) (B.faults source.old) (B.faults source.new)
        result }
    ensures source_still { SourceStands (B.faults source.old) (B.faults source.new) result }
    ensures unmodified { IsUniform (B.versions source.old) → IsUnmodifiedRun result }
    ensures input_fault { result ≡ ServeOutcome.InputFault
        → Rose (I.faults input.old) (I.faults input.new) }
    ensures input_still { InputStands (I.faults input.old) (I.faults input.new) result }
    ensures output_fault { result ≡ ServeOutcome.OutputFault
        → Rose (O.faults output.old) (O.faults output.new) }
    ensures output_still { OutputStands (O.faults output.old) (O.faults output.new) result }
    // Counts don't fall, what tells goes on to tell, and an object whose calls don't fail has no fault.
    ensures source_kept { ReadsOnly B.told B.versions B.faults B.steady source.old source.new }
    ensures input_kept { KeepsSource I.left I.taken I.faults I.steady input.old input.new }
    ensures output_kept { KeepsSink O.held O.faults O.steady output.old output.new }
{
    match attempt(alloc, words, source, input, output) {
        Ok(()) => ServeOutcome::Done,
        Err(outcome) => outcome,
    }
}
