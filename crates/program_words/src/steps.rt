// The steps of a run, which are told on standard error where that is a terminal.
use std::io::IsTerminal;
use std::time::Instant;

/// A step, and when it was begun. One that isn't told has no time.
#[derive(Drop)]
pub struct Step {
    begun: Option<Instant>,
}

/// Begins a step on a file, and tells so where standard error is a terminal.
pub fn begin_step(rt: &HostRuntime, tool: &str, step: &str, path: &str) -> Step {
    if !rt.stderr().is_terminal() {
        return Step { begun: None };
    }
    let _ = eprintln!(rt; "{tool}: {step} {path}");
    Step {
        begun: Instant::now(rt).ok(),
    }
}

impl Step {
    /// Tells that the step is done, and how many seconds it took.
    pub fn end(self, rt: &HostRuntime, tool: &str) {
        let Step { begun } = self;
        let Some(begun) = begun else {
            return;
        };
        if let Ok(passed) = begun.elapsed(rt) {
            let seconds = passed.as_secs();
            let _ = eprintln!(rt; "{tool}: done in {seconds} s");
        }
    }
}
