// Runs over objects in memory.
ghost use Rattle.std.specs.Prelude.{◌≡◌, ◌⊎◌, Some, []};
ghost use Rattle.tileset.specs.Run.{IsValid};
ghost use Rattle.tileset_script.specs.Script.{Script};

use crate::answers::{say, say_bytes, say_outcome};
use crate::fields::{Fields, bytes_of, words_of};
use crate::running::run;
use base_values::TextVal;
use pm_format::MemMedium;
use std::alloc::Global;
use std::fmt::Write;
use tileset::{MemSink, MemSource, Outcome};

/// What a run leaves.
#[derive(Drop)]
pub struct Ended {
    pub outcome: Outcome,
    pub output: MemSink,
    pub medium: MemMedium,
}

/// The calls that fail.
#[derive(Drop)]
pub struct Failing {
    pub input: Vec<u64>,
    pub output: Vec<u64>,
    pub medium: Vec<u64>,
}

impl Failing {
    pub fn none(alloc: Global) -> Failing {
        Failing {
            input: Vec::new(alloc),
            output: Vec::new(alloc),
            medium: Vec::new(alloc),
        }
    }

    // Adds a call that a word names: the first letter of its object, and its number.
    fn add(&mut self, word: &str) -> Option<()> {
        let number = word.get(1..)?.parse::<u64>().ok()?;
        match word.get(..1)? {
            "i" => self.input.push(number).ok(),
            "o" => self.output.push(number).ok(),
            "m" => self.medium.push(number).ok(),
            _ => None,
        }
    }
}

/// A run over new objects in memory whose calls don't fail: where the words and the script are valid it is
/// done, or memory runs out.
pub fn run_calm(alloc: Global, words: &[TextVal], script: Vec<u8>) -> Ended
    ensures { (s : Script)
        → IsValid (record { words = words.now; input = Some script.items; medium = Some [] }) s
        → (result.outcome ≡ Outcome.Done) ⊎ (result.outcome ≡ Outcome.OutOfMemory) }
{
    let mut input = MemSource::new(script);
    let mut output = MemSink::new(alloc);
    let mut medium = MemMedium::new(alloc);
    let outcome = tileset::run(alloc, words, &mut input, &mut output, &mut medium);
    Ended {
        outcome,
        output,
        medium,
    }
}

/// A run over objects in memory of which calls fail.
pub fn run_failing(
    alloc: Global,
    words: &[TextVal],
    script: Vec<u8>,
    failing: Failing,
    held: Vec<u8>,
) -> Ended {
    let mut input = MemSource::new(script);
    let mut output = MemSink::new(alloc);
    let mut medium = MemMedium::from_bytes(held);
    input.fail_at(failing.input);
    output.fail_at(failing.output);
    medium.fail_at(failing.medium);
    let outcome = run(alloc, words, &mut input, &mut output, &mut medium);
    Ended {
        outcome,
        output,
        medium,
    }
}

fn failing_of(alloc: Global, field: &str) -> Option<Failing> {
    let mut failing = Failing::none(alloc);
    for word in field.split_whitespace() {
        failing.add(word)?;
    }
    Some(failing)
}

/// Appends how a run ended, what it wrote, and what the medium holds.
pub fn said_ended(alloc: Global, out: &mut String, ended: Ended) -> Option<()> {
    say_ended(alloc, out, &ended)
}

fn say_ended(alloc: Global, out: &mut String, ended: &Ended) -> Option<()> {
    say_outcome(alloc, out, &ended.outcome)?;
    say(out, "|")?;
    say_bytes(alloc, out, ended.output.as_bytes(), 4000)?;
    let length = ended.medium.as_bytes().len();
    write!(out, "|{length}|").ok()?;
    say_bytes(alloc, out, ended.medium.as_bytes(), 64)
}

fn ended_of(alloc: Global, fields: &mut Fields) -> Option<Ended> {
    let words = words_of(alloc, fields.next())?;
    let script = bytes_of(alloc, fields.next())?;
    let calls = fields.next();
    let held = hex::decode(alloc, fields.next()).ok()?;
    if calls.is_empty() && held.is_empty() {
        return Some(run_calm(alloc, &words, script));
    }
    let failing = failing_of(alloc, calls)?;
    Some(run_failing(alloc, &words, script, failing, held))
}

/// A case of words, a script, calls that fail and what the medium holds at first.
pub fn answer(alloc: Global, out: &mut String, fields: &mut Fields) -> Option<()> {
    said_ended(alloc, out, ended_of(alloc, fields)?)
}
