// Scripts that are read as their text comes.
ghost use Rattle.std.specs.Prelude.{◌≡◌, ◌<◌, ◌++◌, ◌^◌, [], List, ℕ, IfOk, OnOk, length};
ghost use Rattle.tileset_script.specs.Common.{HasNo};

use super::draft::Draft;
use super::reading::{end, take_lines};
use super::{ParsedScript, ScriptError};
use base_values::OutOfMemory;
use byte_streams::InputTaker;
use line_words::first_separator;
use std::alloc::Global;

/// A script that is read as its text comes: what its lines said so far, and the part of a line behind them.
#[derive(Drop)]
pub struct ScriptReader {
    alloc: Global,
    draft: Draft,
    number: u64,
    line: Vec<u8>,
    is_bad: bool,
}

impl ScriptReader {
    ghost use Rattle.tileset_script.specs.Reading.{ScriptNeverFails, Reads};
    ghost use Rattle.tileset_script.specs.Reader.{HasRead};

    /// Before the first byte.
    pub fn new(alloc: Global) -> ScriptReader
        ensures { HasRead [] result }
    {
        ScriptReader {
            alloc,
            draft: Draft::new(alloc),
            number: 1,
            line: Vec::new(alloc),
            is_bad: false,
        }
    }

    // Takes a piece where no part of a line is kept. Only the part of a line behind its last line feed is copied.
    fn take_whole(&mut self, piece: &[u8]) -> Result<(), OutOfMemory>
        requires { self.old.line.items ≡ [] }
        ensures { (bytes : List ℕ) → length (bytes ++ piece.now) < 2 ^ 63 → HasRead bytes self.old
            → OnOk result (HasRead (bytes ++ piece.now) self.new) }
    {
        if self.is_bad {
            return Ok(());
        }
        match take_lines(self.alloc, &mut self.draft, &mut self.number, piece)? {
            Some(rest) => self.line.extend_from_slice(rest)?,
            None => self.is_bad = true,
        }
        Ok(())
    }

    // Keeps a piece in which no line ends, behind the part of a line.
    fn keep(&mut self, piece: &[u8]) -> Result<(), OutOfMemory>
        requires { HasNo 10 piece.now (length piece.now) }
        ensures { (bytes : List ℕ) → length (bytes ++ piece.now) < 2 ^ 63 → HasRead bytes self.old
            → OnOk result (HasRead (bytes ++ piece.now) self.new) }
    {
        if self.is_bad {
            return Ok(());
        }
        self.line.extend_from_slice(piece)?;
        Ok(())
    }

    // Takes a piece behind the part of a line that is kept.
    fn take_joined(&mut self, piece: &[u8]) -> Result<(), OutOfMemory>
        ensures { (bytes : List ℕ) → length (bytes ++ piece.now) < 2 ^ 63 → HasRead bytes self.old
            → OnOk result (HasRead (bytes ++ piece.now) self.new) }
    {
        if self.is_bad {
            return Ok(());
        }
        self.line.extend_from_slice(piece)?;
        let text = self.line.as_slice();
        match take_lines(self.alloc, &mut self.draft, &mut self.number, text)? {
            Some(rest) => self.line = Vec::from_slice(self.alloc, rest)?,
            None => {
                self.is_bad = true;
                self.line = Vec::new(self.alloc);
            }
        }
        Ok(())
    }

    // Takes a piece by the way that serves it.
    fn take_next(&mut self, piece: &[u8]) -> Result<(), OutOfMemory>
        ensures { (bytes : List ℕ) → length (bytes ++ piece.now) < 2 ^ 63 → HasRead bytes self.old
            → OnOk result (HasRead (bytes ++ piece.now) self.new) }
    {
        if self.line.is_empty() {
            self.take_whole(piece)
        } else {
            self.take_joined(piece)
        }
    }

    // Takes a piece of the text behind those before, of which the part of a line is copied once. Behind a bad line
    // nothing more is looked at.
    fn take_piece(&mut self, piece: &[u8]) -> Result<(), OutOfMemory>
        ensures { (bytes : List ℕ) → length (bytes ++ piece.now) < 2 ^ 63 → HasRead bytes self.old
            → OnOk result (HasRead (bytes ++ piece.now) self.new) }
    {
        let Some(place) = first_separator(b'\n', piece) else {
            return self.keep(piece);
        };
        let (front, back) = piece.split_at(place + 1);
        self.take_next(front)?;
        self.take_next(back)
    }

    /// The script that the bytes spell that were taken, or the number of its first bad line. No
    /// call of its stores fails.
    pub fn finish(self) -> Result<ParsedScript, ScriptError>
        ensures reads { (bytes : List ℕ) → length bytes < 2 ^ 63 → HasRead bytes self
            → Reads bytes result }
        ensures unfailing { (bytes : List ℕ) → HasRead bytes self → IfOk result ScriptNeverFails }
    {
        let ScriptReader {
            alloc,
            draft,
            number,
            line,
            is_bad,
        } = self;
        if is_bad {
            return Err(ScriptError::BadLine(number));
        }
        end(alloc, draft, number, line.as_slice())
    }
}

impl InputTaker for ScriptReader {
    ghost use Rattle.std.specs.Prelude.{◌<◌, ◌^◌, length};
    ghost use Rattle.tileset_script.specs.Reader.{HasRead};

    ghost took = { λ r bytes. length bytes < 2 ^ 63 → HasRead bytes r };

    fn take(&mut self, piece: &[u8]) -> Result<(), OutOfMemory> {
        self.take_piece(piece)
    }
}
