//! The bytes of an event log, one after another.
ghost use Rattle.std.specs.Prelude.{◌≡◌, ◌+◌, ◌<◌, ◌++◌, ◌∷◌, ◌^◌, List, ℕ, [], true, false, length, IfOk};
ghost use Rattle.lsv_tally.specs.Reading.{IsAt, IsReadTo};
ghost use Rattle.lsv_tally.specs.declared.reading.Ending.TheVariants as endings;

use crate::line::{LONGEST, reads};
use lsv_base::NoMem;
use std::alloc::Global;

/// How the lines of a text end.
#[derive(Clone, Copy, Debug, PartialEq, Eq)]
pub(crate) enum Ending {
    /// With a line feed; or there are none.
    Whole,
    /// With bytes after the last line feed.
    Torn,
    /// Before a line that is no event.
    Bad,
}

/// What was read of a text so far.
#[derive(Drop)]
pub(crate) struct Reading {
    /// How many lines were read, each an event.
    pub lines: u64,
    /// The bytes after the last line feed.
    pub line: Vec<u8>,
}

impl Reading {
    /// Nothing was read.
    pub fn new(alloc: Global) -> Self
        ensures { IsAt result.lines result.line.items [] }
    {
        Reading {
            lines: 0,
            line: Vec::new(alloc),
        }
    }

    /// Takes more bytes. False at a line that is no event.
    pub fn take(&mut self, alloc: Global, bytes: &[u8]) -> Result<bool, NoMem>
        ensures more { (text : List ℕ) → length text + length bytes.now < 2 ^ 64 → IsAt self.old.lines self.old.line.items text
            → IfOk result (λ b. b ≡ true → IsAt self.new.lines self.new.line.items (text ++ bytes.now)) }
        ensures bad { (text rest : List ℕ) → length text + length bytes.now < 2 ^ 64 → IsAt self.old.lines self.old.line.items text
            → IfOk result (λ b. b ≡ false → IsReadTo self.new.lines endings.Bad (text ++ (bytes.now ++ rest))) }
    {
        for byte in bytes {
            if !self.put(alloc, *byte)? {
                return Ok(false);
            }
        }
        Ok(true)
    }

    /// Takes one byte more. False at a line that is no event.
    fn put(&mut self, alloc: Global, byte: u8) -> Result<bool, NoMem>
        ensures more { (text : List ℕ) → length text + 1 < 2 ^ 64 → IsAt self.old.lines self.old.line.items text
            → IfOk result (λ b. b ≡ true → IsAt self.new.lines self.new.line.items (text ++ byte ∷ [])) }
        ensures bad { (text rest : List ℕ) → IsAt self.old.lines self.old.line.items text
            → IfOk result (λ b. b ≡ false → IsReadTo self.new.lines endings.Bad (text ++ byte ∷ rest)) }
    {
        if byte == b'\n' {
            return self.end_line(alloc);
        }
        if self.line.len() >= LONGEST {
            return Ok(false);
        }
        self.line.push(byte)?;
        Ok(true)
    }

    /// A line feed comes.
    fn end_line(&mut self, alloc: Global) -> Result<bool, NoMem>
        ensures more { (text : List ℕ) → length text + 1 < 2 ^ 64 → IsAt self.old.lines self.old.line.items text
            → IfOk result (λ b. b ≡ true → IsAt self.new.lines self.new.line.items (text ++ 10 ∷ [])) }
        ensures bad { (text rest : List ℕ) → IsAt self.old.lines self.old.line.items text
            → IfOk result (λ b. b ≡ false → IsReadTo self.new.lines endings.Bad (text ++ 10 ∷ rest)) }
    {
        if !reads(alloc, &self.line)? {
            return Ok(false);
        }
        self.line.clear();
        self.lines = self.lines.saturating_add(1);
        Ok(true)
    }

    /// How the text ends, of which all bytes were taken.
    pub fn ending(&self) -> Ending
        ensures { (text : List ℕ) → IsAt self.now.lines self.now.line.items text → IsReadTo self.now.lines result text }
    {
        if self.line.is_empty() {
            Ending::Whole
        } else {
            Ending::Torn
        }
    }
}
