//! A line in sudo's style while it is written.

ghost use Rattle.std.specs.Prelude.{◌≡◌, ◌∷◌, ◌++◌, [], ℕ, List, IfOk, OnOk, IsSome};
ghost use Rattle.std.specs.Option.{option_copied};
ghost use Rattle.lsv_base.specs.Time.{nanos_of};
ghost use Rattle.lsv_event.specs.Escapes.{escaped};
ghost use Rattle.lsv_event.specs.InnerLine.{Has};
ghost use Rattle.lsv_event.specs.SudoLine.{joined, line_start, part, part_if, part_unless_empty};

use crate::date::put_date;
use crate::escape::put_escaped;
use lsv_base::{Bytes, NoMem, TimeSpec};
use std::alloc::Global;

/// Most lines are no longer, in bytes.
const USUAL_LINE: usize = 256;

/// The start of a line, and the parts after it.
#[derive(Debug, Drop)]
pub struct Line {
    pub text: Vec<u8>,
    pub has_part: bool,
}

impl Line {
    /// A line without parts.
    pub fn new(alloc: Global, time: TimeSpec, who: &[u8]) -> Result<Self, NoMem>
        requires { IsSome (nanos_of time) }
        ensures { IfOk result (λ line. Has (line_start time who.now) [] line) }
    {
        let mut text = Vec::with_capacity(alloc, USUAL_LINE)?;
        put_date(&mut text, time)?;
        text.extend_from_slice(b" : ")?;
        put_escaped(&mut text, who)?;
        text.extend_from_slice(b" : ")?;
        Ok(Line {
            text,
            has_part: false,
        })
    }

    /// Begins one more part by its name.
    pub fn begin(&mut self, name: &[u8]) -> Result<(), NoMem>
        ensures { (start : List ℕ) (parts : List (List ℕ)) → Has start parts self.old → OnOk result (Has start (parts ++ name.now ∷ []) self.new) }
    {
        if self.has_part {
            self.text.extend_from_slice(b" ; ")?;
        }
        self.has_part = true;
        self.text.extend_from_slice(name)?;
        Ok(())
    }

    /// Goes on with the last part.
    pub fn append(&mut self, text: &[u8]) -> Result<(), NoMem>
        ensures { (start : List ℕ) (parts : List (List ℕ)) (last : List ℕ) → Has start (parts ++ last ∷ []) self.old → OnOk result (Has start (parts ++ (last ++ escaped text.now) ∷ []) self.new) }
    {
        put_escaped(&mut self.text, text)
    }

    /// Adds a part.
    pub fn add(&mut self, name: &[u8], text: &[u8]) -> Result<(), NoMem>
        ensures { (start : List ℕ) (parts : List (List ℕ)) → Has start parts self.old → OnOk result (Has start (parts ++ part name.now text.now) self.new) }
    {
        self.begin(name)?;
        self.append(text)
    }

    /// Adds a part where it has a text.
    pub fn add_if(&mut self, name: &[u8], text: Option<&[u8]>) -> Result<(), NoMem>
        ensures { (start : List ℕ) (parts : List (List ℕ)) → Has start parts self.old → OnOk result (Has start (parts ++ part_if name.now (option_copied text.entry)) self.new) }
    {
        match text {
            Some(text) => self.add(name, text),
            None => Ok(()),
        }
    }

    /// Adds a part where its text isn't empty.
    pub fn add_unless_empty(&mut self, name: &[u8], text: &[u8]) -> Result<(), NoMem>
        ensures { (start : List ℕ) (parts : List (List ℕ)) → Has start parts self.old → OnOk result (Has start (parts ++ part_unless_empty name.now text.now) self.new) }
    {
        if text.is_empty() {
            return Ok(());
        }
        self.add(name, text)
    }

    /// The whole line.
    pub fn end(mut self) -> Result<Bytes, NoMem>
        ensures { (start : List ℕ) (parts : List (List ℕ)) → Has start parts self → IfOk result (λ line. line ≡ start ++ joined parts ++ 10 ∷ []) }
    {
        self.text.push(b'\n')?;
        Ok(Bytes::from_vec(self.text))
    }
}
