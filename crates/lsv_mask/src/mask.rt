ghost use Rattle.std.specs.Prelude.{◌≡◌, ℕ, List, [], ◌∷◌, ◌++◌, ◌&&◌, not, if◌then◌else◌, IfOk};
ghost use Rattle.lsv_mask.specs.Inner.{tail_with};
ghost use Rattle.lsv_mask.specs.Masking.{Seen, covered, ends_line, prompted, seen, starred};
ghost use Rattle.lsv_record.specs.Records.{shape_of};
ghost use Rattle.lsv_record.specs.declared.records.Record.{Record};

use crate::star::{ends_line, star};
use crate::tail::Tail;
use crate::{Prompt, Search};
use lsv_base::{Bytes, List, NoMem};
use lsv_record::{Record, Stream};
use std::alloc::Global;
use std::marker::Model;

/// What is known of a log's records to cover the next one: the end of the last line of output, and whether a password
/// is awaited. It keeps no record. Contracts see these, and the texts of the prompts.
#[derive(Debug, Drop)]
pub struct Mask {
    texts: List<Bytes>,
    tail: Tail,
    is_hot: bool,
}

impl Model for Mask {
    ghost use Rattle.lsv_mask.specs.Masking.{Seen};

    ghost Value = { Seen };

    ghost view = { λ m. record { texts = m.texts; tail = m.tail; is_hot = m.is_hot } };
}

impl Mask {
    /// The mask before the first record, with a copy of the texts of the prompts. With no texts nothing is covered.
    pub fn new(alloc: Global, texts: &List<Bytes>) -> Result<Self, NoMem>
        ensures { IfOk result (λ mask. mask ≡ seen texts.now []) }
    {
        let mut copies = List::new(alloc);
        for text in texts.as_slice() {
            let copy = text.copy(alloc)?;
            let Ok(()) = copies.push(copy) else {
                return Err(NoMem);
            };
        }
        Ok(Mask {
            texts: copies,
            tail: Tail::new(),
            is_hot: false,
        })
    }

    /// Covers the next record, and takes it in. It takes no memory.
    pub fn cover<H: Search>(&mut self, prompt: &Prompt<H>, r: &mut Record)
        ensures covered { (texts : List (List ℕ)) (records : List Record) → self.old ≡ seen texts records → r.new ≡ covered texts records r.old }
        ensures mask { (texts : List (List ℕ)) (records : List Record) → self.old ≡ seen texts records → self.new ≡ seen texts (records ++ r.old ∷ []) }
        ensures stored { (texts : List (List ℕ)) (records : List Record) → self.old ≡ seen texts records → self.new ≡ seen texts (records ++ r.new ∷ []) }
        ensures shape { shape_of r.new ≡ shape_of r.old }
    {
        match r {
            Record::Io { stream, bytes, .. } => match stream {
                Stream::Ttyin => self.cover_typed(bytes),
                Stream::Ttyout => self.see_output(prompt, bytes.as_slice()),
                _ => (),
            },
            _ => (),
        }
    }

    /// Takes in a record that is stored already, which stays as it is. It takes no memory.
    pub fn see<H: Search>(&mut self, prompt: &Prompt<H>, r: &Record)
        ensures { (texts : List (List ℕ)) (records : List Record) → self.old ≡ seen texts records → self.new ≡ seen texts (records ++ r.now ∷ []) }
    {
        match r {
            Record::Io { stream, bytes, .. } => match stream {
                Stream::Ttyin => self.see_typed(bytes.as_slice()),
                Stream::Ttyout => self.see_output(prompt, bytes.as_slice()),
                _ => (),
            },
            _ => (),
        }
    }

    /// Takes in output, which tells whether a password is awaited by the line that it leaves.
    fn see_output<H: Search>(&mut self, prompt: &Prompt<H>, output: &[u8])
        ensures none { output.now ≡ [] → self.new ≡ self.old }
        ensures some { (byte : ℕ) (rest : List ℕ) → output.now ≡ byte ∷ rest →
            self.new ≡ record { texts = self.old.texts; tail = tail_with self.old.tail output.now; is_hot = prompted self.old.texts (tail_with self.old.tail output.now) } }
    {
        if output.is_empty() {
            return;
        }
        self.tail.push(output);
        self.is_hot = prompt.is_prompted(&self.texts, self.tail.as_slice());
    }

    /// Takes in what was typed. The end of the line ends the password.
    fn see_typed(&mut self, typed: &[u8])
        ensures { self.new ≡ record { texts = self.old.texts; tail = self.old.tail; is_hot = self.old.is_hot && not (ends_line typed.now) } }
    {
        if self.is_hot && ends_line(typed) {
            self.is_hot = false;
        }
    }

    /// Takes in what was typed, and covers it where a password is awaited.
    fn cover_typed(&mut self, bytes: &mut Bytes)
        ensures mask { self.new ≡ record { texts = self.old.texts; tail = self.old.tail; is_hot = self.old.is_hot && not (ends_line bytes.old) } }
        ensures covered { bytes.new ≡ (if self.old.is_hot then starred bytes.old else bytes.old) }
    {
        if !self.is_hot {
            return;
        }
        if star(bytes) {
            self.is_hot = false;
        }
    }
}
