//! Bytes that come in pieces, and the messages that they are.

ghost use Rattle.std.specs.Prelude.{◌≡◌, ◌⊎◌, ◌≤◌, ◌<◌, ◌++◌, [], length, drop, IfOk, OnOk, OnErr};
ghost use Rattle.lsv_wire.specs.Frame.{IsPartial};
ghost use Rattle.lsv_cut.specs.Cuts.{IsCut, left_after, unread};

use crate::{Cut, cut_next};
use lsv_base::NoMem;
use lsv_wire::{Framer, lacking};
use std::alloc::Global;
use std::marker::Model;

/// The bytes that came and were not cut yet. Contracts see them as a list. A message that stands whole in a piece is read
/// there; only what is left of a piece is copied.
#[derive(Debug, Drop)]
pub struct PieceReader {
    alloc: Global,
    framer: Framer,
}

impl Model for PieceReader {
    ghost use Rattle.std.specs.Prelude.{ℕ, List};

    ghost Value = { List ℕ };

    ghost view = { λ r. r.framer };
}

impl PieceReader {
    /// No bytes came. It takes no memory until it keeps some.
    pub fn new(alloc: Global) -> Self
        ensures { result ≡ [] }
    {
        PieceReader {
            alloc,
            framer: Framer::new(alloc),
        }
    }

    /// The next message of what is kept and then of a piece from a place on. The place moves to the bytes that were not taken
    /// from the piece. If less than a frame is left, all of it is kept, and the place is the piece's end. A call that fails
    /// loses nothing: memory ran out.
    #[inline(always)]
    pub fn next(&mut self, piece: &[u8], at: &mut usize) -> Result<Cut, NoMem>
        requires { at.old ≤ length piece.now }
        ensures cut { IfOk result (λ cut. IsCut cut (unread self.old piece.now at.old)) }
        ensures left { IfOk result (λ cut. unread self.new piece.now at.new ≡ left_after cut (unread self.old piece.now at.old)) }
        ensures all_kept { IfOk result (λ cut. cut ≡ Cut.Nothing → at.new ≡ length piece.now) }
        ensures err { OnErr result (unread self.new piece.now at.new ≡ unread self.old piece.now at.old) }
        ensures within { at.new ≤ length piece.now }
    {
        if self.framer.held().is_empty() {
            self.next_in_place(piece, at)
        } else {
            self.next_spanning(piece, at)
        }
    }

    /// The next message of a piece from a place on, if nothing is kept.
    #[inline(always)]
    fn next_in_place(&mut self, piece: &[u8], at: &mut usize) -> Result<Cut, NoMem>
        requires within { at.old ≤ length piece.now }
        requires empty { self.old ≡ [] }
        ensures cut { IfOk result (λ cut. IsCut cut (drop at.old piece.now)) }
        ensures left { IfOk result (λ cut. unread self.new piece.now at.new ≡ left_after cut (drop at.old piece.now)) }
        ensures all_kept { IfOk result (λ cut. cut ≡ Cut.Nothing → at.new ≡ length piece.now) }
        ensures err { OnErr result (unread self.new piece.now at.new ≡ drop at.old piece.now) }
        ensures within { at.new ≤ length piece.now }
    {
        match cut_next(self.alloc, &piece[*at..])? {
            Cut::Nothing => {
                self.keep(&piece[*at..])?;
                *at = piece.len();
                Ok(Cut::Nothing)
            }
            Cut::Message(message, taken) => {
                *at += taken;
                Ok(Cut::Message(message, taken))
            }
            Cut::NoMessage(fault) => Ok(Cut::NoMessage(fault)),
        }
    }

    /// The next message, if some bytes are kept: those that its frame lacks are kept with them. It stands apart from the
    /// reading in place, so that nothing is cleared for it there.
    #[inline(never)]
    fn next_spanning(&mut self, piece: &[u8], at: &mut usize) -> Result<Cut, NoMem>
        requires within { at.old ≤ length piece.now }
        requires some { 0 < length self.old }
        ensures cut { IfOk result (λ cut. IsCut cut (unread self.old piece.now at.old)) }
        ensures left { IfOk result (λ cut. unread self.new piece.now at.new ≡ left_after cut (unread self.old piece.now at.old)) }
        ensures all_kept { IfOk result (λ cut. cut ≡ Cut.Nothing → at.new ≡ length piece.now) }
        ensures err { OnErr result (unread self.new piece.now at.new ≡ unread self.old piece.now at.old) }
        ensures within { at.new ≤ length piece.now }
    {
        self.fill(piece, at)?;
        self.fill(piece, at)?;
        self.next_kept()
    }

    /// Keeps the bytes of a piece that the frame in front lacks: of its length, or if that is there of its message.
    fn fill(&mut self, piece: &[u8], at: &mut usize) -> Result<(), NoMem>
        requires within { at.old ≤ length piece.now }
        requires some { 0 < length self.old }
        ensures same { unread self.new piece.now at.new ≡ unread self.old piece.now at.old }
        ensures on { at.old ≤ at.new }
        ensures within { at.new ≤ length piece.now }
        ensures some { 0 < length self.new }
        ensures long { OnOk result ((at.new ≡ length piece.now) ⊎ (4 ≤ length self.new)) }
        ensures whole { OnOk result ((at.new ≡ length piece.now) ⊎ (4 ≤ length self.old → IsPartial self.new → ⊥)) }
    {
        let lacks = lacking(self.framer.held()).min(piece.len() - *at);
        if lacks > 0 {
            self.keep(&piece[*at..*at + lacks])?;
            *at += lacks;
        }
        Ok(())
    }

    /// The next message of what is kept alone. A call that fails loses nothing: memory ran out.
    pub fn next_kept(&mut self) -> Result<Cut, NoMem>
        ensures cut { IfOk result (λ cut. IsCut cut self.old) }
        ensures left { IfOk result (λ cut. self.new ≡ left_after cut self.old) }
        ensures err { OnErr result (self.new ≡ self.old) }
    {
        let cut = cut_next(self.alloc, self.framer.held())?;
        if let Cut::Message(_, taken) = &cut {
            self.framer.consume(*taken - 4);
        }
        Ok(cut)
    }

    /// Keeps bytes, after those that are kept. A call that fails keeps none of them: memory ran out.
    pub fn keep(&mut self, piece: &[u8]) -> Result<(), NoMem>
        ensures ok { OnOk result (self.new ≡ self.old ++ piece.now) }
        ensures err { OnErr result (self.new ≡ self.old) }
    {
        self.framer.feed(piece)
    }
}
