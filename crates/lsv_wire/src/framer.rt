ghost use Rattle.std.specs.Prelude.{◌≡◌, ◌+◌, ◌≤◌, ◌<◌, ℕ, List, [], ◌++◌, length, drop, MatchOption, IfOk, IfErr, OnOk, OnErr};
ghost use Rattle.lsv_wire.specs.Frame.{frame_of, IsMessage, IsPartial, IsTooLong};

use crate::{FrameFault, first_message};
use lsv_base::{Bytes, NoMem};
use std::alloc::Global;
use std::marker::Model;

/// The bytes of memory that an empty framer keeps at most.
const KEPT: usize = 65_536;

/// Cuts a stream into its messages, in whatever pieces it comes. Contracts see the bytes that were fed and
/// not yet given. A framer that is empty keeps at most 65,536 bytes of memory.
#[derive(Debug, Drop)]
pub struct Framer {
    buffer: Vec<u8>,
    start: usize,
}

impl Model for Framer {
    ghost use Rattle.std.specs.Prelude.{ℕ, ◌≤◌, List, length, drop};

    ghost Value = { List ℕ };

    ghost view = { λ f. drop f.start f.buffer.items };

    ghost invariant = { λ f. f.start ≤ length f.buffer.items };
}

impl Framer {
    /// No bytes. It takes no memory until it is fed.
    pub fn new(alloc: Global) -> Self
        ensures { result ≡ [] }
    {
        Framer {
            buffer: Vec::new(alloc),
            start: 0,
        }
    }

    /// Takes the next piece of the stream.
    pub fn feed(&mut self, piece: &[u8]) -> Result<(), NoMem>
        ensures ok { OnOk result (self.new ≡ self.old ++ piece.now) }
        ensures err { OnErr result (self.new ≡ self.old) }

        // A length above the limit that is stated once is stated for good.
        ensures for_good { (n : ℕ) → IsTooLong self.old n → IsTooLong self.new n }
    {
        // A move costs no more than the bytes that were passed over since the last one.
        if self.start >= self.buffer.len() - self.start {
            self.move_to_front();
        }
        self.buffer.extend_from_slice(piece)?;
        Ok(())
    }

    fn move_to_front(&mut self)
        ensures { self.new ≡ self.old }
    {
        let kept = self.buffer.len() - self.start;
        self.buffer.copy_within(self.start.., 0);
        self.buffer.truncate(kept);
        self.start = 0;
    }

    /// The next whole message, in place. It stays until it is passed over by `consume`. An error is the stated
    /// length.
    pub fn peek(&self) -> Result<Option<&[u8]>, u32>
        ensures message { IfOk result (λ m. MatchOption m (IsPartial self.now)
            (λ m. IsMessage m.now × (self.now ≡ frame_of m.now ++ drop (4 + length m.now) self.now))) }
        ensures too_large { IfErr result (IsTooLong self.now) }
    {
        first_message(self.held())
    }

    /// The bytes that were fed and not yet given.
    pub fn held(&self) -> &[u8]
        ensures { result.now ≡ self.now }
    {
        &self.buffer[self.start..]
    }

    /// Passes over the frame of a message of this length.
    pub fn consume(&mut self, message_length: usize)
        requires { 4 + message_length ≤ length self.old }
        ensures { self.new ≡ drop (4 + message_length) self.old }
    {
        self.start = self.start + 4 + message_length;
        if self.start == self.buffer.len() {
            self.empty();
        }
    }

    /// Passes over all bytes. One large message doesn't hold its memory for as long as its connection lasts.
    fn empty(&mut self)
        ensures { self.new ≡ [] }
    {
        self.buffer.clear();
        self.start = 0;
        if self.buffer.capacity() > KEPT {
            self.buffer.shrink_to(0);
        }
    }

    /// The next whole message, None where the rest is no whole frame. A length above the limit is told for good.
    pub fn next(&mut self, alloc: Global) -> Result<Option<Bytes>, FrameFault>
        ensures message { IfOk result (λ m. MatchOption m (IsPartial self.old × (self.new ≡ self.old))
            (λ m. IsMessage m × (self.old ≡ frame_of m ++ self.new))) }
        ensures too_large { (n : ℕ) → result ≡ Err (FrameFault.TooLarge n) → IsTooLong self.old n }
        ensures err { OnErr result (self.new ≡ self.old) }
    {
        match self.peek() {
            Ok(None) => Ok(None),
            Ok(Some(message)) => {
                let copy = Bytes::of(alloc, message)?;
                let message_length = message.len();
                self.consume(message_length);
                Ok(Some(copy))
            }
            Err(stated) => Err(FrameFault::TooLarge(stated)),
        }
    }
}
