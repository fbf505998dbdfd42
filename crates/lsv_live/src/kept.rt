//! The bytes that an end of a pair holds. There are never more than their types say.

ghost use Rattle.std.specs.Prelude.{◌≡◌, ◌+◌, ◌≤◌, [], ◌++◌, length, drop, MatchOption, IfOk, IfErr, OnOk, OnErr};
ghost use Rattle.lsv_wire.specs.Frame.{frame_of, IsMessage, IsPartial, IsTooLong};

use lsv_base::{Bytes, NoMem};
use lsv_wire::Framer;
use std::alloc::Global;
use std::marker::Model;

/// A frame of the largest message, and one read of 65,536 bytes.
const MOST_READ: usize = 2_162_692;

/// What such bytes of the partner become, what was unsent before, and room for the shortest of messages in a longer spelling.
const MOST_UNSENT: usize = 2_359_296;

/// The bytes that were read and not taken, at most 2,162,692. Contracts see them.
#[derive(Debug, Drop)]
pub struct Rest {
    framer: Framer,
}

impl Model for Rest {
    ghost use Rattle.std.specs.Prelude.{ℕ, ◌≤◌, List, length};

    ghost Value = { List ℕ };

    ghost view = { λ r. r.framer };

    ghost invariant = { λ r. length r.framer ≤ 2162692 };
}

impl Rest {
    /// No bytes.
    pub(crate) fn new(alloc: Global) -> Self
        ensures { result ≡ [] }
    {
        Rest {
            framer: Framer::new(alloc),
        }
    }

    /// Takes what was read, if there is room for it.
    pub(crate) fn feed(&mut self, piece: &[u8]) -> Result<(), NoMem>
        ensures ok { OnOk result (self.new ≡ self.old ++ piece.now) }
        ensures err { OnErr result (self.new ≡ self.old) }
    {
        if piece.len() > MOST_READ - self.framer.held().len() {
            return Err(NoMem);
        }
        self.framer.feed(piece)
    }

    /// The next whole message. An error is the stated length.
    pub(crate) fn peek(&self) -> Result<Option<&[u8]>, u32>
        ensures message { IfOk result (λ m. MatchOption m (IsPartial self.now)
            (λ m. IsMessage m.now × (self.now ≡ frame_of m.now ++ drop (4 + length m.now) self.now))) }
        ensures too_large { IfErr result (IsTooLong self.now) }
    {
        self.framer.peek()
    }

    /// All of them.
    pub(crate) fn held(&self) -> &[u8]
        ensures { result.now ≡ self.now }
    {
        self.framer.held()
    }

    /// How many there are.
    pub(crate) fn len(&self) -> usize
        ensures count { result ≡ length self.now }
        ensures most { result ≤ 2162692 }
    {
        self.framer.held().len()
    }

    /// Passes over the frame of a message of this length.
    pub(crate) fn consume(&mut self, message_length: usize)
        requires { 4 + message_length ≤ length self.old }
        ensures { self.new ≡ drop (4 + message_length) self.old }
    {
        self.framer.consume(message_length);
    }
}

/// The bytes that were said and aren't put, at most 2,359,296. Contracts see them.
#[derive(Debug, Drop)]
pub struct Unsent {
    bytes: Bytes,
}

impl Model for Unsent {
    ghost use Rattle.std.specs.Prelude.{ℕ, ◌≤◌, List, length};

    ghost Value = { List ℕ };

    ghost view = { λ u. u.bytes };

    ghost invariant = { λ u. length u.bytes ≤ 2359296 };
}

impl Unsent {
    /// No bytes. It takes no memory.
    pub(crate) fn new(alloc: Global) -> Self
        ensures { result ≡ [] }
    {
        Unsent {
            bytes: Bytes::new(alloc),
        }
    }

    /// Puts these bytes at the end, if there is room for them.
    pub(crate) fn add(&mut self, bytes: &[u8]) -> Result<(), NoMem>
        ensures ok { OnOk result (self.new ≡ self.old ++ bytes.now) }
        ensures err { OnErr result (self.new ≡ self.old) }
    {
        if bytes.len() > MOST_UNSENT - self.bytes.as_slice().len() {
            return Err(NoMem);
        }
        self.bytes.add(bytes)
    }

    /// Forgets the first bytes, this many.
    pub(crate) fn drop_front(&mut self, count: usize)
        requires { count ≤ length self.old }
        ensures { self.new ≡ drop count self.old }
    {
        self.bytes.drop_front(count);
    }

    /// All of them.
    pub(crate) fn as_slice(&self) -> &[u8]
        ensures { result.now ≡ self.now }
    {
        self.bytes.as_slice()
    }

    /// How many there are.
    pub(crate) fn len(&self) -> usize
        ensures count { result ≡ length self.now }
        ensures most { result ≤ 2359296 }
    {
        self.bytes.as_slice().len()
    }
}
