//! One end of a pair: a link of the port.

ghost use Rattle.std.specs.Prelude.{◌≡◌, ◌≢◌, ◌⊎◌, ℕ, ◌+◌, ◌≤◌, List, [], ◌++◌, length, drop, take, true, false, Some};
ghost use Rattle.lsv_live.specs.Ends.{Alone, EndStands, EndStep, IsClosed, IsSameLink, IsSent, Writes};
ghost use Rattle.lsv_live.specs.Pairs.{words};
ghost use Rattle.lsv_port.specs.Ledger.{Continues, HasLinkCause};
ghost use Rattle.lsv_port.specs.Port.{Changes, IsOpen, LinkState, closed, is_over};

use crate::Trouble;
use crate::kept::{Rest, Unsent};
use crate::trouble::words;
use lsv_port::{Gave, Port, Took};
use std::alloc::Global;

/// What a read came to.
#[derive(Clone, Copy, Debug, PartialEq, Eq)]
pub enum Came {
    /// There may be more messages.
    Bytes,
    /// Nothing came.
    Nothing,
    /// No more comes.
    Over,
    /// Memory ran out.
    NoMem,
}

/// The length of the buffer that links are read into.
pub const PIECE: usize = 65_536;

/// One end of a pair.
#[derive(Debug, Drop)]
pub struct End {
    pub(crate) alloc: Global,
    pub(crate) number: u32,
    pub(crate) is_open: bool,
    pub(crate) is_owed: bool,
    /// Its input ended, or a call on it failed.
    pub(crate) is_over: bool,
    /// A call on it failed.
    pub(crate) is_broken: bool,
    /// What comes is dropped.
    pub(crate) is_deaf: bool,
    /// Something that came was dropped.
    pub(crate) is_missing: bool,
    /// Something that was said isn't put.
    pub(crate) is_cut: bool,
    pub(crate) rest: Rest,
    pub(crate) unsent: Unsent,
}

impl End {
    /// A link that was just opened: nothing was read, and nothing said.
    pub(crate) fn new(alloc: Global, number: u32) -> Self
        ensures number { result.number ≡ number }
        ensures opened { (result.is_open ≡ true) × (result.is_owed ≡ true) × (result.is_over ≡ false) × (result.is_broken ≡ false) }
        ensures whole { (result.is_deaf ≡ false) × (result.is_missing ≡ false) × (result.is_cut ≡ false) }
        ensures nothing { (result.rest ≡ []) × (result.unsent ≡ []) }
    {
        End {
            alloc,
            number,
            is_open: true,
            is_owed: true,
            is_over: false,
            is_broken: false,
            is_deaf: false,
            is_missing: false,
            is_cut: false,
            rest: Rest::new(alloc),
            unsent: Unsent::new(alloc),
        }
    }

    /// No link.
    pub(crate) fn none(alloc: Global, number: u32) -> Self
        ensures number { result.number ≡ number }
        ensures closed { (result.is_open ≡ false) × (result.is_over ≡ true) × (result.is_broken ≡ false) }
        ensures whole { (result.is_missing ≡ false) × (result.is_cut ≡ false) }
        ensures nothing { (result.rest ≡ []) × (result.unsent ≡ []) }
    {
        End {
            alloc,
            number,
            is_open: false,
            is_owed: false,
            is_over: true,
            is_broken: false,
            is_deaf: true,
            is_missing: false,
            is_cut: false,
            rest: Rest::new(alloc),
            unsent: Unsent::new(alloc),
        }
    }

    /// Closes its link. What is unsent isn't put.
    pub(crate) fn close<P: Port>(&mut self, port: &mut P)
        requires is_open { P.tells → IsOpen (P.state port.old) self.old.number }
        ensures change { P.tells → Changes self.old.number (closed (is_over (P.state port.old)) ((P.state port.old).link self.old.number)) (P.state port.old) (P.state port.new) }
        ensures is { IsClosed self.old self.new }
        ensures continues { Continues (P.ledger port.old) (P.ledger port.new) }
    {
        port.close(self.number);
        self.is_open = false;
        if self.unsent.as_slice().is_empty() {
            return;
        }
        self.is_cut = true;
        self.unsent = Unsent::new(self.alloc);
    }

    /// Writes what is unsent, until nothing is, the link is full or a write fails. True if one failed. Once nothing is, it
    /// holds no memory.
    fn write_out<P: Port>(&mut self, port: &mut P) -> bool
        requires is_open { P.tells → IsOpen (P.state port.old) self.old.number }
        ensures writes { P.tells → Writes self.old self.new ((P.state port.old).link self.old.number) ((P.state port.new).link self.old.number) }
        ensures is { self.new ≡ record self.old { unsent = self.new.unsent } }
        ensures alone { P.tells → Alone self.old.number (P.state port.old) (P.state port.new) }
        ensures done { P.tells → result ≡ false → ((P.state port.new).link self.old.number).full ≡ false → self.new.unsent ≡ [] }
        ensures failed { P.tells → result ≡ true → ((P.state port.new).link self.old.number).failed ≡ true }
        ensures well { P.tells → result ≡ false → ((P.state port.new).link self.old.number).failed ≡ ((P.state port.old).link self.old.number).failed }
        ensures cause { HasLinkCause self.old.number (result ≡ true) (P.ledger port.old) (P.ledger port.new) }
    {
        'writes: while !self.unsent.as_slice().is_empty() {
            match port.write(self.number, self.unsent.as_slice()) {
                Gave::Bytes(count) => self.unsent.drop_front(count),
                Gave::NotYet => {
                    return false;
                }
                Gave::Failed => {
                    return true;
                }
            }
        }
        self.unsent = Unsent::new(self.alloc);
        false
    }

    /// Writes what is unsent, if it is open. If a write fails it is closed.
    pub(crate) fn send<P: Port>(&mut self, port: &mut P)
        requires is_open { P.tells → self.old.is_open ≡ true → IsOpen (P.state port.old) self.old.number }
        ensures step { P.tells → EndStep self.old self.new (P.state port.old) (P.state port.new) }
        ensures written { P.tells → IsSent self.new ((P.state port.new).link self.old.number) }
        ensures kept { (self.new.is_deaf ≡ self.old.is_deaf) × (self.new.is_missing ≡ self.old.is_missing) × (self.new.rest ≡ self.old.rest) × (self.new.is_owed ≡ self.old.is_owed) }
        ensures live { self.new.is_open ≡ true → self.old.is_open ≡ true }
        ensures shut { self.old.is_open ≡ false → self.new ≡ self.old }
        ensures lost { ((self.new.is_cut ≡ self.old.is_cut) × (self.new.is_broken ≡ self.old.is_broken) × (self.new.is_open ≡ self.old.is_open) × (self.new.is_over ≡ self.old.is_over)) ⊎ ((self.new.is_broken ≡ true) × (self.new.is_open ≡ false) × (self.new.is_over ≡ true)) }
        ensures continues { Continues (P.ledger port.old) (P.ledger port.new) }
    {
        if !self.is_open {
            return;
        }
        if self.write_out(port) {
            self.is_over = true;
            self.is_broken = true;
            self.close(port);
            return;
        }
    }

    /// Reads once.
    pub(crate) fn read<P: Port>(&mut self, port: &mut P, buffer: &mut [u8; PIECE]) -> Came
        requires is_open { P.tells → IsOpen (P.state port.old) self.old.number }
        requires open { self.old.is_open ≡ true }
        requires owed { self.old.is_owed ≡ true }
        requires whole { self.old.is_deaf ≡ false → self.old.is_missing ≡ false }
        ensures step { P.tells → EndStep self.old self.new (P.state port.old) (P.state port.new) }
        ensures bytes { result ≡ Came.Bytes → (self.new.is_open ≡ true) × (self.new.is_over ≡ self.old.is_over) × (self.new.is_cut ≡ self.old.is_cut) × (self.new.unsent ≡ self.old.unsent) }
        ensures nothing { result ≡ Came.Nothing → self.new ≡ record self.old { is_owed = false } }
        ensures over { result ≡ Came.Over → (self.new.is_over ≡ true) × (self.new.is_owed ≡ false) × (self.new.rest ≡ self.old.rest) × (self.new.is_missing ≡ self.old.is_missing) }
        ensures missed { result ≡ Came.NoMem → (self.new.is_open ≡ true) × (self.new.is_over ≡ self.old.is_over) × (self.new.is_cut ≡ self.old.is_cut) × (self.old.is_deaf ≡ false) × (self.new.is_deaf ≡ true) }
        ensures deaf { result ≢ Came.NoMem → self.new.is_deaf ≡ self.old.is_deaf }
        ensures kept { self.old.is_deaf ≡ true → self.new.rest ≡ self.old.rest }
        ensures hears { self.old.is_deaf ≡ false → result ≢ Came.NoMem → self.new.is_missing ≡ self.old.is_missing }
        ensures lost { ((self.new.is_cut ≡ self.old.is_cut) × (self.new.is_broken ≡ self.old.is_broken) × (self.new.is_open ≡ true)) ⊎ ((self.new.is_broken ≡ true) × (self.new.is_open ≡ false) × (self.new.is_over ≡ true)) }
        ensures continues { Continues (P.ledger port.old) (P.ledger port.new) }
    {
        match port.read(self.number, buffer) {
            Took::Bytes(count) => {
                return self.take(&buffer[..count]);
            }
            Took::NotYet => {
                self.is_owed = false;
                return Came::Nothing;
            }
            Took::End => {
                self.is_owed = false;
                self.is_over = true;
                return Came::Over;
            }
            Took::Failed => {
                self.is_owed = false;
                self.is_over = true;
                self.is_broken = true;
                self.close(port);
                return Came::Over;
            }
        }
    }

    /// These bytes came.
    fn take(&mut self, piece: &[u8]) -> Came
        requires whole { self.old.is_deaf ≡ false → self.old.is_missing ≡ false }
        ensures goes { (s t : LinkState) (taken said : List ℕ) → t ≡ record s { input = s.input ++ piece.now; reads = t.reads } → EndStands self.old s taken said → EndStands self.new t taken said }
        ensures same { (self.new.number ≡ self.old.number) × (self.new.is_open ≡ self.old.is_open) × (self.new.is_over ≡ self.old.is_over) × (self.new.unsent ≡ self.old.unsent) × (self.new.is_owed ≡ self.old.is_owed) × (self.new.is_cut ≡ self.old.is_cut) × (self.new.is_broken ≡ self.old.is_broken) }
        ensures deaf { self.old.is_deaf ≡ true → (self.new.rest ≡ self.old.rest) × (self.new.is_deaf ≡ true) × (result ≢ Came.NoMem) }
        ensures missed { result ≡ Came.NoMem → (self.old.is_deaf ≡ false) × (self.new.is_deaf ≡ true) }
        ensures hears { self.old.is_deaf ≡ false → result ≢ Came.NoMem → (self.new.is_deaf ≡ false) × (self.new.is_missing ≡ self.old.is_missing) }
        ensures bytes { (result ≡ Came.Bytes) ⊎ (result ≡ Came.NoMem) }
    {
        if self.is_deaf {
            self.is_missing = true;
            return Came::Bytes;
        }
        match self.rest.feed(piece) {
            Ok(()) => {
                return Came::Bytes;
            }
            Err(_) => {
                self.is_deaf = true;
                self.is_missing = true;
                return Came::NoMem;
            }
        }
    }

    /// Says these bytes on it. False if memory ran out now or before: then they aren't put. On a closed link they aren't
    /// put either.
    pub(crate) fn say(&mut self, bytes: &[u8]) -> bool
        ensures goes { (s : LinkState) (taken said : List ℕ) → EndStands self.old s taken said → EndStands self.new s taken (said ++ bytes.now) }
        ensures same { IsSameLink self.old self.new }
        ensures rest { self.new.rest ≡ self.old.rest }
        ensures kept { result ≡ true → self.new.is_cut ≡ true → self.new.is_open ≡ false }
        ensures missed { result ≡ false → (s : LinkState) (taken said more : List ℕ) → EndStands self.old s taken said → EndStands self.new s taken (said ++ more) }
    {
        if !self.is_open {
            self.is_cut = true;
            return true;
        }
        if self.is_cut {
            return false;
        }
        if self.unsent.add(bytes).is_err() {
            self.is_cut = true;
            return false;
        }
        true
    }

    /// What is said next isn't put, whatever it is.
    pub(crate) fn miss(&mut self)
        ensures goes { (s : LinkState) (taken said more : List ℕ) → EndStands self.old s taken said → EndStands self.new s taken (said ++ more) }
        ensures same { IsSameLink self.old self.new }
        ensures rest { self.new.rest ≡ self.old.rest }
    {
        self.is_cut = true;
    }

    /// Says the error of a trouble on it. False if memory ran out: then neither it nor what is said next is put.
    pub(crate) fn say_trouble(&mut self, trouble: &Trouble) -> bool
        ensures goes { result ≡ true → (s : LinkState) (taken said : List ℕ) → EndStands self.old s taken said → EndStands self.new s taken (said ++ words (Some trouble.now)) }
        ensures missed { result ≡ false → (s : LinkState) (taken said more : List ℕ) → EndStands self.old s taken said → EndStands self.new s taken (said ++ more) }
        ensures same { IsSameLink self.old self.new }
        ensures rest { self.new.rest ≡ self.old.rest }
        ensures kept { result ≡ true → self.new.is_cut ≡ true → self.new.is_open ≡ false }
    {
        match words(self.alloc, trouble) {
            Ok(words) => {
                return self.say(words.as_slice());
            }
            Err(_) => {
                self.miss();
                return false;
            }
        }
    }

    /// Passes over the frame of a message of this length, which was taken.
    pub(crate) fn pass_over(&mut self, message_length: usize)
        requires { 4 + message_length ≤ length self.old.rest }
        ensures goes { (s : LinkState) (taken said : List ℕ) → EndStands self.old s taken said → EndStands self.new s (taken ++ take (4 + message_length) self.old.rest) said }
        ensures rest { self.new.rest ≡ drop (4 + message_length) self.old.rest }
        ensures same { IsSameLink self.old self.new }
        ensures said { (self.new.is_cut ≡ self.old.is_cut) × (self.new.unsent ≡ self.old.unsent) }
    {
        self.rest.consume(message_length);
    }
}
