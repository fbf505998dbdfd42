//! A speaker that follows a script.

ghost use Rattle.std.specs.Prelude.{◌≡◌, ◌≤◌, length, true, IfOk};
ghost use Rattle.lsvt_rows_relay.specs.Script.{judged_of, wanted};

use lsv_base::{Bytes, List, NoMem};
use lsv_dialogue::{Judged, MOST_PUT, Speaker, Wants};
use lsv_msg::{Boxed, ClientHello, ClientMessage, ServerMessage};
use std::alloc::Global;

/// An identifier above this length is refused.
const LONGEST_ID: usize = 8;

/// A step of this number of messages says one that is longer than a frame may be.
const TOO_LONG: u64 = 99;

/// The opening, and then each step, says the next number of messages, and then none.
#[derive(Drop)]
pub struct Scripted {
    alloc: Global,
    says: Vec<u64>,
    next: usize,
    /// It is content after this many messages were heard, and wants this then.
    after: Option<u64>,
    wish: Wants,
    pub heard: u64,
    /// The messages that were heard after a write had stopped.
    pub late: u64,
    /// It said something last, or nothing yet: it wants more then.
    pub busy: bool,
    /// Whether an error or an abort was heard.
    pub last: bool,
}

impl Scripted {
    pub fn new(alloc: Global, says: Vec<u64>, after: Option<u64>, wish: Wants) -> Self
        ensures { result.busy ≡ true }
    {
        Scripted {
            alloc,
            says,
            next: 0,
            after,
            wish,
            heard: 0,
            late: 0,
            busy: true,
            last: false,
        }
    }

    /// A hello of a client whose name has this many bytes.
    fn hello(&self, length: usize) -> Result<ClientMessage, NoMem> {
        let mut name = Vec::new(self.alloc);
        name.resize(length, b'n')?;
        let hello = ClientHello {
            client_id: Bytes::from_vec(name),
        };
        Ok(ClientMessage::Hello(hello))
    }

    /// Says the next number of messages, but no more than this.
    fn say(&mut self, most: usize) -> Result<List<ClientMessage>, NoMem>
        requires { 1 ≤ most }
        ensures few { IfOk result (λ messages. length messages ≤ most) }
        ensures same { (self.new.heard ≡ self.old.heard) × (self.new.after ≡ self.old.after) × (self.new.wish ≡ self.old.wish) × (self.new.busy ≡ self.old.busy) }
    {
        let count = self.says.get(self.next).copied().unwrap_or(0);
        self.next = self.next.saturating_add(1);
        let mut messages = Vec::new(self.alloc);
        if count == TOO_LONG {
            messages.push(self.hello(2_097_152)?)?;
            return Ok(List::from_vec(messages));
        }
        for _ in 0..most.min(count as usize) {
            messages.push(self.hello(1)?)?;
        }
        Ok(List::from_vec(messages))
    }
}

impl Speaker<u32> for Scripted {
    type Fault = NoMem;

    ghost Start = { Unit {0} };

    ghost manner = { λ _. record { talks = λ _ _ _. Unit {0}; fails = λ _ _ _ _. Unit {0}; judges = λ _ message. judged_of message; opened = λ _. Unit {0}; quiet = λ _. Unit {0}; wants = wanted } };

    fn judge(&self, message: &ServerMessage) -> Judged {
        match message {
            ServerMessage::LogId(id) if id.as_slice().len() > LONGEST_ID => {
                Judged::LongId(id.as_slice().len() as u64)
            }
            _ => Judged::Takes,
        }
    }

    fn wants(&self) -> Wants {
        if self.busy {
            return Wants::More;
        }
        match self.after {
            Some(count) if self.heard >= count => self.wish,
            _ => Wants::More,
        }
    }

    /// The world counts the steps, and this is the first.
    fn open(&mut self, world: &mut u32) -> Result<List<ClientMessage>, NoMem> {
        self.busy = true;
        *world = world.saturating_add(1);
        self.say(MOST_PUT)
    }

    fn step(&mut self, world: &mut u32, most: usize) -> Result<List<ClientMessage>, NoMem> {
        *world = world.saturating_add(1);
        let messages = self.say(most)?;
        self.busy = !messages.as_slice().is_empty();
        Ok(messages)
    }

    fn hear(&mut self, _: &mut u32, message: &ServerMessage) -> Result<(), NoMem> {
        if let ServerMessage::Error(_) | ServerMessage::Abort(_) = message {
            self.last = true;
            return Ok(());
        }
        self.heard = self.heard.saturating_add(1);
        Ok(())
    }

    fn hear_late(&mut self, _: &mut u32, _: &ServerMessage) -> Result<(), NoMem> {
        self.late = self.late.saturating_add(1);
        Ok(())
    }
}
