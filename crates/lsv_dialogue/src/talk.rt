//! How a conversation stands, and what is said in it.

ghost use Rattle.std.specs.Prelude.{◌≡◌, ◌≢◌, ◌⊎◌, ◌+◌, ◌≤◌, ◌<◌, ℕ, [], length, IfOk, IfErr, OnErr};
ghost use Rattle.lsv_link.specs.Link.{IsConnected};
ghost use Rattle.lsv_wire.specs.Frame.{IsPartial};
ghost use Rattle.lsv_dialogue.specs.Ends.{IsFresh};
ghost use Rattle.lsv_dialogue.specs.Stands.{Breaks, Goes, IsNew, SaidSo, Sends, Speaks, View};

use crate::put::put_all;
use crate::{End, MOST_PUT, Speaker, TalkFault, Wants};
use lsv_base::NoMem;
use lsv_link::Link;
use lsv_msg::ClientMessage;
use lsv_wire::Framer;
use std::alloc::Global;

/// Why writing stopped.
#[derive(Clone, Copy, Debug, PartialEq, Eq)]
pub(crate) enum Halt {
    NotYet,
    Failed,
    /// The next message has this many bytes, above the limit of a frame.
    TooLong(u64),
}

/// What came of saying.
#[derive(Clone, Copy, Debug, PartialEq, Eq)]
pub(crate) enum Spoken {
    /// Nothing more may be said before a further message.
    Quiet,
    /// This many messages were said, and put.
    Said(usize),
    Halted(Halt),
}

/// A conversation on a connection.
#[derive(Drop)]
pub(crate) struct Talk {
    pub(crate) alloc: Global,
    /// The bytes that were read and are no message that was heard yet.
    pub(crate) framer: Framer,
    pub(crate) buffer: Vec<u8>,
    /// How many messages were heard.
    pub(crate) heard: u32,
    /// Whether an identifier was heard.
    pub(crate) known: bool,
    /// One more than the greatest commit point that was heard, in nanoseconds, or 0.
    pub(crate) top: u64,
    /// Whether what was heard since the last read was progress.
    pub(crate) came: bool,
}

/// The room for one read, in bytes.
pub(crate) const BUFFER: usize = 65_536;

impl Talk {
    /// Nothing was said or heard.
    pub(crate) fn new(alloc: Global) -> Result<Talk, NoMem>
        ensures { IfOk result IsNew }
    {
        let mut buffer = Vec::new(alloc);
        buffer.resize(BUFFER, 0u8)?;
        Ok(Talk {
            alloc,
            framer: Framer::new(alloc),
            buffer,
            heard: 0,
            known: false,
            top: 0,
            came: false,
        })
    }

    /// Puts these messages, after others in this round. If all were put, the connection is renewed.
    fn put<L: Link>(
        &self,
        link: &mut L,
        messages: &[ClientMessage],
        others: usize,
    ) -> Result<Spoken, NoMem>
        requires connected { L.tells → IsConnected (L.state link.old) }
        requires few { others + length messages.now ≤ MOST_PUT }
        ensures sends { IfOk result (λ spoken. Sends others spoken L.tells messages.now (L.counts link.old, L.state link.old) (L.counts link.new, L.state link.new)) }
        ensures same { OnErr result ((L.state link.new ≡ L.state link.old) × (L.counts link.new ≡ L.counts link.old)) }
    {
        if messages.is_empty() {
            return Ok(Spoken::Said(others));
        }
        if let Some(halt) = put_all(self.alloc, link, messages)? {
            return Ok(Spoken::Halted(halt));
        }
        link.renew();
        Ok(Spoken::Said(others + messages.len()))
    }

    /// Opens the conversation, and says on.
    pub(crate) fn open<W, S: Speaker<W>, L: Link>(
        &mut self,
        speaker: &mut S,
        world: &mut W,
        link: &mut L,
    ) -> Result<Option<End>, TalkFault<S::Fault>>
        requires begun { (start : S.Start) × (S.manner start).talks speaker.old world.old [] }
        requires wants { (start : S.Start) → (S.manner start).wants speaker.old ≡ Wants.More }
        requires fresh { L.tells → IsFresh (L.state link.old) }
        requires new { IsNew self.old }
        ensures goes { IfOk result (λ end. (start : S.Start) → (S.manner start).talks speaker.old world.old [] → Goes (S.manner start) L.tells (L.counts link.old, L.state link.old) end self.new speaker.new world.new (L.counts link.new, L.state link.new)) }
        ensures broke { IfErr result (λ fault. (start : S.Start) → (S.manner start).talks speaker.old world.old [] → Breaks (S.manner start) L.tells (L.counts link.old, L.state link.old) speaker.new world.new (L.counts link.new, L.state link.new) fault) }
    {
        let opening = match speaker.open(world) {
            Ok(messages) => messages,
            Err(fault) => return Err(TalkFault::Speaker(fault)),
        };
        let Ok(spoken) = self.put(link, opening.as_slice(), 0) else {
            return Err(TalkFault::NoMem);
        };
        match spoken {
            Spoken::Halted(halt) => Ok(Some(self.drain(speaker, world, link, halt)?)),
            Spoken::Said(put) => self.go_on(speaker, world, link, put),
            Spoken::Quiet => unreachable!(),
        }
    }

    /// Does a step, and puts what it says, after this many other messages in this round.
    fn step<W, S: Speaker<W>, L: Link>(
        &mut self,
        speaker: &mut S,
        world: &mut W,
        link: &mut L,
        put: usize,
    ) -> Result<Spoken, TalkFault<S::Fault>>
        requires speaks { (start : S.Start) × (begun : View) × Speaks (S.manner start) L.tells begun [] put self.old speaker.old world.old (L.counts link.old, L.state link.old) }
        requires wants { (start : S.Start) → (S.manner start).wants speaker.old ≢ Wants.Nothing }
        requires partial { IsPartial self.old.framer }
        requires room { put < MOST_PUT }
        ensures says { IfOk result (λ spoken. (start : S.Start) (begun : View) → Speaks (S.manner start) L.tells begun [] put self.old speaker.old world.old (L.counts link.old, L.state link.old) → SaidSo (S.manner start) L.tells begun spoken self.new speaker.new world.new (L.counts link.new, L.state link.new)) }
        ensures more { IfOk result (λ spoken. (n : ℕ) → spoken ≡ Spoken.Said n → (put < n) × (n ≤ MOST_PUT)) }
        ensures broke { IfErr result (λ fault. (start : S.Start) (begun : View) → Speaks (S.manner start) L.tells begun [] put self.old speaker.old world.old (L.counts link.old, L.state link.old) → Breaks (S.manner start) L.tells begun speaker.new world.new (L.counts link.new, L.state link.new) fault) }
        ensures rest { self.new ≡ self.old }
        ensures wants { IfOk result (λ spoken. spoken ≢ Spoken.Quiet → (start : S.Start) → (S.manner start).wants speaker.new ≡ Wants.More) }
    {
        let messages = match speaker.step(world, MOST_PUT - put) {
            Ok(messages) => messages,
            Err(fault) => return Err(TalkFault::Speaker(fault)),
        };
        let next = messages.as_slice();
        if next.is_empty() {
            return Ok(Spoken::Quiet);
        }
        let Ok(spoken) = self.put(link, next, put) else {
            return Err(TalkFault::NoMem);
        };
        Ok(spoken)
    }

    /// Says what may be said, until nothing may be or 16 messages were put in this round.
    pub(crate) fn say_on<W, S: Speaker<W>, L: Link>(
        &mut self,
        speaker: &mut S,
        world: &mut W,
        link: &mut L,
        put: usize,
    ) -> Result<Spoken, TalkFault<S::Fault>>
        requires speaks { (start : S.Start) × (begun : View) × Speaks (S.manner start) L.tells begun [] put self.old speaker.old world.old (L.counts link.old, L.state link.old) }
        requires wants { (start : S.Start) → (S.manner start).wants speaker.old ≡ Wants.More ⊎ ((put ≡ 0) × ((S.manner start).wants speaker.old ≢ Wants.Nothing)) }
        requires partial { IsPartial self.old.framer }
        requires few { put ≤ MOST_PUT }
        ensures says { IfOk result (λ spoken. (start : S.Start) (begun : View) → Speaks (S.manner start) L.tells begun [] put self.old speaker.old world.old (L.counts link.old, L.state link.old) → SaidSo (S.manner start) L.tells begun spoken self.new speaker.new world.new (L.counts link.new, L.state link.new)) }
        ensures full { IfOk result (λ spoken. (n : ℕ) → spoken ≡ Spoken.Said n → MOST_PUT ≤ n) }
        ensures broke { IfErr result (λ fault. (start : S.Start) (begun : View) → Speaks (S.manner start) L.tells begun [] put self.old speaker.old world.old (L.counts link.old, L.state link.old) → Breaks (S.manner start) L.tells begun speaker.new world.new (L.counts link.new, L.state link.new) fault) }
        ensures rest { self.new ≡ self.old }
        ensures wants { IfOk result (λ spoken. spoken ≢ Spoken.Quiet → (start : S.Start) → (S.manner start).wants speaker.new ≡ Wants.More) }
    {
        let mut all = put;
        'steps: for _ in 0..MOST_PUT {
            if all >= MOST_PUT {
                return Ok(Spoken::Said(all));
            }
            let spoken = self.step(speaker, world, link, all)?;
            match spoken {
                Spoken::Said(count) => all = count,
                Spoken::Quiet => return Ok(Spoken::Quiet),
                Spoken::Halted(halt) => return Ok(Spoken::Halted(halt)),
            }
        }
        Ok(Spoken::Said(all))
    }
}
