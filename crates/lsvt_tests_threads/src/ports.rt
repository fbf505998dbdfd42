//! Ports that wait for each other, or for a disk.

ghost use Rattle.std.specs.Prelude.{◌≡◌};
ghost use Rattle.lsv_port.specs.Memory.Value.{port_ledger, port_state};

use crate::meeting::Meeting;
use lsv_port::{Gave, MemPort, Port, PortFault, Ready, Took};
use lsvt_doubles::Watched;

/// What a port does at the meeting.
#[derive(Clone, Copy, Debug, PartialEq, Eq)]
pub(crate) enum Part {
    /// Its first read is where one stays.
    Stays,
    /// From this turn on, counted from 0, it tells nothing until one has entered. It answers when a link of it has been put a log's
    /// number.
    Answers { after: u32 },
    /// It answers when it's handed a link that is held, since an inbox is full.
    Fills,
}

/// A port in memory that takes part in a meeting.
#[derive(Drop)]
pub(crate) struct Meets<'a> {
    pub port: Watched,
    part: Part,
    meeting: &'a Meeting,
    turns: u32,
    has_read: bool,
}

/// Whether these bytes have the server's hello and another message.
fn has_answer(put: &[u8]) -> bool {
    let [_, _, _, length, ..] = put else {
        return false;
    };
    put.len() > usize::from(*length).saturating_add(8)
}

impl<'a> Meets<'a> {
    /// It wasn't used yet.
    pub fn new(port: Watched, part: Part, meeting: &'a Meeting) -> Self {
        Meets {
            port,
            part,
            meeting,
            turns: 0,
            has_read: false,
        }
    }

    /// Whether this turn is to tell nothing.
    fn is_held(&self) -> bool {
        match self.part {
            Part::Stays | Part::Fills => false,
            Part::Answers { after } => after <= self.turns && !self.meeting.is_entered(),
        }
    }
}

impl Port for Meets<'_> {
    ghost tells = { ⊥ };

    ghost state = { λ p. port_state p.port.port };

    ghost ledger = { λ p. port_ledger p.port.port };

    ghost open_was_opened = { λ told. absurd told };

    fn listen(&mut self, address: &str, stop_after: Option<u32>) -> Result<(), PortFault> {
        self.port.listen(address, stop_after)
    }

    fn turn(&mut self, held: &[u32]) -> Result<Ready, PortFault> {
        if self.is_held() {
            return Ok(Ready::Woken);
        }
        self.turns = self.turns.saturating_add(1);
        if self.part == Part::Fills && held.iter().any(|link| *link > 0) {
            self.meeting.answer();
        }
        self.port.turn(held)
    }

    fn read(&mut self, link: u32, buf: &mut [u8]) -> Took {
        if self.part == Part::Stays && !self.has_read {
            self.has_read = true;
            self.meeting.wait_inside();
        }
        self.port.read(link, buf)
    }

    fn write(&mut self, link: u32, bytes: &[u8]) -> Gave {
        let gave = self.port.write(link, bytes);
        if matches!(self.part, Part::Answers { .. }) && has_answer(self.port.port.output(link)) {
            self.meeting.answer();
        }
        gave
    }

    fn close(&mut self, link: u32) {
        self.port.close(link);
    }
}
