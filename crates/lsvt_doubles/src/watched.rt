ghost use Rattle.std.specs.Prelude.{◌≡◌};
ghost use Rattle.lsv_port.specs.Memory.Value.{port_ledger, port_state};

use lsv_port::{Gave, MemPort, Port, PortFault, Ready, Took};
use std::alloc::Global;

/// A port that hands each call on to one in memory, and tells nothing itself: so whoever uses it owes nothing, and what it does
/// wrong is noted.
#[derive(Drop)]
pub struct Watched {
    alloc: Global,
    pub port: MemPort,
    /// The links that each turn was handed as held.
    pub held: Vec<Vec<u32>>,
    /// How often a link was used that wasn't open.
    pub misused: u32,
    /// The longest buffer that a link was read into, in bytes.
    pub longest: usize,
}

impl Watched {
    /// It wasn't used yet.
    pub fn new(alloc: Global, port: MemPort) -> Self {
        Watched {
            alloc,
            port,
            held: Vec::new(alloc),
            misused: 0,
            longest: 0,
        }
    }

    /// A use of a link is noted. True where it is open.
    fn is_open(&mut self, link: u32) -> bool
        ensures open { result ≡ ((port_state self.old.port).link link).is_open }
        ensures same { self.new.port ≡ self.old.port }
    {
        let is_open = self.port.is_open(link);
        if !is_open {
            self.misused = self.misused.saturating_add(1);
        }
        is_open
    }
}

impl Port for Watched {
    ghost tells = { ⊥ };

    ghost state = { λ p. port_state p.port };

    ghost ledger = { λ p. port_ledger p.port };

    ghost open_was_opened = { λ told. absurd told };

    fn listen(&mut self, address: &str, stop_after: Option<u32>) -> Result<(), PortFault> {
        self.port.listen(address, stop_after)
    }

    fn turn(&mut self, held: &[u32]) -> Result<Ready, PortFault> {
        if let Ok(links) = held.to_vec(self.alloc) {
            let _ = self.held.push(links);
        }
        self.port.turn(held)
    }

    fn read(&mut self, link: u32, buf: &mut [u8]) -> Took {
        self.longest = self.longest.max(buf.len());
        if !self.is_open(link) {
            return Took::NotYet;
        }
        self.port.read(link, buf)
    }

    fn write(&mut self, link: u32, bytes: &[u8]) -> Gave {
        if !self.is_open(link) {
            return Gave::NotYet;
        }
        self.port.write(link, bytes)
    }

    fn close(&mut self, link: u32) {
        if self.is_open(link) {
            self.port.close(link);
        }
    }
}
