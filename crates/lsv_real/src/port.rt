// The port of the operating system, over epoll(7). It tells no content, and counts its faults.
ghost use Rattle.std.specs.Prelude.{◌≡◌, IfOk};
ghost use Rattle.lsv_real.specs.UntoldPort.{untold_port, ledger_of};

mod accepted;
mod address;
mod bell;
mod door;
mod leaving;
mod pause;
mod wakes;

use crate::limit::CLIENTS_OF_PORT;
use accepted::Accepted;
use address::advice;
pub use bell::MioBell;
use door::{Door, Settled};
use leaving::Leaving;
use lsv_port::{Gave, Port, PortFault, Ready, Took};
use lsv_real_disk::Reports;
use mio::net::TcpStream;
use std::alloc::{AllocError, Global};
use std::collections::HashMap;
use std::io;
use std::io::ErrorKind;
use std::net::{Net, SocketAddr};
use std::sync::Arc;
use wakes::Wakes;

/// The port of the operating system. All ports of a program share one listening socket, at which the first that
/// listens begins. Each port has 128 links at most, and leaves further connections to the others. While all places are taken the socket
/// doesn't listen, so that the system refuses connections. A turn that has nothing to tell answers `Woken` after at most 50 ms. A
/// connection that can't be taken for want of memory or of descriptors waits, or is closed at once and is no link.
#[derive(Drop)]
pub struct MioPort<N: Net + Drop> {
    /// Who reports failures of the port as a whole, and counts them.
    reports: Reports,
    net: N,
    door: Arc<Door, Global>,
    bell: MioBell,
    wakes: Option<Wakes>,
    links: HashMap<u32, Accepted>,
    leaving: Leaving,
    /// The number of the link that was opened last.
    last: u32,
    /// A turn tells Stop once this many links of all ports were closed.
    stop_after: Option<u32>,
    /// How often a link failed.
    link_faults: u64,
}

impl<N: Net + Drop> MioPort<N> {
    /// A port that doesn't listen yet. Its faults are reported on standard error, a line each, under the program's name.
    pub fn new(rt: HostRuntime, net: N, program: &'static str) -> Result<Self, AllocError>
        ensures { IfOk result (λ p. ⟦<MioPort<N> as Port>⟧.ledger p ≡ ledger_of 0 0) }
    {
        let door = Arc::new(rt.alloc(), Door::new(&rt))?;
        Ok(MioPort::at(rt, net, program, door, MioBell::new(rt.alloc())?))
    }

    /// A port that shares the listening socket of this one.
    pub fn beside(&self, net: N) -> Result<Self, AllocError>
        ensures { IfOk result (λ p. ⟦<MioPort<N> as Port>⟧.ledger p ≡ ledger_of 0 0) }
    {
        let door = Arc::try_clone(&self.door)?;
        let rt = self.reports.rt;
        let bell = MioBell::new(rt.alloc())?;
        self.door.count_port();
        Ok(MioPort::at(rt, net, self.reports.program, door, bell))
    }

    /// A handle of this port's own bell, for another thread.
    pub fn bell(&self) -> Result<MioBell, AllocError> {
        self.bell.try_clone()
    }

    fn at(
        rt: HostRuntime,
        net: N,
        program: &'static str,
        door: Arc<Door, Global>,
        bell: MioBell,
    ) -> Self
        ensures turns { result.reports.faults ≡ 0 }
        ensures links { result.link_faults ≡ 0 }
    {
        MioPort {
            reports: Reports::new(rt, program),
            net,
            door,
            bell,
            wakes: None,
            links: HashMap::new(rt.alloc()),
            leaving: Leaving::new(rt.alloc()),
            last: 0,
            stop_after: None,
            link_faults: 0,
        }
    }
}

impl<N: Net + Drop> MioPort<N> {
    /// Begins to listen, where it doesn't yet.
    fn start(&mut self, address: &str) -> io::Result<()>
        ensures turns { self.new.reports.faults ≡ self.old.reports.faults }
        ensures links { self.new.link_faults ≡ self.old.link_faults }
    {
        let sockets = self.door.sockets(&self.net, address)?;
        let wakes = Wakes::new(self.reports.rt.alloc(), &self.net, sockets)?;
        self.bell.set(wakes.waker()?);
        self.wakes = Some(wakes);
        Ok(())
    }

    /// What the next turn tells.
    fn next(&mut self, held: &[u32]) -> io::Result<Ready>
        ensures turns { self.new.reports.faults ≡ self.old.reports.faults }
        ensures links { self.new.link_faults ≡ self.old.link_faults }
    {
        let is_over = self.is_over();
        self.settle(is_over);
        if is_over {
            return Ok(Ready::Stop);
        }
        if let Some(ready) = self.at_once(held) {
            return Ok(ready);
        }
        let Some(wakes) = &mut self.wakes else {
            return Err(ErrorKind::NotConnected.into());
        };
        wakes.wait(held)?;
        self.leaving.drain(&self.reports.rt);
        Ok(self.at_once(held).unwrap_or(Ready::Woken))
    }

    /// This many links were closed that Stop is told.
    fn is_over(&self) -> bool {
        match self.stop_after {
            Some(count) => self.door.closed() >= u64::from(count),
            None => false,
        }
    }

    /// What is told without a wait: what the last one gave, and then one connection.
    fn at_once(&mut self, held: &[u32]) -> Option<Ready>
        ensures turns { self.new.reports.faults ≡ self.old.reports.faults }
        ensures links { self.new.link_faults ≡ self.old.link_faults }
    {
        let told = self.wakes.as_mut()?.next(&mut self.links, held);
        match told {
            Some(_) => told,
            None => self.open(),
        }
    }

    /// Takes a connection, where one waits and there is a place for it, of this port and of all. The sockets learn first that there is
    /// one place less, so that no more connections wait at them than get one.
    fn open(&mut self) -> Option<Ready>
        ensures turns { self.new.reports.faults ≡ self.old.reports.faults }
        ensures links { self.new.link_faults ≡ self.old.link_faults }
    {
        let wakes = self.wakes.as_mut()?;
        if !wakes.may_accept() {
            return None;
        }
        let has_room = (self.links.len() as u64) < CLIENTS_OF_PORT && self.door.begin_taking();
        if !has_room {
            let _ = wakes.accept(false);
            return None;
        }
        self.settle(false);
        let taken = self.wakes.as_mut()?.accept(true);
        self.door.end_taking(taken.is_some());
        self.settle(false);
        let ready = self.opened(taken?);
        if ready.is_none() {
            self.door.count_lost();
        }
        ready
    }

    /// A connection becomes a link. None if the numbers are used up, or memory ran out.
    fn opened(&mut self, stream: TcpStream) -> Option<Ready>
        ensures turns { self.new.reports.faults ≡ self.old.reports.faults }
        ensures links { self.new.link_faults ≡ self.old.link_faults }
    {
        let mut stream = stream;
        let wakes = self.wakes.as_mut()?;
        let link = self.last.checked_add(1)?;
        // What is put is small, and is not to wait for an answer of the peer.
        let _ = stream.set_nodelay(true);
        wakes.add(&mut stream, link).ok()?;
        self.links.insert(link, Accepted::new(stream)).ok()?;
        self.last = link;
        Some(Ready::Opened(link))
    }
}

impl<N: Net + Drop> MioPort<N> {
    /// The address at which it listens, as the system chose it where the port number is 0.
    pub fn local_addr(&self) -> io::Result<SocketAddr> {
        match &self.wakes {
            Some(wakes) => wakes.local_addr(),
            None => Err(ErrorKind::NotConnected.into()),
        }
    }

    /// Lets the sockets listen while there are places. Says, at most once a minute, if there are none any more.
    fn settle(&self, is_over: bool) {
        match self.door.settle(is_over) {
            Settled::Same => {}
            Settled::Full => self.report_full(),
            Settled::Deaf => self.report_deaf(),
        }
    }

    /// Says that all places are taken, at most once a minute.
    fn report_full(&self) {
        let rt = &self.reports.rt;
        if !self.door.full.is_due(rt) {
            return;
        }
        let program = self.reports.program;
        let places = self.door.places();
        let port = self.local_addr().map_or(0, |address| address.port());
        let text = format!(in rt.alloc();
            "{program}: {places} clients are connected, which is as many as are served: further ones are refused until one leaves; see who they are by ss -tn 'sport = :{port}'"
        );
        if let Ok(text) = text {
            self.reports.say(text.as_str());
        }
    }

    /// Says that the sockets can't listen again, at most once a minute.
    fn report_deaf(&self) {
        let rt = &self.reports.rt;
        if !self.door.deaf.is_due(rt) {
            return;
        }
        let program = self.reports.program;
        let port = self.local_addr().map_or(0, |address| address.port());
        let text = format!(in rt.alloc();
            "{program}: port {port}: it can't listen again, since another program listens there: end that; it is tried again all the time"
        );
        if let Ok(text) = text {
            self.reports.say(text.as_str());
        }
    }

    /// Says that a link was turned away for want of memory, at most once a minute.
    fn report_turned_away(&self, accepted: &Accepted) {
        let rt = &self.reports.rt;
        if !self.door.turned_away.is_due(rt) {
            return;
        }
        let Some(peer) = accepted.peer() else {
            return;
        };
        let program = self.reports.program;
        let text = format!(in rt.alloc();
            "{program}: {peer} was turned away: memory ran out for it"
        );
        if let Ok(text) = text {
            self.reports.say(text.as_str());
        }
    }

    /// Says on standard error why a call of the port as a whole failed, and what to do.
    fn say(&self, what: &str, e: &io::Error, todo: &str) {
        let program = self.reports.program;
        let text = format!(in self.reports.rt.alloc(); "{program}: {what}: {e}{todo}");
        if let Ok(text) = text {
            self.reports.say(text.as_str());
        }
    }

    /// Says why it can't listen, unless another port of the program said so: all share one address.
    fn say_refusal(&self, address: &str, e: &io::Error) {
        if self.door.is_first_refusal() {
            self.say(address, e, advice(e));
        }
    }

    /// Bytes went over a link.
    fn note_moved(&mut self)
        ensures turns { self.new.reports.faults ≡ self.old.reports.faults }
        ensures links { self.new.link_faults ≡ self.old.link_faults }
    {
        if let Some(wakes) = &mut self.wakes {
            wakes.note_moved();
        }
    }
}

impl<N: Net + Drop> Port for MioPort<N> {
    ghost tells = { ⊥ };

    ghost state = { λ _. untold_port };

    ghost ledger = { λ p. ledger_of p.reports.faults p.link_faults };

    ghost open_was_opened = { λ told. absurd told };

    fn listen(&mut self, address: &str, stop_after: Option<u32>) -> Result<(), PortFault> {
        self.stop_after = stop_after;
        let answer = self.start(address);
        if let Err(e) = &answer {
            self.say_refusal(address, e);
        }
        self.reports.checked(answer, PortFault)
    }

    fn turn(&mut self, held: &[u32]) -> Result<Ready, PortFault> {
        let answer = self.next(held);
        if let Err(e) = &answer {
            self.say("the port", e, "");
        }
        self.reports.checked(answer, PortFault)
    }

    fn read(&mut self, link: u32, buf: &mut [u8]) -> Took {
        let took = match self.links.get_mut(&link) {
            Some(accepted) => accepted.read(buf),
            None => Took::Failed,
        };
        match took {
            Took::Failed => self.link_faults = self.link_faults.saturating_add(1),
            Took::Bytes(_) => self.note_moved(),
            Took::NotYet | Took::End => {}
        }
        took
    }

    fn write(&mut self, link: u32, bytes: &[u8]) -> Gave {
        let gave = match self.links.get_mut(&link) {
            Some(accepted) => accepted.write(bytes),
            None => Gave::Failed,
        };
        match gave {
            Gave::Failed => self.link_faults = self.link_faults.saturating_add(1),
            Gave::Bytes(_) => self.note_moved(),
            Gave::NotYet => {}
        }
        gave
    }

    fn close(&mut self, link: u32) {
        let Some(accepted) = self.links.remove(&link) else {
            return;
        };
        self.door.count_closed();
        self.settle(self.is_over());
        if !accepted.was_used() {
            self.report_turned_away(&accepted);
        } else if accepted.may_read() {
            self.leaving.add(&self.reports.rt, accepted);
        }
    }
}
