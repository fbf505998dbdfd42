// What the ports of a program share.
use super::address::listen_at;
use super::pause::Pause;
use crate::limit::clients_of;
use libc::net;
use lsv_real_disk::most_descriptors;
use std::io;
use std::net::{Net, TcpListener};
use std::os::fd::AsRawFd;
use std::sync::OnceLock;
use std::sync::atomic::{AtomicU64, Ordering};

/// This many connections may wait at a socket to be taken, or fewer if there are fewer places.
const BACKLOG: u64 = 4096;

/// What `shutdown` is asked: to receive and send nothing more. A socket that listens stops so, and keeps its address.
const BOTH_WAYS: i32 = 2;

/// So often it is looked whether another port opened or closed a link meanwhile. The next turn of a port looks again.
const MOST_LOOKS: u32 = 4;

/// The sockets that listen.
#[derive(Drop)]
pub struct Sockets {
    pub first: TcpListener,
    /// One of IPv4, where the first one takes IPv6 alone.
    pub further: Option<TcpListener>,
}

impl Sockets {
    /// Handles of the same sockets.
    fn try_clone(&self) -> io::Result<Self> {
        let further = match &self.further {
            Some(further) => Some(further.try_clone()?),
            None => None,
        };
        Ok(Sockets {
            first: self.first.try_clone()?,
            further,
        })
    }

    /// From now on this many connections may wait at each socket to be taken. With 0 they don't listen: the system refuses connections.
    /// False if one couldn't be made to listen, since another program listens at its address.
    fn set_waiting(&self, count: u64) -> bool {
        let first = set_waiting_at(&self.first, count);
        match &self.further {
            Some(further) => set_waiting_at(further, count) && first,
            None => first,
        }
    }
}

/// The same of one socket. The system lets one more wait than it is asked for.
fn set_waiting_at(socket: &TcpListener, count: u64) -> bool {
    let descriptor = socket.as_raw_fd();
    match i32::try_from(count) {
        Ok(count) if count > 0 => net::listen(descriptor, count - 1) == 0,
        _ => {
            // One that doesn't listen answers an error, and stays so.
            let _ = net::shutdown(descriptor, BOTH_WAYS);
            true
        }
    }
}

/// How the sockets stand after a look at the places.
#[derive(Clone, Copy, PartialEq, Eq)]
pub enum Settled {
    /// As before, or as another port has set them.
    Same,
    /// They stopped to listen, since all places are taken.
    Full,
    /// They can't listen, though there are places.
    Deaf,
}

/// The listening sockets of the ports of a program, and how many of their links were opened and closed.
#[derive(Drop)]
pub struct Door {
    sockets: OnceLock<Sockets>,
    ports: AtomicU64,
    /// Links that were opened, and places that ports have taken for a connection each that they are about to take.
    opened: AtomicU64,
    closed: AtomicU64,
    /// How many ports are about to take a connection.
    taking: AtomicU64,
    /// How often a port couldn't listen at the start.
    refused: AtomicU64,
    /// How many connections may wait at each socket: 0 if they don't listen.
    waiting: AtomicU64,
    /// 1 while a port sets that.
    is_set: AtomicU64,
    /// How many descriptors this process may have.
    limit: u64,
    /// When it is said that all places are taken, that a client was turned away, and that the sockets can't listen.
    pub full: Pause,
    pub turned_away: Pause,
    pub deaf: Pause,
}

impl Door {
    /// A door of one port, at which nobody listens yet.
    pub fn new(rt: &HostRuntime) -> Self {
        Door {
            sockets: OnceLock::new(),
            ports: AtomicU64::new(1),
            opened: AtomicU64::new(0),
            closed: AtomicU64::new(0),
            taking: AtomicU64::new(0),
            refused: AtomicU64::new(0),
            waiting: AtomicU64::new(0),
            is_set: AtomicU64::new(0),
            limit: most_descriptors(),
            full: Pause::new(rt),
            turned_away: Pause::new(rt),
            deaf: Pause::new(rt),
        }
    }

    /// There is one port more.
    pub fn count_port(&self) {
        let _ = self.ports.fetch_add(1, Ordering::SeqCst);
    }

    /// The listening sockets, which the first port that listens makes at its address, as handles of the caller's own.
    pub fn sockets<N: Net>(&self, net: &N, address: &str) -> io::Result<Sockets> {
        if let Some(sockets) = self.sockets.get() {
            return sockets.try_clone();
        }
        let (first, further) = listen_at(net, address)?;
        let sockets = Sockets {
            first: TcpListener::from(first),
            further: match further {
                Some(further) => Some(TcpListener::from(further)),
                None => None,
            },
        };
        let own = sockets.try_clone()?;
        if self.sockets.try_set(sockets).is_ok() {
            // As they were made, more may wait than there are places.
            let places = self.places().min(BACKLOG);
            let _ = own.set_waiting(places);
            self.waiting.store(places, Ordering::SeqCst);
        }
        Ok(own)
    }

    /// A port couldn't listen. Whether it is the first of its program, which says why for all.
    pub fn is_first_refusal(&self) -> bool {
        self.refused.fetch_add(1, Ordering::SeqCst) == 0
    }

    /// How many links of all ports were closed.
    pub fn closed(&self) -> u64 {
        self.closed.load(Ordering::SeqCst)
    }

    /// How many links of all ports may be open at once.
    pub fn places(&self) -> u64 {
        clients_of(self.ports.load(Ordering::SeqCst), self.limit)
    }

    /// Takes a place for a connection that is about to be taken. False if there is none.
    pub fn begin_taking(&self) -> bool {
        let _ = self.taking.fetch_add(1, Ordering::SeqCst);
        let opened = self.opened.fetch_add(1, Ordering::SeqCst);
        let has_room = opened.saturating_sub(self.closed()) < self.places();
        if !has_room {
            self.end_taking(false);
        }
        has_room
    }

    /// The connection was taken, or there was none.
    pub fn end_taking(&self, is_taken: bool) {
        if !is_taken {
            self.count_lost();
        }
        let _ = self.taking.fetch_sub(1, Ordering::SeqCst);
    }

    /// A place was taken for a connection that becomes no link.
    pub fn count_lost(&self) {
        let _ = self.opened.fetch_sub(1, Ordering::SeqCst);
    }

    /// How many links of all ports are open, or are about to be.
    fn open(&self) -> u64 {
        let opened = self.opened.load(Ordering::SeqCst);
        opened.saturating_sub(self.closed())
    }

    /// One link more was closed.
    pub fn count_closed(&self) {
        let _ = self.closed.fetch_add(1, Ordering::SeqCst);
    }

    /// How many connections are to wait at each socket: no more than there are places, so that each of them gets one. A port that is
    /// about to take one with the last place is waited for. It counts itself before it takes the place, and gives the place back before
    /// it counts itself out, so it is looked for before and after.
    fn wanted(&self, is_over: bool) -> u64 {
        if is_over {
            return 0;
        }
        let before = self.taking.load(Ordering::SeqCst);
        let places = self.places().saturating_sub(self.open());
        let fewest = before.max(self.taking.load(Ordering::SeqCst)).min(1);
        places.min(BACKLOG).max(fewest)
    }

    /// Lets the sockets listen while there are places, and not while there are none, or if the ports' time is over.
    pub fn settle(&self, is_over: bool) -> Settled {
        let Some(sockets) = self.sockets.get() else {
            return Settled::Same;
        };
        for _ in 0..MOST_LOOKS {
            let wanted = self.wanted(is_over);
            if self.waiting.load(Ordering::SeqCst) == wanted {
                return Settled::Same;
            }
            if self.is_set.swap(1, Ordering::SeqCst) == 1 {
                return Settled::Same;
            }
            // Other ports may have counted since the look.
            let wanted = self.wanted(is_over);
            if self.waiting.load(Ordering::SeqCst) == wanted {
                self.is_set.store(0, Ordering::SeqCst);
                return Settled::Same;
            }
            let done = sockets.set_waiting(wanted);
            if done {
                self.waiting.store(wanted, Ordering::SeqCst);
            } else {
                self.waiting.store(0, Ordering::SeqCst);
            }
            self.is_set.store(0, Ordering::SeqCst);
            if !done {
                return Settled::Deaf;
            }
            if wanted == 0 && !is_over {
                return Settled::Full;
            }
        }
        Settled::Same
    }
}
