// What a port that listens waits for, and what of the last wait it hasn't told yet.
use super::accepted::Accepted;
use super::door::Sockets;
use lsv_port::Ready;
use mio::event::Event;
use mio::net::{TcpListener, TcpStream};
use mio::{Events, Interest, Poll, Token, Waker};
use std::alloc::Global;
use std::collections::HashMap;
use std::io;
use std::io::ErrorKind;
use std::net::{self, Net, SocketAddr};
use std::time::Duration;

/// The names of the listening sockets among those that are waited for. No link has their numbers.
const LISTENER: Token = Token(usize::MAX);

const FURTHER: Token = Token(usize::MAX - 1);

/// The name of the port's bell. No link has its number either.
const BELL: Token = Token(usize::MAX - 2);

/// One wait gives this many events at most.
const MOST_EVENTS: usize = 256;

/// A wait without anything to tell ends after this many milliseconds.
const LONGEST: u64 = 50;

/// No link has this number. A turn that is handed it as held has something to do at once.
const NO_LINK: u32 = 0;

/// Which connections wait to be taken.
#[derive(Clone, Copy, PartialEq, Eq)]
enum Queue {
    Empty,
    /// One may wait.
    Waiting,
    /// One was taken since the last wait: more are taken after the next one, so that links have their turn.
    Taken,
    /// One could not be taken: it is tried again after the next wait.
    Stuck,
}

/// What a port that listens waits for.
#[derive(Drop)]
pub struct Wakes {
    poll: Poll,
    listener: TcpListener,
    /// The socket of IPv4, where that of IPv6 doesn't take it.
    further: Option<TcpListener>,
    /// That is asked first, so that both have their turn.
    is_further_first: bool,
    queue: Queue,
    events: Events,
    /// What is told next: of an event first that its link may be read, then that it may be written.
    next: usize,
    /// Bytes went over a link since the last wait.
    has_moved: bool,
}

impl Wakes {
    /// Waits for connections at the sockets that listen.
    pub fn new<N: Net>(alloc: Global, net: &N, sockets: Sockets) -> io::Result<Self> {
        let poll = Poll::new(net)?;
        let listener = registered(&poll, sockets.first, LISTENER)?;
        let further = match sockets.further {
            Some(further) => Some(registered(&poll, further, FURTHER)?),
            None => None,
        };
        Ok(Wakes {
            poll,
            listener,
            further,
            is_further_first: false,
            queue: Queue::Empty,
            events: Events::with_capacity(alloc, MOST_EVENTS)?,
            next: 0,
            has_moved: false,
        })
    }

    /// What ends a wait from another thread.
    pub fn waker(&self) -> io::Result<Waker> {
        Waker::new(self.poll.registry(), BELL)
    }

    /// Bytes went over a link, so that one that is held may go on.
    pub fn note_moved(&mut self) {
        self.has_moved = true;
    }

    /// What is told next of what the last wait gave.
    pub fn next(&mut self, links: &mut HashMap<u32, Accepted>, held: &[u32]) -> Option<Ready> {
        for place in self.next..self.events.iter().len().saturating_mul(2) {
            self.next = place.saturating_add(1);
            let event = self.events.iter().nth(place / 2)?;
            let ready = if place % 2 == 0 {
                readable(event, links, held)
            } else {
                writable(event, links)
            };
            if ready.is_some() {
                return ready;
            }
        }
        None
    }

    /// Whether a connection may wait, and none was taken since the last wait.
    pub fn may_accept(&self) -> bool {
        self.queue == Queue::Waiting
    }

    /// A connection, where one waits and none was taken since the last wait. Without room it waits on.
    pub fn accept(&mut self, has_room: bool) -> Option<TcpStream> {
        if self.queue != Queue::Waiting {
            return None;
        }
        if !has_room {
            self.queue = Queue::Stuck;
            return None;
        }
        match self.accept_one() {
            Ok((stream, _)) => {
                self.queue = Queue::Taken;
                Some(stream)
            }
            Err(e) if e.kind() == ErrorKind::WouldBlock => {
                self.queue = Queue::Empty;
                None
            }
            Err(_) => {
                self.queue = Queue::Stuck;
                None
            }
        }
    }

    /// A connection of one of the sockets that listen, which are asked in turn.
    fn accept_one(&mut self) -> io::Result<(TcpStream, SocketAddr)> {
        self.is_further_first = !self.is_further_first;
        match &self.further {
            None => self.listener.accept(),
            Some(further) if self.is_further_first => accept_of(further, &self.listener),
            Some(further) => accept_of(&self.listener, further),
        }
    }

    /// The address of the listening socket.
    pub fn local_addr(&self) -> io::Result<SocketAddr> {
        self.listener.local_addr()
    }

    /// Waits for a link too, under its number.
    pub fn add(&self, stream: &mut TcpStream, link: u32) -> io::Result<()> {
        let both = Interest::READABLE | Interest::WRITABLE;
        self.poll
            .registry()
            .register(stream, Token(link as usize), both)
    }

    /// Waits until there is something to tell, or a while: not if links are held for which there may be something to do at once.
    pub fn wait(&mut self, held: &[u32]) -> io::Result<()> {
        let most = Duration::from_millis(self.most(held));
        self.has_moved = false;
        self.next = 0;
        self.poll.poll(&mut self.events, Some(most))?;
        if self.queue != Queue::Empty
            || self
                .events
                .iter()
                .any(|e| e.token() == LISTENER || e.token() == FURTHER)
        {
            self.queue = Queue::Waiting;
        }
        Ok(())
    }

    /// How many milliseconds the next wait takes at most.
    fn most(&self, held: &[u32]) -> u64 {
        let holds = !held.is_empty() && self.has_moved;
        if self.queue == Queue::Taken || holds || held.contains(&NO_LINK) {
            0
        } else {
            LONGEST
        }
    }
}

/// A socket that listens, whose connections are waited for.
fn registered(poll: &Poll, socket: net::TcpListener, token: Token) -> io::Result<TcpListener> {
    socket.set_nonblocking(true)?;
    let mut listener = TcpListener::from_std(socket);
    poll.registry()
        .register(&mut listener, token, Interest::READABLE)?;
    Ok(listener)
}

/// A connection of the first of two sockets that listen, or of the second where none waits at the first.
fn accept_of(first: &TcpListener, second: &TcpListener) -> io::Result<(TcpStream, SocketAddr)> {
    match first.accept() {
        Err(e) if e.kind() == ErrorKind::WouldBlock => second.accept(),
        answer => answer,
    }
}

/// The link of an event. None if it is that of a socket that listens, or of the bell.
fn link_of(event: &Event) -> Option<u32> {
    u32::try_from(event.token().0).ok()
}

/// Tells that an open link may have bytes, or that a read of it would fail. One that is held is tried in any case.
fn readable(event: &Event, links: &HashMap<u32, Accepted>, held: &[u32]) -> Option<Ready> {
    let link = link_of(event)?;
    let told = event.is_readable() || event.is_read_closed() || event.is_error();
    let wants = links.get(&link)?.may_read() && !held.contains(&link);
    (told && wants).then_some(Ready::Readable(link))
}

/// Tells that an open link that was full may take bytes, or that a write to it would fail.
fn writable(event: &Event, links: &mut HashMap<u32, Accepted>) -> Option<Ready> {
    let link = link_of(event)?;
    if !(event.is_writable() || event.is_write_closed() || event.is_error()) {
        return None;
    }
    links
        .get_mut(&link)?
        .was_full()
        .then_some(Ready::Writable(link))
}
