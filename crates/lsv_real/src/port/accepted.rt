// A link that a port accepted.
ghost use Rattle.std.specs.Prelude.{◌≡◌, length};
ghost use Rattle.lsv_port.specs.Port.{TakesWithin, GivesWithin};

use lsv_port::{Gave, Took};
use mio::net::TcpStream;
use std::io;
use std::io::{ErrorKind, Read, Write};
use std::net::{Shutdown, SocketAddr};

/// After this many signals in a row a read or a write is a fault.
const MOST_INTERRUPTS: u32 = 1024;

/// An open link.
#[derive(Drop)]
pub struct Accepted {
    stream: TcpStream,
    /// A read gave the end of its input.
    has_ended: bool,
    /// A write was put off, and no turn told since that the link takes bytes again.
    is_full: bool,
    /// It was read or written.
    was_used: bool,
}

impl Accepted {
    pub fn new(stream: TcpStream) -> Self {
        Accepted {
            stream,
            has_ended: false,
            is_full: false,
            was_used: false,
        }
    }

    /// Whether it was read or written. One that is closed without was turned away.
    pub fn was_used(&self) -> bool {
        self.was_used
    }

    /// The address of the other end, if the system still tells it.
    pub fn peer(&self) -> Option<SocketAddr> {
        self.stream.peer_addr().ok()
    }

    /// Whether a turn may tell that it is readable.
    pub fn may_read(&self) -> bool {
        !self.has_ended
    }

    /// Whether it was full. From now on it isn't.
    pub fn was_full(&mut self) -> bool {
        let was_full = self.is_full;
        self.is_full = false;
        was_full
    }

    /// Nothing more is put: the peer reads what was put, and then the end.
    pub fn end_output(&self) -> io::Result<()> {
        self.stream.shutdown(Shutdown::Write)
    }

    pub fn read(&mut self, buf: &mut [u8]) -> Took
        ensures { TakesWithin result (length buf.old) }
    {
        self.was_used = true;
        for _ in 0..MOST_INTERRUPTS {
            match self.stream.read(buf) {
                Ok(0) => {
                    self.has_ended = true;
                    return Took::End;
                }
                Ok(n) => return Took::Bytes(n),
                Err(e) if e.kind() == ErrorKind::WouldBlock => return Took::NotYet,
                Err(e) if e.kind() == ErrorKind::Interrupted => {}
                Err(_) => return Took::Failed,
            }
        }
        Took::Failed
    }

    pub fn write(&mut self, bytes: &[u8]) -> Gave
        ensures { GivesWithin result (length bytes.now) }
    {
        self.was_used = true;
        for _ in 0..MOST_INTERRUPTS {
            match self.stream.write(bytes) {
                Ok(0) => return Gave::Failed,
                Ok(n) => return Gave::Bytes(n),
                Err(e) if e.kind() == ErrorKind::WouldBlock => {
                    self.is_full = true;
                    return Gave::NotYet;
                }
                Err(e) if e.kind() == ErrorKind::Interrupted => {}
                Err(_) => return Gave::Failed,
            }
        }
        Gave::Failed
    }
}
