// The outgoing link of the operating system, over TCP. It tells no content, and counts its faults.
ghost use Rattle.std.specs.Prelude.{◌≡◌, [], None, length, IfOk};
ghost use Rattle.lsv_port.specs.Port.{TakesWithin, GivesWithin};

use lsv_base::Bytes;
use lsv_link::{Link, LinkFault};
use lsv_port::{Gave, Took};
use std::io;
use std::io::{ErrorKind, Read, Write};
use std::net::{Net, Shutdown, SocketAddr, TcpStream, ToSocketAddrs};
use std::time::{Duration, Instant};

/// The most seconds that a connect takes, and that a connection has from when it was made or renewed. The look-up of a
/// name isn't counted.
const PATIENCE: u64 = 30;

/// The most seconds that a close waits until the other end has read everything.
const LINGER: u64 = 2;

/// After this many signals in a row a read or a write is a fault.
const MOST_INTERRUPTS: u32 = 1024;

/// The open connection.
#[derive(Drop)]
struct Open {
    stream: TcpStream,
    /// When it was made, or renewed last.
    since: Instant,
}

/// An outgoing link over TCP. It looks up a host once.
#[derive(Drop)]
pub struct TcpLink<N: Net<Stream = TcpStream> + Drop> {
    rt: HostRuntime,
    net: N,
    /// Whose faults they are, on standard error.
    program: &'static str,
    /// The host that was looked up last, and its addresses.
    host: Bytes,
    addresses: Vec<SocketAddr>,
    open: Option<Open>,
    /// How often a call failed, a write waited for nothing, and a read did.
    faults: u64,
    full: u64,
    waits: u64,
}

impl<N: Net<Stream = TcpStream> + Drop> TcpLink<N> {
    /// No connection is open. A fault is one line on standard error, under the program's name.
    pub fn new(rt: HostRuntime, net: N, program: &'static str) -> Self
        ensures { ⟦<TcpLink<N> as Link>⟧.counts result ≡ record { faults = 0; full = 0; waits = 0 } }
    {
        TcpLink {
            rt,
            net,
            program,
            host: Bytes::new(rt.alloc()),
            addresses: Vec::new(rt.alloc()),
            open: None,
            faults: 0,
            full: 0,
            waits: 0,
        }
    }

    /// Looks up a host, unless it is the one that was looked up last.
    fn look_up(&mut self, host: &str) -> io::Result<()>
        ensures faults { self.new.faults ≡ self.old.faults }
        ensures full { self.new.full ≡ self.old.full }
        ensures waits { self.new.waits ≡ self.old.waits }
    {
        if !self.addresses.is_empty() && self.host.as_slice() == host.as_bytes() {
            return Ok(());
        }
        let alloc = self.rt.alloc();
        let Ok(asked) = Bytes::of(alloc, host.as_bytes()) else {
            return Err(ErrorKind::OutOfMemory.into());
        };
        let mut addresses = Vec::new(alloc);
        for address in host.to_socket_addrs(&self.net)? {
            if addresses.push(address).is_err() {
                return Err(ErrorKind::OutOfMemory.into());
            }
        }
        self.host = asked;
        self.addresses = addresses;
        Ok(())
    }

    /// Connects to the first of the host's addresses that answers.
    fn connect_to(&mut self, host: &str) -> io::Result<Open>
        ensures faults { self.new.faults ≡ self.old.faults }
        ensures full { self.new.full ≡ self.old.full }
        ensures waits { self.new.waits ≡ self.old.waits }
    {
        self.look_up(host)?;
        let start = Instant::now(&self.rt)?;
        let mut last = ErrorKind::AddrNotAvailable.into();
        for address in &self.addresses {
            let left = left_of(&self.rt, start)?;
            if left.is_zero() {
                return Err(ErrorKind::TimedOut.into());
            }
            match TcpStream::connect_timeout(&self.net, address, left) {
                Ok(stream) => {
                    let since = Instant::now(&self.rt)?;
                    return Ok(Open { stream, since });
                }
                Err(e) => last = e,
            }
        }
        Err(last)
    }

    /// Ends the output, and drops what comes until the other end has read everything and ends too. A connection that is
    /// closed with unread bytes would be reset, and could lose what was written.
    fn linger(&self, mut stream: TcpStream) -> io::Result<()> {
        let linger = Duration::from_secs(LINGER);
        let start = Instant::now(&self.rt)?;
        stream.shutdown(Shutdown::Write)?;
        stream.set_nonblocking(false)?;
        let mut dropped = [0u8; 4096];
        for _ in 0..u64::MAX {
            let left = linger.saturating_sub(start.elapsed(&self.rt)?);
            if left.is_zero() {
                return Ok(());
            }
            stream.set_read_timeout(Some(left))?;
            if stream.read(&mut dropped)? == 0 {
                return Ok(());
            }
        }
        Ok(())
    }
}

/// How much of the time is left that began then.
fn left_of(rt: &HostRuntime, since: Instant) -> io::Result<Duration> {
    Ok(Duration::from_secs(PATIENCE).saturating_sub(since.elapsed(rt)?))
}

/// One read, which waits only if it may, and until the connection's time is over.
fn read_once(rt: &HostRuntime, open: &mut Open, buf: &mut [u8], wait: bool) -> io::Result<Took>
    ensures { IfOk result (λ took. TakesWithin took (length buf.old)) }
{
    open.stream.set_nonblocking(!wait)?;
    for _ in 0..MOST_INTERRUPTS {
        if wait {
            let left = left_of(rt, open.since)?;
            if left.is_zero() {
                return Ok(Took::NotYet);
            }
            open.stream.set_read_timeout(Some(left))?;
        }
        match open.stream.read(buf) {
            Ok(0) => return Ok(Took::End),
            Ok(count) => return Ok(Took::Bytes(count)),
            Err(e) if e.kind() == ErrorKind::WouldBlock => return Ok(Took::NotYet),
            Err(e) if e.kind() == ErrorKind::Interrupted => {}
            Err(e) => return Err(e),
        }
    }
    Err(ErrorKind::Interrupted.into())
}

/// One write, which waits until the connection's time is over. After that it puts what is taken at once.
fn write_once(rt: &HostRuntime, open: &mut Open, bytes: &[u8]) -> io::Result<Gave>
    ensures { IfOk result (λ gave. GivesWithin gave (length bytes.now)) }
{
    for _ in 0..MOST_INTERRUPTS {
        let left = left_of(rt, open.since)?;
        open.stream.set_nonblocking(left.is_zero())?;
        if !left.is_zero() {
            open.stream.set_write_timeout(Some(left))?;
        }
        match open.stream.write(bytes) {
            Ok(0) => return Err(ErrorKind::WriteZero.into()),
            Ok(count) => return Ok(Gave::Bytes(count)),
            Err(e) if e.kind() == ErrorKind::WouldBlock => return Ok(Gave::NotYet),
            Err(e) if e.kind() == ErrorKind::Interrupted => {}
            Err(e) => return Err(e),
        }
    }
    Err(ErrorKind::Interrupted.into())
}

/// One read of the open connection. A failure is reported on standard error.
fn take(
    rt: &HostRuntime,
    program: &str,
    open: &mut Option<Open>,
    buf: &mut [u8],
    wait: bool,
) -> Took
    ensures { TakesWithin result (length buf.old) }
{
    let Some(open) = open else {
        let _ = eprintln!(rt; "{program}: read of the link: there is no connection");
        return Took::Failed;
    };
    match read_once(rt, open, buf, wait) {
        Ok(took) => took,
        Err(e) => {
            let _ = eprintln!(rt; "{program}: read of the link: {e}");
            Took::Failed
        }
    }
}

/// One write to the open connection. A failure is reported on standard error.
fn give(rt: &HostRuntime, program: &str, open: &mut Option<Open>, bytes: &[u8]) -> Gave
    ensures { GivesWithin result (length bytes.now) }
{
    let Some(open) = open else {
        let _ = eprintln!(rt; "{program}: write to the link: there is no connection");
        return Gave::Failed;
    };
    match write_once(rt, open, bytes) {
        Ok(gave) => gave,
        Err(e) => {
            let _ = eprintln!(rt; "{program}: write to the link: {e}");
            Gave::Failed
        }
    }
}

impl<N: Net<Stream = TcpStream> + Drop> Link for TcpLink<N> {
    ghost tells = { ⊥ };

    ghost state = { λ _. record { past = []; now = None; missed = 0 } };

    ghost counts = { λ l. record { faults = l.faults; full = l.full; waits = l.waits } };

    fn connect(&mut self, host: &str) -> Result<(), LinkFault> {
        self.close();
        match self.connect_to(host) {
            Ok(open) => {
                self.open = Some(open);
                Ok(())
            }
            Err(e) => {
                let program = self.program;
                let _ = eprintln!(self.rt; "{program}: {host}: {e}");
                self.faults = self.faults.saturating_add(1);
                Err(LinkFault)
            }
        }
    }

    fn read(&mut self, buf: &mut [u8], wait: bool) -> Took {
        let took = take(&self.rt, self.program, &mut self.open, buf, wait);
        match took {
            Took::Failed => self.faults = self.faults.saturating_add(1),
            Took::NotYet => {
                if wait {
                    self.waits = self.waits.saturating_add(1);
                }
            }
            Took::Bytes(_) | Took::End => {}
        }
        took
    }

    fn write(&mut self, bytes: &[u8]) -> Gave {
        let gave = give(&self.rt, self.program, &mut self.open, bytes);
        match gave {
            Gave::Failed => self.faults = self.faults.saturating_add(1),
            Gave::NotYet => self.full = self.full.saturating_add(1),
            Gave::Bytes(_) => {}
        }
        gave
    }

    /// If the clock can't be read, its time goes on.
    fn renew(&mut self) {
        if let Some(mut open) = self.open.take() {
            if let Ok(now) = Instant::now(&self.rt) {
                open.since = now;
            }
            self.open = Some(open);
        }
    }

    fn close(&mut self) {
        if let Some(open) = self.open.take() {
            // The connection ends in any case: what was acknowledged was read before.
            let _ = self.linger(open.stream);
        }
    }
}
