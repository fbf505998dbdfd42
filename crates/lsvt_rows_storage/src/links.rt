//! Two ports of the system that share a socket over loopback, another one, and a client.

use anyhow::{Result, anyhow};
use lsv_port::{Gave, Port, PortFault, Ready, Took};
use lsv_real::MioPort;
use std::io::{Read, Write};
use std::net::{Shutdown, SocketAddr, TcpStream};

/// The most turns in a row that may report nothing.
const PATIENCE: u32 = 1_000;

/// The most bytes that are read at a time.
const ROOM: usize = 64;

/// The bytes that a link is filled with.
const PIECE: [u8; 4096] = [7; 4096];

type SystemPort = MioPort<HostRuntime>;

/// Each worker's thread takes its port along.
fn may_move<P: Send>(_port: &P) {}

/// The ports and the client, if there are any.
#[derive(Drop)]
pub struct Links {
    first: Option<SystemPort>,
    second: Option<SystemPort>,
    /// The count of bytes that a link took until it was full.
    filled: usize,
    client: Option<TcpStream>,
}

/// The numbers of links that are held.
fn numbers(rt: &HostRuntime, words: &str) -> Result<Vec<u32>> {
    let mut numbers = Vec::new(rt.alloc());
    for word in words.split_whitespace() {
        numbers.push(word.parse::<u32>()?)?;
    }
    Ok(numbers)
}

/// Prints what a turn reported.
fn show_ready(rt: &HostRuntime, ready: Result<Ready, PortFault>) -> Result<()> {
    match ready {
        Ok(Ready::Opened(link)) => println!(rt; "opened {link}")?,
        Ok(Ready::Readable(link)) => println!(rt; "readable {link}")?,
        Ok(Ready::Writable(link)) => println!(rt; "writable {link}")?,
        Ok(Ready::Woken) => println!(rt; "nothing")?,
        Ok(Ready::Stop) => println!(rt; "stop")?,
        Err(_) => println!(rt; "fault")?,
    }
    Ok(())
}

/// Prints the next report that isn't `Woken`.
fn show_next(rt: &HostRuntime, port: &mut SystemPort, held: &[u32]) -> Result<()> {
    for _ in 0..PATIENCE {
        let ready = port.turn(held)?;
        if ready != Ready::Woken {
            return show_ready(rt, Ok(ready));
        }
    }
    Err(anyhow!("a port that reports something"))
}

/// Prints what a read of a link gave.
fn show_took(rt: &HostRuntime, took: Took, buf: &[u8]) -> Result<()> {
    match took {
        Took::Bytes(count) => {
            let bytes = buf.get(..count).unwrap_or(&[]);
            println!(rt; "bytes {}", hex::encode(rt.alloc(), bytes)?)?
        }
        Took::NotYet => println!(rt; "not yet")?,
        Took::End => println!(rt; "end")?,
        Took::Failed => println!(rt; "failed")?,
    }
    Ok(())
}

/// Prints what a read of a link gives: now, or, if `waits`, once it gives something.
fn show_read(rt: &HostRuntime, port: &mut SystemPort, link: u32, waits: bool) -> Result<()> {
    let mut buf = [0; ROOM];
    for _ in 0..PATIENCE {
        let took = port.read(link, &mut buf);
        if took != Took::NotYet || !waits {
            return show_took(rt, took, &buf);
        }
        let _ = port.turn(&[link])?;
    }
    Err(anyhow!("a read that gives something"))
}

/// Writes bytes to a link, and prints the count that it took.
fn show_write(rt: &HostRuntime, port: &mut SystemPort, link: u32, digits: &str) -> Result<()> {
    let bytes = hex::decode(rt.alloc(), digits)?;
    if bytes.is_empty() {
        return Err(anyhow!("bytes"));
    }
    match port.write(link, &bytes) {
        Gave::Bytes(count) => println!(rt; "took {count}")?,
        Gave::NotYet => println!(rt; "full")?,
        Gave::Failed => println!(rt; "failed")?,
    }
    Ok(())
}

/// Writes until the link takes no more. Returns the count of bytes that it took.
fn fill(port: &mut SystemPort, link: u32) -> Result<usize> {
    let mut count = 0usize;
    for _ in 0..u16::MAX {
        match port.write(link, &PIECE) {
            Gave::Bytes(n) => count = count.saturating_add(n),
            Gave::NotYet => return Ok(count),
            Gave::Failed => return Err(anyhow!("a write that succeeds")),
        }
    }
    Err(anyhow!("a link that is full"))
}

/// Makes a call of a port. Returns the count of bytes that a link took when it was last filled: `filled`, or that of this call.
fn make_call(rt: &HostRuntime, port: &mut SystemPort, words: &str, filled: usize) -> Result<usize> {
    let (call, rest) = words.split_once(' ').unwrap_or((words, ""));
    match call {
        "turn" => {
            show_ready(rt, port.turn(&numbers(rt, rest)?))?;
            return Ok(filled);
        }
        "next" => {
            show_next(rt, port, &numbers(rt, rest)?)?;
            return Ok(filled);
        }
        _ => {}
    }
    let (link, rest) = rest.split_once(' ').unwrap_or((rest, ""));
    let link = link.parse::<u32>()?;
    match call {
        "read" => show_read(rt, port, link, false)?,
        "take" => show_read(rt, port, link, true)?,
        "write" => show_write(rt, port, link, rest)?,
        "close" => port.close(link),
        "fill" => return fill(port, link),
        _ => return Err(anyhow!("a call of a port")),
    }
    Ok(filled)
}

impl Links {
    /// There is no port, and no client.
    pub fn new() -> Self {
        Links {
            first: None,
            second: None,
            filled: 0,
            client: None,
        }
    }

    /// Lets two ports listen at a socket, and prints whether both have its address.
    pub fn open(&mut self, rt: HostRuntime, address: &str) -> Result<()> {
        let mut first = MioPort::new(rt, rt, "first")?;
        let mut second = first.beside(rt)?;
        may_move(&first);
        first.listen(address, Some(2))?;
        second.listen(address, Some(2))?;
        if first.local_addr()? == second.local_addr()? {
            println!(rt; "one socket")?;
        }
        self.first = Some(first);
        self.second = Some(second);
        Ok(())
    }

    /// The port number of the socket.
    fn number(&self) -> Result<u16> {
        let port = self.first.as_ref().ok_or(anyhow!("ports"))?;
        Ok(port.local_addr()?.port())
    }

    /// Lets another port listen at this address, or at that of the socket, and prints what that and a turn of it answer.
    fn show_other(&self, rt: &HostRuntime, address: &str) -> Result<()> {
        let taken = format!(in rt.alloc(); "127.0.0.1:{}", self.number()?)?;
        let mut other = MioPort::new(*rt, *rt, "other")?;
        let address = if address == "taken" {
            taken.as_str()
        } else {
            address
        };
        let listens = if other.listen(address, None).is_ok() {
            "listens"
        } else {
            "fault"
        };
        print!(rt; "{listens}, then ")?;
        show_ready(rt, other.turn(&[]))
    }

    /// Makes a call of a port: which port, and the call's words.
    pub fn answer(&mut self, rt: &HostRuntime, words: &str) -> Result<()> {
        let (which, rest) = words.split_once(' ').ok_or(anyhow!("a call"))?;
        match which {
            "first" => {
                let port = self.first.as_mut().ok_or(anyhow!("ports"))?;
                self.filled = make_call(rt, port, rest, self.filled)?;
                Ok(())
            }
            "second" => {
                let port = self.second.as_mut().ok_or(anyhow!("ports"))?;
                self.filled = make_call(rt, port, rest, self.filled)?;
                Ok(())
            }
            _ => self.show_other(rt, rest.strip_prefix("listen ").unwrap_or(rest)),
        }
    }

    /// Connects a client to the socket.
    fn connect(&mut self, rt: &HostRuntime) -> Result<()> {
        let here = SocketAddr::from(([127, 0, 0, 1], self.number()?));
        self.client = Some(TcpStream::connect(rt, here)?);
        Ok(())
    }

    /// Reads all bytes that a link took until it was full.
    fn drain(&mut self) -> Result<()> {
        let client = self.client.as_mut().ok_or(anyhow!("a client"))?;
        let mut buf = [0; 4096];
        for _ in 0..self.filled {
            if self.filled == 0 {
                break;
            }
            let most = self.filled.min(buf.len());
            client.read_exact(&mut buf[..most])?;
            self.filled -= most;
        }
        Ok(())
    }

    /// Does what a client does.
    pub fn answer_client(&mut self, rt: &HostRuntime, words: &str) -> Result<()> {
        let (word, rest) = words.split_once(' ').unwrap_or((words, ""));
        match word {
            "connect" => return self.connect(rt),
            "drain" => return self.drain(),
            "drop" => return Ok(self.client = None),
            _ => {}
        }
        let client = self.client.as_mut().ok_or(anyhow!("a client"))?;
        match word {
            "send" => Ok(client.write_all(&hex::decode(rt.alloc(), rest)?)?),
            "end" => Ok(client.shutdown(Shutdown::Write)?),
            "receive" => receive(rt, client),
            _ => Err(anyhow!("what a client does")),
        }
    }
}

/// Prints the bytes that a client reads next.
fn receive(rt: &HostRuntime, client: &mut TcpStream) -> Result<()> {
    let mut buf = [0; ROOM];
    match client.read(&mut buf)? {
        0 => println!(rt; "end")?,
        count => {
            let bytes = buf.get(..count).unwrap_or(&[]);
            println!(rt; "bytes {}", hex::encode(rt.alloc(), bytes)?)?
        }
    }
    Ok(())
}
