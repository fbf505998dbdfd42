//! The link of the system, over loopback, to a listener of this program.

ghost use Rattle.std.specs.Prelude.{◌<◌, length};

use anyhow::Result;
use lsv_link::Link;
use lsv_port::{Gave, Took};
use lsv_tcp::TcpLink;
use std::io::{Read, Write};
use std::net::{TcpListener, TcpStream};

/// The most bytes that are read at a time.
const ROOM: usize = 16;

/// Prints what a read of the link gave.
fn show_read(rt: &HostRuntime, link: &mut TcpLink<HostRuntime>, wait: bool) -> Result<()> {
    let mut buf = [0u8; ROOM];
    match link.read(&mut buf, wait) {
        Took::Bytes(count) => {
            let bytes = buf.get(..count).unwrap_or(&[]);
            println!(rt; "bytes {}", hex::encode(rt.alloc(), bytes)?)?
        }
        Took::NotYet => println!(rt; "not yet")?,
        Took::End => println!(rt; "end")?,
        Took::Failed => println!(rt; "failed")?,
    }
    Ok(())
}

/// Prints what a write to the link put.
fn show_write(rt: &HostRuntime, link: &mut TcpLink<HostRuntime>, bytes: &[u8]) -> Result<()>
    requires { 0 < length bytes.now }
{
    match link.write(bytes) {
        Gave::Bytes(count) => println!(rt; "wrote {count}")?,
        Gave::NotYet => println!(rt; "not yet")?,
        Gave::Failed => println!(rt; "failed")?,
    }
    Ok(())
}

/// Prints what the other end reads.
fn show_peer(rt: &HostRuntime, peer: &mut TcpStream) -> Result<()> {
    let mut buf = [0u8; ROOM];
    let count = peer.read(&mut buf)?;
    let bytes = buf.get(..count).unwrap_or(&[]);
    Ok(println!(rt; "the other end read {}", hex::encode(rt.alloc(), bytes)?)?)
}

/// One connection: both ends write, the other end closes, and then nobody listens.
pub fn show(rt: &HostRuntime) -> Result<()> {
    let listener = TcpListener::bind(rt, "127.0.0.1:0")?;
    let host = format!(in rt.alloc(); "{}", listener.local_addr()?)?;
    let mut link = TcpLink::new(*rt, *rt, "lsvt_rows_relay");
    if link.connect(&host).is_err() {
        return Ok(println!(rt; "no connection")?);
    }
    let (mut peer, _) = listener.accept()?;
    drop(listener);
    show_read(rt, &mut link, false)?;
    show_write(rt, &mut link, b"hello")?;
    show_peer(rt, &mut peer)?;
    let _ = peer.write(b"welcome")?;
    show_read(rt, &mut link, true)?;
    link.renew();
    drop(peer);
    show_read(rt, &mut link, true)?;
    link.close();
    show_read(rt, &mut link, true)?;
    match link.connect(&host) {
        Ok(()) => Ok(println!(rt; "connected")?),
        Err(_) => Ok(println!(rt; "refused")?),
    }
}
