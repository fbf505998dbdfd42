//! A port in memory that is used by hand.

use crate::words::{bytes_of, shown};
use anyhow::{Result, anyhow};
use lsv_port::{MemPort, Port, Step};
use std::alloc::Global;

/// A port of this script, which listens.
pub fn listening(alloc: Global, script: Vec<Step>) -> Result<MemPort> {
    let mut port = MemPort::new(alloc, script);
    port.listen("*:30343", None)?;
    Ok(port)
}

/// Uses the port. Prints what it answers.
pub fn act(rt: &HostRuntime, port: &mut MemPort, word: &str, words: &str) -> Result<()> {
    match word {
        "turn" => turn(rt, port),
        "read" => read(rt, port, words),
        "write" => write(rt, port, words),
        "close" => close(port, words),
        "links" => links(rt, port),
        _ => Err(anyhow!("a use of the port")),
    }
}

/// Prints what a turn reports.
fn turn(rt: &HostRuntime, port: &mut MemPort) -> Result<()> {
    match port.turn(&[]) {
        Ok(ready) => println!(rt; "{ready:?}")?,
        Err(fault) => println!(rt; "{fault}")?,
    }
    Ok(())
}

/// Reads a link into a buffer of zeros. Prints the answer and the buffer.
fn read(rt: &HostRuntime, port: &mut MemPort, words: &str) -> Result<()> {
    let (link, room) = words.split_once(' ').ok_or(anyhow!("a buffer"))?;
    let link = link.parse::<u32>()?;
    let mut buf = vec![in rt.alloc(); 0u8; room.parse::<usize>()?]?;
    if buf.is_empty() || !port.is_open(link) {
        return Err(anyhow!("an open link"));
    }
    let took = port.read(link, &mut buf);
    println!(rt; "{took:?} {}", shown(rt.alloc(), &buf)?)?;
    Ok(())
}

/// Writes bytes to a link. Prints the answer.
fn write(rt: &HostRuntime, port: &mut MemPort, words: &str) -> Result<()> {
    let (link, digits) = words.split_once(' ').ok_or(anyhow!("bytes"))?;
    let link = link.parse::<u32>()?;
    let bytes = bytes_of(rt.alloc(), digits)?;
    if bytes.as_slice().is_empty() || !port.is_open(link) {
        return Err(anyhow!("an open link"));
    }
    println!(rt; "{:?}", port.write(link, bytes.as_slice()))?;
    Ok(())
}

/// Closes a link.
fn close(port: &mut MemPort, word: &str) -> Result<()> {
    let link = word.parse::<u32>()?;
    if !port.is_open(link) {
        return Err(anyhow!("an open link"));
    }
    port.close(link);
    Ok(())
}

/// Prints of each link that was opened what was read of it and written to it, and whether it is open; and how often memory
/// was refused.
pub fn links(rt: &HostRuntime, port: &MemPort) -> Result<()> {
    let alloc = rt.alloc();
    for link in port.opened() {
        let read = shown(alloc, port.input(*link))?;
        let written = shown(alloc, port.output(*link))?;
        let open = if port.is_open(*link) { ", open" } else { "" };
        println!(rt; "link {link} read {read}, written {written}{open}")?;
    }
    if port.refused() > 0 {
        println!(rt; "memory was refused")?;
    }
    Ok(())
}
