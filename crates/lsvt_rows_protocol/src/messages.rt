//! Cases of frames, fields and messages.

use crate::words::{bytes_of, digits_of};
use anyhow::anyhow;
use lsv_base::{Bytes, NoMem};
use lsv_info::{write_exit, write_head};
use lsv_msg::{
    ClientMessage, decode_client, decode_server, encode_client, encode_server, put_server,
};
use lsv_request::{Request, head_of, request_of};
use lsv_wire::{
    FrameFault, Framer, LAST_FIELD_NUMBER, frame, put_bytes, put_number, put_varint, read_field,
};
use std::alloc::Global;

/// A message of a client, and its canonical bytes.
pub fn client(rt: &HostRuntime, digits: &str) -> anyhow::Result<()> {
    let alloc = rt.alloc();
    let bytes = bytes_of(alloc, digits)?;
    match decode_client(alloc, bytes.as_slice()) {
        Ok(message) => {
            let canonical = encode_client(alloc, &message.copy(alloc)?)?;
            println!(rt; "{message:?} {}", digits_of(alloc, &canonical)?)?;
        }
        Err(fault) => println!(rt; "{fault}")?,
    }
    Ok(())
}

/// A message of a server, its canonical bytes, and its frame.
pub fn server(rt: &HostRuntime, digits: &str) -> anyhow::Result<()> {
    let alloc = rt.alloc();
    let bytes = bytes_of(alloc, digits)?;
    match decode_server(alloc, bytes.as_slice()) {
        Ok(message) => {
            let canonical = encode_server(alloc, &message.copy(alloc)?)?;
            let mut framed = Bytes::new(alloc);
            put_server(alloc, &mut framed, &message)?;
            let canonical = digits_of(alloc, &canonical)?;
            println!(rt; "{message:?} {canonical} {}", digits_of(alloc, &framed)?)?;
        }
        Err(fault) => println!(rt; "{fault}")?,
    }
    Ok(())
}

/// What a message of a client asks of a session, or the text of its refusal.
pub fn request(rt: &HostRuntime, digits: &str) -> anyhow::Result<()> {
    let alloc = rt.alloc();
    let bytes = bytes_of(alloc, digits)?;
    let message = match decode_client(alloc, bytes.as_slice()) {
        Ok(message) => message,
        Err(fault) => return Ok(println!(rt; "{fault}")?),
    };
    match request_of(message) {
        Ok(request) => println!(rt; "{request:?}")?,
        Err(refusal) => println!(rt; "{}", refusal.text())?,
    }
    Ok(())
}

/// The canonical bytes alone of a message of a client, or why it isn't written.
pub fn again(rt: &HostRuntime, word: &str) -> anyhow::Result<()> {
    let alloc = rt.alloc();
    let message = decode_client(alloc, bytes_of(alloc, word)?.as_slice())?;
    match encode_client(alloc, &message.copy(alloc)?) {
        Ok(canonical) => println!(rt; "{}", digits_of(alloc, &canonical)?)?,
        Err(fault) => println!(rt; "{fault}")?,
    }
    Ok(())
}

/// The frame of a message of a server, or why it isn't written; then nothing is.
pub fn reply(rt: &HostRuntime, word: &str) -> anyhow::Result<()> {
    let alloc = rt.alloc();
    let message = decode_server(alloc, bytes_of(alloc, word)?.as_slice())?;
    let mut framed = Bytes::new(alloc);
    if let Err(fault) = put_server(alloc, &mut framed, &message) {
        print!(rt; "{fault} ")?;
    }
    println!(rt; "{}", digits_of(alloc, &framed)?)?;
    Ok(())
}

/// Whether a message of a client asks for something, or the text of its refusal.
pub fn judged(rt: &HostRuntime, word: &str) -> anyhow::Result<()> {
    let alloc = rt.alloc();
    match request_of(decode_client(alloc, bytes_of(alloc, word)?.as_slice())?) {
        Ok(_) => println!(rt; "a request")?,
        Err(refusal) => println!(rt; "{}", refusal.text())?,
    }
    Ok(())
}

/// The line of the head that an accept opens a session with, or the text of its refusal.
pub fn opening(rt: &HostRuntime, word: &str) -> anyhow::Result<()> {
    let alloc = rt.alloc();
    let ClientMessage::Accept(accept) = decode_client(alloc, bytes_of(alloc, word)?.as_slice())?
    else {
        return Err(anyhow!("an accept"));
    };
    match head_of(accept.into_inner()) {
        Ok(head) => println!(rt; "{}", digits_of(alloc, &write_head(alloc, &head)?)?)?,
        Err(refusal) => println!(rt; "{}", refusal.text())?,
    }
    Ok(())
}

/// The frame of bytes, or why there is none.
pub fn framed(rt: &HostRuntime, word: &str) -> anyhow::Result<()> {
    let alloc = rt.alloc();
    match frame(alloc, bytes_of(alloc, word)?.as_slice()) {
        Ok(bytes) => println!(rt; "{}", digits_of(alloc, &bytes)?)?,
        Err(fault) => println!(rt; "{fault}")?,
    }
    Ok(())
}

/// Adds a varint, or a field of a number or of bytes: its parts have colons between them.
fn put_one(alloc: Global, out: &mut Bytes, word: &str) -> anyhow::Result<()> {
    let Some((field, value)) = word.split_once(':') else {
        return Ok(put_varint(out, word.parse::<u64>()?)?);
    };
    let field = field.parse::<u32>()?;
    if field == 0 || field > LAST_FIELD_NUMBER {
        return Err(anyhow!("a field"));
    }
    match value.strip_prefix("x") {
        Some(digits) => put_bytes(out, field, bytes_of(alloc, digits)?.as_slice())?,
        None => put_number(out, field, value.parse::<u64>()?)?,
    }
    Ok(())
}

/// What is written of varints and fields, one after another.
pub fn put(rt: &HostRuntime, words: &str) -> anyhow::Result<()> {
    let mut out = Bytes::new(rt.alloc());
    for word in words.split_whitespace() {
        put_one(rt.alloc(), &mut out, word)?;
    }
    println!(rt; "{}", digits_of(rt.alloc(), &out)?)?;
    Ok(())
}

/// The line of JSON that is stored of an accept or of an exit.
fn line_of(alloc: Global, request: &Request) -> Result<Bytes, NoMem> {
    match request {
        Request::Accept(accept) => write_head(alloc, &accept.head),
        Request::Exit(exit) => write_exit(alloc, exit),
        _ => Ok(Bytes::new(alloc)),
    }
}

/// The same of a message, or the text of its refusal.
pub fn json(rt: &HostRuntime, digits: &str) -> anyhow::Result<()> {
    let alloc = rt.alloc();
    let bytes = bytes_of(alloc, digits)?;
    let message = decode_client(alloc, bytes.as_slice())?;
    match request_of(message) {
        Ok(request) => {
            let line = line_of(alloc, &request)?;
            println!(rt; "{}", digits_of(alloc, &line)?)?;
        }
        Err(refusal) => println!(rt; "{}", refusal.text())?,
    }
    Ok(())
}

/// The fields of bytes, from front to back, and the fault that ends them.
pub fn fields(rt: &HostRuntime, digits: &str) -> anyhow::Result<()> {
    let alloc = rt.alloc();
    let bytes = bytes_of(alloc, digits)?;
    let bytes = bytes.as_slice();
    let mut at = 0;
    for _ in 0..bytes.len() {
        match read_field(bytes, at.min(bytes.len())) {
            Ok(Some((field, next))) => {
                println!(rt; "{field:?} {next}")?;
                at = next;
            }
            Ok(None) => return Ok(()),
            Err(fault) => return Ok(println!(rt; "{fault}")?),
        }
    }
    Ok(())
}

/// The messages that a stream is cut into, which comes in these pieces. A line for each piece.
pub fn frames(rt: &HostRuntime, pieces: &str) -> anyhow::Result<()> {
    let alloc = rt.alloc();
    let mut framer = Framer::new(alloc);
    for piece in pieces.split_whitespace() {
        framer.feed(bytes_of(alloc, piece)?.as_slice())?;
        println!(rt; "{}", given(rt, &mut framer)?.as_str())?;
    }
    Ok(())
}

/// What a framer gives now: messages, and the length that is too large.
fn given(rt: &HostRuntime, framer: &mut Framer) -> anyhow::Result<String> {
    let alloc = rt.alloc();
    let mut told = String::from_str(alloc, "piece")?;
    for _ in 0..100u8 {
        match framer.next(alloc) {
            Ok(Some(message)) => {
                told.push_str(" ")?;
                told.push_str(digits_of(alloc, &message)?.as_str())?;
            }
            Ok(None) => break,
            Err(FrameFault::TooLarge(stated)) => {
                told.push_str(format!(in alloc; " {stated} is too large")?.as_str())?;
                break;
            }
            Err(fault) => return Err(fault.into()),
        }
    }
    Ok(told)
}
