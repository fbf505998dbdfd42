//! Runs of the program, and what they put and print.

use crate::store::{File, disk_of};
use anyhow::{Result, anyhow};
use lsv_base::{Bytes, List, MemSink, NoMem};
use lsv_dialogue::Cause;
use lsv_iolog::LogFault;
use lsv_link::{Answer, Cut, MemLink};
use lsv_send::{SendStatus, sudo_sendlog};
use std::alloc::Global;
use std::str;

/// What the server sends once this number of bytes was put.
#[derive(Drop)]
pub struct Held {
    pub hold: u64,
    pub bytes: Vec<u8>,
}

/// What a case stands on.
#[derive(Drop)]
pub struct Setting {
    pub files: Vec<File>,
    /// What the server sends on the one connection.
    pub answers: Vec<Held>,
    pub cut: Cut,
}

/// The call that fails in a run, counted from 1; 0 for none.
#[derive(Clone, Copy)]
pub struct Fails {
    pub disk: u64,
    pub link: u64,
    pub sink: u64,
}

/// No call fails.
pub const NONE: Fails = Fails {
    disk: 0,
    link: 0,
    sink: 0,
};

/// What came of a run.
#[derive(Drop)]
struct Ran {
    status: SendStatus,
    /// The host of the connection, if there was one, and what was put on it.
    host: Option<Bytes>,
    put: Bytes,
    printed: Bytes,
}

/// The words of a line, between single spaces: none of an empty one. The word `~` stands for the byte FF.
fn words_of(alloc: Global, line: &str) -> Result<List<Bytes>, NoMem> {
    let mut words = Vec::new(alloc);
    if line.is_empty() {
        return Ok(List::from_vec(words));
    }
    for word in line.split(' ') {
        let word = if word == "~" {
            Bytes::of(alloc, b"\xFF")?
        } else {
            Bytes::of(alloc, word.as_bytes())?
        };
        words.push(word)?;
    }
    Ok(List::from_vec(words))
}

/// The answers of the one connection.
fn answers_of(alloc: Global, held: &[Held]) -> Result<List<Answer>, NoMem> {
    let mut answers = Vec::new(alloc);
    for one in held {
        answers.push(Answer {
            hold: one.hold,
            bytes: Bytes::of(alloc, &one.bytes)?,
        })?;
    }
    Ok(List::from_vec(answers))
}

/// Runs the program.
fn run(alloc: Global, setting: &Setting, fails: Fails, line: &str) -> Result<Ran> {
    let words = words_of(alloc, line)?;
    let mut disk = disk_of(alloc, &setting.files, fails.disk)?;
    let answers = vec![in alloc; answers_of(alloc, &setting.answers)?]?;
    let cuts = vec![in alloc; setting.cut]?;
    let mut link = MemLink::new(alloc, answers, cuts, vec![in alloc; fails.link]?);
    let mut sink = MemSink::new(alloc, vec![in alloc; fails.sink]?);
    let status = sudo_sendlog(alloc, &words, &mut disk, &mut link, &mut sink);
    let (host, put) = match link.connection(0) {
        Some(conn) => (Some(conn.host.copy(alloc)?), conn.output.copy(alloc)?),
        None => (None, Bytes::new(alloc)),
    };
    Ok(Ran {
        status,
        host,
        put,
        printed: Bytes::of(alloc, sink.bytes())?,
    })
}

/// A call of one kind fails: the one of this number.
fn fails_of(kind: &str, number: u64) -> Fails {
    match kind {
        "disk" => Fails {
            disk: number,
            ..NONE
        },
        "link" => Fails {
            link: number,
            ..NONE
        },
        _ => Fails {
            sink: number,
            ..NONE
        },
    }
}

/// Does so with one call that fails, which two words before the command words name.
pub fn fail(rt: &HostRuntime, setting: &Setting, rest: &str) -> Result<()> {
    let (kind, rest) = rest.split_once(' ').ok_or(anyhow!("a kind"))?;
    let (number, line) = rest.split_once(' ').ok_or(anyhow!("a number"))?;
    show(rt, setting, fails_of(kind, number.parse::<u64>()?), line)
}

/// Prints what a run put and printed, and how it ended.
pub fn show(rt: &HostRuntime, setting: &Setting, fails: Fails, line: &str) -> Result<()> {
    let alloc = rt.alloc();
    let ran = run(alloc, setting, fails, line)?;
    if let Some(host) = &ran.host {
        let host = str::from_utf8(host.as_slice()).map_err(|_| anyhow!("no text"))?;
        println!(rt; "host {host}")?;
        println!(rt; "put {}", hex::encode(alloc, ran.put.as_slice())?)?;
    }
    println!(rt; "printed {}", hex::encode(alloc, ran.printed.as_slice())?)?;
    show_status(rt, &ran.status)
}

/// Prints a status.
fn show_status(rt: &HostRuntime, status: &SendStatus) -> Result<()> {
    let number = status.number();
    match status {
        SendStatus::Sent => println!(rt; "status {number} Sent")?,
        SendStatus::Usage => println!(rt; "status {number} Usage")?,
        SendStatus::Log(LogFault::NoPoint(point)) => {
            println!(rt; "status {number} Log NoPoint {}", point.nanos())?;
        }
        SendStatus::Log(fault) => println!(rt; "status {number} Log {fault:?}")?,
        SendStatus::WriteFault => println!(rt; "status {number} WriteFault")?,
        SendStatus::Refused(cause) => show_cause(rt, number, cause)?,
        SendStatus::NoMem => println!(rt; "status {number} NoMem")?,
    }
    Ok(())
}

/// Prints why a server didn't take all.
fn show_cause(rt: &HostRuntime, number: u8, cause: &Cause) -> Result<()> {
    match cause {
        Cause::Said(text) => {
            println!(rt;
                "status {number} Said {}",
                hex::encode(rt.alloc(), text.as_slice())?
            )?;
        }
        Cause::Strange(point) => println!(rt; "status {number} Strange {}", point.nanos())?,
        Cause::Unreached => println!(rt; "status {number} Unreached")?,
        Cause::NotYet => println!(rt; "status {number} NotYet")?,
        Cause::Ended => println!(rt; "status {number} Ended")?,
        Cause::Failed => println!(rt; "status {number} Failed")?,
        Cause::Malformed(_) => println!(rt; "status {number} Malformed")?,
        Cause::TooLarge(length) => println!(rt; "status {number} TooLarge {length}")?,
        Cause::LongId(length) => println!(rt; "status {number} LongId {length}")?,
        Cause::Chatter => println!(rt; "status {number} Chatter")?,
        Cause::TooLong(length) => println!(rt; "status {number} TooLong {length}")?,
    }
    Ok(())
}

/// Prints two statuses that came one after the other.
fn show_change(rt: &HostRuntime, kind: &str, before: u64, number: u64) -> Result<()> {
    println!(rt; "{kind} {before} then {number}")?;
    Ok(())
}

/// Prints the last status before nothing failed, and whether all that was put and printed was a prefix of the whole.
fn show_end(rt: &HostRuntime, kind: &str, before: u64, are_prefixes: bool) -> Result<()> {
    println!(rt; "{kind} {before} then 0, {are_prefixes}")?;
    Ok(())
}

/// Runs the program with each call of one kind failing in turn, until none is left to fail. Prints each status that
/// comes, once. It also prints whether what was put was each time a prefix of the whole. What was printed is looked at
/// too, unless the link fails: then what the server still says is read and printed.
pub fn each(rt: &HostRuntime, setting: &Setting, rest: &str) -> Result<()> {
    let alloc = rt.alloc();
    let (kind, line) = rest.split_once(' ').ok_or(anyhow!("a kind"))?;
    let whole = run(alloc, setting, NONE, line)?;
    let mut seen: u64 = 0;
    let mut are_prefixes = true;
    for k in 1..1_000u64 {
        let ran = run(alloc, setting, fails_of(kind, k), line)?;
        let is_prefix = whole.put.as_slice().starts_with(ran.put.as_slice())
            && (kind == "link" || whole.printed.as_slice().starts_with(ran.printed.as_slice()));
        are_prefixes = are_prefixes && is_prefix;
        let number = u64::from(ran.status.number());
        if number == 0 {
            return show_end(rt, kind, seen, are_prefixes);
        }
        if seen != 0 && seen != number {
            show_change(rt, kind, seen, number)?;
        }
        seen = number;
    }
    Err(anyhow!("each run failed"))
}
