//! Reads scripts from standard input, a line each, and prints what `relay` makes of them over a store and a link in memory.
//! README.md says which lines there are.
#![tactic(auto)]

mod outside;
mod run;
mod show;

use crate::run::World;
use anyhow::{Result, anyhow};
use lsv_base::{Bytes, List};
use lsv_link::{Answer, Cut};
use std::alloc::Global;
use std::io::{BufRead, BufReader};
use std::process::ExitCode;
use std::sync::Wait;
use std::thread::Threads;

/// The bytes of digits, of which there may be none.
fn bytes_of(alloc: Global, digits: &str) -> Result<Bytes> {
    Ok(Bytes::from_vec(hex::decode(alloc, digits)?))
}

/// A part of the bytes of a connection: how many bytes must have been put before it, and what it is.
fn part_of(alloc: Global, word: &str) -> Result<Answer> {
    let (hold, digits) = word.split_once('@').unwrap_or(("0", word));
    let hold = hold.parse::<u64>()?;
    let bytes = bytes_of(alloc, digits)?;
    Ok(Answer { hold, bytes })
}

/// The bytes of a connection, part by part.
fn parts_of(alloc: Global, words: &str) -> Result<List<Answer>> {
    let mut parts = Vec::new(alloc);
    for word in words.split('+') {
        let part = part_of(alloc, word)?;
        parts.push(part)?;
    }
    Ok(List::from_vec(parts))
}

/// How the input of a connection is cut.
fn cut_of(how: &str, most: u64) -> Result<Cut> {
    match how {
        "end" => Ok(Cut::End(most)),
        "silent" => Ok(Cut::Silent(most)),
        _ => Err(anyhow!("end or silent")),
    }
}

/// A connection more of the link: how its input is cut, and the bytes that it has.
fn add_answer(alloc: Global, world: &mut World, words: &str) -> Result<()> {
    let (how, rest) = words.split_once(' ').ok_or(anyhow!("a cut"))?;
    let (most, digits) = rest.split_once(' ').unwrap_or((rest, ""));
    let cut = cut_of(how, most.parse::<u64>()?)?;
    world.add_answer(parts_of(alloc, digits)?, cut)
}

/// Does what a line says. One of another form is printed as it is.
fn answer<R: Threads + Wait + Sync>(
    rt: &HostRuntime,
    threads: &R,
    world: &mut World,
    line: &str,
) -> Result<()> {
    let alloc = rt.alloc();
    let (word, rest) = line.split_once(' ').unwrap_or((line, ""));
    match word {
        "store" => *world = World::new(alloc)?,
        "conf" => world.add_line(alloc, rest)?,
        "session" => world.add_piece(bytes_of(alloc, rest)?)?,
        "answer" => add_answer(alloc, world, rest)?,
        "fail" => world.fail(rest.parse::<u64>()?)?,
        "run" => run::show(rt, threads, world, rest)?,
        _ => println!(rt; "{line}")?,
    }
    Ok(())
}

fn answer_all<R: Threads + Wait + Sync>(rt: &HostRuntime, threads: &R) -> Result<()> {
    let mut world = World::new(rt.alloc())?;
    for line in BufReader::new(rt.alloc(), rt.reader())?.lines(rt.alloc()) {
        answer(rt, threads, &mut world, line?.as_str())?;
    }
    Ok(())
}

fn main(rt: HostRuntime) -> ExitCode {
    match answer_all(&rt, &rt) {
        Ok(()) => ExitCode::SUCCESS,
        Err(e) => {
            let _ = eprintln!(rt; "lsvt_rows_forward: {e}");
            ExitCode::FAILURE
        }
    }
}
