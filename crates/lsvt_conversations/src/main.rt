//! Reads conversations of many connections with one lane from standard input, a line for each thing that happens, and lets
//! two servers answer them: the session machine in memory, and the keeper over a disk in memory. It prints their replies
//! and, at the end of each conversation, their logs; where the two differ, it prints what the keeper says besides.
//! README.md says what the lines are.
#![tactic(auto)]

mod kept;
mod lines;
mod servers;
mod show;
mod unwatched;

use crate::servers::Servers;
use anyhow::Result;
use std::io::{BufRead, BufReader};
use std::process::ExitCode;

/// Holds one conversation, which begins with its heading.
fn converse(rt: &HostRuntime, heading: &str, lines: &[String]) -> Result<()> {
    println!(rt; "{heading}")?;
    let mut servers = Servers::begin(rt.alloc(), heading)?;
    for line in lines {
        match line.as_str() {
            "turn" => servers.turn(rt)?,
            "stop" => servers.stop(rt.alloc())?,
            line => servers.push(rt.alloc(), line)?,
        }
    }
    servers.end(rt)
}

/// Holds each conversation.
fn converse_all(rt: &HostRuntime) -> Result<()> {
    let alloc = rt.alloc();
    let mut heading = String::new(alloc);
    let mut lines = Vec::new(alloc);
    for line in BufReader::new(alloc, rt.reader())?.lines(alloc) {
        let line = line?;
        if line.starts_with("conversation ") {
            if !heading.is_empty() {
                converse(rt, heading.as_str(), &lines)?;
            }
            heading = line;
            lines.clear();
        } else {
            lines.push(line)?;
        }
    }
    converse(rt, heading.as_str(), &lines)
}

fn main(rt: HostRuntime) -> ExitCode {
    match converse_all(&rt) {
        Ok(()) => ExitCode::SUCCESS,
        Err(e) => {
            let _ = eprintln!(rt; "lsvt_conversations: {e}");
            ExitCode::FAILURE
        }
    }
}
