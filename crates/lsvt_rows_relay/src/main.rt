//! Reads cases from standard input, one a line, and holds each conversation: a scripted speaker over a link in memory.
//! README.md says what a case is.
#![tactic(auto)]

ghost use Rattle.std.specs.Prelude.{◌≡◌, true};

mod case;
mod scripted;
mod shown;
mod tcp;

use crate::case::Case;
use crate::scripted::Scripted;
use anyhow::Result;
use lsv_dialogue::run;
use std::io::{BufRead, BufReader};
use std::process::ExitCode;

/// The host of each conversation.
const HOST: &str = "relay.test:30343";

/// Holds one conversation, and prints its end, what was written, its reads, and how many messages were heard.
fn converse(rt: &HostRuntime, case: Case) -> Result<()>
    requires { case.speaker.busy ≡ true }
{
    let alloc = rt.alloc();
    let mut link = case.link;
    let mut speaker: Scripted = case.speaker;
    let mut steps: u32 = 0;
    let end = run(alloc, &mut speaker, &mut steps, &mut link, HOST);
    shown::print_end(rt, end)?;
    shown::print_connection(rt, &link, 0)?;
    let heard = speaker.heard.saturating_add(u64::from(speaker.last));
    let late = speaker.late;
    Ok(println!(rt; "{heard} messages were heard, {late} late, in {steps} steps")?)
}

/// Does one case. Any other line is printed as it is.
fn answer(rt: &HostRuntime, case: &str) -> Result<()> {
    match case.split_once(' ') {
        Some(("talk", words)) => converse(rt, Case::read(rt.alloc(), words)?),
        Some(("room", words)) => converse(rt, Case::read_room(rt.alloc(), words)?),
        _ if case == "tcp" => tcp::show(rt),
        _ => Ok(println!(rt; "{case}")?),
    }
}

fn answer_all(rt: &HostRuntime) -> Result<()> {
    let alloc = rt.alloc();
    for case in BufReader::new(alloc, rt.reader())?.lines(alloc) {
        answer(rt, case?.as_str())?;
    }
    Ok(())
}

fn main(rt: HostRuntime) -> ExitCode {
    match answer_all(&rt) {
        Ok(()) => ExitCode::SUCCESS,
        Err(e) => {
            let _ = eprintln!(rt; "lsvt_rows_relay: {e}");
            ExitCode::FAILURE
        }
    }
}
