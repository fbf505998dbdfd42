//! Reads cases from standard input, a line each, and passes sessions on over scripts of ports in memory, or message by
//! message. README.md names the cases.
#![tactic(auto)]

mod messages;
mod played;
mod words;

use crate::messages::Messages;
use anyhow::Result;
use lsv_port::Step;
use std::io::{BufRead, BufReader};
use std::process::ExitCode;

/// What the cases work with: the script that is being read, and the messages that were passed on one by one.
#[derive(Drop)]
struct Setting {
    script: Vec<Step>,
    messages: Messages,
}

impl Setting {
    /// A script without steps, and no messages.
    fn new(rt: &HostRuntime) -> Self {
        Setting {
            script: Vec::new(rt.alloc()),
            messages: Messages::new(rt.alloc()),
        }
    }

    /// Plays the script that was read, and prints what came of it. The next one begins.
    fn play(&mut self, rt: &HostRuntime, is_lost: bool) -> Result<()> {
        let script = std::mem::replace(&mut self.script, Vec::new(rt.alloc()));
        played::show(rt, &played::play(rt.alloc(), script, is_lost)?)
    }

    /// Does one case. Any line of another form is printed as it is.
    fn answer(&mut self, rt: &HostRuntime, case: &str) -> Result<()> {
        let (word, rest) = case.split_once(' ').unwrap_or((case, ""));
        match word {
            "open" | "give" | "each" | "room" | "last" | "break" | "break-turn" | "wake" | "stop" =>
                { words::add_steps(rt.alloc(), &mut self.script, word, rest) }
            "pair" => self.play(rt, false),
            "lost" => self.play(rt, true),
            "begin" => {
                self.messages = Messages::new(rt.alloc());
                Ok(())
            }
            "client" => self.messages.client(rt, rest),
            "server" => self.messages.server(rt, rest),
            _ => Ok(println!(rt; "{case}")?),
        }
    }
}

fn answer_all(rt: &HostRuntime) -> Result<()> {
    let mut setting = Setting::new(rt);
    for case in BufReader::new(rt.alloc(), rt.reader())?.lines(rt.alloc()) {
        setting.answer(rt, case?.as_str())?;
    }
    Ok(())
}

fn main(rt: HostRuntime) -> ExitCode {
    match answer_all(&rt) {
        Ok(()) => ExitCode::SUCCESS,
        Err(e) => {
            let _ = eprintln!(rt; "lsvt_rows_live: {e}");
            ExitCode::FAILURE
        }
    }
}
