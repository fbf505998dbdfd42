//! Reads cases from standard input, a line each, and goes through scripts of ports in memory: by hand, or in a server's loop
//! with a lane that answers by fixed rules. README.md names the cases.
#![tactic(auto)]

mod answering;
mod ports;
mod served;
mod words;

use crate::served::Played;
use anyhow::{Result, anyhow};
use lsv_port::{MemPort, Step};
use std::io::{BufRead, BufReader};
use std::process::ExitCode;

/// What the cases work with: the script that is being read, and what was made of the last one.
#[derive(Drop)]
struct Setting {
    script: Vec<Step>,
    port: Option<MemPort>,
    played: Option<Played>,
}

impl Setting {
    /// A script without steps.
    fn new(rt: &HostRuntime) -> Self {
        Setting {
            script: Vec::new(rt.alloc()),
            port: None,
            played: None,
        }
    }

    /// The script that was read; the next one begins.
    fn take_script(&mut self, rt: &HostRuntime) -> Vec<Step> {
        std::mem::replace(&mut self.script, Vec::new(rt.alloc()))
    }

    /// Serves the script, and prints what came of it.
    fn serve(&mut self, rt: &HostRuntime) -> Result<()> {
        let played = served::play(rt.alloc(), self.take_script(rt))?;
        played.show(rt)?;
        self.played = Some(played);
        Ok(())
    }

    /// Does one case. Any line of another form is printed as it is.
    fn answer(&mut self, rt: &HostRuntime, case: &str) -> Result<()> {
        let (word, rest) = case.split_once(' ').unwrap_or((case, ""));
        match word {
            "open" | "give" | "many" | "room" | "last" | "break" | "break-turn" | "wake" | "stop" =>
                {
                    self.script.push(words::step_of(rt.alloc(), word, rest)?)?;
                    Ok(())
                }
            "listen" => {
                let script = self.take_script(rt);
                self.port = Some(ports::listening(rt.alloc(), script)?);
                Ok(())
            }
            "port" => {
                let port = self.port.as_mut().ok_or(anyhow!("a port"))?;
                let (word, rest) = rest.split_once(' ').unwrap_or((rest, ""));
                ports::act(rt, port, word, rest)
            }
            "serve" => self.serve(rt),
            "brought" | "first" | "held" => {
                let played = self.played.as_ref().ok_or(anyhow!("a script"))?;
                played.answer(rt, word, rest)
            }
            _ => Ok(println!(rt; "{case}")?),
        }
    }
}

fn answer_all(rt: &HostRuntime) -> Result<()> {
    let mut setting = Setting::new(rt);
    for case in BufReader::new(rt.alloc(), rt.reader())?.lines(rt.alloc()) {
        setting.answer(rt, case?.as_str())?;
    }
    Ok(())
}

fn main(rt: HostRuntime) -> ExitCode {
    match answer_all(&rt) {
        Ok(()) => ExitCode::SUCCESS,
        Err(e) => {
            let _ = eprintln!(rt; "lsvt_rows_connection: {e}");
            ExitCode::FAILURE
        }
    }
}
