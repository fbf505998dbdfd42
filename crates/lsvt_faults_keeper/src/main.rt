//! Reads scripts of turns from standard input, and lets the keeper play each over a disk in memory: with each device call
//! failing, and with a crash after each, in each way in which a crash may leave what wasn't synced. After each turn, and
//! of each store that was opened again, it is looked at whether what was promised is there. README.md says what the lines
//! are.
#![tactic(auto)]

mod checker;
mod found;
mod good;
mod history;
mod ledger;
mod lines;
mod recorder;
mod run;
mod script;
mod table;

use crate::script::Script;
use crate::table::table;
use anyhow::{Result, anyhow};
use std::io::{BufRead, BufReader};
use std::process::ExitCode;

/// The accept of the heading `again`, and the scripts below it.
fn read_scripts(rt: &HostRuntime) -> Result<(String, Vec<Script>)> {
    let alloc = rt.alloc();
    let mut again = String::new(alloc);
    let mut scripts: Vec<Script> = Vec::new(alloc);
    for line in BufReader::new(alloc, rt.reader())?.lines(alloc) {
        let line = line?;
        match line.as_str().split_once(' ') {
            Some(("again", job)) => again.push_str(job)?,
            Some(("script", name)) => scripts.push(Script::new(alloc, name)?)?,
            _ => {
                let script = scripts.last_mut().ok_or(anyhow!("a heading"))?;
                script.lines.push(line)?;
            }
        }
    }
    Ok((again, scripts))
}

fn run_all(rt: &HostRuntime) -> Result<()> {
    let (again, scripts) = read_scripts(rt)?;
    for script in &scripts {
        table(rt, script, again.as_str())?;
    }
    Ok(())
}

fn main(rt: HostRuntime) -> ExitCode {
    match run_all(&rt) {
        Ok(()) => ExitCode::SUCCESS,
        Err(e) => {
            let _ = eprintln!(rt; "lsvt_faults_keeper: {e}");
            ExitCode::FAILURE
        }
    }
}
