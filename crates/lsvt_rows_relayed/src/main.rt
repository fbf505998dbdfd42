//! Reads cases from standard input, one a line, and relays a stored log over a link in memory. README.md says what a
//! case is.
#![tactic(auto)]

mod case;
mod faults;
mod runs;
mod shown;
mod store;

use anyhow::Result;
use std::io::{BufRead, BufReader};
use std::process::ExitCode;

/// Does one case. Any other line is printed as it is.
fn answer(rt: &HostRuntime, line: &str) -> Result<()> {
    match line.split_once(' ') {
        Some(("relay", words)) => runs::relay(rt, words),
        Some(("faults", words)) => faults::table(rt, words),
        _ => Ok(println!(rt; "{line}")?),
    }
}

fn answer_all(rt: &HostRuntime) -> Result<()> {
    let alloc = rt.alloc();
    for line in BufReader::new(alloc, rt.reader())?.lines(alloc) {
        answer(rt, line?.as_str())?;
    }
    Ok(())
}

fn main(rt: HostRuntime) -> ExitCode {
    match answer_all(&rt) {
        Ok(()) => ExitCode::SUCCESS,
        Err(e) => {
            let _ = eprintln!(rt; "lsvt_rows_relayed: {e}");
            ExitCode::FAILURE
        }
    }
}
