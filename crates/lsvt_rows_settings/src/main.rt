//! Reads cases from standard input, a line each, and prints what the crates of settings and load make of them. A case is
//! a word and its argument, with a space between; README.md says which.
#![tactic(auto)]

mod load;
mod settings;
mod words;

use anyhow::Result;
use std::io::{BufRead, BufReader};
use std::process::ExitCode;

/// Prints what is made of one case. A line that is none is printed as it is.
fn answer(rt: &HostRuntime, case: &str) -> Result<()> {
    let (word, rest) = case.split_once(' ').unwrap_or((case, ""));
    match word {
        "settings" => settings::read(rt, rest),
        "refused" => settings::read_refused(rt, rest),
        "nothing" => words::none(rt),
        "words" => words::read(rt, rest),
        "conversation" => load::conversation(rt, rest),
        "digest" => load::digest(rt, rest),
        "load" => load::summary(rt, rest),
        "most" => load::most(rt),
        _ => Ok(println!(rt; "{case}")?),
    }
}

fn answer_all(rt: &HostRuntime) -> Result<()> {
    let alloc = rt.alloc();
    for case in BufReader::new(alloc, rt.reader())?.lines(alloc) {
        answer(rt, case?.as_str())?;
    }
    Ok(())
}

fn main(rt: HostRuntime) -> ExitCode {
    match answer_all(&rt) {
        Ok(()) => ExitCode::SUCCESS,
        Err(e) => {
            let _ = eprintln!(rt; "lsvt_rows_settings: {e}");
            ExitCode::FAILURE
        }
    }
}
