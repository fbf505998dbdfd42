//! Reads cases from standard input, a line each, and prints what the crates of the protocol make of them. A case is a
//! word and its arguments, with a space between each; README.md says which.
#![tactic(auto)]

mod base;
mod events;
mod logs;
mod messages;
mod words;

use anyhow::Result;
use std::io::{BufRead, BufReader};
use std::process::ExitCode;

/// Prints what is made of one case. A line that is none is printed as it is.
fn answer(rt: &HostRuntime, case: &str) -> Result<()> {
    let (word, rest) = case.split_once(' ').unwrap_or((case, ""));
    match word {
        "client" => messages::client(rt, rest),
        "server" => messages::server(rt, rest),
        "request" => messages::request(rt, rest),
        "again" => messages::again(rt, rest),
        "reply" => messages::reply(rt, rest),
        "judged" => messages::judged(rt, rest),
        "opening" => messages::opening(rt, rest),
        "json" => messages::json(rt, rest),
        "fields" => messages::fields(rt, rest),
        "frames" => messages::frames(rt, rest),
        "framed" => messages::framed(rt, rest),
        "put" => messages::put(rt, rest),
        "head" => logs::head(rt, rest),
        "head-again" => logs::head_again(rt, rest),
        "exit" => logs::exit(rt, rest),
        "number" => logs::number(rt, rest),
        "digits" => base::digits(rt, rest),
        "point" => base::point(rt, rest),
        "source" => base::source(rt, rest),
        "sink" => base::sink(rt, rest),
        "texts" => base::texts(rt, rest),
        "lay" => logs::laid(rt, rest),
        "lay-again" => logs::laid_again(rt, rest),
        "read" => logs::read(rt, rest),
        "mask" => logs::masked(rt, rest),
        "resume" => logs::resumed(rt, rest),
        "line" => logs::line_of(rt, rest),
        "tally" => logs::tallied(rt, rest),
        "sudo-line" => events::sudo(rt, rest),
        "json-line" => events::json(rt, rest),
        "formatted" => events::formatted(rt, rest),
        _ => Ok(println!(rt; "{case}")?),
    }
}

fn answer_all(rt: &HostRuntime) -> Result<()> {
    let alloc = rt.alloc();
    for case in BufReader::new(alloc, rt.reader())?.lines(alloc) {
        answer(rt, case?.as_str())?;
    }
    Ok(())
}

fn main(rt: HostRuntime) -> ExitCode {
    match answer_all(&rt) {
        Ok(()) => ExitCode::SUCCESS,
        Err(e) => {
            let _ = eprintln!(rt; "lsvt_rows_protocol: {e}");
            ExitCode::FAILURE
        }
    }
}
