//! Reads or writes one message, reply or line a million times, lays, reads or masks a million records, flushes a bundle,
//! or makes, fills and opens logs, so that `make bench` can measure each alone; and makes the files of one log.
#![tactic(auto)]

mod flushes;
mod logs;
mod makes;
mod memory;

use flushes::flushes;
use logs::{filled, opened, short_logs};
use makes::{files, makes};
use memory::measured;
use std::env;
use std::process::ExitCode;
use std::sync::Wait;

/// The measure on the disk that a word names, made this many times, or the files of the log of that number.
fn measured_often<W: Wait + Copy>(
    rt: &HostRuntime,
    waits: W,
    word: &str,
    times: u32,
) -> Option<u64> {
    match word {
        "flush" => flushes(*rt, waits, times),
        "make" => makes(*rt, waits, times),
        "files" => files(*rt, waits, times),
        "fill" => filled(*rt, waits, b"0123456789", times),
        "fill-large" => filled(*rt, waits, &[b'x'; 1_000], times),
        "short-logs" => short_logs(*rt, waits, times),
        _ => None,
    }
}

/// The measure that the words ask for.
fn asked<W: Wait + Copy>(rt: &HostRuntime, waits: W) -> Option<u64> {
    let mut words = env::args(rt).ok()?.skip(1);
    let word = words.next()?;
    match words.next() {
        Some(times) => measured_often(
            rt,
            waits,
            word.as_str(),
            times.as_str().parse::<u32>().ok()?,
        ),
        None if word.as_str() == "open" => opened(*rt, waits),
        None => measured(rt, word.as_str()),
    }
}

fn main(rt: HostRuntime) -> ExitCode {
    match asked(&rt, rt) {
        Some(total) => {
            let _ = println!(rt; "{total}");
            ExitCode::SUCCESS
        }
        None => ExitCode::FAILURE,
    }
}
