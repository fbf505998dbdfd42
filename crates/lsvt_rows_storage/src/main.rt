//! Reads cases from standard input, one a line, and makes the calls of the real disk and of the system's ports in the folder
//! in which it runs. README.md names the cases.
#![tactic(auto)]

mod bells;
mod disks;
mod folders;
mod links;
mod making;
mod names;
mod syncing;

use crate::disks::Disks;
use crate::links::Links;
use crate::syncing::Syncing;
use anyhow::Result;
use std::io::{BufRead, BufReader};
use std::process::ExitCode;
use std::sync::Wait;
use std::thread::Threads;

/// What the cases work with.
#[derive(Drop)]
struct Setting<R: Wait + Threads + Copy + Send + Sync> {
    threads: R,
    disks: Disks<R>,
    syncing: Syncing,
    links: Links,
}

impl<R: Wait + Threads + Copy + Send + Sync> Setting<R> {
    /// Three disks without a store, a file that was just made, and no port.
    fn new(rt: HostRuntime, threads: R) -> Result<Self> {
        match Disks::new(rt, threads) {
            Ok(disks) => Ok(Setting {
                threads,
                disks,
                syncing: Syncing::new(),
                links: Links::new(),
            }),
            Err(e) => Err(e),
        }
    }

    /// Does one case. Any other line is printed as it is.
    fn answer(&mut self, rt: &HostRuntime, case: &str) -> Result<()> {
        let (word, rest) = case.split_once(' ').unwrap_or((case, ""));
        match word {
            "disk" => self.disks.answer(rt, rest),
            "stored" => disks::show_stored(rt, rest),
            "mode" => disks::show_mode(rt, rest),
            "remove" => disks::remove(rt, rest),
            "names" => folders::show_names(rt, &self.threads, rest),
            "threads" => folders::show_threads(rt, &self.threads, rest),
            "file" => self.syncing.answer(rt, rest),
            "made" => making::show(rt, rest),
            "bell" => bells::show(rt, &self.threads, rest),
            "ports" => self.links.open(*rt, rest),
            "port" => self.links.answer(rt, rest),
            "client" => self.links.answer_client(rt, rest),
            _ => Ok(println!(rt; "{case}")?),
        }
    }
}

fn answer_all<R: Wait + Threads + Copy + Send + Sync>(rt: HostRuntime, threads: R) -> Result<()> {
    let mut setting = match Setting::new(rt, threads) {
        Ok(setting) => setting,
        Err(e) => return Err(e),
    };
    for case in BufReader::new(rt.alloc(), rt.reader())?.lines(rt.alloc()) {
        let case = case?;
        setting.answer(&rt, case.as_str())?;
    }
    Ok(())
}

fn main(rt: HostRuntime) -> ExitCode {
    match answer_all(rt, rt) {
        Ok(()) => ExitCode::SUCCESS,
        Err(e) => {
            let _ = eprintln!(rt; "lsvt_rows_storage: {e}");
            ExitCode::FAILURE
        }
    }
}
