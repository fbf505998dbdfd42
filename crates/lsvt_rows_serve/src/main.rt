//! Reads scripts of ports from standard input, a step a line, and prints what `serve` makes of them over a store in memory.
//! README.md says which lines there are.
#![tactic(auto)]

mod alone;
mod disk;
mod loads;
mod names;
mod outside;
mod run;
mod script;
mod settled;
mod show;
mod tape;

use crate::loads::Loads;
use crate::names::Names;
use crate::run::World;
use crate::script::Scripts;
use anyhow::Result;
use std::io::{BufRead, BufReader};
use std::process::ExitCode;
use std::sync::Wait;
use std::thread::Threads;

/// What was read so far: the named bytes, the scripts of the ports, what else the program is to stand in, and the store of
/// loads.
#[derive(Drop)]
struct Setting {
    names: Names,
    scripts: Scripts,
    world: World,
    loads: Loads,
}

impl Setting {
    /// No bytes have a name.
    fn new(rt: &HostRuntime) -> Result<Self> {
        let alloc = rt.alloc();
        Ok(Setting {
            names: Names::new(alloc),
            scripts: Scripts::new(alloc),
            world: World::new(alloc)?,
            loads: Loads::new(alloc)?,
        })
    }

    /// Another server: its store is empty, it has no ports, and there is no settings file.
    fn renew(&mut self, rt: &HostRuntime) -> Result<()> {
        self.scripts = Scripts::new(rt.alloc());
        self.world = World::new(rt.alloc())?;
        Ok(())
    }

    /// Does what a line says. One of another form is printed as it is.
    fn answer<R: Threads + Wait + Sync>(
        &mut self,
        rt: &HostRuntime,
        threads: &R,
        line: &str,
    ) -> Result<()> {
        let alloc = rt.alloc();
        let (word, rest) = line.split_once(' ').unwrap_or((line, ""));
        match word {
            "server" => self.renew(rt),
            "load" => self.loads.answer(rt, rest),
            "let" => self.names.add(alloc, rest),
            "times" => self.names.multiply(alloc, rest),
            "conf" => self.world.add_line(alloc, rest),
            "unreadable" => Ok(self.world.is_unreadable = true),
            "mend" => disk::mend(&mut self.world, alloc),
            "faulty" => disk::fail_sync(&mut self.world, alloc, rest),
            "run" => run::show_one(rt, &mut self.world, self.scripts.take(alloc)),
            "top" => run::show(rt, threads, &mut self.world, self.scripts.take(alloc), rest),
            _ if self.scripts.add(alloc, &self.names, word, rest)? => Ok(()),
            _ => Ok(println!(rt; "{line}")?),
        }
    }
}

fn answer_all<R: Threads + Wait + Sync>(rt: &HostRuntime, threads: &R) -> Result<()> {
    let mut setting = Setting::new(rt)?;
    for line in BufReader::new(rt.alloc(), rt.reader())?.lines(rt.alloc()) {
        setting.answer(rt, threads, line?.as_str())?;
    }
    Ok(())
}

fn main(rt: HostRuntime) -> ExitCode {
    match answer_all(&rt, &rt) {
        Ok(()) => ExitCode::SUCCESS,
        Err(e) => {
            let _ = eprintln!(rt; "lsvt_rows_serve: {e}");
            ExitCode::FAILURE
        }
    }
}
