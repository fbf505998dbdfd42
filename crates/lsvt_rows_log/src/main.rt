//! Reads cases from standard input, a line each, and makes the calls of a log over a store in memory; what its files hold
//! is printed where a case asks for it. README.md says which cases there are.
#![tactic(auto)]

mod faults;
mod logs;
mod looks;
mod noting;
mod records;
mod script;
mod shown;
mod store;

use crate::logs::{Opened, view};
use crate::script::Script;
use crate::store::Store;
use anyhow::{Result, anyhow};
use lsv_follow::Follow;
use lsvt_doubles::Plan;
use std::io::{BufRead, BufReader};
use std::process::ExitCode;

/// The store of the cases so far, what is open of it, the log that is followed, and the script that is being read.
#[derive(Drop)]
struct Setting {
    store: Store,
    opened: Opened,
    followed: Option<Follow>,
    script: Option<Script>,
}

impl Setting {
    /// An empty store.
    fn new(rt: &HostRuntime) -> Result<Self> {
        let alloc = rt.alloc();
        Ok(Setting {
            store: store::empty(alloc, Plan::Whole)?,
            opened: Opened::new(alloc),
            followed: None,
            script: None,
        })
    }

    /// Takes a line. From `script` to `try` the lines are those of a script, and else each is a case.
    fn take(&mut self, rt: &HostRuntime, line: String) -> Result<()> {
        if line.as_str() == "try" {
            let script = self.script.take().ok_or(anyhow!("a script"))?;
            return faults::try_script(rt, &script);
        }
        if let Some(name) = line.as_str().strip_prefix("script ") {
            self.script = Some(Script::new(rt.alloc(), name)?);
            return Ok(());
        }
        match &mut self.script {
            Some(script) => script.add(line),
            None => self.answer(rt, line.as_str()),
        }
    }

    /// Does one case. A line that is none is printed as it is.
    fn answer(&mut self, rt: &HostRuntime, case: &str) -> Result<()> {
        let alloc = rt.alloc();
        let (word, rest) = case.split_once(' ').unwrap_or((case, ""));
        let Setting {
            store,
            opened,
            followed,
            ..
        } = self;
        match word {
            "file" => store::put(alloc, store, rest),
            "entry" => opened.add_entry(alloc, rest),
            "create" => {
                opened.call(alloc, store, word, rest)??;
                Ok(())
            }
            "append" => opened.append(alloc, rest),
            "many" => opened.append_many(alloc, rest),
            "open" | "flush" | "cut" | "finish" => {
                logs::show(rt, opened.call(alloc, store, word, rest)?)
            }
            "view" => view(rt, store, rest),
            "follow" => {
                *followed = looks::open(rt, store, rest)?;
                Ok(())
            }
            "look" => looks::look(rt, store, followed.as_mut().ok_or(anyhow!("a log"))?),
            "numbers" => opened.open_numbers(store, rest),
            "draw" => opened.draw(rt, store),
            "show" => store::show(rt, store, rest),
            "longest" => store::show_longest(rt, store),
            _ => Ok(println!(rt; "{case}")?),
        }
    }
}

fn answer_all(rt: &HostRuntime) -> Result<()> {
    let mut setting = Setting::new(rt)?;
    for case in BufReader::new(rt.alloc(), rt.reader())?.lines(rt.alloc()) {
        let case = case?;
        if case.as_str() == "store" {
            setting = Setting::new(rt)?;
        } else {
            setting.take(rt, case)?;
        }
    }
    Ok(())
}

fn main(rt: HostRuntime) -> ExitCode {
    match answer_all(&rt) {
        Ok(()) => ExitCode::SUCCESS,
        Err(e) => {
            let _ = eprintln!(rt; "lsvt_rows_log: {e}");
            ExitCode::FAILURE
        }
    }
}
