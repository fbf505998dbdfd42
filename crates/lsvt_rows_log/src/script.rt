//! Scripts of one log, and how one is played over a disk with a plan of faults.

use crate::logs::{Opened, Outcome};
use crate::store::{self, Store};
use anyhow::{Result, anyhow};
use lsv_iolog::LogFault;
use lsvt_doubles::Plan;
use std::alloc::Global;

/// A script: its name, the files that are there before its first step, and its steps.
#[derive(Drop)]
pub struct Script {
    pub name: String,
    files: Vec<String>,
    pub lines: Vec<String>,
}

impl Script {
    /// A script of this name, with no file and no step yet.
    pub fn new(alloc: Global, name: &str) -> Result<Self> {
        let mut text = String::new(alloc);
        text.push_str(name)?;
        Ok(Script {
            name: text,
            files: Vec::new(alloc),
            lines: Vec::new(alloc),
        })
    }

    /// Takes a line: a file, or a step, after all files.
    pub fn add(&mut self, line: String) -> Result<()> {
        if !line.as_str().starts_with("file ") {
            self.lines.push(line)?;
            return Ok(());
        }
        if !self.lines.is_empty() {
            return Err(anyhow!("a step"));
        }
        self.files.push(line)?;
        Ok(())
    }
}

/// A play: its store, and the log while it is open.
#[derive(Drop)]
pub struct Play {
    alloc: Global,
    pub store: Store,
    opened: Opened,
}

/// Whether a step was done: false if the disk failed. Any other fault is the script's error.
fn done(outcome: Outcome) -> Result<bool> {
    match outcome {
        Ok(_) => Ok(true),
        Err(LogFault::Disk | LogFault::Broken) => Ok(false),
        Err(fault) => Err(fault.into()),
    }
}

impl Play {
    /// Nothing is played yet. The disk has the script's files, and this plan of faults.
    pub fn new(alloc: Global, script: &Script, plan: Plan) -> Result<Self> {
        let mut store = store::empty(alloc, plan)?;
        for line in &script.files {
            let (_, words) = line.as_str().split_once(' ').ok_or(anyhow!("a file"))?;
            store::put(alloc, &mut store, words)?;
        }
        Ok(Play {
            alloc,
            store,
            opened: Opened::new(alloc),
        })
    }

    /// Plays the steps up to the one that fails. Returns the count of those that were done.
    pub fn play(&mut self, script: &Script) -> Result<usize> {
        for (before, line) in script.lines.iter().enumerate() {
            if !self.step(line.as_str())? {
                return Ok(before);
            }
        }
        Ok(script.lines.len())
    }

    /// Does a step. Returns whether it was done: false if the disk failed.
    pub fn step(&mut self, line: &str) -> Result<bool> {
        let (word, rest) = line.split_once(' ').unwrap_or((line, ""));
        if word == "append" {
            self.opened.append(self.alloc, rest)?;
            return Ok(true);
        }
        let Play {
            alloc,
            store,
            opened,
        } = self;
        done(opened.call(*alloc, store, word, rest)?)
    }
}
