//! Scripts of ports, step by step.

use crate::names::Names;
use anyhow::{Result, anyhow};
use lsv_base::Bytes;
use lsv_port::Step;
use std::alloc::Global;
use std::mem;

/// The scripts of the ports.
#[derive(Drop)]
pub struct Scripts {
    ports: Vec<Vec<Step>>,
}

/// The link that a line names first, and the rest of the line.
fn link_in(words: &str) -> Result<(u32, &str)> {
    let (link, rest) = words.split_once(' ').unwrap_or((words, ""));
    Ok((link.parse::<u32>()?, rest))
}

/// A name and a number after it.
fn counted(words: &str) -> Result<(&str, usize)> {
    let (name, count) = words.split_once(' ').ok_or(anyhow!("a number"))?;
    Ok((name, count.parse::<usize>()?))
}

impl Scripts {
    /// There is no port.
    pub fn new(alloc: Global) -> Self {
        Scripts {
            ports: Vec::new(alloc),
        }
    }

    /// Hands out the scripts. There is no port then.
    pub fn take(&mut self, alloc: Global) -> Vec<Vec<Step>> {
        mem::replace(&mut self.ports, Vec::new(alloc))
    }

    /// The script of the last port.
    fn last(&mut self) -> Result<&mut Vec<Step>> {
        self.ports.last_mut().ok_or(anyhow!("a port"))
    }

    fn push(&mut self, step: Step) -> Result<()> {
        Ok(self.last()?.push(step)?)
    }

    /// These bytes arrive on a link.
    fn give(&mut self, alloc: Global, link: u32, bytes: &[u8]) -> Result<()> {
        self.push(Step::Give(link, Bytes::of(alloc, bytes)?))
    }

    /// These bytes arrive on a link, one at a time.
    fn trickle(&mut self, alloc: Global, link: u32, bytes: &[u8]) -> Result<()> {
        for byte in bytes {
            self.give(alloc, link, &[*byte])?;
        }
        Ok(())
    }

    /// These bytes arrive on a link, this many times.
    fn repeat(&mut self, alloc: Global, link: u32, bytes: &[u8], times: usize) -> Result<()> {
        for _ in 0..times {
            self.give(alloc, link, bytes)?;
        }
        Ok(())
    }

    /// What a line says of a link. False where it says nothing of one.
    fn add_of_link(
        &mut self,
        alloc: Global,
        names: &Names,
        word: &str,
        words: &str,
    ) -> Result<bool> {
        let (link, rest) = match word {
            "open" | "last" | "break" | "room" | "give" | "trickle" | "repeat" => link_in(words)?,
            _ => return Ok(false),
        };
        match word {
            "open" => self.push(Step::Open(link))?,
            "last" => self.push(Step::Last(link))?,
            "break" => self.push(Step::Break(link))?,
            "room" => self.push(Step::Room(link, rest.parse::<u32>()?))?,
            "give" => self.give(alloc, link, names.bytes(rest)?)?,
            "trickle" => {
                let (name, count) = counted(rest)?;
                let bytes = names.bytes(name)?;
                self.trickle(alloc, link, bytes.get(..count).unwrap_or(bytes))?;
            }
            _ => {
                let (name, times) = counted(rest)?;
                self.repeat(alloc, link, names.bytes(name)?, times)?;
            }
        }
        Ok(true)
    }

    /// Adds what a line says: another port, or a step of the last one. False where it says neither.
    pub fn add(&mut self, alloc: Global, names: &Names, word: &str, words: &str) -> Result<bool> {
        match word {
            "port" => self.ports.push(Vec::new(alloc))?,
            "fail" => self.push(Step::BreakTurn)?,
            "wake" => self.push(Step::Wake)?,
            "stop" => self.push(Step::Stop)?,
            _ => return self.add_of_link(alloc, names, word, words),
        }
        Ok(true)
    }
}
