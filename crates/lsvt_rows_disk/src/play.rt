//! A disk with what is open of it, and the steps that are done with it.

use crate::bundles::{self, Held};
use crate::{calls, numbers};
use anyhow::{Result, anyhow};
use lsv_disk::{FileId, Owner, Part};
use lsv_eventlog::EventLog;
use lsv_journal::Journal;
use lsv_seq::Numbers;
use lsvt_doubles::Hostile;
use std::alloc::Global;

/// The file of the journal, whose bodies have 12 bytes.
const SLOTS: FileId = FileId {
    owner: Owner::Numbers(0),
    part: Part::Slots,
};

/// A disk, and what is open.
#[derive(Drop)]
pub struct Play {
    alloc: Global,
    pub disk: Hostile,
    journal: Option<Journal<12>>,
    bundle: Option<Held>,
    other: Option<Held>,
    lines: Option<EventLog>,
    numbers: Option<Numbers>,
}

impl Play {
    /// Nothing is open.
    pub fn new(alloc: Global, disk: Hostile) -> Self {
        Play {
            alloc,
            disk,
            journal: None,
            bundle: None,
            other: None,
            lines: None,
            numbers: None,
        }
    }

    /// Does the steps up to the first that fails. Returns whether none failed.
    pub fn play(&mut self, steps: &[String]) -> bool {
        for step in steps {
            if self.step(step.as_str()).is_err() {
                return false;
            }
        }
        true
    }

    /// Does one step. Returns what it answers, as a text.
    pub fn step(&mut self, step: &str) -> Result<String> {
        let (of, rest) = step.split_once(' ').ok_or(anyhow!("a step"))?;
        let (word, words) = rest.split_once(' ').unwrap_or((rest, ""));
        match of {
            "disk" => calls::call(self.alloc, &mut self.disk, rest),
            "journal" => self.journal(word, words),
            "bundle" => self.bundle(word, words),
            "lines" => self.lines(word, words),
            "numbers" => self.numbers(word, words),
            _ => Err(anyhow!("a step")),
        }
    }

    /// A call of the journal.
    fn journal(&mut self, word: &str, words: &str) -> Result<String> {
        let Play {
            alloc,
            disk,
            journal,
            ..
        } = self;
        match word {
            "create" => *journal = Some(Journal::create(disk, SLOTS)?),
            "append" => {
                let journal = journal.as_mut().ok_or(anyhow!("an open journal"))?;
                journal.append(disk, [words.parse::<u8>()?; 12])?;
            }
            "open" => {
                *journal = Journal::open(disk, SLOTS)?;
                return match journal {
                    Some(journal) => entry(*alloc, journal.last()),
                    None => Ok(format!(in *alloc; "absent")?),
                };
            }
            "view" => return entry(*alloc, Journal::<12>::view(disk, SLOTS)?),
            _ => return Err(anyhow!("a call of a journal")),
        }
        Ok(String::new(*alloc))
    }

    /// A call of the bundle.
    fn bundle(&mut self, word: &str, words: &str) -> Result<String> {
        let alloc = self.alloc;
        match word {
            "create" => self.bundle = Some(bundles::create(alloc, &mut self.disk, words)?),
            "open" => return self.open_bundle(words),
            "view" => return bundles::view(alloc, &mut self.disk, words),
            "swap" => std::mem::swap(&mut self.bundle, &mut self.other),
            _ => {
                let bundle = self.bundle.as_mut().ok_or(anyhow!("an open bundle"))?;
                return bundle.call(alloc, &mut self.disk, word, words);
            }
        }
        Ok(String::new(alloc))
    }

    /// Opens the bundle of an owner.
    fn open_bundle(&mut self, owner: &str) -> Result<String> {
        match bundles::open(self.alloc, &mut self.disk, owner)? {
            Some((bundle, text)) => {
                self.bundle = Some(bundle);
                Ok(text)
            }
            None => Ok(format!(in self.alloc; "no entry")?),
        }
    }

    /// A call of the event log.
    fn lines(&mut self, word: &str, words: &str) -> Result<String> {
        let alloc = self.alloc;
        if word == "open" {
            let opened = EventLog::open(alloc, &mut self.disk, words.parse::<u32>()?);
            self.lines = Some(opened.map_err(bundles::fault)?);
            return Ok(String::new(alloc));
        }
        let log = self.lines.as_mut().ok_or(anyhow!("an open event log"))?;
        match word {
            "add" => log.add(&calls::bytes_of(alloc, words)?),
            "flush" => log.flush(&mut self.disk),
            _ => return Err(anyhow!("a call of an event log")),
        }
        .map_err(bundles::fault)?;
        Ok(String::new(alloc))
    }

    /// A call of a lane's numbers.
    fn numbers(&mut self, word: &str, words: &str) -> Result<String> {
        let alloc = self.alloc;
        match word {
            "open" => {
                self.numbers = Some(numbers::open(&mut self.disk, words)?);
                Ok(String::new(alloc))
            }
            "draw" => {
                let open = self.numbers.as_mut().ok_or(anyhow!("open numbers"))?;
                numbers::draw(alloc, &mut self.disk, open)
            }
            "last" => numbers::last(alloc, &mut self.disk, words),
            "once" => numbers::once(alloc, &mut self.disk, words),
            _ => Err(anyhow!("a call of numbers")),
        }
    }
}

/// An entry of the journal, by its first byte.
fn entry(alloc: Global, body: Option<[u8; 12]>) -> Result<String> {
    match body {
        Some(body) => Ok(format!(in alloc; "entry {}", body[0])?),
        None => Ok(format!(in alloc; "no entry")?),
    }
}
