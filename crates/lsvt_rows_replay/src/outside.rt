//! Others who write a store while a log of it is followed, and gaps that are known of it.
ghost use Rattle.std.specs.Prelude.{◌≡◌, ◌≤◌, []};
ghost use Rattle.std.proofs.Common.{inl, refl};

use crate::store::file_of;
use anyhow::{Result, anyhow};
use lsv_base::{Bytes, LogNo};
use lsv_disk::{Disk, FileId, Part};
use lsv_follow::Others;
use lsv_play::Screen;
use lsv_replay::Gaps;
use lsvt_doubles::Hostile;
use std::alloc::Global;

/// At the act of this number these bytes are written over a file from its start.
#[derive(Drop)]
struct Write {
    act: u64,
    file: FileId,
    bytes: Bytes,
}

/// What others do, act by act.
#[derive(Drop)]
pub struct Acts {
    made: u64,
    writes: Vec<Write>,
}

impl Acts {
    /// They do nothing.
    pub fn none(alloc: Global) -> Self {
        Acts {
            made: 0,
            writes: Vec::new(alloc),
        }
    }

    /// They begin again.
    pub fn begin(&mut self) {
        self.made = 0;
    }

    /// Adds a write: the number of its act, the file's owner and part, and the digits of its bytes.
    pub fn add(&mut self, alloc: Global, words: &str) -> Result<()> {
        let (act, rest) = words.split_once(' ').ok_or(anyhow!("an act"))?;
        let (owner, rest) = rest.split_once(' ').ok_or(anyhow!("a file"))?;
        let (part, digits) = rest.split_once(' ').ok_or(anyhow!("bytes"))?;
        let bytes = hex::decode(alloc, digits)?;
        self.writes.push(Write {
            act: act.parse::<u64>()?,
            file: file_of(owner, part).ok_or(anyhow!("a file"))?,
            bytes: Bytes::from_vec(bytes),
        })?;
        Ok(())
    }
}

impl Others<Hostile> for Acts {
    ghost notes = { ⊥ };

    ghost noted = { λ others. [] };

    ghost later = { λ others image k. image };

    ghost none = { λ others image. refl };

    ghost each = { λ others image n k. inl (λ file own. refl) };

    fn act<S: Screen>(&mut self, disk: &mut Hostile, _screen: &S) {
        self.made = self.made.saturating_add(1);
        'writes: for write in self.writes.iter() {
            if write.act == self.made {
                let _ = disk.write_at(write.file, 0, write.bytes.as_slice());
            }
        }
    }
}

/// No log has a number from the first to the last of these.
#[derive(Clone, Copy)]
pub struct Gap {
    first: u32,
    last: u32,
}

impl Gap {
    /// There is none.
    pub fn none() -> Self {
        Gap { first: 1, last: 0 }
    }

    /// Its last number.
    pub fn end(&self) -> u32 {
        self.last
    }

    /// The numbers that two words name.
    pub fn read(words: &str) -> Result<Self> {
        let (first, last) = words.split_once(' ').ok_or(anyhow!("two numbers"))?;
        Ok(Gap {
            first: first.parse::<u32>()?,
            last: last.parse::<u32>()?,
        })
    }
}

impl Gaps<Hostile> for Gap {
    fn next(&mut self, _disk: &Hostile, from: u32) -> u32 {
        if from < self.first || from > self.last {
            return from;
        }
        self.last.saturating_add(1)
    }

    fn note(&mut self, _number: LogNo, _damage: Option<Part>) {}
}
