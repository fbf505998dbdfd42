//! What is written again after a sync that failed. The file is a double, and not one of the system's.

use anyhow::{Result, anyhow};
use lsv_real_disk::{SyncedFile, Unsynced};
use std::cell::Cell;
use std::io;
use std::io::ErrorKind;

/// The length of the file in bytes.
const LENGTH: u64 = 6;

/// A file of six bytes. Its next `fails` syncs fail, and `written` counts the bytes that were written to it.
#[derive(Drop)]
struct Failing {
    fails: Cell<u32>,
    written: Cell<usize>,
}

impl SyncedFile for Failing {
    fn read_piece(&self, buf: &mut [u8], at: u64) -> io::Result<usize> {
        Ok(if at < LENGTH {
            buf.len().min((LENGTH - at) as usize)
        } else {
            0
        })
    }

    fn write_piece(&self, bytes: &[u8], _at: u64) -> io::Result<()> {
        self.written
            .set(self.written.get().saturating_add(bytes.len()));
        Ok(())
    }

    fn sync_written(&self) -> io::Result<()> {
        let left = self.fails.get();
        if left == 0 {
            return Ok(());
        }
        self.fails.set(left - 1);
        Err(ErrorKind::Other.into())
    }

    fn sync_with_inode(&self) -> io::Result<()> {
        self.sync_written()
    }
}

/// The file, and what of it may not be on the disk.
#[derive(Drop)]
pub struct Syncing {
    file: Failing,
    unsynced: Unsynced,
}

impl Syncing {
    /// A file that was just made.
    pub fn new() -> Self {
        Syncing::begin(Unsynced::new())
    }

    fn begin(unsynced: Unsynced) -> Self {
        Syncing {
            file: Failing {
                fails: Cell::new(0),
                written: Cell::new(0),
            },
            unsynced,
        }
    }

    /// Does a case of the file.
    pub fn answer(&mut self, rt: &HostRuntime, words: &str) -> Result<()> {
        let (word, rest) = words.split_once(' ').unwrap_or((words, ""));
        match word {
            "new" => *self = Syncing::new(),
            "found" => *self = Syncing::begin(Unsynced::found()),
            "fails" => self.file.fails.set(rest.parse::<u32>()?),
            "write" => self.note(rest)?,
            "cut" => self.unsynced.end_at(rest.parse::<u64>()?),
            "sync" => self.show_sync(rt)?,
            "left" => self.show_left(rt)?,
            _ => return Err(anyhow!("a case of a file")),
        }
        Ok(())
    }

    /// Notes a write: its offset, and its count of bytes.
    fn note(&mut self, words: &str) -> Result<()> {
        let (at, count) = words.split_once(' ').ok_or(anyhow!("a count"))?;
        self.unsynced
            .note(at.parse::<u64>()?, count.parse::<usize>()?);
        Ok(())
    }

    /// Syncs the file. Prints whether that succeeded, and the count of bytes that were written again so far.
    fn show_sync(&mut self, rt: &HostRuntime) -> Result<()> {
        let answer = match self.unsynced.sync(&self.file) {
            Ok(()) => "ok",
            Err(_) => "fault",
        };
        let written = self.file.written.get();
        println!(rt; "{answer}, {written} bytes again")?;
        Ok(())
    }

    /// Prints whether something may not be on the disk.
    fn show_left(&self, rt: &HostRuntime) -> Result<()> {
        let left = if self.unsynced.is_empty() {
            "nothing"
        } else {
            "something"
        };
        println!(rt; "{left} is unsynced")?;
        Ok(())
    }
}
