//! A disk in memory that another program writes while it is read.

ghost use Rattle.std.specs.Prelude.{◌≤◌, ◌≡◌, OnErr};
ghost use Rattle.lsv_defs.specs.Causes.{HasRisen};
ghost use Rattle.lsvt_doubles.specs.Untold.{untold};

use crate::Hostile;
use lsv_disk::{Disk, DiskFault, FileId, Owner, Part};

/// Another program that writes the disk.
pub trait Writer {
    /// Writes it once.
    fn write(&mut self, disk: &mut Hostile);
}

/// A disk that another program writes once: before the call of its user with a number, counted from 1. It tells
/// nothing, so who uses it owes nothing of what it holds.
#[derive(Drop)]
pub struct Beside<W> {
    disk: Hostile,
    writer: W,
    at: u64,
    calls: u64,
    faults: u64,
}

impl<W: Writer> Beside<W> {
    /// Nobody has used it yet.
    pub fn new(disk: Hostile, writer: W, at: u64) -> Self {
        Beside {
            disk,
            writer,
            at,
            calls: 0,
            faults: 0,
        }
    }

    /// How many calls its user has made.
    pub fn calls(&self) -> u64 {
        self.calls
    }

    /// A call of its user comes; the other program writes before it, if it is the one.
    fn begin(&mut self)
        ensures { self.new.faults ≡ self.old.faults }
    {
        self.calls = self.calls.saturating_add(1);
        if self.calls == self.at {
            self.writer.write(&mut self.disk);
        }
    }

    /// A failure is counted.
    fn counted<T: Drop>(&mut self, answer: Result<T, DiskFault>) -> Result<T, DiskFault>
        ensures same { result ≡ answer }
        ensures counts { self.old.faults ≤ self.new.faults }
        ensures cause { OnErr result (HasRisen self.old.faults self.new.faults) }
    {
        if answer.is_err() {
            self.faults = self.faults.saturating_add(1);
        }
        answer
    }
}

impl<W: Writer> Disk for Beside<W> {
    ghost tells = { ⊥ };

    ghost view = { λ d. untold d.faults };

    ghost reads_itself = { λ told. absurd told };

    ghost absent_or_empty = { λ told. absurd told };

    ghost is_now = { λ told. absurd told };

    ghost only_now = { λ told. absurd told };

    fn root(&mut self, dir: &str, events: &str) {
        self.disk.root(dir, events);
    }

    fn create(&mut self, f: FileId) -> Result<(), DiskFault> {
        self.begin();
        let answer = self.disk.create(f);
        self.counted(answer)
    }

    fn create_all(&mut self, owner: Owner, parts: &[Part]) -> Result<(), DiskFault> {
        self.begin();
        let answer = self.disk.create_all(owner, parts);
        self.counted(answer)
    }

    fn length(&mut self, f: FileId) -> Result<Option<u64>, DiskFault> {
        self.begin();
        let answer = self.disk.length(f);
        self.counted(answer)
    }

    fn read_at(&mut self, f: FileId, at: u64, buf: &mut [u8]) -> Result<usize, DiskFault> {
        self.begin();
        let answer = self.disk.read_at(f, at, buf);
        self.counted(answer)
    }

    fn write_at(&mut self, f: FileId, at: u64, bytes: &[u8]) -> Result<(), DiskFault> {
        self.begin();
        let answer = self.disk.write_at(f, at, bytes);
        self.counted(answer)
    }

    fn sync(&mut self, f: FileId) -> Result<(), DiskFault> {
        self.begin();
        let answer = self.disk.sync(f);
        self.counted(answer)
    }
}
