//! A disk in memory that tells nothing of its content, as a real one.

ghost use Rattle.std.specs.Prelude.{◌≤◌, ◌≡◌, OnErr};
ghost use Rattle.lsv_defs.specs.Causes.{HasRisen};
ghost use Rattle.lsvt_conversations.specs.Untold.{untold};

use lsv_base::NoMem;
use lsv_disk::{Disk, DiskFault, FileId, MemDisk, Owner, Part};
use std::alloc::Global;

/// A disk in memory of which no content is told, so that who uses it owes nothing of what it holds.
#[derive(Drop)]
pub struct Unwatched {
    disk: MemDisk,
    faults: u64,
}

/// Makes a file that isn't there.
fn make(disk: &mut MemDisk, f: FileId) -> Result<(), DiskFault> {
    match disk.length(f) {
        Ok(None) => disk.create(f),
        _ => Err(DiskFault),
    }
}

/// Makes several files that aren't there.
fn make_all(disk: &mut MemDisk, owner: Owner, parts: &[Part]) -> Result<(), DiskFault> {
    for part in parts {
        make(disk, FileId::new(owner, *part))?;
    }
    Ok(())
}

impl Unwatched {
    /// An empty disk.
    pub fn new(alloc: Global) -> Result<Self, NoMem> {
        match MemDisk::new(alloc, &[]) {
            Ok(disk) => Ok(Unwatched { disk, faults: 0 }),
            Err(_) => Err(NoMem),
        }
    }

    /// The bytes of a file.
    pub fn bytes(&self, f: FileId) -> Option<&[u8]> {
        self.disk.bytes(f)
    }

    /// A failure at a file is counted.
    fn counted<T: Drop>(&mut self, _f: FileId, answer: Result<T, DiskFault>) -> Result<T, DiskFault>
        ensures same { result ≡ answer }
        ensures counts { self.old.faults ≤ self.new.faults }
        ensures cause { OnErr result (HasRisen self.old.faults self.new.faults) }
    {
        if answer.is_err() {
            self.faults = self.faults.saturating_add(1);
        }
        answer
    }
}

impl Disk for Unwatched {
    ghost tells = { ⊥ };

    ghost view = { λ d. untold d.faults };

    ghost reads_itself = { λ told. absurd told };

    ghost absent_or_empty = { λ told. absurd told };

    ghost is_now = { λ told. absurd told };

    ghost only_now = { λ told. absurd told };

    fn root(&mut self, dir: &str, events: &str) {
        self.disk.root(dir, events);
    }

    fn create(&mut self, f: FileId) -> Result<(), DiskFault> {
        let answer = make(&mut self.disk, f);
        self.counted(f, answer)
    }

    fn create_all(&mut self, owner: Owner, parts: &[Part]) -> Result<(), DiskFault> {
        let [first, ..] = parts else {
            return Ok(());
        };
        let answer = make_all(&mut self.disk, owner, parts);
        self.counted(FileId::new(owner, *first), answer)
    }

    fn length(&mut self, f: FileId) -> Result<Option<u64>, DiskFault> {
        let answer = self.disk.length(f);
        self.counted(f, answer)
    }

    fn read_at(&mut self, f: FileId, at: u64, buf: &mut [u8]) -> Result<usize, DiskFault> {
        let answer = self.disk.read_at(f, at, buf);
        self.counted(f, answer)
    }

    fn write_at(&mut self, f: FileId, at: u64, bytes: &[u8]) -> Result<(), DiskFault> {
        let answer = match self.disk.length(f) {
            Ok(Some(end)) if at <= end => self.disk.write_at(f, at, bytes),
            _ => Err(DiskFault),
        };
        self.counted(f, answer)
    }

    fn sync(&mut self, f: FileId) -> Result<(), DiskFault> {
        let answer = self.disk.sync(f);
        self.counted(f, answer)
    }
}
