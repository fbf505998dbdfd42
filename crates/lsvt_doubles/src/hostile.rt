//! A disk in memory whose calls fail, or end, where they are told to.

ghost use Rattle.std.specs.Prelude.{◌≤◌, ◌≡◌, OnErr};
ghost use Rattle.lsv_defs.specs.Causes.{HasRisen};
ghost use Rattle.lsvt_doubles.specs.Untold.{untold};

use lsv_base::NoMem;
use lsv_disk::{Disk, DiskFault, FileId, Fill, MemDisk, Owner, Part};
use std::alloc::Global;

/// What befalls a disk. Making, reading, writing and syncing a file are counted, from 1; askings of lengths apart.
#[derive(Clone, Copy, Debug, PartialEq, Eq)]
pub enum Plan {
    /// Nothing.
    Whole,
    /// The call of this number fails.
    Call(u64),
    /// The asking of this number for a length fails.
    Length(u64),
    /// The machine stops after the call of this number: no later one reaches the disk.
    Stop(u64),
    /// Each sync of this file fails while it has this many bytes or more.
    Sync(FileId, u64),
}

/// What a crash makes of the bytes that it may leave in any way.
pub const FILLS: [Fill; 4] = [Fill::Old, Fill::Read, Fill::Byte(1), Fill::Byte(0)];

/// A disk in memory of which no content is told, so that who uses it owes nothing of what it holds.
#[derive(Drop)]
pub struct Hostile {
    disk: MemDisk,
    plan: Plan,
    calls: u64,
    lengths: u64,
    was_cut: bool,
    failed: Vec<FileId>,
    faults: u64,
}

/// Makes a file that isn't there.
fn make(disk: &mut MemDisk, f: FileId) -> Result<(), DiskFault> {
    match disk.length(f) {
        Ok(None) => disk.create(f),
        _ => Err(DiskFault),
    }
}

/// The numbers of the calls that the disk in memory lets fail.
fn failing(alloc: Global, plan: Plan) -> Result<MemDisk, NoMem> {
    let disk = match plan {
        Plan::Call(number) => MemDisk::new(alloc, &[number]),
        _ => MemDisk::new(alloc, &[]),
    };
    disk.map_err(|_| NoMem)
}

impl Hostile {
    /// An empty disk that this befalls.
    pub fn new(alloc: Global, plan: Plan) -> Result<Self, NoMem> {
        Ok(Hostile::over(alloc, failing(alloc, plan)?, plan))
    }

    /// An empty disk whose calls of these numbers fail.
    pub fn failing(alloc: Global, numbers: &[u64]) -> Result<Self, NoMem> {
        match MemDisk::new(alloc, numbers) {
            Ok(disk) => Ok(Hostile::over(alloc, disk, Plan::Whole)),
            Err(_) => Err(NoMem),
        }
    }

    fn over(alloc: Global, disk: MemDisk, plan: Plan) -> Self {
        Hostile {
            disk,
            plan,
            calls: 0,
            lengths: 0,
            was_cut: false,
            failed: Vec::new(alloc),
            faults: 0,
        }
    }

    /// A disk that reads as one that a crash may leave of this one, and that this befalls, where it isn't that a call fails.
    pub fn image(&self, alloc: Global, fill: Fill, plan: Plan) -> Result<Self, NoMem> {
        match self.disk.image(alloc, fill) {
            Ok(image) => Ok(Hostile::over(alloc, image, plan)),
            Err(_) => Err(NoMem),
        }
    }

    /// How many calls were made that are counted.
    pub fn calls(&self) -> u64 {
        self.calls
    }

    /// How many lengths were asked for.
    pub fn lengths(&self) -> u64 {
        self.lengths
    }

    /// Whether a call came too late, since the machine had stopped.
    pub fn was_cut(&self) -> bool {
        self.was_cut
    }

    /// Whether the machine is to stop.
    pub fn is_to_stop(&self) -> bool {
        matches!(self.plan, Plan::Stop(_))
    }

    /// From here on it is told which calls fail.
    pub fn forget_failures(&mut self) {
        self.failed.clear();
    }

    /// Whether a call on this file has failed since.
    pub fn has_failed(&self, f: FileId) -> bool {
        self.failed.contains(&f)
    }

    /// Whether all the calls that have failed since were on files of logs.
    pub fn has_failed_at_logs(&self) -> bool {
        self.failed.iter().all(|f| matches!(f.owner, Owner::Log(_)))
    }

    /// How often a call on this file failed by its number.
    pub fn failures(&self, f: FileId) -> u64 {
        self.disk.failures(f)
    }

    /// How often a call failed because memory ran out.
    pub fn refused(&self) -> u64 {
        self.disk.refused()
    }

    /// The bytes of a file.
    pub fn bytes(&self, f: FileId) -> Option<&[u8]> {
        self.disk.bytes(f)
    }

    /// Whether a call reaches the disk.
    fn reaches(&mut self) -> bool
        ensures { self.new.faults ≡ self.old.faults }
    {
        match self.plan {
            Plan::Stop(last) if last <= self.calls => self.was_cut = true,
            _ => (),
        }
        !self.was_cut
    }

    /// Whether a call that is counted reaches the disk.
    fn begins(&mut self) -> bool
        ensures { self.new.faults ≡ self.old.faults }
    {
        let reaches = self.reaches();
        if reaches {
            self.calls = self.calls.saturating_add(1);
        }
        reaches
    }

    /// Makes several files that aren't there.
    fn make_all(&mut self, owner: Owner, parts: &[Part]) -> Result<(), DiskFault>
        ensures { self.new.faults ≡ self.old.faults }
    {
        for part in parts {
            if !self.begins() {
                return Err(DiskFault);
            }
            make(&mut self.disk, FileId::new(owner, *part))?;
        }
        Ok(())
    }

    /// The length of a file, where this asking doesn't fail.
    fn asked(&mut self, f: FileId) -> Result<Option<u64>, DiskFault>
        ensures { self.new.faults ≡ self.old.faults }
    {
        if !self.reaches() {
            return Err(DiskFault);
        }
        self.lengths = self.lengths.saturating_add(1);
        match self.plan {
            Plan::Length(number) if number == self.lengths => Err(DiskFault),
            _ => self.disk.length(f),
        }
    }

    /// Whether a sync of this file fails by its length.
    fn fails_sync(&mut self, f: FileId) -> bool
        ensures { self.new.faults ≡ self.old.faults }
    {
        let Plan::Sync(file, least) = self.plan else {
            return false;
        };
        if file != f {
            return false;
        }
        match self.disk.length(f) {
            Ok(Some(length)) => length >= least,
            _ => false,
        }
    }

    /// A failure at a file is counted.
    fn counted<T: Drop>(&mut self, f: FileId, answer: Result<T, DiskFault>) -> Result<T, DiskFault>
        ensures same { result ≡ answer }
        ensures counts { self.old.faults ≤ self.new.faults }
        ensures cause { OnErr result (HasRisen self.old.faults self.new.faults) }
    {
        if answer.is_err() {
            self.faults = self.faults.saturating_add(1);
            let _ = self.failed.push(f);
        }
        answer
    }
}

impl Disk for Hostile {
    ghost tells = { ⊥ };

    ghost view = { λ d. untold d.faults };

    ghost reads_itself = { λ told. absurd told };

    ghost absent_or_empty = { λ told. absurd told };

    ghost is_now = { λ told. absurd told };

    ghost only_now = { λ told. absurd told };

    fn root(&mut self, dir: &str, events: &str) {
        self.disk.root(dir, events);
    }

    fn create(&mut self, f: FileId) -> Result<(), DiskFault> {
        let answer = if self.begins() {
            make(&mut self.disk, f)
        } else {
            Err(DiskFault)
        };
        self.counted(f, answer)
    }

    fn create_all(&mut self, owner: Owner, parts: &[Part]) -> Result<(), DiskFault> {
        let [first, ..] = parts else {
            return Ok(());
        };
        let answer = self.make_all(owner, parts);
        self.counted(FileId::new(owner, *first), answer)
    }

    fn length(&mut self, f: FileId) -> Result<Option<u64>, DiskFault> {
        let answer = self.asked(f);
        self.counted(f, answer)
    }

    fn read_at(&mut self, f: FileId, at: u64, buf: &mut [u8]) -> Result<usize, DiskFault> {
        let answer = if self.begins() {
            self.disk.read_at(f, at, buf)
        } else {
            Err(DiskFault)
        };
        self.counted(f, answer)
    }

    fn write_at(&mut self, f: FileId, at: u64, bytes: &[u8]) -> Result<(), DiskFault> {
        let reaches = self.begins();
        let answer = match self.disk.length(f) {
            Ok(Some(end)) if at <= end && reaches => self.disk.write_at(f, at, bytes),
            _ => Err(DiskFault),
        };
        self.counted(f, answer)
    }

    fn sync(&mut self, f: FileId) -> Result<(), DiskFault> {
        let reaches = self.begins();
        let answer = if reaches && !self.fails_sync(f) {
            self.disk.sync(f)
        } else {
            Err(DiskFault)
        };
        self.counted(f, answer)
    }
}
