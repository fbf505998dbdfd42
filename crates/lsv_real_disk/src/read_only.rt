// The disk of the operating system, of which nothing is changed. It tells no content, and counts its faults.
ghost use Rattle.std.specs.Prelude.{◌≤◌, ◌≡◌, IfOk, OnErr, length};
ghost use Rattle.lsv_defs.specs.Causes.{HasRisen};
ghost use Rattle.lsv_real_disk.specs.Untold.{untold};

use crate::call::Call;
use crate::foreign::{Foreign, foreign_at};
use crate::look::no_store_in;
use crate::opened::Opened;
use crate::path::Places;
use crate::reports::Reports;
use lsv_disk::{Disk, DiskFault, FileId, Owner, Part};
use std::alloc::AllocError;
use std::io;
use std::io::ErrorKind;

/// The disk of the operating system, for who only reads: no folder and no file is made, no lock is taken, and each call
/// that would change a file or sync it is a fault. A store that a server writes is read as it reads.
#[derive(Drop)]
pub struct ReadOnlyDisk {
    reports: Reports,
    store: Option<Opened>,
}

impl ReadOnlyDisk {
    /// A disk without a store. Its faults are reported on standard error, a line each, under the program's name.
    pub fn new(rt: HostRuntime, program: &'static str) -> Self
        ensures { (f : FileId) → (⟦<ReadOnlyDisk as Disk>⟧.view result).faults f ≡ 0 }
    {
        ReadOnlyDisk {
            reports: Reports::new(rt, program),
            store: None,
        }
    }

    /// A disk over these places, which the caller has looked at.
    pub fn at(rt: HostRuntime, program: &'static str, places: &Places) -> Result<Self, AllocError> {
        let store = Opened::new(rt, places.dir.as_str(), places.events.as_str())?;
        Ok(ReadOnlyDisk {
            reports: Reports::new(rt, program),
            store: Some(store),
        })
    }

    /// A failure is a fault, reported and counted.
    fn checked<T: Drop>(
        &mut self,
        f: FileId,
        call: Call,
        answer: io::Result<T>,
    ) -> Result<T, DiskFault>
        ensures ok { IfOk result (λ t. answer ≡ Ok t) }
        ensures counts { self.old.reports.faults ≤ self.new.reports.faults }
        ensures cause { OnErr result (HasRisen self.old.reports.faults self.new.reports.faults) }
    {
        if let Err(e) = &answer {
            self.report(f, call, e);
        }
        self.reports.checked(answer, DiskFault)
    }

    /// Says on standard error what failed. Why there is no store was said by `root`.
    fn report(&self, f: FileId, call: Call, e: &io::Error) {
        let program = self.reports.program;
        let Some(store) = &self.store else {
            return;
        };
        match store.places.place_of(self.reports.rt.alloc(), f) {
            Ok(Some(place)) => {
                let path = place.path.as_str();
                let _ = eprintln!(self.reports.rt; "{program}: {path}: {call}: {e}");
            }
            _ => {
                let _ = eprintln!(self.reports.rt; "{program}: the store: {call}: {e}");
            }
        }
    }

    /// How many bytes a file has, None where there is none.
    fn length_of(&mut self, f: FileId) -> io::Result<Option<u64>>
        ensures { self.new.reports.faults ≡ self.old.reports.faults }
    {
        let Some(store) = &mut self.store else {
            return Err(ErrorKind::NotFound.into());
        };
        store.length(&self.reports.rt, f)
    }

    /// Reads as many bytes as there are and as the buffer takes; an absent file has none.
    fn read(&mut self, f: FileId, at: u64, buf: &mut [u8]) -> io::Result<usize>
        ensures within { IfOk result (λ n. n ≤ length buf.old) }
        ensures faults { self.new.reports.faults ≡ self.old.reports.faults }
    {
        let Some(store) = &mut self.store else {
            return Err(ErrorKind::NotFound.into());
        };
        store.read(&self.reports.rt, f, at, buf)
    }
}

/// The error of a call that a disk which is only read doesn't make.
fn refused<T>() -> io::Result<T> {
    Err(ErrorKind::PermissionDenied.into())
}

impl Disk for ReadOnlyDisk {
    ghost tells = { ⊥ };

    ghost view = { λ d. untold d.reports.faults };

    ghost reads_itself = { λ told. absurd told };

    ghost absent_or_empty = { λ told. absurd told };

    ghost is_now = { λ told. absurd told };

    ghost only_now = { λ told. absurd told };

    fn root(&mut self, dir: &str, events: &str) {
        self.store = None;
        let program = self.reports.program;
        if let Ok(Some(Foreign::Logs)) = foreign_at(
            &self.reports.rt,
            self.reports.rt.alloc(),
            dir,
            events,
        ) {
            let _ = eprintln!(self.reports.rt;
                "{program}: {dir}: sudo's own programs keep their logs here, as its file seq shows: let sudo's own sudoreplay show them, or -d name the folder of this server's logs"
            );
            return;
        }
        if let Ok(Some(reason)) = no_store_in(&self.reports.rt, dir) {
            let _ = eprintln!(self.reports.rt;
                "{program}: {dir}: {reason}; -d names the folder of the logs"
            );
            return;
        }
        match Opened::new(self.reports.rt, dir, events) {
            Ok(store) => self.store = Some(store),
            Err(e) => {
                let _ = eprintln!(self.reports.rt; "{program}: {dir}: {e}");
            }
        }
    }

    fn create(&mut self, f: FileId) -> Result<(), DiskFault> {
        self.checked(f, Call::Create, refused())
    }

    fn create_all(&mut self, owner: Owner, parts: &[Part]) -> Result<(), DiskFault> {
        let [first, ..] = parts else {
            return Ok(());
        };
        self.checked(FileId::new(owner, *first), Call::Create, refused())
    }

    fn length(&mut self, f: FileId) -> Result<Option<u64>, DiskFault> {
        let answer = self.length_of(f);
        self.checked(f, Call::Length, answer)
    }

    fn read_at(&mut self, f: FileId, at: u64, buf: &mut [u8]) -> Result<usize, DiskFault> {
        let answer = self.read(f, at, buf);
        self.checked(f, Call::Read, answer)
    }

    fn write_at(&mut self, f: FileId, _at: u64, _bytes: &[u8]) -> Result<(), DiskFault> {
        self.checked(f, Call::Write, refused())
    }

    fn sync(&mut self, f: FileId) -> Result<(), DiskFault> {
        self.checked(f, Call::Sync, refused())
    }
}
