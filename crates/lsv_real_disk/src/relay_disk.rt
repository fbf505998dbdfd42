// The disk of a relay, which may run beside a server. It tells no content, and counts its faults.
ghost use Rattle.std.specs.Prelude.{◌+◌, ◌≡◌, IfOk};
ghost use Rattle.lsv_real_disk.specs.Untold.{untold};

use crate::disk::FileDisk;
use crate::drawn::numbers_in;
use crate::fault::StoreFault;
use crate::foreign::{Foreign, foreign_at};
use crate::look::no_store_in;
use crate::owner::{OtherOwner, other_owner, report_owner};
use crate::path::Places;
use crate::read_only::ReadOnlyDisk;
use crate::refusal::{report_far, report_no_store};
use lsv_disk::{Disk, DiskFault, FileId, Owner, Part};
use std::alloc::AllocError;
use std::io;
use std::sync::Wait;

/// The disk of the operating system for a relay. Files of relaying are made, written and synced, and their folder with them.
/// All other files are only read: a call that would change or sync one is a fault. A second relay of the store gets no store.
#[derive(Drop)]
pub struct RelayDisk<W: Wait + Copy> {
    rt: HostRuntime,
    /// Whose faults they are, on standard error.
    program: &'static str,
    /// The files of relaying.
    own: FileDisk<W>,
    others: ReadOnlyDisk,
}

impl<W: Wait + Copy> RelayDisk<W> {
    /// A disk without a store. Its faults are reported on standard error, a line each, under the program's name.
    pub fn new(rt: HostRuntime, waits: W, program: &'static str) -> Result<Self, AllocError>
        ensures { IfOk result (λ d. (f : FileId) → (⟦<RelayDisk<W> as Disk>⟧.view d).faults f ≡ 0) }
    {
        match FileDisk::new(rt, waits, program) {
            Ok(own) => Ok(RelayDisk {
                rt,
                program,
                own,
                others: ReadOnlyDisk::new(rt, program),
            }),
            Err(e) => Err(e),
        }
    }

    /// Says why a folder has no store of this server; nothing if it has one.
    fn reports_no_store(&self, dir: &str, events: &str) -> bool {
        let program = self.program;
        if let Ok(Some(Foreign::Logs)) = foreign_at(&self.rt, self.rt.alloc(), dir, events) {
            let _ = eprintln!(self.rt;
                "{program}: {dir}: sudo's own programs keep their logs here, as its file seq shows: nothing is relayed; let iolog_dir be the folder of this server's logs"
            );
            return true;
        }
        match no_store_in(&self.rt, dir) {
            Ok(None) => self.reports_owner(dir) || self.reports_numbers(dir, events),
            Ok(Some(reason)) => {
                let _ = eprintln!(self.rt;
                    "{program}: {dir}: {reason}: start the server, or let iolog_dir be the folder of its logs"
                );
                true
            }
            Err(e) => self.reports_look(dir, &e),
        }
    }

    /// Says that another user owns the store; nothing if none does. What that user can't read would be made in it.
    fn reports_owner(&self, dir: &str) -> bool {
        let program = self.program;
        match other_owner(&self.rt, self.rt.alloc(), dir) {
            Ok(None) => false,
            Ok(Some(OtherOwner { owner, runs })) => {
                let _ = eprintln!(self.rt;
                    "{program}: {dir}: user {owner} owns this store, and user {runs} runs the relay: nothing is changed; run the relay as user {owner}"
                );
                true
            }
            Err(e) => self.reports_look(dir, &e),
        }
    }

    /// Says which number files don't cover the logs of their lanes; nothing if all do. A run by them would leave out logs.
    fn reports_numbers(&self, dir: &str, events: &str) -> bool {
        match numbers_in(self.rt, self.program, dir) {
            Ok(look) if look.wrong.is_empty() => {
                if let Ok(places) = Places::new(self.rt.alloc(), dir, events) {
                    report_far(&self.rt, self.program, &places, &look.far);
                    report_owner(&self.rt, self.program, &places, look.newest);
                }
                false
            }
            Ok(look) => {
                let fault = StoreFault::Numbers(look.wrong);
                report_no_store(&self.rt, self.program, dir, events, &fault);
                true
            }
            Err(e) => self.reports_look(dir, &e),
        }
    }

    /// Says that the folder couldn't be looked at.
    fn reports_look(&self, dir: &str, e: &io::Error) -> bool {
        let program = self.program;
        let _ = eprintln!(self.rt;
            "{program}: {dir}: look: {e}: run the relay as the user who runs the server"
        );
        true
    }
}

/// Whether a file is one of relaying.
fn is_own(f: FileId) -> bool {
    is_of_relay(f.owner)
}

/// Whether an owner's files are of relaying.
fn is_of_relay(owner: Owner) -> bool {
    matches!(owner, Owner::Relay(_))
}

impl<W: Wait + Copy> Disk for RelayDisk<W> {
    ghost tells = { ⊥ };

    ghost view = { λ d. untold (d.own.reports.faults + d.others.reports.faults) };

    ghost reads_itself = { λ told. absurd told };

    ghost absent_or_empty = { λ told. absurd told };

    ghost is_now = { λ told. absurd told };

    ghost only_now = { λ told. absurd told };

    fn root(&mut self, dir: &str, events: &str) {
        if self.reports_no_store(dir, events) {
            return;
        }
        self.own.open_for_relay(dir, events);
        if self.own.has_store() {
            self.others.root(dir, events);
        }
    }

    fn create(&mut self, f: FileId) -> Result<(), DiskFault> {
        if is_own(f) {
            self.own.create(f)
        } else {
            self.others.create(f)
        }
    }

    fn create_all(&mut self, owner: Owner, parts: &[Part]) -> Result<(), DiskFault> {
        if is_of_relay(owner) {
            self.own.create_all(owner, parts)
        } else {
            self.others.create_all(owner, parts)
        }
    }

    fn length(&mut self, f: FileId) -> Result<Option<u64>, DiskFault> {
        if is_own(f) {
            self.own.length(f)
        } else {
            self.others.length(f)
        }
    }

    fn read_at(&mut self, f: FileId, at: u64, buf: &mut [u8]) -> Result<usize, DiskFault> {
        if is_own(f) {
            self.own.read_at(f, at, buf)
        } else {
            self.others.read_at(f, at, buf)
        }
    }

    fn write_at(&mut self, f: FileId, at: u64, bytes: &[u8]) -> Result<(), DiskFault> {
        if is_own(f) {
            self.own.write_at(f, at, bytes)
        } else {
            self.others.write_at(f, at, bytes)
        }
    }

    fn sync(&mut self, f: FileId) -> Result<(), DiskFault> {
        if is_own(f) {
            self.own.sync(f)
        } else {
            self.others.sync(f)
        }
    }
}
