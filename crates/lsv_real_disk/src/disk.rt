// The disk of the operating system. It tells no content, and counts its faults.
ghost use Rattle.std.specs.Prelude.{◌≤◌, ◌≡◌, IfOk, OnErr};
ghost use Rattle.lsv_defs.specs.Causes.{HasRisen};
ghost use Rattle.lsv_real_disk.specs.Untold.{untold};

use crate::call::{Call, CallFault};
use crate::cut_notice::{JOURNAL, cut_in, last_entry};
use crate::fault::StoreFault;
use crate::refusal::{is_refused, report_no_store, warn_of_places};
use crate::reports::Reports;
use crate::shared::{Opening, SharedStore, StoreSlot, Wanted, release_unused};
use crate::store::Store;
use lsv_bundle::Body;
use lsv_disk::{Disk, DiskFault, FileId, Owner, Part};
use std::alloc::{AllocError, Global};
use std::io::ErrorKind;
use std::sync::{Arc, Mutex, Wait};

/// The nanoseconds of a second.
const NANOS: u64 = 1_000_000_000;

/// The disk of the operating system. A program opens the store by `open_store`, and then each of its disks takes it by `root`. Until
/// then each call is a fault, and makes nothing. The disks, one for each lane, use the store together, and wait for each other by `W`.
#[derive(Drop)]
pub struct FileDisk<W: Wait + Copy> {
    reports: Reports,
    waits: W,
    /// Where the disks of the program find the store that it opened.
    slot: Arc<StoreSlot, Global>,
    store: Option<Store<W>>,
}

impl<W: Wait + Copy> FileDisk<W> {
    /// A disk without a store. Its faults are reported on standard error, a line each, under the program's name.
    pub fn new(rt: HostRuntime, waits: W, program: &'static str) -> Result<Self, AllocError>
        ensures { IfOk result (λ d. (f : FileId) → (⟦<FileDisk<W> as Disk>⟧.view d).faults f ≡ 0) }
    {
        let slot = Arc::new(rt.alloc(), Mutex::new(Opening::Unopened))?;
        Ok(FileDisk::at(rt, waits, program, slot))
    }

    /// A disk of the same program for another lane, without a store yet. By the same places it gets the store of this one.
    pub fn beside(&self) -> Result<Self, AllocError>
        ensures { IfOk result (λ d. (f : FileId) → (⟦<FileDisk<W> as Disk>⟧.view d).faults f ≡ 0) }
    {
        let slot = Arc::try_clone(&self.slot)?;
        Ok(FileDisk::at(self.reports.rt, self.waits, self.reports.program, slot))
    }

    fn at(rt: HostRuntime, waits: W, program: &'static str, slot: Arc<StoreSlot, Global>) -> Self
        ensures { result.reports.faults ≡ 0 }
    {
        FileDisk {
            reports: Reports::new(rt, program),
            waits,
            slot,
            store: None,
        }
    }

    /// Takes the store at these places for a relay: of its calls those on files of relaying alone may be made.
    pub fn open_for_relay(&mut self, dir: &str, events: &str)
        ensures { self.new.reports.faults ≡ self.old.reports.faults }
    {
        self.store = None;
        match self.store_for_relay(dir, events) {
            Ok(store) => self.store = Some(store),
            Err(fault) => report_no_store(
                &self.reports.rt,
                self.reports.program,
                dir,
                events,
                &fault,
            ),
        }
    }

    fn store_for_relay(&self, dir: &str, events: &str) -> Result<Store<W>, StoreFault> {
        let opened = SharedStore::open_for_relay(self.reports.rt, dir, events)?;
        let shared = shared_of(self.reports.rt.alloc(), opened)?;
        Store::new(
            self.reports.rt,
            self.waits,
            self.reports.program,
            shared,
            true,
        )
    }

    /// Opens the store at these places for the disks of this program, one for each of this many lanes: it takes the locks, looks
    /// whether the files fit, and then cuts off what stands after the lines of the event logs. If it can't it says why, and changes
    /// nothing. From then on a disk that is given these places takes this store, and changes nothing by that.
    pub fn open_store<'x>(&mut self, dir: &'x str, events: &'x str, lanes: u32)
        ensures { self.new.reports.faults ≡ self.old.reports.faults }
    {
        // This disk lets go of an earlier store.
        self.store = None;
        self.open_slot(Wanted { dir, events, lanes });
    }

    /// Opens the store that is wanted, if the program has none that a disk uses.
    fn open_slot(&self, wanted: Wanted<'_>) {
        let mut guard = self.slot.lock(&self.waits);
        let slot = &mut *guard;
        release_unused(slot);
        let is_at = match &*slot {
            Opening::Open(shared) => Some(shared.is_at(wanted.dir, wanted.events)),
            Opening::Unopened | Opening::Refused => None,
        };
        match is_at {
            Some(true) => {}
            Some(false) => {
                self.report_unopened(wanted.dir, wanted.events, &StoreFault::OtherPlaces);
            }
            None => *slot = self.open_at(wanted),
        }
    }

    /// Opens the store that is wanted, or says why it can't.
    fn open_at(&self, wanted: Wanted<'_>) -> Opening {
        let (rt, program) = (self.reports.rt, self.reports.program);
        let Wanted { dir, events, .. } = wanted;
        warn_of_places(&rt, program, dir, events);
        if is_refused(rt, program, dir, events) {
            return Opening::Refused;
        }
        match SharedStore::open(rt, &self.waits, program, wanted) {
            Ok(opened) => self.shared_by(opened, dir, events),
            Err(fault) => {
                self.report_unopened(dir, events, &fault);
                Opening::Refused
            }
        }
    }

    /// A store that was just opened, for the disks of the program.
    fn shared_by(&self, opened: SharedStore, dir: &str, events: &str) -> Opening {
        match shared_of(self.reports.rt.alloc(), opened) {
            Ok(shared) => Opening::Open(shared),
            Err(fault) => {
                self.report_unopened(dir, events, &fault);
                Opening::Refused
            }
        }
    }

    /// Says why the store at these places isn't opened.
    fn report_unopened(&self, dir: &str, events: &str, fault: &StoreFault) {
        report_no_store(&self.reports.rt, self.reports.program, dir, events, fault);
    }

    /// The store that the program opened, if it is at these places. None if it was said why it isn't opened.
    fn store_at(&self, dir: &str, events: &str) -> Option<Result<Store<W>, StoreFault>> {
        let guard = self.slot.lock(&self.waits);
        match &*guard {
            Opening::Open(shared) if shared.is_at(dir, events) => Some(self.joined(shared)),
            Opening::Open(_) => Some(Err(StoreFault::OtherPlaces)),
            Opening::Unopened => Some(Err(StoreFault::Unopened)),
            Opening::Refused => None,
        }
    }

    /// A store that the program opened, as this disk uses it.
    fn joined(&self, shared: &Arc<SharedStore, Global>) -> Result<Store<W>, StoreFault> {
        Store::new(
            self.reports.rt,
            self.waits,
            self.reports.program,
            Arc::try_clone(shared)?,
            false,
        )
    }

    /// Whether it has a store.
    pub fn has_store(&self) -> bool {
        self.store.is_some()
    }

    /// A failure is a fault, reported and counted.
    fn checked<T: Drop>(
        &mut self,
        f: FileId,
        call: Call,
        answer: Result<T, CallFault>,
    ) -> Result<T, DiskFault>
        ensures ok { IfOk result (λ t. answer ≡ Ok t) }
        ensures counts { self.old.reports.faults ≤ self.new.reports.faults }
        ensures cause { OnErr result (HasRisen self.old.reports.faults self.new.reports.faults) }
    {
        if let Err(e) = &answer {
            self.report(f, call, e);
        }
        self.reports.checked(answer, DiskFault)
    }

    /// Says on standard error what failed. Why there is no store was said by `root`.
    fn report(&self, f: FileId, call: Call, fault: &CallFault) {
        let Some(store) = &self.store else {
            return;
        };
        let (alloc, program) = (self.reports.rt.alloc(), self.reports.program);
        let text = match (store.place_of(f), fault) {
            (Ok(place), CallFault::Io(e)) => {
                let path = place.path.as_str();
                format!(in alloc; "{program}: {path}: {call}: {e}")
            }
            (Ok(place), CallFault::FolderExists) => {
                let folder = place.folder.as_str();
                return self.report_exists(store, folder, f.owner);
            }
            (Err(_), CallFault::Io(e)) => { format!(in alloc; "{program}: the store: {call}: {e}") }
            (Err(_), CallFault::FolderExists) => {
                format!(in alloc; "{program}: the store: {call}: the folder exists")
            }
        };
        if let Ok(text) = text {
            self.reports.say(text.as_str());
        }
    }

    /// Says that the folder of a new log exists, and which number file is at fault.
    fn report_exists(&self, store: &Store<W>, folder: &str, owner: Owner) {
        let Ok(numbers) = store.numbers_of(owner) else {
            return;
        };
        let (program, numbers) = (self.reports.program, numbers.as_str());
        let text = format!(in self.reports.rt.alloc();
            "{program}: {folder}: create: this folder of a new log exists, so the number file {numbers} is older than the store: nothing in the folder is changed; end the server, and put that file back from a newer copy"
        );
        if let Ok(text) = text {
            self.reports.say(text.as_str());
        }
    }
}

/// A handle of a store for each disk that uses it.
fn shared_of(alloc: Global, opened: SharedStore) -> Result<Arc<SharedStore, Global>, StoreFault> {
    match Arc::new(alloc, opened) {
        Ok(shared) => Ok(shared),
        Err(_) => Err(AllocError.into()),
    }
}

/// Says that a client resumes a log, and how many of its records are dropped.
fn report_resumed<W: Wait + Copy>(
    reports: &Reports,
    store: &mut Store<W>,
    journal: FileId,
    entry: Body,
) {
    let mut bytes = [0; JOURNAL];
    let (Ok(place), Ok(count)) = (store.place_of(journal), store.read(journal, 0, &mut bytes))
    else {
        return;
    };
    let Some(before) = last_entry(&bytes[..count]) else {
        return;
    };
    let folder = place.folder.as_str();
    let of = before.count;
    let dropped = of.saturating_sub(entry.count);
    let (seconds, nanos) = (entry.elapsed / NANOS, entry.elapsed % NANOS);
    let program = reports.program;
    let text = format!(in reports.rt.alloc();
        "{program}: {folder}: a client resumes this log at {seconds}.{nanos:09} s: of its {of} records it drops the last {dropped}"
    );
    if let Ok(text) = text {
        reports.say(text.as_str());
    }
}

impl<W: Wait + Copy> Disk for FileDisk<W> {
    ghost tells = { ⊥ };

    ghost view = { λ d. untold d.reports.faults };

    ghost reads_itself = { λ told. absurd told };

    ghost absent_or_empty = { λ told. absurd told };

    ghost is_now = { λ told. absurd told };

    ghost only_now = { λ told. absurd told };

    fn root(&mut self, dir: &str, events: &str) {
        // This disk lets go of an earlier store, also if there is no other.
        self.store = None;
        match self.store_at(dir, events) {
            Some(Ok(store)) => self.store = Some(store),
            Some(Err(fault)) => report_no_store(
                &self.reports.rt,
                self.reports.program,
                dir,
                events,
                &fault,
            ),
            None => {}
        }
    }

    fn create(&mut self, f: FileId) -> Result<(), DiskFault> {
        let answer = match &mut self.store {
            Some(store) => store.make(f),
            None => Err(ErrorKind::NotFound.into()),
        };
        self.checked(f, Call::Create, answer)
    }

    fn create_all(&mut self, owner: Owner, parts: &[Part]) -> Result<(), DiskFault> {
        let answer = match &mut self.store {
            Some(store) => store.make_all(owner, parts),
            None => Err(ErrorKind::NotFound.into()),
        };
        let [first, ..] = parts else {
            // No file was asked for, so none is at fault.
            return Ok(());
        };
        self.checked(FileId::new(owner, *first), Call::Create, answer)
    }

    fn length(&mut self, f: FileId) -> Result<Option<u64>, DiskFault> {
        let answer = match &mut self.store {
            Some(store) => store.length(f).map_err(CallFault::Io),
            None => Err(ErrorKind::NotFound.into()),
        };
        self.checked(f, Call::Length, answer)
    }

    fn read_at(&mut self, f: FileId, at: u64, buf: &mut [u8]) -> Result<usize, DiskFault> {
        let answer = match &mut self.store {
            Some(store) => store.read(f, at, buf).map_err(CallFault::Io),
            None => Err(ErrorKind::NotFound.into()),
        };
        self.checked(f, Call::Read, answer)
    }

    fn write_at(&mut self, f: FileId, at: u64, bytes: &[u8]) -> Result<(), DiskFault> {
        let answer = match &mut self.store {
            Some(store) => {
                if let Some(entry) = cut_in(f, bytes) {
                    report_resumed(&self.reports, store, f, entry);
                }
                store.write(f, at, bytes)
            }
            None => Err(ErrorKind::NotFound.into()),
        };
        self.checked(f, Call::Write, answer)
    }

    fn sync(&mut self, f: FileId) -> Result<(), DiskFault> {
        let answer = match &mut self.store {
            Some(store) => store.sync(f).map_err(CallFault::Io),
            None => Err(ErrorKind::NotFound.into()),
        };
        self.checked(f, Call::Sync, answer)
    }
}
