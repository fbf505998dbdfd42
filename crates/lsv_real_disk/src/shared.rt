// What the disks of one program share while they use one store: its locks, and what is known of its folders.
use crate::drawn::{NumbersLook, look_at_numbers};
use crate::fault::{Step, StoreFault, of_lock, of_relay_lock, of_step};
use crate::folders::{FolderMaker, SystemFolders};
use crate::lock::{
    EventsLocks, lock_file, lock_folder, lock_found_file, lock_found_folder, lock_of_relays,
};
use crate::naming::{Placed, SharedFolders};
use crate::owner::report_owner;
use crate::path::{Places, lane_path};
use crate::refusal::{is_taken, report_far, report_tail};
use crate::tail::{Tail, keep_tail, unfit_events};
use lsv_disk::{FileId, Owner, Part};
use std::alloc::{AllocError, Global};
use std::fs::{self, File, Metadata};
use std::io;
use std::sync::{Arc, Mutex, Wait};

/// Where the disks of a program find the store that it opened.
pub type StoreSlot = Mutex<Opening>;

/// Whether a program has opened a store.
#[derive(Drop)]
pub enum Opening {
    /// It hasn't.
    Unopened,
    /// It couldn't, and has said why.
    Refused,
    /// It has.
    Open(Arc<SharedStore, Global>),
}

/// Where a store is to be opened, and for how many lanes.
#[derive(Clone, Copy)]
pub struct Wanted<'a> {
    pub dir: &'a str,
    pub events: &'a str,
    pub lanes: u32,
}

/// A store that is open. While it stands, nobody else has its lock.
#[derive(Drop)]
pub struct SharedStore {
    pub places: Places,
    pub folders: SharedFolders,
    /// How many lanes it has.
    pub lanes: u32,
    events_locks: Mutex<EventsLocks>,
    _folder_lock: Option<File>,
    _file_lock: File,
}

/// The places of the store, with the event log of a lane as the first one.
pub fn places_of_lane(alloc: Global, places: &Places, lane: u32) -> Result<Places, AllocError> {
    let events = lane_path(alloc, places.events.as_str(), lane)?;
    Places::new(alloc, places.dir.as_str(), events.as_str())
}

/// Takes the locks of the event logs of all lanes whose files exist. Nothing is changed.
fn lock_events(rt: HostRuntime, places: &Places, lanes: u32) -> Result<EventsLocks, StoreFault> {
    let alloc = rt.alloc();
    let mut locks = EventsLocks::new(rt, alloc);
    for lane in 0..lanes {
        let taken = locks.take_found(alloc, places, lane);
        of_lock(StoreFault::EventsInUse(lane), taken)?;
    }
    Ok(locks)
}

/// Whether the number files fit the logs and the lanes that are asked for. What is odd of them is said.
fn check_numbers(
    rt: HostRuntime,
    program: &'static str,
    places: &Places,
    lanes: u32,
) -> Result<(), StoreFault> {
    let looked = look_at_numbers(rt, program, places, lanes);
    let NumbersLook {
        lanes: says,
        wrong,
        far,
        newest,
    } = of_step(Step::Look, looked)?;
    if !wrong.is_empty() {
        return Err(StoreFault::Numbers(wrong));
    }
    if let Some(kept) = says
        && kept != lanes
    {
        return Err(StoreFault::Lanes { kept, asked: lanes });
    }
    report_far(&rt, program, places, &far);
    report_owner(&rt, program, places, newest);
    Ok(())
}

/// Whether another program filled or cut the event log of a lane above 0, which is said. That of lane 0 was looked at before.
fn is_events_taken(
    rt: HostRuntime,
    program: &'static str,
    own: &Places,
) -> Result<bool, StoreFault> {
    let (dir, events) = (own.dir.as_str(), own.events.as_str());
    of_step(Step::Look, is_taken(rt, program, dir, events))
}

/// Whether the event log of each lane may be used. Nothing is changed.
fn check_events(
    rt: HostRuntime,
    program: &'static str,
    places: &Places,
    lanes: u32,
) -> Result<(), StoreFault> {
    for lane in 0..lanes {
        let own = places_of_lane(rt.alloc(), places, lane)?;
        if lane != 0 && is_events_taken(rt, program, &own)? {
            return Err(StoreFault::Taken);
        }
        if let Some(unfit) = of_step(Step::Look, unfit_events(&rt, program, &own))? {
            return Err(StoreFault::UnfitEvents(lane, unfit));
        }
    }
    Ok(())
}

/// Keeps what stands after the lines of the event log of each lane, and says so.
fn settle_tails(
    rt: &HostRuntime,
    program: &'static str,
    places: &Places,
    lanes: u32,
) -> Result<(), StoreFault> {
    for lane in 0..lanes {
        let own = places_of_lane(rt.alloc(), places, lane)?;
        if let Err(e) = settle_tail(rt, program, &own) {
            return Err(StoreFault::TailNotKept(lane, e));
        }
    }
    Ok(())
}

/// Keeps what stands after the lines of the event log, and says so.
fn settle_tail(rt: &HostRuntime, program: &'static str, places: &Places) -> io::Result<()> {
    if let Tail::Kept { count, path } = keep_tail(rt, program, places)? {
        report_tail(rt, program, places.events.as_str(), count, path.as_str());
    }
    Ok(())
}

/// Makes the folder of the logs where it is missing, and waits until its name is on the disk.
fn make_dir<W: Wait>(
    rt: &HostRuntime,
    waits: &W,
    folders: &SharedFolders,
    dir: &str,
) -> Result<(), StoreFault> {
    let made = FolderMaker::new(*rt).make(&mut *folders.writing(waits), dir);
    of_step(Step::Make, made)?;
    let ticket = folders.take_ticket();
    let placed = Placed {
        folder: dir,
        is_new: false,
        ticket,
        files: ticket,
        own_sync: None,
    };
    let system = SystemFolders { rt, at_hand: None };
    of_step(Step::Sync, folders.settle(waits, &system, &placed))
}

impl SharedStore {
    /// Takes each lock of the store that is there, and looks whether its number files cover its logs and its event logs fit. Only then
    /// it makes the folder of the logs and the lock that are missing, and keeps what stands after the lines of each event log. If it
    /// fails before, nothing is changed. What can't be read is said on standard error, under the program's name.
    pub fn open<W: Wait>(
        rt: HostRuntime,
        waits: &W,
        program: &'static str,
        wanted: Wanted<'_>,
    ) -> Result<Self, StoreFault> {
        let Wanted { dir, events, lanes } = wanted;
        let alloc = rt.alloc();
        let places = Places::new(alloc, dir, events)?;
        let folders = of_step(Step::Prepare, SharedFolders::new(alloc))?;
        let found_folder = of_lock(StoreFault::InUse, lock_found_folder(&rt, dir))?;
        let found_lock = of_lock(StoreFault::InUse, lock_found_file(&rt, alloc, dir))?;
        let events_locks = lock_events(rt, &places, lanes)?;
        check_numbers(rt, program, &places, lanes)?;
        check_events(rt, program, &places, lanes)?;
        make_dir(&rt, waits, &folders, dir)?;
        let folder_lock = match found_folder {
            Some(lock) => lock,
            None => of_lock(StoreFault::InUse, lock_folder(&rt, dir))?,
        };
        let file_lock = match found_lock {
            Some(lock) => lock,
            None => of_lock(StoreFault::InUse, lock_file(&rt, alloc, dir))?,
        };
        settle_tails(&rt, program, &places, lanes)?;
        Ok(SharedStore {
            places,
            folders,
            lanes,
            events_locks: Mutex::new(events_locks),
            _folder_lock: Some(folder_lock),
            _file_lock: file_lock,
        })
    }

    /// Takes the lock of relays, and no lock of a server: one may run, start or end meanwhile. No folder is made, and nothing is
    /// looked at.
    pub fn open_for_relay(rt: HostRuntime, dir: &str, events: &str) -> Result<Self, StoreFault> {
        let alloc = rt.alloc();
        let lock = of_relay_lock(lock_of_relays(&rt, alloc, dir))?;
        Ok(SharedStore {
            places: Places::new(alloc, dir, events)?,
            folders: of_step(Step::Prepare, SharedFolders::new(alloc))?,
            lanes: 1,
            events_locks: Mutex::new(EventsLocks::new(rt, alloc)),
            _folder_lock: None,
            _file_lock: lock,
        })
    }

    /// Whether it is the store at these places.
    pub fn is_at(&self, dir: &str, events: &str) -> bool {
        self.places.dir.as_str() == dir && self.places.events.as_str() == events
    }

    /// Does for the event log of a lane on which a call failed what is done at the opening: what stands after the lines that its
    /// journal counts is kept elsewhere, and cut off. Nobody else syncs its folder meanwhile. A file that isn't the one whose lock this
    /// server has stays as it is.
    pub fn settle_events<W: Wait>(
        &self,
        rt: HostRuntime,
        waits: &W,
        program: &'static str,
        lane: u32,
    ) -> io::Result<()> {
        let own = places_of_lane(rt.alloc(), &self.places, lane)?;
        let path = own.events.as_str();
        let lines = FileId::new(Owner::Events(lane), Part::Lines);
        self.check_lock(waits, lines, path, &fs::metadata(&rt, path)?)?;
        let _writing = self.folders.writing(waits);
        settle_tail(&rt, program, &own)
    }

    /// A file of the store was made or opened. If it is of an event log, its lock is taken, or it is the file that was
    /// locked: else another program has put a file in its place, and this is a fault.
    pub fn check_lock<W: Wait>(
        &self,
        waits: &W,
        id: FileId,
        path: &str,
        opened: &Metadata,
    ) -> io::Result<()> {
        self.events_locks.lock(waits).check(id, path, opened)
    }
}

/// How many disks use a store: each has a handle of it, and their slot has one.
pub fn disks_of(shared: &Arc<SharedStore, Global>) -> usize {
    Arc::strong_count(shared).saturating_sub(1).max(1)
}

/// Lets go of the store of a slot if no disk uses it.
pub fn release_unused(slot: &mut Opening) {
    if let Opening::Open(shared) = &*slot
        && Arc::strong_count(shared) == 1
    {
        *slot = Opening::Unopened;
    }
}
