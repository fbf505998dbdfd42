// The locks of a store: of the folder of its logs, and of the files of its event logs. The system releases them when the
// program ends.
use crate::path::Places;
use lsv_disk::{FileId, Owner, Part};
use std::alloc::Global;
use std::fs::{File, Metadata, OpenOptions, Permissions, TryLockError};
use std::io;
use std::io::ErrorKind;
use std::os::unix::fs::{MetadataExt, OpenOptionsExt, PermissionsExt};

/// Whoever runs the server may read and write its files, and nobody else.
const MODE: u32 = 0o600;

/// The bits of a file's mode that tell who may do what.
const ALL_BITS: u32 = 0o777;

/// Why a lock isn't taken.
#[derive(Drop)]
pub enum LockFault {
    /// Another server has it.
    Held,
    Io(io::Error),
}

impl From<io::Error> for LockFault {
    fn from(e: io::Error) -> Self {
        LockFault::Io(e)
    }
}

/// The lock of a file of an event log.
#[derive(Drop)]
struct EventsLock {
    id: FileId,
    file: File,
}

/// The locks of the event logs of a store. Each is of the log itself and of its journal: a server that finds one of them
/// removed or renamed still finds the other locked.
#[derive(Drop)]
pub struct EventsLocks {
    rt: HostRuntime,
    held: Vec<EventsLock>,
}

impl EventsLocks {
    /// None is taken yet.
    pub fn new(rt: HostRuntime, alloc: Global) -> Self {
        EventsLocks {
            rt,
            held: Vec::new(alloc),
        }
    }

    /// Takes those of a lane's event log whose files exist. Nothing is changed.
    pub fn take_found(
        &mut self,
        alloc: Global,
        places: &Places,
        lane: u32,
    ) -> Result<(), LockFault> {
        for part in [Part::Lines, Part::Slots] {
            let id = FileId::new(Owner::Events(lane), part);
            let Some(place) = places.place_of(alloc, id).map_err(no_memory)? else {
                continue;
            };
            match File::open(&self.rt, place.path.as_str()) {
                Ok(file) => self.take(id, file)?,
                Err(e) if e.kind() == ErrorKind::NotFound => {}
                Err(e) => return Err(LockFault::Io(e)),
            }
        }
        Ok(())
    }

    /// A file of the store was made or opened. If it is of an event log, its lock is taken, or it is the file that was
    /// locked: else another program has put a file in its place, and this is a fault.
    pub fn check(&mut self, id: FileId, path: &str, opened: &Metadata) -> io::Result<()> {
        if !has_lock(id) {
            return Ok(());
        }
        if let Some(lock) = self.held.iter().find(|lock| lock.id == id) {
            return is_same(&lock.file.metadata()?, opened);
        }
        let file = File::open(&self.rt, path)?;
        is_same(&file.metadata()?, opened)?;
        match self.take(id, file) {
            Ok(()) => Ok(()),
            Err(LockFault::Held) => Err(ErrorKind::ResourceBusy.into()),
            Err(LockFault::Io(e)) => Err(e),
        }
    }

    /// Takes the lock of a file.
    fn take(&mut self, id: FileId, file: File) -> Result<(), LockFault> {
        let file = locked(file)?;
        match self.held.push(EventsLock { id, file }) {
            Ok(()) => Ok(()),
            Err(_) => Err(LockFault::Io(ErrorKind::OutOfMemory.into())),
        }
    }
}

/// Out of memory, as the system's error.
fn no_memory(_: std::alloc::AllocError) -> LockFault {
    LockFault::Io(ErrorKind::OutOfMemory.into())
}

/// Whether a file of the store has a lock of its own.
fn has_lock(id: FileId) -> bool {
    matches!(
        (id.owner, id.part),
        (Owner::Events(_), Part::Lines | Part::Slots)
    )
}

/// Both are of one file; else the name is another program's.
fn is_same(locked: &Metadata, opened: &Metadata) -> io::Result<()> {
    if locked.dev() == opened.dev() && locked.ino() == opened.ino() {
        return Ok(());
    }
    Err(ErrorKind::ResourceBusy.into())
}

/// Takes the lock of an open file or folder.
fn locked(file: File) -> Result<File, LockFault> {
    match file.try_lock() {
        Ok(()) => Ok(file),
        Err(TryLockError::WouldBlock) => Err(LockFault::Held),
        Err(TryLockError::Error(e)) => Err(LockFault::Io(e)),
    }
}

/// Takes the lock of the folder of the logs. No file in it can be removed to open it to another server.
pub fn lock_folder(rt: &HostRuntime, dir: &str) -> Result<File, LockFault> {
    let folder = File::open(rt, dir)?;
    if !folder.metadata()?.is_dir() {
        return Err(LockFault::Io(ErrorKind::NotADirectory.into()));
    }
    locked(folder)
}

/// Takes the lock of the file `lock` in the folder of the logs, which is the one that earlier versions ask for.
pub fn lock_file(rt: &HostRuntime, alloc: Global, dir: &str) -> Result<File, LockFault> {
    let path = format!(in alloc; "{dir}/lock").map_err(no_memory)?;
    locked(open_lock(rt, path.as_str())?)
}

/// The same if the file exists. Nothing is changed.
pub fn lock_found_file(
    rt: &HostRuntime,
    alloc: Global,
    dir: &str,
) -> Result<Option<File>, LockFault> {
    let path = format!(in alloc; "{dir}/lock").map_err(no_memory)?;
    locked_if_found(open_file(rt, path.as_str()))
}

/// Takes the lock of the folder of the logs if it exists. Nothing is changed.
pub fn lock_found_folder(rt: &HostRuntime, dir: &str) -> Result<Option<File>, LockFault> {
    locked_if_found(File::open(rt, dir))
}

/// Takes the lock of what was opened. None if it doesn't exist.
fn locked_if_found(opened: io::Result<File>) -> Result<Option<File>, LockFault> {
    match opened {
        Ok(file) => match locked(file) {
            Ok(file) => Ok(Some(file)),
            Err(fault) => Err(fault),
        },
        Err(e) if e.kind() == ErrorKind::NotFound => Ok(None),
        Err(e) => Err(LockFault::Io(e)),
    }
}

/// Takes the lock of the file `relay.lock` in the folder of the logs, by which relays exclude each other.
pub fn lock_of_relays(rt: &HostRuntime, alloc: Global, dir: &str) -> Result<File, LockFault> {
    let path = format!(in alloc; "{dir}/relay.lock").map_err(no_memory)?;
    locked(open_lock(rt, path.as_str())?)
}

/// Opens the file of the lock, and makes it where it isn't there: one that is there keeps its mode.
fn open_lock(rt: &HostRuntime, path: &str) -> io::Result<File> {
    match make_file(rt, path) {
        Ok(lock) => {
            set_mode(&lock, &lock.metadata()?)?;
            Ok(lock)
        }
        Err(e) if e.kind() == ErrorKind::AlreadyExists => open_file(rt, path),
        Err(e) => Err(e),
    }
}

/// Opens a file that is there.
pub fn open_file(rt: &HostRuntime, path: &str) -> io::Result<File> {
    OpenOptions::new().read(true).write(true).open(rt, path)
}

/// Makes an empty file, which nobody else may read.
pub fn make_file(rt: &HostRuntime, path: &str) -> io::Result<File> {
    OpenOptions::new()
        .read(true)
        .write(true)
        .create_new(true)
        .mode(MODE)
        .open(rt, path)
}

/// Gives a file that was just made its mode, where the system left it another: a umask takes bits away.
pub fn set_mode(file: &File, metadata: &Metadata) -> io::Result<()> {
    if metadata.permissions().mode() & ALL_BITS == MODE {
        return Ok(());
    }
    file.set_permissions(Permissions::from_mode(MODE))
}
