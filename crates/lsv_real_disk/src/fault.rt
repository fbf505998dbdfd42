// Why a store can't be used.
use crate::drawn::WrongNumbers;
use crate::lock::LockFault;
use crate::tail::Unfit;
use std::alloc::AllocError;
use std::fmt::Display;
use std::{fmt, io};

/// Why a store can't be used.
#[derive(Drop)]
pub enum StoreFault {
    /// Another server has its lock.
    InUse,
    /// Another server has the lock of the event log of this lane.
    EventsInUse(u32),
    /// The program hasn't opened a store.
    Unopened,
    /// Another disk of this program uses a store at other places.
    OtherPlaces,
    /// Another relay has the lock of relays.
    RelayInUse,
    /// The file of the lock of relays can't be opened or made.
    RelayLock(io::Error),
    /// These number files are damaged, or don't cover the logs of their lanes.
    Numbers(Vec<WrongNumbers>),
    /// The store has another count of lanes than is asked for.
    Lanes { kept: u32, asked: u32 },
    /// Another program filled or cut an event log, which was said.
    Taken,
    /// The event log of this lane doesn't fit its journal.
    UnfitEvents(u32, Unfit),
    /// What stands after the lines of the event log of this lane can't be kept.
    TailNotKept(u32, io::Error),
    /// A step of opening it failed.
    Io(Step, io::Error),
}

/// A step of opening a store.
#[derive(Clone, Copy)]
pub enum Step {
    /// Making the folder of the logs and those above it.
    Make,
    /// Syncing their names.
    Sync,
    /// Taking a lock.
    Lock,
    /// Reading the number files, and looking for the greatest log.
    Look,
    /// Anything in memory.
    Prepare,
}

impl Display for Step {
    fn fmt<W: fmt::Write>(&self, f: &mut fmt::Formatter<W>) -> fmt::Result {
        f.write_str(match self {
            Step::Make => "make",
            Step::Sync => "sync",
            Step::Lock => "lock",
            Step::Look => "look",
            Step::Prepare => "open",
        })
    }
}

impl From<AllocError> for StoreFault {
    fn from(e: AllocError) -> Self {
        StoreFault::Io(Step::Prepare, e.into())
    }
}

/// The fault of a step of opening a store.
pub fn of_step<T>(step: Step, answer: io::Result<T>) -> Result<T, StoreFault> {
    match answer {
        Ok(t) => Ok(t),
        Err(e) => Err(StoreFault::Io(step, e)),
    }
}

/// The fault of a lock that wasn't taken.
pub fn of_lock<T>(held: StoreFault, answer: Result<T, LockFault>) -> Result<T, StoreFault> {
    match answer {
        Ok(t) => Ok(t),
        Err(LockFault::Held) => Err(held),
        Err(LockFault::Io(e)) => Err(StoreFault::Io(Step::Lock, e)),
    }
}

/// The fault of the lock of relays, if it wasn't taken.
pub fn of_relay_lock<T>(answer: Result<T, LockFault>) -> Result<T, StoreFault> {
    match answer {
        Ok(t) => Ok(t),
        Err(LockFault::Held) => Err(StoreFault::RelayInUse),
        Err(LockFault::Io(e)) => Err(StoreFault::RelayLock(e)),
    }
}
