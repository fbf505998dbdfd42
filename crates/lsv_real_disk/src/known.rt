// What is known of the folders of a store: whose name is on the disk, and whose sync failed. It makes no call of the system.
use crate::bounded::bounded;
use lru::LruCache;
use std::alloc::Global;
use std::io;

/// This many folders are remembered at most, those that were asked for last.
const MOST_REMEMBERED: usize = 1024;

/// Of this many folders it is remembered at most that a sync failed.
const MOST_FAILED: usize = 64;

/// What is known of a folder.
#[derive(Clone, Copy)]
struct Known {
    /// Its name is on the disk.
    is_named: bool,
    /// The number of its last sync that succeeded, 0 if none is known.
    synced: u64,
}

/// What has to be done so that a name in a folder is on the disk.
#[derive(Clone, Copy, PartialEq, Eq)]
pub enum Need {
    /// It is there.
    Nothing,
    /// A sync of the folder.
    Sync,
    /// A sync of the folder failed in this run, so the next one may say Ok without it.
    Fault,
}

/// What is known of folders. A sync has the number that was the next ticket when it began, so it began after each ticket below
/// its number was taken. What is forgotten is synced once more.
#[derive(Drop)]
pub struct KnownFolders {
    alloc: Global,
    known: LruCache<String, Known>,
    /// Those whose sync failed. What was made in them can't be made once more, and the next sync may say Ok without it: so
    /// each is a fault from then on.
    failed: Vec<String>,
    /// A sync failed of a folder that could not be remembered, so each is one.
    all_failed: bool,
}

impl KnownFolders {
    /// None is known.
    pub fn new(alloc: Global) -> io::Result<Self> {
        Ok(KnownFolders {
            alloc,
            known: bounded(alloc, MOST_REMEMBERED)?,
            failed: Vec::new(alloc),
            all_failed: false,
        })
    }

    /// A folder was just made, or a name in it may not be on the disk although an earlier sync succeeded: nothing of it is known.
    pub fn forget(&mut self, folder: &str) {
        let _ = self.known.pop(folder);
    }

    /// Whether a sync of a folder failed in this run, or may have.
    pub fn has_failed(&self, folder: &str) -> bool {
        self.all_failed || self.failed.iter().any(|failed| failed.as_str() == folder)
    }

    /// What the name of a folder in the one above needs. The folder was there when this ticket was taken; its caller may have
    /// just made it. That the one above was synced before says nothing of a folder that somebody else made since.
    pub fn needs_name(&mut self, above: &str, folder: &str, ticket: u64, is_new: bool) -> Need {
        if self.has_failed(above) {
            return Need::Fault;
        }
        if !is_new && self.of(folder).is_named {
            return Need::Nothing;
        }
        if self.of(above).synced > ticket {
            self.set_named(folder);
            return Need::Nothing;
        }
        Need::Sync
    }

    /// What the names of files in a folder need. They were there when this ticket was taken, or before the run if it is 0.
    pub fn needs_files(&mut self, folder: &str, ticket: u64) -> Need {
        if self.has_failed(folder) {
            return Need::Fault;
        }
        if self.of(folder).synced > ticket {
            return Need::Nothing;
        }
        Need::Sync
    }

    /// The sync of a folder of this number succeeded.
    pub fn note_synced(&mut self, folder: &str, number: u64) {
        let mut known = self.of(folder);
        known.synced = number;
        self.remember(folder, known);
    }

    /// The name of a folder is on the disk.
    pub fn set_named(&mut self, folder: &str) {
        let mut known = self.of(folder);
        known.is_named = true;
        self.remember(folder, known);
    }

    /// A sync of a folder failed: each one is a fault from then on.
    pub fn note_failed(&mut self, folder: &str) {
        if self.failed.len() < MOST_FAILED
            && let Ok(name) = String::from_str(self.alloc, folder)
            && self.failed.push(name).is_ok()
        {
            return;
        }
        self.all_failed = true;
    }

    /// What is known of a folder.
    fn of(&mut self, folder: &str) -> Known {
        match self.known.get(folder) {
            Some(known) => *known,
            None => Known {
                is_named: false,
                synced: 0,
            },
        }
    }

    /// Remembers what is known of a folder. Where memory ends it is forgotten.
    fn remember(&mut self, folder: &str, known: Known) {
        self.forget(folder);
        if let Ok(name) = String::from_str(self.alloc, folder) {
            let _ = self.known.put(name, known);
        }
    }
}
