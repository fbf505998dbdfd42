// How names come to the disk in folders that several lanes share: no two syncs of such a folder overlap, and a lane often needs
// no sync of its own, since that of another lane began late enough.
use crate::known::{KnownFolders, Need};
use std::alloc::Global;
use std::io;
use std::io::ErrorKind;
use std::sync::atomic::{AtomicU64, Ordering};
use std::sync::{RwLock, RwLockReadGuard, RwLockWriteGuard, Wait};

/// What came of a sync of a folder.
#[derive(Drop)]
pub enum FolderSync {
    /// What was made in it before is on the disk.
    Done,
    /// It couldn't be opened, so no sync was asked for.
    Unopened(io::Error),
    /// Its file system knows no sync of folders.
    Unknown(io::Error),
    Failed(io::Error),
}

/// Who syncs folders: the system, or a test.
pub trait FolderCalls {
    /// Syncs a folder.
    fn sync_folder(&self, folder: &str) -> FolderSync;
}

/// Files in a folder, whose names and whose folder's name are to be on the disk.
#[derive(Clone, Copy)]
pub struct Placed<'a> {
    pub folder: &'a str,
    /// The caller has just made the folder.
    pub is_new: bool,
    /// The folder was there when this ticket was taken.
    pub ticket: u64,
    /// The files were there when this ticket was taken, or before the run if it is 0.
    pub files: u64,
    /// The number of a sync of the folder that the caller made itself after it made the files: only its own lane syncs that folder.
    pub own_sync: Option<u64>,
}

/// What the disks of a program know of the folders of their store.
#[derive(Drop)]
pub struct SharedFolders {
    alloc: Global,
    /// Who writes to it may sync folders that lanes share. Who reads it makes a sync that may reach such a folder: on ext4 without
    /// a journal the first sync of a new file or folder also syncs those above it.
    known: RwLock<KnownFolders>,
    /// The next ticket.
    next: AtomicU64,
}

impl SharedFolders {
    /// Nothing is known of any folder.
    pub fn new(alloc: Global) -> io::Result<Self> {
        Ok(SharedFolders {
            alloc,
            known: RwLock::new(KnownFolders::new(alloc)?),
            next: AtomicU64::new(1),
        })
    }

    /// A ticket of its own: what the caller has made or seen stands in the folders of each sync whose number is above it.
    pub fn take_ticket(&self) -> u64 {
        self.next.fetch_add(1, Ordering::SeqCst)
    }

    /// The number of a sync that begins now.
    pub fn number(&self) -> u64 {
        self.next.load(Ordering::SeqCst)
    }

    /// While the guard stands, no folder that lanes share is synced.
    pub fn reading<'a, W: Wait>(&'a self, waits: &W) -> RwLockReadGuard<'a, KnownFolders> {
        self.known.read(waits)
    }

    /// While the guard stands, its owner alone makes or syncs folders that lanes share.
    pub fn writing<'a, W: Wait>(&'a self, waits: &W) -> RwLockWriteGuard<'a, KnownFolders> {
        self.known.write(waits)
    }

    /// Nothing is known of a folder from now on.
    pub fn forget<W: Wait>(&self, waits: &W, folder: &str) {
        self.writing(waits).forget(folder);
    }

    /// A sync of a folder failed, which its own lane made.
    pub fn note_failed<W: Wait>(&self, waits: &W, folder: &str) {
        self.writing(waits).note_failed(folder);
    }

    /// Waits until the names of files, of their folder and of those above it are on the disk. Where a sync failed in this run of
    /// one of these folders, it is a fault.
    pub fn settle<W: Wait, C: FolderCalls>(
        &self,
        waits: &W,
        calls: &C,
        placed: &Placed<'_>,
    ) -> io::Result<()> {
        let mut guard = self.writing(waits);
        let known = &mut *guard;
        if known.has_failed(placed.folder) {
            return Err(ErrorKind::Other.into());
        }
        self.settle_names(known, calls, placed)?;
        self.settle_files(known, calls, placed)
    }

    /// The same of files alone, whose folder's name is on the disk.
    pub fn settle_without_names<W: Wait, C: FolderCalls>(
        &self,
        waits: &W,
        calls: &C,
        placed: &Placed<'_>,
    ) -> io::Result<()> {
        let mut guard = self.writing(waits);
        self.settle_files(&mut *guard, calls, placed)
    }

    /// The names of a folder and of those above it, from the top.
    fn settle_names<C: FolderCalls>(
        &self,
        known: &mut KnownFolders,
        calls: &C,
        placed: &Placed<'_>,
    ) -> io::Result<()> {
        let mut path = String::new(self.alloc);
        for name in placed.folder.split('/') {
            if !name.is_empty() {
                let above = String::from_str(self.alloc, parent_of(path.as_str()))?;
                path.push_str(name)?;
                let is_new = placed.is_new && path.as_str() == placed.folder;
                self.settle_name(
                    known,
                    calls,
                    above.as_str(),
                    path.as_str(),
                    placed.ticket,
                    is_new,
                )?;
            }
            path.push('/')?;
        }
        Ok(())
    }

    /// The name of a folder in the one above. One above that may not be opened is passed over: this program made no folder in
    /// it. So is one whose file system knows no sync of folders: what this program made in it is on that file system too, where
    /// its own sync fails.
    fn settle_name<C: FolderCalls>(
        &self,
        known: &mut KnownFolders,
        calls: &C,
        above: &str,
        folder: &str,
        ticket: u64,
        is_new: bool,
    ) -> io::Result<()> {
        match known.needs_name(above, folder, ticket, is_new) {
            Need::Nothing => return Ok(()),
            Need::Fault => return Err(ErrorKind::Other.into()),
            Need::Sync => {}
        }
        let number = self.number();
        match calls.sync_folder(above) {
            FolderSync::Done | FolderSync::Unknown(_) => {
                known.note_synced(above, number);
                known.set_named(folder);
                Ok(())
            }
            FolderSync::Unopened(e) if e.kind() == ErrorKind::PermissionDenied => Ok(()),
            FolderSync::Unopened(e) => Err(e),
            FolderSync::Failed(e) => {
                known.note_failed(above);
                Err(e)
            }
        }
    }

    /// The names of files in their folder.
    fn settle_files<C: FolderCalls>(
        &self,
        known: &mut KnownFolders,
        calls: &C,
        placed: &Placed<'_>,
    ) -> io::Result<()> {
        if let Some(number) = placed.own_sync {
            known.note_synced(placed.folder, number);
        }
        match known.needs_files(placed.folder, placed.files) {
            Need::Nothing => return Ok(()),
            Need::Fault => return Err(ErrorKind::Other.into()),
            Need::Sync => {}
        }
        let number = self.number();
        match calls.sync_folder(placed.folder) {
            FolderSync::Done => {
                known.note_synced(placed.folder, number);
                Ok(())
            }
            FolderSync::Unopened(e) => Err(e),
            FolderSync::Unknown(e) | FolderSync::Failed(e) => {
                known.note_failed(placed.folder);
                Err(e)
            }
        }
    }
}

/// The folder that a path ends in a name of, where the path before that name is this, with its slash.
pub fn parent_of(above: &str) -> &str {
    match above.strip_suffix('/') {
        Some("") => "/",
        Some(parent) => parent,
        None => ".",
    }
}
