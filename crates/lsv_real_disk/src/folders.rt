// The system's calls on folders: they are made, opened and synced.
use crate::known::KnownFolders;
use crate::naming::{FolderCalls, FolderSync, parent_of};
use std::alloc::Global;
use std::fs::{DirBuilder, File, Permissions};
use std::io::ErrorKind;
use std::os::unix::fs::{DirBuilderExt, PermissionsExt};
use std::{fs, io};

/// Whoever runs the server may look into its folders, and nobody else.
const MODE: u32 = 0o700;

/// The bits of a mode, those that a folder takes over from the one above too.
const ALL_BITS: u32 = 0o7777;

/// The system as the one who syncs folders. One that the caller has open is synced by that handle: it was opened before
/// something was made there, so a write that failed since is reported to it.
#[derive(Clone, Copy)]
pub struct SystemFolders<'a> {
    pub rt: &'a HostRuntime,
    /// A folder that is open, and its path.
    pub at_hand: Option<(&'a str, &'a File)>,
}

impl FolderCalls for SystemFolders<'_> {
    fn sync_folder(&self, folder: &str) -> FolderSync {
        if let Some((path, file)) = self.at_hand
            && path == folder
        {
            return answer_of(file.sync_all());
        }
        match File::open(self.rt, folder) {
            Ok(file) => answer_of(file.sync_all()),
            Err(e) => FolderSync::Unopened(e),
        }
    }
}

/// What a sync of a folder that is open came to.
fn answer_of(answer: io::Result<()>) -> FolderSync {
    match answer {
        Ok(()) => FolderSync::Done,
        Err(e) if knows_no_sync(&e) => FolderSync::Unknown(e),
        Err(e) => FolderSync::Failed(e),
    }
}

/// Whether the sync of a folder failed because its file system knows none: it is one that is only read, such as squashfs, erofs
/// or /proc.
fn knows_no_sync(e: &io::Error) -> bool {
    matches!(
        e.kind(),
        ErrorKind::InvalidInput | ErrorKind::ReadOnlyFilesystem
    )
}

/// Makes folders. It belongs to one disk.
#[derive(Drop)]
pub struct FolderMaker {
    rt: HostRuntime,
    alloc: Global,
    /// In which folder the last one was made that got its mode by its making.
    plain: String,
}

impl FolderMaker {
    /// It has made none yet.
    pub fn new(rt: HostRuntime) -> Self {
        let alloc = rt.alloc();
        FolderMaker {
            rt,
            alloc,
            plain: String::new(alloc),
        }
    }

    /// Makes a folder and those above it that are not there. Nobody else of this program makes one meanwhile, or syncs one that lanes
    /// share. Nothing is known of what it makes.
    pub fn make(&mut self, known: &mut KnownFolders, folder: &str) -> io::Result<()> {
        let mut made = String::new(self.alloc);
        for name in folder.split('/') {
            if !name.is_empty() {
                let parent = String::from_str(self.alloc, parent_of(made.as_str()))?;
                made.push_str(name)?;
                self.make_missing(known, made.as_str(), parent.as_str())?;
            }
            made.push('/')?;
        }
        Ok(())
    }

    /// Makes a folder that isn't there, and none in a parent that may not be opened, and so not be synced.
    fn make_missing(
        &mut self,
        known: &mut KnownFolders,
        folder: &str,
        parent: &str,
    ) -> io::Result<()> {
        if fs::exists(&self.rt, folder)? {
            return Ok(());
        }
        let _ = File::open(&self.rt, parent)?;
        known.forget(folder);
        // Another server, which wants the same store, may be faster.
        let _ = self.make_in(folder, parent)?;
        Ok(())
    }

    /// Makes a folder in a parent that the caller could open. False if it exists.
    pub fn make_in(&mut self, folder: &str, parent: &str) -> io::Result<bool> {
        match DirBuilder::new().mode(MODE).create(&self.rt, folder) {
            Ok(()) => {
                self.set_mode(folder, parent)?;
                Ok(true)
            }
            Err(e) if e.kind() == ErrorKind::AlreadyExists => Ok(false),
            Err(e) => Err(e),
        }
    }

    /// Gives a folder its mode, where the mask of the process or the folder above left it another. Those that are made in one
    /// folder get the same, so it is looked at once for many.
    fn set_mode(&mut self, folder: &str, parent: &str) -> io::Result<()> {
        if self.plain.as_str() == parent {
            return Ok(());
        }
        if fs::metadata(&self.rt, folder)?.permissions().mode() & ALL_BITS == MODE {
            self.plain = String::from_str(self.alloc, parent)?;
            return Ok(());
        }
        fs::set_permissions(&self.rt, folder, Permissions::from_mode(MODE))
    }
}
