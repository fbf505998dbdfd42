// The files of a store, as one of the disks of the program uses them.
ghost use Rattle.std.specs.Prelude.{◌≤◌, IfOk, length};

use crate::bounded::bounded;
use crate::call::CallFault;
use crate::drawn::lane_of;
use crate::fault::{Step, StoreFault, of_step};
use crate::folders::{FolderMaker, SystemFolders};
use crate::handle::Handle;
use crate::limit::{MOST_FILES, SizeLimit, files_within, lacks_descriptor, most_descriptors};
use crate::lock::{make_file, open_file, set_mode};
use crate::made::{InodeTable, Made, NewFile};
use crate::naming::Placed;
use crate::path::{Place, folder_of, joined, log_name};
use crate::shared::{SharedStore, disks_of};
use crate::unsynced::Unsynced;
use lru::LruCache;
use lsv_disk::{FileId, Owner, Part};
use std::alloc::Global;
use std::collections::HashMap;
use std::fs::File;
use std::io::ErrorKind;
use std::os::unix::fs::MetadataExt;
use std::sync::{Arc, Wait};
use std::{fs, io};

/// How a file of slots begins that has no entry.
const CLOSED_GATE: &[u8] = &[0];

/// Whether a file is made alone, or files of an owner together, as when a log begins.
#[derive(Clone, Copy, PartialEq, Eq)]
enum Making {
    Alone,
    Together,
}

/// The folder of files that are made: whether this making made it too, and the one above where it was opened before that.
#[derive(Drop)]
struct FolderMade {
    above: Option<File>,
    is_new: bool,
}

/// The files of a store, or those of relaying alone. Each file belongs to one lane, so one disk of the program uses it.
#[derive(Drop)]
pub struct Store<W: Wait + Copy> {
    rt: HostRuntime,
    waits: W,
    /// Who says why an event log isn't used, on standard error.
    program: &'static str,
    alloc: Global,
    shared: Arc<SharedStore, Global>,
    maker: FolderMaker,
    handles: LruCache<FileId, Handle>,
    /// How many descriptors the process may have, of which the disks of the store share those of files.
    descriptors: u64,
    /// What was written to files that are closed, and could not be synced.
    left: HashMap<FileId, Unsynced>,
    /// Whose folder was looked for, and whether it is there, by the last calls, which all asked for lengths.
    looked: Option<(Owner, bool)>,
    /// The log of which every file existed when it was to be made: nothing is written to it.
    found_whole: Option<Owner>,
    /// The lane of an event log on which a call failed, and which wasn't opened again since.
    torn: Option<u32>,
    limit: SizeLimit,
    /// Whether only files of relaying are made and written, beside a server.
    relays: bool,
}

/// Whether several lanes have files in the folder of an owner's files.
fn shares_folder(owner: Owner) -> bool {
    matches!(owner, Owner::Numbers(_) | Owner::Events(_))
}

/// The last of some parts.
fn last_of(parts: &[Part]) -> Part {
    match parts {
        [.., last] => *last,
        [] => Part::Head,
    }
}

/// Whether a folder may be there and fit for use once nobody else of this program makes folders.
fn may_come(e: &io::Error) -> bool {
    matches!(e.kind(), ErrorKind::NotFound | ErrorKind::PermissionDenied)
}

impl<W: Wait + Copy> Store<W> {
    /// The files of a store that is open.
    pub fn new(
        rt: HostRuntime,
        waits: W,
        program: &'static str,
        shared: Arc<SharedStore, Global>,
        relays: bool,
    ) -> Result<Self, StoreFault> {
        let alloc = rt.alloc();
        let descriptors = most_descriptors();
        Ok(Store {
            rt,
            waits,
            program,
            alloc,
            shared,
            maker: FolderMaker::new(rt),
            handles: of_step(Step::Prepare, bounded(alloc, files_within(descriptors, 1)))?,
            descriptors,
            left: HashMap::new(alloc),
            looked: None,
            found_whole: None,
            torn: None,
            limit: SizeLimit::now(),
            relays,
        })
    }

    /// The path of the number file that numbered a log.
    pub fn numbers_of(&self, owner: Owner) -> io::Result<String> {
        let lane = match owner {
            Owner::Log(n) => lane_of(n, self.shared.lanes),
            _ => 0,
        };
        Ok(
            self.place_of(FileId::new(Owner::Numbers(lane), Part::Slots))?
                .path,
        )
    }

    /// The folder and the path of a file.
    pub fn place_of(&self, f: FileId) -> io::Result<Place> {
        match self.shared.places.place_of(self.alloc, f)? {
            Some(place) => Ok(place),
            None => Err(ErrorKind::InvalidInput.into()),
        }
    }

    /// Makes an empty file, and waits until it and its folder are on the disk.
    pub fn make(&mut self, f: FileId) -> Result<(), CallFault> {
        let folder = self.place_of(f)?.folder;
        let made = self.make_and_sync(folder.as_str(), f.owner, &[f.part], Making::Alone);
        self.seen_through(folder.as_str(), f.owner, &[f.part], made)
    }

    /// Makes files of one owner, which all stand in one folder, and waits until they and that folder are on the disk. A file
    /// of slots begins with its gate. Files are synced before the folder: where a file system has a journal, one transaction
    /// takes all of it then, and the syncs of folders after it find nothing to write. The folder of a log is made too: if it
    /// exists, another log may stand in it, and nothing in it is changed.
    pub fn make_all(&mut self, owner: Owner, parts: &[Part]) -> Result<(), CallFault> {
        let [first, ..] = parts else {
            self.note_whole(owner);
            return Ok(());
        };
        let folder = self.place_of(FileId::new(owner, *first))?.folder;
        let made = self.make_and_sync(folder.as_str(), owner, parts, Making::Together);
        self.seen_through(folder.as_str(), owner, parts, made)
    }

    /// None of an owner's files was absent when it was to be made. If it is a log, each later write to it is a fault, until
    /// that is so of another one.
    fn note_whole(&mut self, owner: Owner) {
        if let Owner::Log(_) = owner {
            self.found_whole = Some(owner);
        }
    }

    /// Makes empty files, and gives that of slots its gate where a journal begins. Each is on the disk then, by its own
    /// sync, or by that of a file or the folder whose inode stands in the same block.
    fn make_and_sync(
        &mut self,
        folder: &str,
        owner: Owner,
        parts: &[Part],
        making: Making,
    ) -> Result<(), CallFault> {
        self.looked = None;
        self.make_room(parts.len())?;
        let folder_made = match self.make_folder(folder, owner, making) {
            Ok(folder_made) => folder_made,
            Err(fault) => {
                self.make_room_after(fault)?;
                self.make_folder(folder, owner, making)?
            }
        };
        let opened = self.open_folder(folder)?;
        let begins = making == Making::Together && parts.contains(&Part::Slots);
        let made = self.make_files(folder, &opened, owner, parts, begins)?;
        // What was made stands in each folder whose sync begins from now on.
        let ticket = self.shared.folders.take_ticket();
        let own_sync = self.sync_made(folder, &opened, owner, parts, &made)?;
        let placed = Placed {
            folder,
            is_new: folder_made.is_new,
            ticket,
            files: ticket,
            own_sync,
        };
        Ok(self.settle_made(
            &placed,
            FileId::new(owner, last_of(parts)),
            &opened,
            &folder_made,
        )?)
    }

    /// Syncs those of the files that were just made that need it, and their folder where only its own lane syncs it. The number of
    /// that sync. The first sync in a new folder reaches the one above.
    fn sync_made(
        &mut self,
        folder: &str,
        opened: &File,
        owner: Owner,
        parts: &[Part],
        made: &Made,
    ) -> io::Result<Option<u64>> {
        let is_shared = shares_folder(owner);
        let mut reaches = true;
        for file in made.to_sync() {
            let _ = self.sync_open(file.id)?;
            if reaches && !is_shared {
                self.end_reach(owner, parts);
                reaches = false;
            }
        }
        if is_shared {
            return Ok(None);
        }
        let number = self.shared.folders.number();
        if let Err(e) = self.sync_own_folder(opened, reaches) {
            self.shared.folders.note_failed(&self.waits, folder);
            return Err(e);
        }
        self.end_reach(owner, parts);
        Ok(Some(number))
    }

    /// Syncs a folder that its own lane alone syncs.
    fn sync_own_folder(&self, opened: &File, reaches: bool) -> io::Result<()> {
        if !reaches {
            return opened.sync_all();
        }
        let _reading = self.shared.folders.reading(&self.waits);
        opened.sync_all()
    }

    /// A sync of these files reaches no folder that lanes share.
    fn end_reach(&mut self, owner: Owner, parts: &[Part]) {
        for part in parts {
            if let Some(handle) = self.handles.get_mut(&FileId::new(owner, *part)) {
                handle.end_reach();
            }
        }
    }

    /// Waits until the names of files that were just made are on the disk, with those of their folder and the ones above. `last` is
    /// the last of them.
    fn settle_made(
        &mut self,
        placed: &Placed<'_>,
        last: FileId,
        opened: &File,
        made: &FolderMade,
    ) -> io::Result<()> {
        let at_hand = match &made.above {
            _ if shares_folder(last.owner) => Some((placed.folder, opened)),
            Some(above) => Some((folder_of(placed.folder), above)),
            None => None,
        };
        match self.settle(placed, at_hand) {
            Err(e) if lacks_descriptor(&e) => {
                // No other file is closed for it: that one would be synced after these were made. This one needs no sync.
                let _ = self.handles.pop(&last);
                self.settle(placed, at_hand)
            }
            answer => answer,
        }
    }

    /// Waits until names are on the disk. A relay leaves those of folders to the server, which synced them before it answered the
    /// number of the log: no lock keeps two programs from syncing a folder at once.
    fn settle(&self, placed: &Placed<'_>, at_hand: Option<(&str, &File)>) -> io::Result<()> {
        let system = SystemFolders {
            rt: &self.rt,
            at_hand,
        };
        let folders = &self.shared.folders;
        if self.relays {
            folders.settle_without_names(&self.waits, &system, placed)
        } else {
            folders.settle(&self.waits, &system, placed)
        }
    }

    /// Opens a folder in which something is about to be made.
    fn open_folder(&mut self, folder: &str) -> io::Result<File> {
        match File::open(&self.rt, folder) {
            Err(e) if lacks_descriptor(&e) => {
                self.close_oldest()?;
                File::open(&self.rt, folder)
            }
            answer => answer,
        }
    }

    /// After a call that failed because no descriptor was left, closes the file that was not used for longest. Another failure is
    /// given back.
    fn make_room_after(&mut self, fault: CallFault) -> Result<(), CallFault> {
        match fault {
            CallFault::Io(e) if lacks_descriptor(&e) => Ok(self.close_oldest()?),
            fault => Err(fault),
        }
    }

    /// Makes the folder of files that are to be made. That of a log whose files are made together must be new.
    fn make_folder(
        &mut self,
        folder: &str,
        owner: Owner,
        making: Making,
    ) -> Result<FolderMade, CallFault> {
        match (owner, making) {
            (Owner::Log(_), Making::Together) => self.make_new_folder(folder),
            _ => {
                if File::open(&self.rt, folder).is_err() {
                    self.make_missing(folder)?;
                }
                Ok(FolderMade {
                    above: None,
                    is_new: false,
                })
            }
        }
    }

    /// Makes a folder that must be new, and those above it that are missing.
    fn make_new_folder(&mut self, folder: &str) -> Result<FolderMade, CallFault> {
        let parent = folder_of(folder);
        let above = match self.make_in(folder, parent) {
            Err(e) if may_come(&e) => {
                self.make_missing(parent)?;
                self.make_in(folder, parent)?
            }
            answer => answer?,
        };
        match above {
            Some(_) => Ok(FolderMade {
                above,
                is_new: true,
            }),
            None => Err(CallFault::FolderExists),
        }
    }

    /// Makes a folder in one that it opens before, and gives that. None if it exists.
    fn make_in(&mut self, folder: &str, parent: &str) -> io::Result<Option<File>> {
        let above = File::open(&self.rt, parent)?;
        if self.maker.make_in(folder, parent)? {
            Ok(Some(above))
        } else {
            Ok(None)
        }
    }

    /// Makes a folder and those above it that are missing, while no other lane makes or syncs one that lanes share.
    fn make_missing(&mut self, folder: &str) -> io::Result<()> {
        let mut known = self.shared.folders.writing(&self.waits);
        self.maker.make(&mut *known, folder)
    }

    /// What came of a making. Where it failed, the folder is synced again with each of its files.
    fn seen_through(
        &mut self,
        folder: &str,
        owner: Owner,
        parts: &[Part],
        made: Result<(), CallFault>,
    ) -> Result<(), CallFault> {
        if made.is_err() {
            for part in parts {
                if let Some(handle) = self.handles.get_mut(&FileId::new(owner, *part)) {
                    handle.set_named(false);
                }
            }
            self.shared.folders.forget(&self.waits, folder);
        }
        made
    }

    /// Makes files in a folder, and says which are to be synced. A gate is on its way to the disk while the files after it
    /// are made.
    fn make_files(
        &mut self,
        folder: &str,
        opened: &File,
        owner: Owner,
        parts: &[Part],
        begins: bool,
    ) -> io::Result<Made> {
        let metadata = opened.metadata()?;
        let table = InodeTable {
            block_length: metadata.blksize(),
        };
        let mut made = Made::new(self.alloc, table, metadata.ino());
        for part in made.in_order(self.alloc, parts)? {
            let file = self.make_one(folder, FileId::new(owner, part))?;
            let has_gate = begins && part == Part::Slots;
            if has_gate {
                self.write_gate(file.id)?;
            }
            made.note(file, has_gate)?;
        }
        Ok(made)
    }

    /// Writes the gate of a file of slots that was just made, and has it set out for the disk.
    fn write_gate(&mut self, f: FileId) -> io::Result<()> {
        self.limit.check(0, CLOSED_GATE.len())?;
        match self.handles.get_mut(&f) {
            Some(handle) => {
                handle.write(0, CLOSED_GATE)?;
                handle.set_out(0, CLOSED_GATE.len());
                Ok(())
            }
            None => Err(ErrorKind::NotFound.into()),
        }
    }

    /// Waits until what was written to an open file is on the disk. Whether its name is there too. While a sync may reach a
    /// folder that lanes share, none of them is synced.
    fn sync_open(&mut self, f: FileId) -> io::Result<bool> {
        let Some(handle) = self.handles.get_mut(&f) else {
            return Err(ErrorKind::NotFound.into());
        };
        if handle.reaches() {
            let _reading = self.shared.folders.reading(&self.waits);
            handle.sync()?;
        } else {
            handle.sync()?;
        }
        Ok(handle.is_named())
    }

    /// Makes a file in its folder.
    fn make_one(&mut self, folder: &str, id: FileId) -> io::Result<NewFile> {
        let path = self.path_in(folder, id)?;
        let file = match make_file(&self.rt, path.as_str()) {
            Err(e) if lacks_descriptor(&e) => {
                self.close_oldest()?;
                make_file(&self.rt, path.as_str())?
            }
            answer => answer?,
        };
        let metadata = file.metadata()?;
        set_mode(&file, &metadata)?;
        self.shared
            .check_lock(&self.waits, id, path.as_str(), &metadata)?;
        self.keep(id, file, true)?;
        let inode = metadata.ino();
        Ok(NewFile { id, inode })
    }

    /// The path of a file in its folder: of a log's without that its number is written once more.
    fn path_in(&self, folder: &str, f: FileId) -> io::Result<String> {
        match (f.owner, log_name(f.part)) {
            (Owner::Log(_), Some(name)) => Ok(joined(self.alloc, folder, name)?),
            _ => Ok(self.place_of(f)?.path),
        }
    }

    /// How many bytes a file has, None where there is none. Its folder is looked for first, and that is remembered until
    /// something else than a length is asked for: who makes a log asks for each of its files, and none is there.
    ///
    /// An event log on which a call failed is looked at again from the length of its lines on: what stands after those that count is
    /// cut off then.
    pub fn length(&mut self, f: FileId) -> io::Result<Option<u64>> {
        self.settle_torn(f)?;
        if !self.handles.contains(&f) && !self.has_folder(f)? {
            return Ok(None);
        }
        match self.handle(f)? {
            Some(handle) => Ok(Some(handle.length()?)),
            None => Ok(None),
        }
    }

    /// Whether the folder of a file is there.
    fn has_folder(&mut self, f: FileId) -> io::Result<bool> {
        let looked = self.looked;
        match looked {
            Some((owner, is_there)) if owner == f.owner => Ok(is_there),
            _ => self.look(f),
        }
    }

    /// Looks for the folder of a file.
    fn look(&mut self, f: FileId) -> io::Result<bool> {
        let folder = self.place_of(f)?.folder;
        let is_there = fs::exists(&self.rt, folder.as_str())?;
        self.looked = Some((f.owner, is_there));
        Ok(is_there)
    }

    /// Reads as many bytes as there are and as the buffer takes.
    pub fn read(&mut self, f: FileId, at: u64, buf: &mut [u8]) -> io::Result<usize>
        ensures { IfOk result (λ n. n ≤ length buf.old) }
    {
        self.looked = None;
        match self.handle(f)? {
            Some(handle) => handle.read(at, buf),
            None => Ok(0),
        }
    }

    /// Writes, and remembers what is to be synced.
    pub fn write(&mut self, f: FileId, at: u64, bytes: &[u8]) -> Result<(), CallFault> {
        let written = self.write_to(f, at, bytes);
        self.note_torn(f.owner, written.is_err());
        written
    }

    fn write_to(&mut self, f: FileId, at: u64, bytes: &[u8]) -> Result<(), CallFault> {
        self.looked = None;
        if self.found_whole == Some(f.owner) {
            return Err(CallFault::FolderExists);
        }
        self.limit.check(at, bytes.len())?;
        match self.handle(f)? {
            Some(handle) if f.part == Part::Lines => Ok(handle.write_or_cut(at, bytes)?),
            Some(handle) => Ok(handle.write(at, bytes)?),
            None => Err(ErrorKind::NotFound.into()),
        }
    }

    /// A write or a sync of a file of an owner failed, or didn't. After a failure an event log may have a part of a turn after the
    /// lines that its journal counts.
    fn note_torn(&mut self, owner: Owner, has_failed: bool) {
        if let Owner::Events(lane) = owner
            && has_failed
        {
            self.torn = Some(lane);
        }
    }

    /// Cuts off what an event log has after the lines that its journal counts, if a call on it failed since it was opened, and its lines
    /// are asked for.
    fn settle_torn(&mut self, f: FileId) -> io::Result<()> {
        match (f.owner, f.part) {
            (Owner::Events(lane), Part::Lines) if self.torn == Some(lane) => {
                self.shared
                    .settle_events(self.rt, &self.waits, self.program, lane)?;
                self.note_end(f)?;
                self.torn = None;
                Ok(())
            }
            _ => Ok(()),
        }
    }

    /// A file was cut, so nothing after its end is left to sync.
    fn note_end(&mut self, f: FileId) -> io::Result<()> {
        if let Some(handle) = self.handles.get_mut(&f) {
            return handle.note_end();
        }
        // Of a file that is closed the next opening finds the end.
        Ok(())
    }

    /// Waits until what was written is on the disk. A file that wasn't made in this run may have been made by a
    /// program that was killed, so its folder is synced after it, and the names of that and those above, once.
    pub fn sync(&mut self, f: FileId) -> io::Result<()> {
        let synced = self.sync_found(f);
        self.note_torn(f.owner, synced.is_err());
        synced
    }

    fn sync_found(&mut self, f: FileId) -> io::Result<()> {
        self.looked = None;
        if !self.handles.contains(&f) && !self.open_file(f)? {
            return Ok(());
        }
        if self.sync_open(f)? {
            return Ok(());
        }
        self.settle_found(f)?;
        match self.handles.get_mut(&f) {
            Some(handle) => {
                handle.set_named(true);
                Ok(())
            }
            None => Err(ErrorKind::NotFound.into()),
        }
    }

    /// Waits until the name of a file is on the disk that wasn't made in this run, or whose making failed. In the second case nothing
    /// is known of its folder since then.
    fn settle_found(&mut self, f: FileId) -> io::Result<()> {
        let folder = self.place_of(f)?.folder;
        let placed = Placed {
            folder: folder.as_str(),
            is_new: false,
            ticket: self.shared.folders.take_ticket(),
            files: 0,
            own_sync: None,
        };
        match self.settle(&placed, None) {
            Err(e) if lacks_descriptor(&e) => {
                self.close_oldest()?;
                self.settle(&placed, None)
            }
            answer => answer,
        }
    }

    /// A file, opened where it isn't. None where it is not there.
    fn handle(&mut self, f: FileId) -> io::Result<Option<&mut Handle>> {
        if !self.handles.contains(&f) && !self.open_file(f)? {
            return Ok(None);
        }
        Ok(self.handles.get_mut(&f))
    }

    /// Opens a file. False where it is not there.
    fn open_file(&mut self, f: FileId) -> io::Result<bool> {
        let place = self.place_of(f)?;
        self.make_room(1)?;
        let answer = match open_file(&self.rt, place.path.as_str()) {
            Err(e) if lacks_descriptor(&e) => {
                self.close_oldest()?;
                open_file(&self.rt, place.path.as_str())
            }
            answer => answer,
        };
        match answer {
            Ok(file) => {
                self.check_lock(f, place.path.as_str(), &file)?;
                self.keep(f, file, false)?;
                Ok(true)
            }
            Err(e) if e.kind() == ErrorKind::NotFound => Ok(false),
            Err(e) => Err(e),
        }
    }

    /// A file of an event log that was opened is the one whose lock this server has.
    fn check_lock(&mut self, f: FileId, path: &str, file: &File) -> io::Result<()> {
        match f.owner {
            Owner::Events(_) => {
                self.shared
                    .check_lock(&self.waits, f, path, &file.metadata()?)
            }
            _ => Ok(()),
        }
    }

    /// Keeps a file open, for which there is room. It is named if it was just made, and else it was found.
    fn keep(&mut self, f: FileId, file: File, is_named: bool) -> io::Result<()> {
        let unsynced = match self.left.get(&f) {
            Some(unsynced) => *unsynced,
            None if is_named => Unsynced::new(),
            None => Unsynced::found(),
        };
        match self.handles.put(f, Handle::new(file, unsynced, is_named)) {
            Ok(_) => {
                if !unsynced.is_empty() {
                    let _ = self.left.remove(&f);
                }
                Ok(())
            }
            Err(_) => Err(ErrorKind::OutOfMemory.into()),
        }
    }

    /// Closes files until there is room for this many more among those that this disk may keep open. With each disk that joins the
    /// store they are fewer. Room is made before a file is made: closing another one syncs it, and then nothing new is there yet.
    fn make_room(&mut self, count: usize) -> io::Result<()> {
        let most = files_within(self.descriptors, disks_of(&self.shared));
        for _ in 0..MOST_FILES {
            if self.handles.len().saturating_add(count) <= most {
                break;
            }
            self.close_oldest()?;
        }
        Ok(())
    }

    /// Closes the file that was not used for longest, and syncs it before where something was written to it: a
    /// failure then is that file's, and told at its next sync.
    fn close_oldest(&mut self) -> io::Result<()> {
        self.left.reserve(1)?;
        let Some((oldest, handle)) = self.handles.pop_lru() else {
            return Ok(());
        };
        let unsynced = self.close(handle);
        if unsynced.is_empty() {
            return Ok(());
        }
        match self.left.insert(oldest, unsynced) {
            Ok(_) => Ok(()),
            Err(_) => Err(ErrorKind::OutOfMemory.into()),
        }
    }
    /// Closes a file. While its sync may reach a folder that lanes share, none of them is synced.
    fn close(&self, handle: Handle) -> Unsynced {
        if !handle.reaches() || handle.is_synced() {
            return handle.close();
        }
        let _reading = self.shared.folders.reading(&self.waits);
        handle.close()
    }
}
