// The store that is only read: its places, and the files that are open.
ghost use Rattle.std.specs.Prelude.{◌≤◌, IfOk, length};

use crate::log_path::LogPath;
use crate::path::{Places, log_name};
use crate::reader::Reader;
use lsv_disk::{FileId, Owner, Part};
use std::alloc::{AllocError, Global};
use std::fs::{self, File, OpenOptions};
use std::io;
use std::io::ErrorKind;

/// The places of a store, and the files that are open of the log, or the lane, that was asked for last.
#[derive(Drop)]
pub struct Opened {
    pub places: Places,
    owner: Option<Owner>,
    /// One for each part of which a file was read, of this owner or of others before.
    readers: Vec<Reader>,
    /// A look begins where a journal is read from its start: of what was opened or read ahead before, nothing is answered.
    look: u64,
    log: LogPath,
    /// The path of another file, which was asked for last.
    path: String,
}

impl Opened {
    /// The places of a store, with no file open.
    pub fn new(rt: HostRuntime, dir: &str, events: &str) -> Result<Self, AllocError> {
        let alloc = rt.alloc();
        let places = Places::new(alloc, dir, events)?;
        Ok(Opened {
            log: LogPath::new(rt, alloc, &places),
            places,
            owner: None,
            readers: Vec::new(alloc),
            look: 0,
            path: String::new(alloc),
        })
    }

    /// How many bytes a file has, None where there is none. A file that isn't open stays so, since a listing asks how long
    /// files are that it doesn't read; but the head, which it reads next.
    pub fn length(&mut self, rt: &HostRuntime, f: FileId) -> io::Result<Option<u64>> {
        if f.part == Part::Head {
            return match self.file(rt, f)? {
                Some(file) => Ok(Some(file.length()?)),
                None => Ok(None),
            };
        }
        self.turn_to(f.owner);
        if let Some(file) = self.open_reader(f.part) {
            return Ok(Some(file.length()?));
        }
        match fs::metadata(rt, self.path_of(rt.alloc(), f)?) {
            Ok(metadata) => Ok(Some(metadata.len())),
            Err(e) if e.kind() == ErrorKind::NotFound => Ok(None),
            Err(e) => Err(e),
        }
    }

    /// Reads as many bytes as there are and as the buffer takes; an absent file has none.
    pub fn read(
        &mut self,
        rt: &HostRuntime,
        f: FileId,
        at: u64,
        buf: &mut [u8],
    ) -> io::Result<usize>
        ensures { IfOk result (λ n. n ≤ length buf.old) }
    {
        if f.part == Part::Slots && at == 0 {
            self.begin_look();
        }
        let look = self.look;
        match self.file(rt, f)? {
            Some(file) => file.read(look, at, buf),
            None => Ok(0),
        }
    }

    /// An open file. None where there is no such file.
    fn file(&mut self, rt: &HostRuntime, f: FileId) -> io::Result<Option<&mut Reader>> {
        self.turn_to(f.owner);
        if self.open_reader(f.part).is_none() && !self.open_file(rt, f)? {
            return Ok(None);
        }
        Ok(self.open_reader(f.part))
    }

    /// The files of another owner are closed.
    fn turn_to(&mut self, owner: Owner) {
        if self.owner == Some(owner) {
            return;
        }
        self.owner = Some(owner);
        self.close_all();
    }

    /// A look begins: each file is found by its path again, so a log that was renamed or removed meanwhile is missed.
    fn begin_look(&mut self) {
        self.look = self.look.saturating_add(1);
        self.close_all();
    }

    /// Closes the open files.
    fn close_all(&mut self) {
        for reader in self.readers.iter_mut() {
            reader.close();
        }
    }

    /// The open file of a part, where there is one.
    fn open_reader(&mut self, part: Part) -> Option<&mut Reader> {
        self.readers
            .iter_mut()
            .find(|reader| reader.part() == part && reader.is_open())
    }

    /// Opens a file. False where it is not there.
    fn open_file(&mut self, rt: &HostRuntime, f: FileId) -> io::Result<bool> {
        let alloc = rt.alloc();
        let path = self.path_of(alloc, f)?;
        match OpenOptions::new().read(true).open(rt, path) {
            Ok(file) => {
                self.keep(alloc, f.part, file)?;
                Ok(true)
            }
            Err(e) if e.kind() == ErrorKind::NotFound => Ok(false),
            Err(e) => Err(e),
        }
    }

    /// Keeps the file of a part open.
    fn keep(&mut self, alloc: Global, part: Part, file: File) -> Result<(), AllocError> {
        match self.readers.iter_mut().find(|reader| reader.part() == part) {
            Some(reader) => {
                reader.open(file);
                Ok(())
            }
            None => {
                self.readers.push(Reader::new(alloc, part, file))?;
                Ok(())
            }
        }
    }

    /// The path of a file, from where the process stands.
    fn path_of(&mut self, alloc: Global, f: FileId) -> io::Result<&str> {
        if let (Owner::Log(n), Some(name)) = (f.owner, log_name(f.part)) {
            return self.log.path_of(&self.places, n, name);
        }
        match self.places.place_of(alloc, f)? {
            Some(place) => {
                self.path = place.path;
                Ok(self.path.as_str())
            }
            None => Err(ErrorKind::InvalidInput.into()),
        }
    }
}
