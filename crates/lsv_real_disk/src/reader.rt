// A file that is read, and what was read of it before it was asked for.
ghost use Rattle.std.specs.Prelude.{◌≡◌, ◌≤◌, IfOk, IfSome, length};

use crate::handle::{read_from, read_once};
use lsv_disk::Part;
use std::alloc::Global;
use std::fs::File;
use std::io;
use std::io::ErrorKind;
use std::os::fd::AsRawFd;

/// The file of one part that is open, where one is, and the bytes that were read of it ahead. The room for those stays
/// from one file of this part to the next.
#[derive(Drop)]
pub struct Reader {
    part: Part,
    file: Option<File>,
    /// The look in which these bytes were read.
    look: u64,
    /// The offset of the first of them.
    at: u64,
    /// How many of them were read.
    count: usize,
    bytes: Vec<u8>,
}

/// This many bytes of a file are read ahead: of a journal all that one has, of a stream those of many records. The head is
/// read at once, and the timing in pieces.
fn ahead_of(part: Part) -> usize {
    match part {
        Part::Slots => 256,
        Part::Stdin | Part::Stdout | Part::Stderr | Part::Ttyin | Part::Ttyout => 1 << 14,
        Part::Head | Part::Exit | Part::Timing | Part::Lines | Part::Id | Part::Commit => 0,
    }
}

impl Reader {
    /// A file of which nothing was read.
    pub fn new(alloc: Global, part: Part, file: File) -> Self {
        Reader {
            part,
            file: Some(file),
            look: 0,
            at: 0,
            count: 0,
            bytes: Vec::new(alloc),
        }
    }

    /// Of which part its files are.
    pub fn part(&self) -> Part {
        self.part
    }

    /// Whether a file is open.
    pub fn is_open(&self) -> bool {
        self.file.is_some()
    }

    /// Closes the file.
    pub fn close(&mut self) {
        self.file = None;
    }

    /// Another file, of which nothing was read.
    pub fn open(&mut self, file: File) {
        self.file = Some(file);
        self.count = 0;
    }

    /// How many bytes the file has.
    pub fn length(&self) -> io::Result<u64> {
        let file = opened(&self.file)?;
        // The shortest way to ask. Reads name their offsets, so nobody misses the position that this moves.
        let end = libc::lseek(file.as_raw_fd(), 0, libc::SEEK_END);
        if end < 0 {
            return Ok(file.metadata()?.len());
        }
        Ok(end as u64)
    }

    /// Reads as many bytes as there are and as the buffer takes. Where it takes fewer than are to be read ahead, they come
    /// of what this look read before, if all stand there, and else with those after them.
    pub fn read(&mut self, look: u64, at: u64, buf: &mut [u8]) -> io::Result<usize>
        ensures { IfOk result (λ n. n ≤ length buf.old) }
    {
        let ahead = ahead_of(self.part);
        if buf.len() < ahead && self.window(look, at, buf.len()).is_none() {
            self.fill(look, ahead, at)?;
        }
        match self.window(look, at, buf.len()) {
            Some(window) => {
                buf.copy_from_slice(window);
                Ok(buf.len())
            }
            None => read_from(opened(&self.file)?, at, buf),
        }
    }

    /// This many bytes from an offset on, where this look read them all.
    fn window(&self, look: u64, at: u64, count: usize) -> Option<&[u8]>
        ensures { IfSome result (λ window. length window.now ≡ count) }
    {
        if look != self.look {
            return None;
        }
        let from = at.checked_sub(self.at)?;
        let (read, _) = self.bytes.split_at_checked(self.count)?;
        if from > read.len() as u64 {
            return None;
        }
        let (_, rest) = read.split_at(from as usize);
        if count > rest.len() {
            return None;
        }
        let (window, _) = rest.split_at(count);
        Some(window)
    }

    /// Reads as many bytes ahead from an offset on, or those that one read brings.
    fn fill(&mut self, look: u64, ahead: usize, at: u64) -> io::Result<()> {
        self.count = 0;
        if self.bytes.len() < ahead {
            self.bytes.resize(ahead, 0)?;
        }
        self.count = read_once(opened(&self.file)?, at, &mut self.bytes)?;
        self.look = look;
        self.at = at;
        Ok(())
    }
}

/// The file that is open.
fn opened(file: &Option<File>) -> io::Result<&File> {
    match file {
        Some(file) => Ok(file),
        None => Err(ErrorKind::NotFound.into()),
    }
}
