// A file of the store that is kept open, and what of it may not be on the disk yet.
ghost use Rattle.std.specs.Prelude.{◌≤◌, IfOk, length};

use crate::unsynced::Unsynced;
use std::fs::File;
use std::io;
use std::io::ErrorKind;
use std::os::fd::AsRawFd;
use std::os::unix::fs::FileExt;

/// The bytes of the system's smallest page.
const PAGE: usize = 4096;

/// After this many signals in a row a read is a fault.
const MOST_INTERRUPTS: u32 = 1024;

/// A file that is kept open.
#[derive(Drop)]
pub struct Handle {
    file: File,
    unsynced: Unsynced,
    /// Its folder was synced in this run, with its name in it.
    is_named: bool,
    /// Its next sync may reach a folder that lanes share: on ext4 without a journal the first sync of a new file brings the names
    /// of the folders above too, up to one that isn't new.
    reaches: bool,
}

impl Handle {
    /// A file with what was written to it and not synced, before it was closed. It is named where its folder was synced in
    /// this run with it, or is about to be.
    pub fn new(file: File, unsynced: Unsynced, is_named: bool) -> Self {
        Handle {
            file,
            unsynced,
            is_named,
            reaches: true,
        }
    }

    /// Whether its folder was synced in this run.
    pub fn is_named(&self) -> bool {
        self.is_named
    }

    /// Its folder was synced, or wasn't.
    pub fn set_named(&mut self, is_named: bool) {
        self.is_named = is_named;
    }

    /// Whether its next sync may reach a folder that lanes share.
    pub fn reaches(&self) -> bool {
        self.reaches
    }

    /// The folder above its own is reached no more: another file of its folder was synced, or that folder itself.
    pub fn end_reach(&mut self) {
        self.reaches = false;
    }

    /// Whether nothing was written to it since its last sync, and that one succeeded.
    pub fn is_synced(&self) -> bool {
        self.unsynced.is_empty()
    }

    /// How many bytes it has.
    pub fn length(&self) -> io::Result<u64> {
        Ok(self.file.metadata()?.len())
    }

    /// Reads as many bytes as there are and as the buffer takes.
    pub fn read(&self, at: u64, buf: &mut [u8]) -> io::Result<usize>
        ensures { IfOk result (λ n. n ≤ length buf.old) }
    {
        read_from(&self.file, at, buf)
    }

    /// Writes, and remembers what is to be synced. What is written sets out for the disk at once, but a single byte, which is
    /// a gate or a selector, and is synced next.
    pub fn write(&mut self, at: u64, bytes: &[u8]) -> io::Result<()> {
        self.unsynced.note(at, bytes.len());
        self.file.write_all_at(bytes, at)?;
        if bytes.len() > 1 {
            self.set_out(at, bytes.len());
        }
        Ok(())
    }

    /// The same; but if it fails, the file ends where it ended before: no part of the write stands after that.
    pub fn write_or_cut(&mut self, at: u64, bytes: &[u8]) -> io::Result<()> {
        let before = self.length()?;
        let written = self.write(at, bytes);
        if written.is_err() && self.length()? > before {
            self.file.set_len(before)?;
            self.unsynced.end_at(before);
        }
        written
    }

    /// The file was cut at its end, and that is on the disk.
    pub fn note_end(&mut self) -> io::Result<()> {
        let length = self.length()?;
        self.unsynced.end_at(length);
        Ok(())
    }

    /// Has the system begin to bring a small write to the disk: of several files that are written and then synced, one after
    /// the other, the later ones are there when their syncs are asked for. It is a hint, whose answer doesn't matter: the
    /// sync waits for the write, and tells what failed.
    pub fn set_out(&self, at: u64, count: usize) {
        // The hint would have the system let go a whole page, and takes a page that is named up to the file's end for one.
        // So the byte after the write is named too, and what may fill a page isn't.
        if count >= PAGE - 1 {
            return;
        }
        let Ok(at) = i64::try_from(at) else {
            return;
        };
        let named = count as i64 + 1;
        let _ = libc::posix_fadvise(self.file.as_raw_fd(), at, named, libc::POSIX_FADV_DONTNEED);
    }

    /// Waits until what was written is on the disk.
    pub fn sync(&mut self) -> io::Result<()> {
        self.unsynced.sync(&self.file)?;
        self.reaches = false;
        Ok(())
    }

    /// Syncs it before it is closed, where something was written. It gives what a failed sync leaves.
    pub fn close(mut self) -> Unsynced {
        if !self.unsynced.is_empty() {
            let _ = self.sync();
        }
        self.unsynced
    }
}

/// Reads what one read brings. One that a signal interrupted is tried again.
pub fn read_once(file: &File, at: u64, buf: &mut [u8]) -> io::Result<usize>
    ensures { IfOk result (λ n. n ≤ length buf.old) }
{
    for _ in 0..MOST_INTERRUPTS {
        match file.read_at(buf, at) {
            Err(e) if e.kind() == ErrorKind::Interrupted => {}
            answer => return answer,
        }
    }
    Err(ErrorKind::Interrupted.into())
}

/// Reads as many bytes as there are and as the buffer takes.
pub fn read_from(file: &File, at: u64, buf: &mut [u8]) -> io::Result<usize>
    ensures { IfOk result (λ n. n ≤ length buf.old) }
{
    let mut done = 0;
    while done < buf.len() {
        match read_once(file, at.saturating_add(done as u64), &mut buf[done..]) {
            Ok(0) => return Ok(done),
            Ok(n) => done += n,
            Err(e) => return Err(e),
        }
    }
    Ok(done)
}
