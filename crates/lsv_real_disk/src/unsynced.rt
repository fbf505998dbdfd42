// What was written and not synced, and what a sync that failed makes of it.
ghost use Rattle.std.specs.Prelude.{◌≤◌, IfOk, length};

use crate::handle::read_once;
use crate::span::Span;
use std::fs::File;
use std::io;
use std::io::ErrorKind;
use std::os::unix::fs::FileExt;

/// This many bytes are written again at a time.
const PIECE: usize = 4096;

/// A file that is written and synced: one of the system's, or one of a test.
pub trait SyncedFile {
    /// Reads at an offset, 0 bytes at the end.
    fn read_piece(&self, buf: &mut [u8], at: u64) -> io::Result<usize>
        ensures { IfOk result (λ n. n ≤ length buf.old) };

    /// Writes all of it.
    fn write_piece(&self, bytes: &[u8], at: u64) -> io::Result<()>;

    /// Waits until what was written is on the disk.
    fn sync_written(&self) -> io::Result<()>;

    /// The same, and until all of its inode is.
    fn sync_with_inode(&self) -> io::Result<()>;
}

impl SyncedFile for File {
    fn read_piece(&self, buf: &mut [u8], at: u64) -> io::Result<usize> {
        read_once(self, at, buf)
    }

    fn write_piece(&self, bytes: &[u8], at: u64) -> io::Result<()> {
        self.write_all_at(bytes, at)
    }

    fn sync_written(&self) -> io::Result<()> {
        self.sync_data()
    }

    fn sync_with_inode(&self) -> io::Result<()> {
        self.sync_all()
    }
}

/// Which bytes of a file may not be on the disk.
#[derive(Clone, Copy)]
pub struct Unsynced {
    /// What was written since the last sync that succeeded, or may be unsynced since one failed: no byte where nothing was
    /// written.
    span: Option<Span>,
    /// It was there when it was opened, and no sync of it succeeded since: what a program before wrote may be unsynced too.
    is_found: bool,
}

impl Unsynced {
    /// Nothing was written to a file that was just made.
    pub fn new() -> Self {
        Unsynced {
            span: None,
            is_found: false,
        }
    }

    /// Nothing was written yet to a file that was there.
    pub fn found() -> Self {
        Unsynced {
            span: None,
            is_found: true,
        }
    }

    /// Whether nothing was written since, and no sync failed.
    pub fn is_empty(&self) -> bool {
        self.span.is_none()
    }

    /// Remembers the bytes that a write is about to touch.
    pub fn note(&mut self, at: u64, count: usize) {
        let written = Span::of(at, count);
        self.span = match self.span {
            Some(before) => Some(before.with(written)),
            None => Some(written),
        };
    }

    /// The file ends here from now on: nothing after that is left to sync.
    pub fn end_at(&mut self, length: u64) {
        if let Some(span) = self.span {
            self.span = Some(span.within(length));
        }
    }

    /// Syncs the file. After a sync that failed the system may have let the bytes go and say Ok to the next one, so
    /// they are read and written once more before it: the disk then takes them, or says why not. Where there are none, it
    /// stays a fault: nothing would bring the inode to the disk.
    pub fn sync<F: SyncedFile>(&mut self, file: &F) -> io::Result<()> {
        match sync_again(file, self.span) {
            Ok(()) => {
                *self = Unsynced::new();
                Ok(())
            }
            Err(e) => {
                self.fail();
                Err(e)
            }
        }
    }

    /// Remembers that a sync failed. Of a file that was found all bytes may be unsynced, since nothing tells which of them a
    /// program before left so.
    fn fail(&mut self) {
        let mut span = match self.span {
            Some(written) if !self.is_found => written,
            None if !self.is_found => Span::of(0, 0),
            _ => Span::whole(),
        };
        span.failed = true;
        self.span = Some(span);
    }
}

/// Syncs a file; where a sync of these bytes failed before, they are written once more first, and its inode goes along.
fn sync_again<F: SyncedFile>(file: &F, span: Option<Span>) -> io::Result<()> {
    match span {
        Some(span) if span.failed => {
            write_again(file, span)?;
            file.sync_with_inode()
        }
        _ => file.sync_written(),
    }
}

/// Writes what a file reads over itself. It fails where that is nothing.
fn write_again<F: SyncedFile>(file: &F, span: Span) -> io::Result<()> {
    let mut piece = [0; PIECE];
    let mut at = span.from;
    while at < span.to {
        let most = (span.to - at).min(PIECE as u64) as usize;
        let count = file.read_piece(&mut piece[..most], at)?;
        if count == 0 {
            break;
        }
        file.write_piece(&piece[..count], at)?;
        at += count as u64;
    }
    if at == span.from {
        return Err(ErrorKind::Other.into());
    }
    Ok(())
}
