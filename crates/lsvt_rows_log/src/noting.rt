//! A disk that notes how long the pieces are that are read of it.

ghost use Rattle.std.specs.Prelude.{◌≡◌};

use lsv_disk::{Disk, DiskFault, FileId, Owner, Part};

/// The longest buffers that were read into, in bytes: of timing, of a stream, and of any other file.
#[derive(Clone, Copy, Debug)]
pub struct Longest {
    pub timing: usize,
    pub stream: usize,
    pub other: usize,
}

const NONE: Longest = Longest {
    timing: 0,
    stream: 0,
    other: 0,
};

impl Longest {
    /// A buffer of this many bytes for this part is noted.
    fn note(&mut self, part: Part, len: usize) {
        let longest = match part {
            Part::Timing => &mut self.timing,
            Part::Stdin | Part::Stdout | Part::Stderr | Part::Ttyin | Part::Ttyout => {
                &mut self.stream
            }
            _ => &mut self.other,
        };
        *longest = (*longest).max(len);
    }
}

/// A disk that hands each call on to another, and notes the longest buffers that it was given to read into.
#[derive(Drop)]
pub struct Noting<D: Disk + Drop> {
    pub disk: D,
    longest: Longest,
}

impl<D: Disk + Drop> Noting<D> {
    /// Nothing was read yet.
    pub fn new(disk: D) -> Self {
        Noting {
            disk,
            longest: NONE,
        }
    }

    /// The longest buffers since this was asked for last.
    pub fn take_longest(&mut self) -> Longest {
        let longest = self.longest;
        self.longest = NONE;
        longest
    }
}

impl<D: Disk + Drop> Disk for Noting<D> {
    ghost tells = { D.tells };

    ghost view = { λ d. D.view d.disk };

    ghost reads_itself = { λ told d. D.reads_itself told d.disk };

    ghost absent_or_empty = { λ told d. D.absent_or_empty told d.disk };

    ghost is_now = { λ told d. D.is_now told d.disk };

    ghost only_now = { λ told d. D.only_now told d.disk };

    fn root(&mut self, dir: &str, events: &str) {
        self.disk.root(dir, events);
    }

    fn create(&mut self, f: FileId) -> Result<(), DiskFault> {
        self.disk.create(f)
    }

    fn create_all(&mut self, owner: Owner, parts: &[Part]) -> Result<(), DiskFault> {
        self.disk.create_all(owner, parts)
    }

    fn length(&mut self, f: FileId) -> Result<Option<u64>, DiskFault> {
        self.disk.length(f)
    }

    fn read_at(&mut self, f: FileId, at: u64, buf: &mut [u8]) -> Result<usize, DiskFault> {
        self.longest.note(f.part, buf.len());
        self.disk.read_at(f, at, buf)
    }

    fn write_at(&mut self, f: FileId, at: u64, bytes: &[u8]) -> Result<(), DiskFault> {
        self.disk.write_at(f, at, bytes)
    }

    fn sync(&mut self, f: FileId) -> Result<(), DiskFault> {
        self.disk.sync(f)
    }
}
