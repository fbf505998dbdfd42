//! A disk of a lane that waits for another lane.

ghost use Rattle.std.specs.Prelude.{◌≡◌};

use crate::meeting::Meeting;
use lsv_disk::{Disk, DiskFault, FileId, Owner, Part};
use lsvt_doubles::Hostile;

/// A disk in memory. The first file of a log that is made on it is where one stays, if it has a meeting.
#[derive(Drop)]
pub(crate) struct Slow<'a> {
    pub disk: Hostile,
    meeting: Option<&'a Meeting>,
}

impl<'a> Slow<'a> {
    /// A disk that waits for nobody.
    pub fn quick(disk: Hostile) -> Self {
        Slow {
            disk,
            meeting: None,
        }
    }

    /// A disk that waits at its first file of a log.
    pub fn waiting(disk: Hostile, meeting: &'a Meeting) -> Self {
        Slow {
            disk,
            meeting: Some(meeting),
        }
    }

    /// Stays at the meeting, if this is a file of a log and nobody stayed yet.
    fn meet(&mut self, owner: Owner)
        ensures { self.new.disk ≡ self.old.disk }
    {
        if !matches!(owner, Owner::Log(_)) {
            return;
        }
        if let Some(meeting) = self.meeting.take() {
            meeting.wait_inside();
        }
    }
}

impl Disk for Slow<'_> {
    ghost tells = { ⊥ };

    ghost view = { λ d. ⟦<Hostile as Disk>⟧.view d.disk };

    ghost reads_itself = { λ told. absurd told };

    ghost absent_or_empty = { λ told. absurd told };

    ghost is_now = { λ told. absurd told };

    ghost only_now = { λ told. absurd told };

    fn root(&mut self, dir: &str, events: &str) {
        self.disk.root(dir, events);
    }

    fn create(&mut self, f: FileId) -> Result<(), DiskFault> {
        self.meet(f.owner);
        self.disk.create(f)
    }

    fn create_all(&mut self, owner: Owner, parts: &[Part]) -> Result<(), DiskFault> {
        self.meet(owner);
        self.disk.create_all(owner, parts)
    }

    fn length(&mut self, f: FileId) -> Result<Option<u64>, DiskFault> {
        self.disk.length(f)
    }

    fn read_at(&mut self, f: FileId, at: u64, buf: &mut [u8]) -> Result<usize, DiskFault> {
        self.disk.read_at(f, at, buf)
    }

    fn write_at(&mut self, f: FileId, at: u64, bytes: &[u8]) -> Result<(), DiskFault> {
        self.disk.write_at(f, at, bytes)
    }

    fn sync(&mut self, f: FileId) -> Result<(), DiskFault> {
        self.disk.sync(f)
    }
}
