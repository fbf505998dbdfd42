//! Which logs of a store have a folder: a listing looks for no other.
ghost use Rattle.std.specs.Prelude.{◌≡◌, ◌≤◌};

use lsv_base::{Bytes, List, LogNo};
use lsv_disk::Part;
use lsv_folders::Folders;
use lsv_real_disk::ReadOnlyDisk;
use lsv_replay::{Gaps, request_of};

/// The folders of the store, and the logs that weren't listed.
#[derive(Drop)]
pub struct StoreGaps {
    folders: Folders,
    noted: Vec<(LogNo, Option<Part>)>,
}

impl StoreGaps {
    /// The store that the words name, of which nothing was looked at.
    pub fn new(rt: HostRuntime, words: &List<Bytes>) -> Self {
        let alloc = rt.alloc();
        let dir = match request_of(alloc, words) {
            Ok(request) => request.dir,
            Err(_) => String::new(alloc),
        };
        StoreGaps {
            folders: Folders::new(rt, dir),
            noted: Vec::new(alloc),
        }
    }

    /// The logs that were looked for and aren't listed, by rising number, each with its part at fault if it is damaged.
    pub fn noted(&self) -> &[(LogNo, Option<Part>)] {
        self.noted.as_slice()
    }
}

impl Gaps<ReadOnlyDisk> for StoreGaps {
    fn next(&mut self, _disk: &ReadOnlyDisk, from: u32) -> u32 {
        self.folders.next(from)
    }

    fn note(&mut self, number: LogNo, damage: Option<Part>) {
        let _ = self.noted.push((number, damage));
    }
}
