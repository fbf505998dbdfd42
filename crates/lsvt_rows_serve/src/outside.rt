//! A clock that stands still, and who keeps what a server tells at its start.

use lsv_base::{Bytes, Clock, LogNo, TimeSpec};
use lsv_disk::Disk;
use lsv_forward::{Gaps, Outcome, RelayNotices};
use lsv_service::{Notices, Site};
use std::alloc::Global;

/// A clock that stands still.
#[derive(Drop)]
pub struct Still;

impl Clock for Still {
    fn now(&mut self) -> TimeSpec {
        TimeSpec {
            sec: 1_700_000_000,
            nsec: 0,
        }
    }
}

/// What a server told at its start.
#[derive(Drop)]
pub struct Told {
    pub address: Bytes,
    pub logs: Bytes,
    pub stop_after: Option<u32>,
    pub last: u32,
}

/// Keeps what a server tells at its start.
#[derive(Drop)]
pub struct Heard {
    pub alloc: Global,
    pub told: Vec<Told>,
}

impl Notices for Heard {
    fn serving(&mut self, site: &Site<'_>, last: u32) {
        let (Ok(address), Ok(logs)) = (
            Bytes::of(self.alloc, site.address.as_bytes()),
            Bytes::of(self.alloc, site.logs.as_bytes()),
        ) else {
            return;
        };
        let stop_after = site.stop_after;
        let _ = self.told.push(Told {
            address,
            logs,
            stop_after,
            last,
        });
    }
}

impl RelayNotices for Heard {
    fn relaying(&mut self, _number: LogNo, _last: u32) {}

    fn relayed(&mut self, _number: LogNo, _outcome: &Outcome) {}
}

impl<D: Disk> Gaps<D> for Heard {
    fn next(&mut self, _disk: &D, from: u32) -> u32 {
        from
    }
}
