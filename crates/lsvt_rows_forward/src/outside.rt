//! A clock that stands still, and who keeps what a relay reports.

use lsv_base::{Clock, LogNo, TimeSpec};
use lsv_dialogue::Cause;
use lsv_disk::Disk;
use lsv_forward::{Gaps, Outcome, RelayNotices};
use lsv_service::{Notices, Site};
use std::alloc::{AllocError, Global};

/// A clock that stands still.
#[derive(Drop)]
pub struct Still;

impl Clock for Still {
    fn now(&mut self) -> TimeSpec {
        TimeSpec {
            sec: 1_700_000_000,
            nsec: 0,
        }
    }
}

/// Keeps what a relay reports of each log, as it is printed.
#[derive(Drop)]
pub struct Heard {
    pub alloc: Global,
    pub reports: Vec<String>,
}

impl Notices for Heard {
    fn serving(&mut self, _site: &Site<'_>, _last: u32) {}
}

impl RelayNotices for Heard {
    fn relaying(&mut self, _number: LogNo, _last: u32) {}

    fn relayed(&mut self, number: LogNo, outcome: &Outcome) {
        if let Ok(text) = report_of(self.alloc, number.get(), outcome) {
            let _ = self.reports.push(text);
        }
    }
}

impl<D: Disk> Gaps<D> for Heard {
    fn next(&mut self, _disk: &D, from: u32) -> u32 {
        from
    }
}

/// What became of a log, as it is printed.
fn report_of(alloc: Global, number: u32, outcome: &Outcome) -> Result<String, AllocError> {
    match outcome {
        Outcome::Passed => format!(in alloc; "log {number} passed"),
        Outcome::Marked => format!(in alloc; "log {number} marked"),
        Outcome::Relayed => format!(in alloc; "log {number} relayed"),
        Outcome::Pending(Cause::Strange(point)) => {
            let nanos = point.nanos();
            format!(in alloc; "log {number} strange {nanos}")
        }
        Outcome::Pending(Cause::Said(text)) => {
            let length = text.as_slice().len();
            format!(in alloc; "log {number} said {length} bytes")
        }
        Outcome::Pending(Cause::LongId(length)) => {
            format!(in alloc; "log {number} identifier of {length} bytes")
        }
        Outcome::Pending(Cause::TooLarge(length)) => {
            format!(in alloc; "log {number} message of {length} bytes")
        }
        Outcome::Pending(cause) => {
            let name = name_of(cause);
            format!(in alloc; "log {number} {name}")
        }
        Outcome::Untried => format!(in alloc; "log {number} untried"),
        Outcome::Unopened(_) => format!(in alloc; "log {number} unopened"),
        Outcome::Failed(_) => format!(in alloc; "log {number} failed"),
    }
}

/// The name of a cause.
fn name_of(cause: &Cause) -> &'static str {
    match cause {
        Cause::Unreached => "unreached",
        Cause::NotYet => "not yet",
        Cause::Ended => "ended",
        Cause::Failed => "connection failed",
        Cause::Malformed(_) => "malformed",
        Cause::Chatter => "chatter",
        _ => "too long",
    }
}
