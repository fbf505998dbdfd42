// How large the system lets a file of this process become, and how many descriptors it lets it have.
ghost use Rattle.std.specs.Prelude.{◌≡◌, ◌-◌, ◌/◌, ◌≤◌, ◌⊎◌, ◌↔◌, IsTrue, Some, max, min, nat_lt, pos, if◌then◌else◌};
ghost use Rattle.std.specs.IoError.{raw_os_error};

use libc::types::rlimit;
use std::io;
use std::io::ErrorKind;

/// What `getrlimit` is asked.
const RLIMIT_FSIZE: i32 = 1;

const RLIMIT_NOFILE: i32 = 7;

/// The limit as it is set now. A system that answers none has none.
fn limit_of(resource: i32) -> u64 {
    let mut limit = rlimit {
        rlim_cur: u64::MAX,
        rlim_max: u64::MAX,
    };
    let _ = libc::getrlimit(resource, &mut limit);
    limit.rlim_cur
}

/// The system's numbers of the errors that say that no descriptor is left, of the process and of the system.
const NO_DESCRIPTOR: i32 = 24;

const NONE_OF_SYSTEM: i32 = 23;

/// Whether a call failed because no descriptor was left.
pub fn lacks_descriptor(e: &io::Error) -> bool
    ensures { IsTrue result ↔ ((raw_os_error e.now ≡ Some (pos 24)) ⊎ (raw_os_error e.now ≡ Some (pos 23))) }
{
    matches!(e.raw_os_error(), Some(NO_DESCRIPTOR | NONE_OF_SYSTEM))
}

/// How many descriptors this process may have open, as its limit is set now.
pub fn most_descriptors() -> u64 {
    limit_of(RLIMIT_NOFILE)
}

/// At most this many files of the store are kept open by all disks together: a log has nine, and a process has 1,024 descriptors by default.
pub const MOST_FILES: u64 = 512;

/// And at least this many by each, so that a log can be made.
const FEWEST_FILES: u64 = 16;

/// Descriptors of what is neither a file of the store nor a link: standard streams, sockets, locks, folders.
const OTHERS: u64 = 64;

/// With fewer descriptors no client can be served.
const FEWEST: u64 = 32;

/// How many files each of this many disks of the store may have open under a limit of descriptors: they share those of one.
pub fn files_within(limit: u64, disks: usize) -> usize
    ensures { result ≡ max (min (limit - 64) 512 / max disks 1) 16 }
{
    let all = limit.saturating_sub(OTHERS).min(MOST_FILES);
    (all / disks.max(1) as u64).max(FEWEST_FILES) as usize
}

/// How many clients can be served at once under a limit of descriptors: those beside the files of the store, and one as long as
/// any can be served.
pub fn clients_within(limit: u64) -> u64
    ensures { result ≡ (if nat_lt limit 32 then 0 else max (limit - 576) 1) }
{
    if limit < FEWEST {
        0
    } else {
        limit.saturating_sub(OTHERS + MOST_FILES).max(1)
    }
}

/// The most bytes that this process may give a file. The system kills a process that writes past it, and the kit has no
/// call to ignore that signal.
#[derive(Clone, Copy)]
pub struct SizeLimit {
    most: u64,
}

impl SizeLimit {
    /// The limit as it is set now.
    pub fn now() -> Self {
        SizeLimit {
            most: limit_of(RLIMIT_FSIZE),
        }
    }

    /// Whether a write stays within it.
    pub fn check(self, at: u64, count: usize) -> io::Result<()> {
        if at.saturating_add(count as u64) > self.most {
            return Err(ErrorKind::FileTooLarge.into());
        }
        Ok(())
    }
}
