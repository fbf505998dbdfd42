// Lines on standard error for which nobody waits.
use libc::STDERR_FILENO;
use libc::net::{POLLOUT, poll};
use libc::types::pollfd;
use std::fmt::Display;
use std::io;
use std::io::{Eprint, ErrorKind};
use std::sync::atomic::{AtomicU64, Ordering};

/// Standard error of a program, and how many lines for it were left out since the last one that went out. A line is left out if
/// standard error takes none at once, since the program that reads it has stopped to do so: it is to hold up no session. A pipe that
/// takes one at all takes 4,096 bytes at once.
#[derive(Drop)]
pub struct Notices {
    rt: HostRuntime,
    /// The name before each line.
    program: &'static str,
    left_out: AtomicU64,
}

impl Notices {
    /// None was left out.
    pub fn new(rt: HostRuntime, program: &'static str) -> Self {
        Notices {
            rt,
            program,
            left_out: AtomicU64::new(0),
        }
    }

    /// Whether standard error takes a line at once. The first line that it takes after others says how many were left out.
    fn is_ready(&self) -> bool {
        if !takes_a_line() {
            let _ = self.left_out.fetch_add(1, Ordering::SeqCst);
            return false;
        }
        let count = self.left_out.swap(0, Ordering::SeqCst);
        if count == 0 {
            return true;
        }
        let program = self.program;
        let _ = eprintln!(self.rt;
            "{program}: {count} lines were left out, since standard error took none"
        );
        if takes_a_line() {
            return true;
        }
        let _ = self.left_out.fetch_add(1, Ordering::SeqCst);
        false
    }
}

impl Eprint for Notices {
    fn eprint<D: Display + Drop>(&self, value: D) -> io::Result<()> {
        if self.is_ready() {
            self.rt.eprint(value)
        } else {
            Err(ErrorKind::WouldBlock.into())
        }
    }

    fn eprintln<D: Display + Drop>(&self, value: D) -> io::Result<()> {
        if self.is_ready() {
            self.rt.eprintln(value)
        } else {
            Err(ErrorKind::WouldBlock.into())
        }
    }
}

/// Whether standard error takes a line without a wait. If it can't be asked, the line is tried.
fn takes_a_line() -> bool {
    let mut asked = [pollfd {
        fd: STDERR_FILENO,
        events: POLLOUT,
        revents: 0,
    }];
    poll(&mut asked, 0) != 0
}
