//! A line on standard error that says how far a log was sent, if standard error is a terminal.

use std::cell::Cell;

/// The file descriptor of standard error.
const STDERR: i32 = 2;

/// The line is drawn again after this number of records.
const STEP: u64 = 256;

/// How far a log was sent.
#[derive(Drop)]
pub struct Progress {
    rt: HostRuntime,
    is_shown: bool,
    /// How many records and exits were written.
    records: Cell<u64>,
    /// The last commit point in milliseconds, if one came.
    commit: Cell<Option<u64>>,
}

impl Progress {
    /// Nothing was sent.
    pub fn new(rt: HostRuntime) -> Self {
        Progress {
            rt,
            is_shown: libc::isatty(STDERR) == 1,
            records: Cell::new(0),
            commit: Cell::new(None),
        }
    }

    /// Whether there is a line.
    pub fn is_shown(&self) -> bool {
        self.is_shown
    }

    /// This many records were written.
    pub fn sent(&self, records: u64) {
        let before = self.records.replace(records);
        if before / STEP != records / STEP {
            self.draw();
        }
    }

    /// This is the last commit point, in milliseconds.
    pub fn committed(&self, millis: u64) {
        self.commit.set(Some(millis));
    }

    /// Draws the line.
    pub fn draw(&self) {
        if !self.is_shown {
            return;
        }
        let records = self.records.get();
        match self.commit.get() {
            Some(millis) => {
                let (seconds, millis) = (millis / 1000, millis % 1000);
                let _ = eprint!(self.rt;
                    "\r{records} records sent, committed through {seconds}.{millis:03} s\x1b[K"
                );
            }
            None => {
                let _ = eprint!(self.rt; "\r{records} records sent\x1b[K");
            }
        }
    }

    /// Takes the line away.
    pub fn clear(&self) {
        if self.is_shown {
            let _ = eprint!(self.rt; "\r\x1b[K");
        }
    }

    /// Draws the line once more, and ends it.
    pub fn finish(&self) {
        if self.is_shown && self.records.get() > 0 {
            self.draw();
            let _ = eprintln!(self.rt;);
        }
    }
}
