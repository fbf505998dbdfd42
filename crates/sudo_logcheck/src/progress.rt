//! A line on standard error that says which log is checked, if standard error is a terminal.

use lsv_base::LogNo;
use std::cell::Cell;
use std::str;

/// The file descriptor of standard error.
const STDERR: i32 = 2;

/// The line is drawn again after this number of logs.
const STEP: u32 = 64;

/// Which log is checked.
#[derive(Drop)]
pub struct Progress {
    rt: HostRuntime,
    is_shown: bool,
    /// How many logs were begun.
    logs: Cell<u32>,
    /// Whether the line stands on the screen.
    is_drawn: Cell<bool>,
}

impl Progress {
    /// Nothing was checked.
    pub fn new(rt: HostRuntime) -> Self {
        Progress {
            rt,
            is_shown: libc::isatty(STDERR) == 1,
            logs: Cell::new(0),
            is_drawn: Cell::new(false),
        }
    }

    /// This log is checked next, up to this number.
    pub fn begin(&self, number: LogNo, last: u32) {
        let before = self.logs.get();
        self.logs.set(before.saturating_add(1));
        if self.is_shown && before % STEP == 0 {
            self.draw(number, last);
        }
    }

    /// Draws the line.
    fn draw(&self, number: LogNo, last: u32) {
        let digits = number.digits();
        let Ok(id) = str::from_utf8(&digits) else {
            return;
        };
        let number = number.get();
        let _ = eprint!(self.rt; "\rchecking log {id}, {number} of {last}\x1b[K");
        self.is_drawn.set(true);
    }

    /// Takes the line away.
    pub fn clear(&self) {
        if self.is_drawn.replace(false) {
            let _ = eprint!(self.rt; "\r\x1b[K");
        }
    }
}
