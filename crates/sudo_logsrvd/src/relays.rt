//! What `relay` says of the logs that it goes through.

use crate::PROGRAM;
use crate::herald::Herald;
use lsv_base::{LogNo, Point};
use lsv_bundle::BundleFault;
use lsv_dialogue::Cause;
use lsv_disk::{Disk, Part};
use lsv_forward::{Outcome, RelayNotices};
use lsv_iolog::{LogView, ViewFault};
use lsv_real_disk::{Lack, ReadOnlyDisk, folder_of_log, lack_of};
use lsv_relay::RelayFault;
use std::io::IsTerminal;
use std::os::unix::fs::MetadataExt;
use std::{fs, str};

/// The nanoseconds of a second.
const NANOS: u64 = 1_000_000_000;

impl RelayNotices for Herald {
    /// Said where somebody may wait at a terminal.
    fn relaying(&mut self, number: LogNo, last: u32) {
        if !self.rt.stderr().is_terminal() {
            return;
        }
        let digits = number.digits();
        let of = digits_of(last);
        let (log, last) = (text_of(&digits), text_of(&of));
        let _ = eprintln!(self.rt; "sudo_logsrvd: {log} of {last}: sending");
    }

    /// Says of a log that isn't relayed why, and what to do.
    fn relayed(&mut self, number: LogNo, outcome: &Outcome) {
        let digits = number.digits();
        let log = text_of(&digits);
        match outcome {
            Outcome::Passed => self.note_passed(number),
            Outcome::Marked | Outcome::Relayed => {}
            Outcome::Pending(Cause::Failed) => self.note_failed(log),
            Outcome::Pending(cause) => {
                if let Cause::Ended = cause {
                    self.note_ended(number);
                }
                say_cause(&self.rt, log, cause);
            }
            Outcome::Untried => self.untried = self.untried.saturating_add(1),
            Outcome::Unopened(fault) | Outcome::Failed(fault) => self.note_fault(number, fault),
        }
    }
}

impl Herald {
    /// Says of the first log whose connection failed why, and counts the others.
    fn note_failed(&mut self, log: &str) {
        if self.failed == 0 {
            say_cause(&self.rt, log, &Cause::Failed);
        }
        self.failed = self.failed.saturating_add(1);
    }

    /// Keeps the number of a log whose connection the other server ended, of the first ones.
    fn note_ended(&mut self, number: LogNo) {
        if self.ended.len() < MOST_KEPT {
            let _ = self.ended.push(number);
        }
    }

    /// Keeps the number of a log that isn't complete, of the first ones: its journal may be gone.
    fn note_passed(&mut self, number: LogNo) {
        if self.passed.len() < MOST_PASSED {
            let _ = self.passed.push(number);
        }
    }

    /// Keeps a damaged log, of the first ones, which may have been removed. Says of another one what is at fault. Keeps the
    /// number of a log on whose files a call failed, of the first ones: another user may own its folder.
    fn note_fault(&mut self, number: LogNo, fault: &RelayFault) {
        if let RelayFault::Log(ViewFault::Damaged(part)) = fault {
            if self.damaged.len() < MOST_KEPT {
                let _ = self.damaged.push((number, *part));
                return;
            }
        }
        if is_device(fault) && self.unread.len() < MOST_KEPT {
            let _ = self.unread.push(number);
        }
        let digits = number.digits();
        say_fault(&self.rt, text_of(&digits), fault);
    }

    /// Says whose journal is gone or has no entry, of the logs that aren't complete, and which folders another user owns, of the
    /// logs on whose files a call failed. The store is in this folder.
    pub fn say_folders(&self, dir: &str) {
        if self.passed.is_empty() && self.unread.is_empty() {
            return;
        }
        let mut disk = ReadOnlyDisk::new(self.rt, PROGRAM);
        disk.root(dir, "");
        for number in &self.passed {
            say_lack(&self.rt, &mut disk, dir, *number);
        }
        for number in &self.unread {
            say_owner(&self.rt, dir, *number);
        }
    }

    /// Says of each damaged log what is at fault, or that it was removed.
    fn say_damaged<D: Disk>(&self, disk: &mut D) {
        for (number, part) in &self.damaged {
            let digits = number.digits();
            let fault = match LogView::open(self.rt.alloc(), disk, *number) {
                Err(ViewFault::Absent) => ViewFault::Absent,
                _ => ViewFault::Damaged(*part),
            };
            say_fault(&self.rt, text_of(&digits), &RelayFault::Log(fault));
        }
    }

    /// Says at the end of a run which logs are damaged, how many weren't tried, for how many further ones the connection was
    /// cut, and which logs sudo's own server crashes on.
    pub fn end_relay<D: Disk>(&self, disk: &mut D) {
        self.say_damaged(disk);
        if self.untried > 0 {
            let more = self.untried;
            let _ = eprintln!(self.rt;
                "sudo_logsrvd: {more} further logs wait: no connection was tried for them"
            );
        }
        if self.failed > 1 {
            let more = self.failed - 1;
            let _ = eprintln!(self.rt; "sudo_logsrvd: the same of {more} further logs");
        }
        for number in &self.ended {
            if lacks_arguments(&self.rt, disk, *number) {
                let digits = number.digits();
                let log = text_of(&digits);
                let _ = eprintln!(self.rt;
                    "sudo_logsrvd: {log}: it has no runargv, which sudo always sends: sudo's own server 1.9.13 crashes on it; look whether that still runs, and remove this log or send it elsewhere"
                );
            }
        }
    }
}

/// This many logs whose connections were ended, that are damaged or that can't be read are looked at again.
const MOST_KEPT: usize = 64;

/// And this many that aren't complete.
const MOST_PASSED: usize = 4096;

/// Whether a device call failed.
fn is_device(fault: &RelayFault) -> bool {
    match fault {
        RelayFault::Log(ViewFault::Disk) | RelayFault::State(BundleFault::Disk) => true,
        _ => false,
    }
}

/// Says of a log whose files are there that its journal is gone, or has no entry.
fn say_lack(rt: &HostRuntime, disk: &mut ReadOnlyDisk, dir: &str, number: LogNo) {
    let Ok(Some(lack)) = lack_of(rt, disk, dir, number) else {
        return;
    };
    let digits = number.digits();
    let log = text_of(&digits);
    let _ = match lack {
        Lack::Journal => eprintln!(rt;
            "sudo_logsrvd: {log}: its journal, slots, is gone, so it is not relayed: put it back from a copy, or remove the log's folder"
        ),
        Lack::Entry => eprintln!(rt;
            "sudo_logsrvd: {log}: its journal, slots, has no entry, so it is not relayed: put it back from a copy; if the server was ended while it made this log, remove the log's folder"
        ),
    };
}

/// The user who owns what has this path.
fn owner_of(rt: &HostRuntime, path: &str) -> Option<u32> {
    let found = fs::metadata(rt, path).ok()?;
    Some(found.uid())
}

/// Says that another user owns a log's folder than the store's number file, where that is so.
fn say_owner(rt: &HostRuntime, dir: &str, number: LogNo) {
    let (Ok(numbers), Ok(folder)) = (
        format!(in rt.alloc(); "{dir}/seq2"),
        folder_of_log(rt, dir, number),
    ) else {
        return;
    };
    let (Some(runs), Some(owner)) = (
        owner_of(rt, numbers.as_str()),
        owner_of(rt, folder.as_str()),
    ) else {
        return;
    };
    if owner != runs {
        let digits = number.digits();
        let (log, folder) = (text_of(&digits), folder.as_str());
        let _ = eprintln!(rt;
            "sudo_logsrvd: {log}: user {owner} owns its folder, and user {runs} the store: let user {runs} own {folder} and all in it (chown -R)"
        );
    }
}

/// Whether the head of a log has no list of the command's arguments.
fn lacks_arguments<D: Disk>(rt: &HostRuntime, disk: &mut D, number: LogNo) -> bool {
    match LogView::open(rt.alloc(), disk, number) {
        Ok(view) => view.head().info.value_of(b"runargv").is_none(),
        Err(_) => false,
    }
}

/// Says why a connection didn't bring a log to the other server.
fn say_cause(rt: &HostRuntime, log: &str, cause: &Cause) {
    let _ = match cause {
        Cause::NotYet => eprintln!(rt;
            "sudo_logsrvd: {log}: the other server took and sent nothing for 30 s: the next run goes on"
        ),
        Cause::Ended => eprintln!(rt;
            "sudo_logsrvd: {log}: the other server ended the connection before it had the log: the next run goes on; look at what it reports"
        ),
        Cause::Unreached => eprintln!(rt;
            "sudo_logsrvd: {log}: the connection could not be made: no further log is tried, and the next run goes on; look whether relay_host is right and answers"
        ),
        Cause::Failed => eprintln!(rt;
            "sudo_logsrvd: {log}: the connection was cut: the next run goes on; look what the other server reports"
        ),
        Cause::Said(text) => {
            say_text(rt, log, text.as_slice());
            Ok(())
        }
        Cause::Malformed(fault) => eprintln!(rt;
            "sudo_logsrvd: {log}: malformed message ({fault}): the other server is no log server of sudo"
        ),
        Cause::TooLarge(length) => eprintln!(rt;
            "sudo_logsrvd: {log}: a message of {length} bytes: the other server is no log server of sudo"
        ),
        Cause::Strange(point) => {
            let (seconds, nanos) = parts_of(*point);
            eprintln!(rt;
                "sudo_logsrvd: {log}: commit point above what was sent ({seconds}.{nanos:09} s): the other server is no log server of sudo"
            )
        }
        Cause::LongId(length) => eprintln!(rt;
            "sudo_logsrvd: {log}: an identifier of {length} bytes: the other server is no log server of sudo"
        ),
        Cause::Chatter => eprintln!(rt;
            "sudo_logsrvd: {log}: 1048576 messages, and the log is not acknowledged: the other server is no log server of sudo"
        ),
        Cause::TooLong(length) => eprintln!(rt;
            "sudo_logsrvd: {log}: a message of {length} bytes would be needed, and 2097152 are allowed: this log can't be relayed; copy its folder"
        ),
    };
}

/// No more bytes of a text of the other server are shown.
const MOST_SHOWN: usize = 500;

/// Says what the other server said: the first bytes of it, with the replacement character for what isn't UTF-8.
fn say_text(rt: &HostRuntime, log: &str, text: &[u8]) {
    let length = text.len();
    let first = &text[..length.min(MOST_SHOWN)];
    let Ok(shown) = String::from_utf8_lossy(rt.alloc(), first) else {
        return;
    };
    let shown = shown.as_str();
    let advice =
        "look there if it reports a fault; if it refused to go on with this log, the next run sends the log anew";
    let _ = if length > MOST_SHOWN {
        eprintln!(rt;
            "sudo_logsrvd: {log}: the other server says {shown:?} .. ({length} bytes): {advice}"
        )
    } else {
        eprintln!(rt; "sudo_logsrvd: {log}: the other server says {shown:?}: {advice}")
    };
}

/// Says which file of a log, or of what is kept of its relaying, is at fault. A call that failed was reported by the disk.
fn say_fault(rt: &HostRuntime, log: &str, fault: &RelayFault) {
    let _ = match fault {
        RelayFault::Log(ViewFault::Damaged(part)) => {
            let name = name_of(*part);
            eprintln!(rt;
                "sudo_logsrvd: {log}: {name} is damaged: this log is not relayed; put its folder back from a copy, or remove it"
            )
        }
        RelayFault::State(BundleFault::Damaged(_)) => eprintln!(rt;
            "sudo_logsrvd: {log}: what is kept of its relaying is damaged: remove relay, relay.slots and relay.commit in its folder, and the next run sends it anew"
        ),
        RelayFault::State(BundleFault::Full(_)) => eprintln!(rt;
            "sudo_logsrvd: {log}: what is kept of its relaying is full: remove relay, relay.slots and relay.commit in its folder, and the next run sends it anew"
        ),
        RelayFault::Incomplete | RelayFault::Log(ViewFault::Absent) => eprintln!(rt;
            "sudo_logsrvd: {log}: it was removed or changed while it was read: the next run looks again"
        ),
        _ => eprintln!(rt;
            "sudo_logsrvd: {log}: a call on a file of it failed, as reported before: repair that; the next run goes on"
        ),
    };
}

/// The seconds of a point, and the nanoseconds after them.
fn parts_of(point: Point) -> (u64, u64) {
    let nanos = point.nanos();
    (nanos / NANOS, nanos % NANOS)
}

/// The six digits of a number, which may be 0.
fn digits_of(number: u32) -> [u8; 6] {
    match LogNo::new(number) {
        Some(number) => number.digits(),
        None => [b'0'; 6],
    }
}

/// The text of digits.
fn text_of(digits: &[u8; 6]) -> &str {
    str::from_utf8(digits).unwrap_or("")
}

/// The name of a file of a log.
fn name_of(part: Part) -> &'static str {
    match part {
        Part::Head => "log.json",
        Part::Exit => "exit.json",
        Part::Timing => "timing",
        Part::Stdin => "stdin",
        Part::Stdout => "stdout",
        Part::Stderr => "stderr",
        Part::Ttyin => "ttyin",
        Part::Ttyout => "ttyout",
        _ => "its journal",
    }
}
