//! What is said of a run on standard error.

use crate::usage;
use lsv_base::{Bytes, List, LogNo, Point};
use lsv_dialogue::Cause;
use lsv_disk::{Disk, Part};
use lsv_iolog::{LogFault, LogView};
use lsv_real::ArgumentFault;
use lsv_real_disk::{ReadOnlyDisk, is_denied};
use lsv_send::{SendStatus, request_of};
use lsv_send_args::{Request, WordsFault};

/// The forms of the command line.
const FORMS: &str =
    "usage: sudo_sendlog [-A] [-d DIR] [-h HOST] [-i ID -r POINT] [-p PORT] [-R REASON] [-s POINT] NO";

/// Nanoseconds a second.
const NANOS_PER_SEC: u64 = 1_000_000_000;

/// Of a text of the server this number of bytes is shown.
const MOST_SHOWN: usize = 500;

/// Says why a run failed, if it did.
pub fn report(rt: &HostRuntime, words: &List<Bytes>, status: &SendStatus) {
    match status {
        SendStatus::Sent => {}
        SendStatus::Usage => report_usage(rt, words),
        SendStatus::Log(fault) => report_log(rt, words, *fault),
        SendStatus::WriteFault => {
            let _ = eprintln!(rt; "sudo_sendlog: write fault");
        }
        SendStatus::Refused(cause) => {
            report_cause(rt, cause);
            report_why(rt, words, cause);
        }
        SendStatus::NoMem => {
            let _ = eprintln!(rt; "sudo_sendlog: out of memory");
        }
    }
}

/// Says why the words weren't read.
pub fn report_unread(rt: &HostRuntime, fault: ArgumentFault) -> SendStatus {
    match fault {
        ArgumentFault::NoMem => {
            let _ = eprintln!(rt; "sudo_sendlog: out of memory");
            SendStatus::NoMem
        }
        ArgumentFault::NotText => {
            let _ = eprintln!(rt; "sudo_sendlog: a word isn't UTF-8");
            let _ = eprintln!(rt; "{FORMS}");
            SendStatus::Usage
        }
    }
}

/// Says which word is at fault, and which forms there are.
fn report_usage(rt: &HostRuntime, words: &List<Bytes>) {
    match request_of(rt.alloc(), words) {
        Err(WordsFault::Unfit(unfit)) => {
            let _ = eprintln!(rt; "sudo_sendlog: {unfit}");
        }
        Err(WordsFault::Refused) => usage::say(rt, words),
        Ok(_) | Err(WordsFault::NoMem) => {}
    }
    let _ = eprintln!(rt; "{FORMS}");
}

/// Says why the log isn't sent.
fn report_log(rt: &HostRuntime, words: &List<Bytes>, fault: LogFault) {
    let Ok(request) = request_of(rt.alloc(), words) else {
        return;
    };
    let dir = request.dir.as_str();
    let number = String::from_utf8_lossy(rt.alloc(), request.number.as_slice());
    let Ok(number) = number else {
        return;
    };
    let number = number.as_str();
    match fault {
        LogFault::Absent => {
            let _ = eprintln!(rt;
                "sudo_sendlog: {dir} has no log {number:?}; NO is six of 0 to 9 and A to Z, as TSID= shows it"
            );
        }
        LogFault::Damaged(part) => report_damage(rt, number, part),
        LogFault::NoPoint(point) => {
            let _ = eprint!(rt; "sudo_sendlog: no record of log {number} ends at ");
            report_point(rt, point);
        }
        _ => report_unreadable(rt, number, dir),
    }
}

/// Says which part of the log is at fault. Its slots are, if it changed while it was read.
fn report_damage(rt: &HostRuntime, number: &str, part: Part) {
    if part == Part::Slots {
        let _ = eprintln!(rt;
            "sudo_sendlog: log {number} was cut by a restart, or removed, while it was sent"
        );
        return;
    }
    let name = name_of(part);
    let _ = eprintln!(rt; "sudo_sendlog: log {number} is damaged: {name}");
}

/// Says that the log can't be read, and what is known of the reason.
fn report_unreadable(rt: &HostRuntime, number: &str, dir: &str) {
    let _ = eprintln!(rt; "sudo_sendlog: log {number} can't be read");
    if dir.is_empty() {
        say(rt, "the folder of -d is empty");
    }
    if is_denied(rt, dir) {
        let _ = eprintln!(rt;
            "sudo_sendlog: {dir}: only root and the user that runs the server may read this store"
        );
    }
}

/// Says what else is known of a connection that didn't take all.
fn report_why(rt: &HostRuntime, words: &List<Bytes>, cause: &Cause) {
    let Ok(request) = request_of(rt.alloc(), words) else {
        return;
    };
    match cause {
        Cause::Unreached if request.server.starts_with(':') => say(rt, "the host of -h is empty"),
        Cause::Ended if lacks_arguments(rt, &request) => say(
            rt,
            "the log has no runargv: sudo's own server 1.9.13 crashes on such a log; look whether it still runs",
        ),
        _ => {}
    }
}

/// Whether the head of a log has no list of the command's arguments, which sudo always sends.
fn lacks_arguments(rt: &HostRuntime, request: &Request) -> bool {
    let Some(number) = LogNo::read(request.number.as_slice()) else {
        return false;
    };
    let mut disk = ReadOnlyDisk::new(*rt, "sudo_sendlog");
    disk.root(request.dir.as_str(), "");
    match LogView::open(rt.alloc(), &mut disk, number) {
        Ok(view) => view.head().info.value_of(b"runargv").is_none(),
        Err(_) => false,
    }
}

/// Ends a line with a point.
fn report_point(rt: &HostRuntime, point: Point) {
    let nanos = point.nanos();
    let seconds = nanos / NANOS_PER_SEC;
    let rest = nanos % NANOS_PER_SEC;
    let _ = eprintln!(rt; "{seconds}.{rest:09} s");
}

/// Says why the server didn't take all.
fn report_cause(rt: &HostRuntime, cause: &Cause) {
    match cause {
        Cause::Unreached => say(rt, "the server was not reached"),
        Cause::NotYet => say(
            rt,
            "no progress for 30 seconds: the server took no message, and sent no identifier and no later commit point",
        ),
        Cause::Ended => say(
            rt,
            "the server ended the connection before its last commit point",
        ),
        Cause::Failed => say(
            rt,
            "the connection failed: what was sent last may not have arrived",
        ),
        Cause::Said(text) => report_said(rt, text),
        Cause::Malformed(_) => say(
            rt,
            "the server sent a message that is none of sudo's protocol",
        ),
        Cause::TooLarge(length) => {
            let _ = eprintln!(rt;
                "sudo_sendlog: the server announced a message of {length} bytes: it is no log server of sudo"
            );
        }
        Cause::Strange(point) => {
            let _ = eprint!(rt; "sudo_sendlog: the server committed more than was sent: ");
            report_point(rt, *point);
        }
        Cause::LongId(length) => {
            let _ = eprintln!(rt; "sudo_sendlog: the server sent an identifier of {length} bytes");
        }
        Cause::Chatter => say(rt, "the server sent a million messages"),
        Cause::TooLong(length) => {
            let _ = eprintln!(rt;
                "sudo_sendlog: a message of the log has {length} bytes, above the limit of 2097152"
            );
        }
    }
}

/// Says a line.
fn say(rt: &HostRuntime, line: &str) {
    let _ = eprintln!(rt; "sudo_sendlog: {line}");
}

/// Says what the server said: the first bytes of it, with control characters shown.
fn report_said(rt: &HostRuntime, text: &Bytes) {
    let all = text.as_slice();
    let length = all.len();
    let first = &all[..length.min(MOST_SHOWN)];
    let Ok(shown) = String::from_utf8_lossy(rt.alloc(), first) else {
        return;
    };
    let shown = shown.as_str();
    if length > MOST_SHOWN {
        let _ = eprintln!(rt; "sudo_sendlog: the server says {shown:?} .. ({length} bytes)");
    } else {
        let _ = eprintln!(rt; "sudo_sendlog: the server says {shown:?}");
    }
}

/// The name of a part's file.
fn name_of(part: Part) -> &'static str {
    match part {
        Part::Head => "log.json",
        Part::Exit => "exit.json",
        Part::Timing => "timing",
        Part::Stdin => "stdin",
        Part::Stdout => "stdout",
        Part::Stderr => "stderr",
        Part::Ttyin => "ttyin",
        Part::Ttyout => "ttyout",
        _ => "slots",
    }
}
