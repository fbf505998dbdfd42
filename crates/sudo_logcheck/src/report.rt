//! What is said of a run on standard error.

use crate::usage;
use lsv_base::{Bytes, List, LogNo};
use lsv_check::CheckStatus;
use lsv_check_args::{Request, read_request};
use lsv_real::ArgumentFault;
use lsv_real_disk::{
    Uncovered, Wrong, WrongNumbers, has_numbers, is_denied, no_store_in, numbers_in,
};
use std::str;

/// The form of the command line.
const FORM: &str = "usage: sudo_logcheck [-q] [-d DIR] [-e FILE] [--json] [--digest] [ID ...]";

/// Says what there is to say of a run: which words are wrong, why a store can't be read, which logs its number file doesn't cover,
/// and the status. The status with which the program ends: damage in the place of none, if a number file has a fault.
pub fn report(rt: &HostRuntime, words: &List<Bytes>, status: CheckStatus) -> CheckStatus {
    let ended = if status == CheckStatus::Usage {
        usage::say(rt, words);
        status
    } else {
        report_request(rt, words, status)
    };
    say_status(rt, ended);
    ended
}

/// Says what of the store that the words name the lines don't say.
fn report_request(rt: &HostRuntime, words: &List<Bytes>, status: CheckStatus) -> CheckStatus {
    let Ok(request) = read_request(rt.alloc(), words) else {
        return status;
    };
    if report_store(rt, &request, status) && status == CheckStatus::Sound {
        return CheckStatus::Damaged;
    }
    status
}

/// Says why the words weren't read.
pub fn report_unread(rt: &HostRuntime, fault: ArgumentFault) -> CheckStatus {
    let status = match fault {
        ArgumentFault::NoMem => CheckStatus::NoMem,
        ArgumentFault::NotText => {
            let _ = eprintln!(rt; "sudo_logcheck: a word isn't UTF-8");
            CheckStatus::Usage
        }
    };
    say_status(rt, status);
    status
}

/// Says what of a store the lines don't say. Whether a number file has a fault.
fn report_store(rt: &HostRuntime, request: &Request, status: CheckStatus) -> bool {
    let dir = request.dir.as_str();
    if status == CheckStatus::ReadFault && is_denied(rt, dir) {
        let _ = eprintln!(rt;
            "sudo_logcheck: {dir}: only root and the user that runs the server may read this store"
        );
        return false;
    }
    if let Ok(Some(_)) = no_store_in(rt, dir) {
        // The disk said so.
        return false;
    }
    if !request.numbers.as_slice().is_empty() {
        return report_numbers(rt, dir, true);
    }
    if let Ok(false) = has_numbers(rt, dir) {
        let _ = eprintln!(rt;
            "sudo_logcheck: {dir}: it has no seq2, so its logs aren't known: put it back from a copy, or name the logs by ID"
        );
        return true;
    }
    report_numbers(rt, dir, false)
}

/// Says which number files are damaged, and unless logs are named, which don't cover the logs of their lanes. Whether there is one.
fn report_numbers(rt: &HostRuntime, dir: &str, is_named: bool) -> bool {
    let Ok(look) = numbers_in(*rt, "sudo_logcheck", dir) else {
        return false;
    };
    let mut is_wrong = false;
    for wrong in look.wrong.iter() {
        if !(is_named && is_uncovered(wrong)) {
            report_wrong(rt, dir, wrong);
            is_wrong = true;
        }
    }
    is_wrong
}

/// Whether a number file doesn't cover the logs of its lane.
fn is_uncovered(wrong: &WrongNumbers) -> bool {
    match wrong.why {
        Wrong::Uncovered(_) => true,
        Wrong::Damaged | Wrong::Lanes { .. } => false,
    }
}

/// Says what is wrong with a number file, by its own name.
fn report_wrong(rt: &HostRuntime, dir: &str, wrong: &WrongNumbers) {
    let lane = after_name(wrong.lane);
    let _ = match wrong.why {
        Wrong::Uncovered(Uncovered::NoLast) => eprintln!(rt;
            "sudo_logcheck: {dir}/seq2{lane}: it has no entry, and there are logs of its numbers: put it back from a copy, or name the logs by ID"
        ),
        Wrong::Uncovered(Uncovered::Above { last, log }) => {
            let (last, log) = (digits_of(last), digits_of(log));
            let last = str::from_utf8(&last).unwrap_or("");
            let log = str::from_utf8(&log).unwrap_or("");
            eprintln!(rt;
                "sudo_logcheck: {dir}/seq2{lane}: its last number is {last}, and there is log {log} of its numbers, so logs above the last number weren't checked: put it back from a newer copy, or name them by ID"
            )
        }
        Wrong::Damaged => eprintln!(rt;
            "sudo_logcheck: {dir}/seq2{lane}: it is damaged: put it back from a copy, or name the logs by ID"
        ),
        Wrong::Lanes { says, first } => eprintln!(rt;
            "sudo_logcheck: {dir}/seq2{lane}: it is of a store with --lanes {says}, and the number file before it says {first}: put back the files that belong together"
        ),
    };
}

/// What the names of a lane's own files have at their end.
fn after_name(lane: u32) -> &'static str {
    match lane {
        0 => "",
        1 => ".1",
        2 => ".2",
        3 => ".3",
        4 => ".4",
        5 => ".5",
        6 => ".6",
        _ => ".7",
    }
}

/// The six digits of a number, which may be 0.
fn digits_of(number: u32) -> [u8; 6] {
    match LogNo::new(number) {
        Some(number) => number.digits(),
        None => [b'0'; 6],
    }
}

/// Prints why the run failed, if it did.
fn say_status(rt: &HostRuntime, status: CheckStatus) {
    if status == CheckStatus::Sound {
        return;
    }
    let Ok(text) = status.text(rt.alloc()) else {
        return;
    };
    if let Ok(text) = str::from_utf8(text.as_slice()) {
        let _ = eprintln!(rt; "sudo_logcheck: {text}");
    }
    if status == CheckStatus::Usage {
        let _ = eprintln!(rt; "{FORM}");
    }
}
