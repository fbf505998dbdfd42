//! What is said of a run on standard error: in front of its status what was found, and after it what the program takes.

use crate::{logs, search, usage};
use lsv_base::{Bytes, List, LogNo};
use lsv_disk::Part;
use lsv_real_disk::{is_denied, no_store_in};
use lsv_replay::{ReplayStatus, request_of};
use lsv_replay_args::Task;
use std::str;

/// The forms of the command line.
const FORMS: &str =
    "usage: sudoreplay [-FnS] [-d DIR] [-f LIST] [-m N] [-s N] ID, or sudoreplay -l [-d DIR] [SEARCH]";

/// What a search is made of.
const SEARCH: &str =
    "a search: user, host, runas, group, tty, cwd, command, fromdate, todate, each with its argument; and, or, !, ( ); a date is YYYY-MM-DDTHH:MM:SSZ; words count from 0, after -l";

/// What an identifier is, and where logs are looked for.
const IDENTIFIER: &str =
    "an identifier is six of 0 to 9 and A to Z, as TSID= shows it; the folder of the logs is that of -d, by default /var/log/sudo-io";

/// What may be done about a log that was cut while it was followed.
const AGAIN: &str =
    "sudoreplay: the session was resumed from an earlier point, and records after it were dropped; show it again to see it from its start";

/// What is known of a log that has been quiet.
const STILL: &str =
    "sudoreplay: for an hour nothing was stored, and the session hasn't ended: it is idle, or its client is gone; follow it again to go on";

/// Says before a listing which last numbers are far above the newest log.
pub fn warn(rt: &HostRuntime, words: &List<Bytes>) {
    let Ok(request) = request_of(rt.alloc(), words) else {
        return;
    };
    let dir = request.dir.as_str();
    if let Task::List(_) = &request.task
        && !is_denied(rt, dir)
        && let Ok(None) = no_store_in(rt, dir)
    {
        logs::say_far_numbers(rt, dir);
    }
}

/// Says what was found of what the words ask for. These logs were looked for and aren't listed.
pub fn report(
    rt: &HostRuntime,
    words: &List<Bytes>,
    status: ReplayStatus,
    noted: &[(LogNo, Option<Part>)],
) {
    if status == ReplayStatus::Usage {
        return usage::say(rt, words);
    }
    let Ok(request) = request_of(rt.alloc(), words) else {
        return;
    };
    let dir = request.dir.as_str();
    if status == ReplayStatus::ReadFault && is_denied(rt, dir) {
        let _ = eprintln!(rt;
            "sudoreplay: {dir}: only root and the user that runs the server may read this store"
        );
    }
    match (&request.task, status) {
        (Task::List(words), ReplayStatus::BadExpression(at)) => search::say(rt, words, at),
        (Task::List(_), ReplayStatus::Shown) => logs::say_unlisted(rt, dir, noted),
        (Task::List(_), ReplayStatus::Damaged(_)) => logs::say_unlisted(rt, dir, noted),
        (Task::Play(_, id), ReplayStatus::Damaged(part)) => report_damage(rt, dir, id, part),
        (Task::Follow(_, id), ReplayStatus::Damaged(part)) => report_damage(rt, dir, id, part),
        (Task::Follow(_, id), ReplayStatus::Removed) => report_removal(rt, dir, id),
        (Task::Play(_, id), ReplayStatus::Absent) => report_absence(rt, dir, id),
        (Task::Follow(_, id), ReplayStatus::Absent) => report_absence(rt, dir, id),
        _ => {}
    }
}

/// Says which part of a log that was to be played is at fault.
fn report_damage(rt: &HostRuntime, dir: &str, id: &Bytes, part: Part) {
    if let Some(number) = LogNo::read(id.as_slice()) {
        logs::say_damaged(rt, dir, number, part, "");
    }
}

/// Says which log was removed while it was followed.
fn report_removal(rt: &HostRuntime, dir: &str, id: &Bytes) {
    if let Ok(text) = str::from_utf8(id.as_slice()) {
        let _ = eprintln!(rt;
            "sudoreplay: log {text} of {dir} was removed while it was followed; what was shown before stands"
        );
    }
}

/// Says which log isn't there, and why if more is known.
fn report_absence(rt: &HostRuntime, dir: &str, id: &Bytes) {
    let Ok(text) = str::from_utf8(id.as_slice()) else {
        return;
    };
    let Some(number) = LogNo::read(id.as_slice()) else {
        let _ = eprintln!(rt;
            "sudoreplay: {text:?} is no identifier: paths and offsets aren't taken"
        );
        return;
    };
    if !logs::say_lack_in(rt, dir, number, "it can't be played") {
        let _ = eprintln!(rt; "sudoreplay: {dir} has no log {text}");
    }
}

/// Says what the program takes, if that may help.
pub fn advise(rt: &HostRuntime, status: ReplayStatus) {
    let text = match status {
        ReplayStatus::Usage => FORMS,
        ReplayStatus::BadExpression(_) => SEARCH,
        ReplayStatus::Absent => IDENTIFIER,
        ReplayStatus::Resumed => AGAIN,
        ReplayStatus::Quiet => STILL,
        _ => return,
    };
    let _ = eprintln!(rt; "{text}");
}
