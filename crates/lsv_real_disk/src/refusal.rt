// What is said on standard error of a store that isn't opened, with what to do, and of places that may not be meant.
use crate::doubt::doubt_of;
use crate::drawn::{FarNumbers, Uncovered, Wrong, WrongNumbers};
use crate::fault::{Step, StoreFault};
use crate::foreign::{Foreign, foreign_at, was_cut};
use crate::limit::lacks_descriptor;
use crate::misplaced::{InOther, Misplaced, look_at_place, look_for_other};
use crate::path::{Places, lane_path};
use crate::tail::Unfit;
use lsv_base::LogNo;
use std::io::ErrorKind;
use std::{io, str};

/// Says of each place if it may not be meant as it stands.
pub fn warn_of_places(rt: &HostRuntime, program: &str, dir: &str, events: &str) {
    for (key, path) in [("iolog_dir", dir), ("path of [logfile]", events)] {
        if let Some(doubt) = doubt_of(path) {
            let text = doubt.text();
            let _ = eprintln!(rt; "{program}: {path}: warning: {key}: {text}");
        }
    }
}

/// Whether the store isn't to be opened as it stands at its places, or it can't be seen whether it may. Then that is said, with what
/// to do. Nothing is changed.
pub fn is_refused(rt: HostRuntime, program: &'static str, dir: &str, events: &str) -> bool {
    let alloc = rt.alloc();
    let answer = match look_at_place(&rt, alloc, dir, events) {
        Ok(None) => is_in_other(rt, program, dir, events),
        Ok(Some(place)) => {
            report_misplaced(&rt, program, dir, events, place);
            Ok(true)
        }
        Err(e) => Err(e),
    };
    match answer {
        Ok(is_refused) => is_refused,
        Err(e) => {
            let todo = advice(&e);
            let _ = eprintln!(rt; "{program}: {dir}, {events}: look: {e}: {todo}");
            true
        }
    }
}

/// Says why the event log, or the folder of the logs, can't have its place.
fn report_misplaced(rt: &HostRuntime, program: &str, dir: &str, events: &str, place: Misplaced) {
    let _ = match place {
        Misplaced::InStore => eprintln!(rt;
            "{program}: {events}: path of [logfile] has the name of a file or a folder of the store {dir}: nothing is changed; let it be another file"
        ),
        Misplaced::Folder => eprintln!(rt;
            "{program}: {events}: it is a folder, and path of [logfile] names a file: nothing is changed; let it name a file in that folder"
        ),
        Misplaced::NoFile => eprintln!(rt;
            "{program}: {events}: it is no regular file: nothing is changed; let path of [logfile] be another file"
        ),
        Misplaced::LogsLinkToNothing => eprintln!(rt;
            "{program}: {dir}: it is a link to a folder that doesn't exist: nothing is changed; make that folder, or let iolog_dir be the folder itself"
        ),
        Misplaced::LinkToNothing => eprintln!(rt;
            "{program}: {events}: it is a link to a file that doesn't exist: nothing is changed; remove it, or let path of [logfile] be the file itself"
        ),
    };
}

/// Whether one of the places is in another store, or another program filled them, or cut the event log.
fn is_in_other(
    rt: HostRuntime,
    program: &'static str,
    dir: &str,
    events: &str,
) -> io::Result<bool> {
    let _ = match look_for_other(&rt, rt.alloc(), dir, events)? {
        None => return is_taken(rt, program, dir, events),
        Some(InOther::Logs(store)) => {
            let store = store.as_str();
            eprintln!(rt;
                "{program}: {dir}: this folder is in another store, {store}: nothing is changed; let iolog_dir be a folder outside of it"
            )
        }
        Some(InOther::Events(store)) => {
            let store = store.as_str();
            eprintln!(rt;
                "{program}: {events}: path of [logfile] has the name of a file or a folder of another store, {store}: nothing is changed; let it be another file"
            )
        }
    };
    Ok(true)
}

/// Whether another program filled the places, or cut the event log. Then that is said.
pub fn is_taken(
    rt: HostRuntime,
    program: &'static str,
    dir: &str,
    events: &str,
) -> io::Result<bool> {
    match foreign_at(&rt, rt.alloc(), dir, events)? {
        Some(Foreign::Logs) => {
            let _ = eprintln!(rt;
                "{program}: {dir}: sudo's own programs keep their logs here, as its file seq shows: nothing is changed; let iolog_dir be another folder"
            );
            return Ok(true);
        }
        Some(Foreign::Events) => {
            let _ = eprintln!(rt;
                "{program}: {events}: it has lines, and no journal {events}.slots beside it: nothing is changed; move it away, or let path of [logfile] be another file"
            );
            return Ok(true);
        }
        None => {}
    }
    let is_cut = was_cut(rt, program, dir, events)?;
    if is_cut {
        let _ = eprintln!(rt;
            "{program}: {events}: it begins with bytes of 0, so another program has cut it while a server ran (copytruncate does so): nothing is changed; move it and {events}.slots away together, and start again"
        );
    }
    Ok(is_cut)
}

/// Says why a store wasn't opened, and what to do.
pub fn report_no_store(
    rt: &HostRuntime,
    program: &str,
    dir: &str,
    events: &str,
    fault: &StoreFault,
) {
    let _ = match fault {
        StoreFault::InUse => {
            eprintln!(rt; "{program}: {dir}: lock: another server uses this store")
        }
        StoreFault::Unopened => eprintln!(rt; "{program}: {dir}: the store wasn't opened"),
        StoreFault::OtherPlaces => eprintln!(rt;
            "{program}: {dir}, {events}: this program uses a store at other places: nothing is changed"
        ),
        StoreFault::RelayInUse => {
            eprintln!(rt; "{program}: {dir}: relay.lock: another relay uses this store")
        }
        StoreFault::RelayLock(e) => eprintln!(rt;
            "{program}: {dir}: relay.lock: {e}: run the relay as the user who runs the server, and let that user own relay.lock"
        ),
        StoreFault::Lanes { kept, asked } => eprintln!(rt;
            "{program}: {dir}/seq2: the store was made with --lanes {kept}, and {asked} is asked for: start the server with --lanes {kept}, or let iolog_dir be a new folder and path of [logfile] a new file"
        ),
        StoreFault::Numbers(wrong) => return report_numbers(rt, program, dir, wrong),
        StoreFault::Taken => return,
        StoreFault::EventsInUse(lane) => {
            return report_events(rt, program, events, *lane, EventsFault::InUse);
        }
        StoreFault::UnfitEvents(lane, unfit) => {
            return report_events(rt, program, events, *lane, EventsFault::Unfit(*unfit));
        }
        StoreFault::TailNotKept(lane, e) => {
            return report_events(rt, program, events, *lane, EventsFault::NotKept(e));
        }
        StoreFault::Io(step, e) => report_step(rt, program, dir, *step, e),
    };
}

/// What is wrong with the event log of a lane.
#[derive(Drop)]
enum EventsFault<'a> {
    InUse,
    Unfit(Unfit),
    NotKept(&'a io::Error),
}

/// Says what is wrong with the event log of a lane, by its own name.
fn report_events(rt: &HostRuntime, program: &str, events: &str, lane: u32, fault: EventsFault<'_>) {
    let Ok(path) = lane_path(rt.alloc(), events, lane) else {
        return;
    };
    let path = path.as_str();
    let _ = match fault {
        EventsFault::InUse => {
            eprintln!(rt; "{program}: {path}: lock: another server uses this event log")
        }
        EventsFault::Unfit(Unfit::Short) => eprintln!(rt;
            "{program}: {path}: it is absent or shorter than its journal {path}.slots says: if it was rotated, move the journal away too"
        ),
        EventsFault::Unfit(Unfit::Strange(counted)) => eprintln!(rt;
            "{program}: {path}: no line ends at byte {counted}, where its journal {path}.slots ends, so the journal is that of another log: nothing is changed; put back the journal that belongs to it, or move both away together"
        ),
        EventsFault::NotKept(e) => {
            let todo = advice(e);
            eprintln!(rt;
                "{program}: {path}: what stands after the lines that its journal counts can't be kept in a file beside it: {e}: {todo}"
            )
        }
    };
}

/// Says what is wrong with each number file that is, by its own name.
fn report_numbers(rt: &HostRuntime, program: &str, dir: &str, wrong: &[WrongNumbers]) {
    for one in wrong {
        let Ok(numbers) = format!(in rt.alloc(); "{dir}/seq2") else {
            return;
        };
        if let Ok(path) = lane_path(rt.alloc(), numbers.as_str(), one.lane) {
            report_wrong(rt, program, path.as_str(), one.why);
        }
    }
}

/// Says what is wrong with a number file, and what to do.
fn report_wrong(rt: &HostRuntime, program: &str, path: &str, why: Wrong) {
    let _ = match why {
        Wrong::Uncovered(Uncovered::NoLast) => eprintln!(rt;
            "{program}: {path}: it has no entry, and the store holds logs of its numbers: put it back from a copy, or let iolog_dir be a new folder; nothing is changed"
        ),
        Wrong::Uncovered(Uncovered::Above { last, log }) => {
            let (last, log) = (digits_of(last), digits_of(log));
            let (last, log) = (text_of(&last), text_of(&log));
            eprintln!(rt;
                "{program}: {path}: its last number is {last}, and the store holds log {log} of its numbers: put it back from a newer copy, or let iolog_dir be a new folder; nothing is changed"
            )
        }
        Wrong::Damaged => eprintln!(rt;
            "{program}: {path}: it is damaged: put it back from a copy, or let iolog_dir be a new folder; nothing is changed"
        ),
        Wrong::Lanes { says, first } => eprintln!(rt;
            "{program}: {path}: it is of a store with --lanes {says}, and the number file before it says {first}: put back the files that belong together; nothing is changed"
        ),
    };
}

/// Says of which lanes the last number is far above the newest log.
pub fn report_far(rt: &HostRuntime, program: &str, places: &Places, far: &[FarNumbers]) {
    for one in far {
        let dir = places.dir.as_str();
        let Ok(numbers) = format!(in rt.alloc(); "{dir}/seq2") else {
            return;
        };
        let Ok(path) = lane_path(rt.alloc(), numbers.as_str(), one.lane) else {
            return;
        };
        let path = path.as_str();
        let (last, newest) = (digits_of(one.last), digits_of(one.newest.unwrap_or(0)));
        let (last, newest) = (text_of(&last), text_of(&newest));
        let _ = eprintln!(rt;
            "{program}: {path}: warning: its last number is {last}, and the newest log is {newest}: if no logs between them were removed, it is damaged: put it back from a copy"
        );
    }
}

/// Says that bytes stood after the lines of the event log, and where they are now.
pub fn report_tail(rt: &HostRuntime, program: &str, events: &str, count: u64, path: &str) {
    let _ = eprintln!(rt;
        "{program}: {events}: warning: {count} bytes after the lines that its journal counts were moved to {path}: a crash leaves a part of a turn there; whole older lines show that a log or a journal was put back"
    );
}

/// Says which step of opening a store failed, and what to do.
fn report_step(
    rt: &HostRuntime,
    program: &str,
    dir: &str,
    step: Step,
    e: &io::Error,
) -> io::Result<()> {
    let todo = advice(e);
    eprintln!(rt; "{program}: {dir}: {step}: {e}: {todo}")
}

/// The six digits of a number, which may be 0.
fn digits_of(number: u32) -> [u8; 6] {
    match LogNo::new(number) {
        Some(number) => number.digits(),
        None => [b'0'; 6],
    }
}

/// The text of digits.
fn text_of(digits: &[u8; 6]) -> &str {
    str::from_utf8(digits).unwrap_or("")
}

/// What to do about an error at the places of a store.
fn advice(e: &io::Error) -> &'static str {
    if lacks_descriptor(e) {
        return "raise the limit of open files (ulimit -n, or LimitNOFILE= of the unit)";
    }
    match e.kind() {
        ErrorKind::ReadOnlyFilesystem => {
            "the file system is mounted read-only: mount it for writing; under the unit, add its path to ReadWritePaths="
        }
        ErrorKind::NotADirectory => {
            "what stands where a folder is needed is none: let iolog_dir and path of [logfile] be other places"
        }
        ErrorKind::PermissionDenied => {
            "let who runs the server own both, or iolog_dir and path of [logfile] be places of its own"
        }
        ErrorKind::StorageFull => "make room on the file system",
        _ => "mend that, or let iolog_dir and path of [logfile] be other places",
    }
}
