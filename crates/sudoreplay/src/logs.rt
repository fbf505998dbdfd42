//! What is said of logs that are damaged, or whose journal is gone or has no entry.

use lsv_base::LogNo;
use lsv_disk::{Disk, Part};
use lsv_real_disk::{
    FarNumbers, Lack, ReadOnlyDisk, Uncovered, Wrong, WrongNumbers, folder_of_log, lack_of,
    numbers_in,
};
use lsv_replay::last_number;
use std::str;

/// Says which logs a listing passed over though their files are there: those above the last number, and of those that were looked
/// for each that is damaged, or whose journal is gone or has no entry.
pub fn say_unlisted(rt: &HostRuntime, dir: &str, noted: &[(LogNo, Option<Part>)]) {
    let mut disk = ReadOnlyDisk::new(*rt, "sudoreplay");
    disk.root(dir, "");
    let last = last_number(&mut disk);
    say_numbers(rt, dir, last.unwrap_or(0));
    for one in noted {
        let (number, damage) = one;
        if let Some(part) = damage {
            say_damaged(rt, dir, *number, *part, "; it isn't listed");
        } else {
            let _ = say_lack(rt, &mut disk, dir, *number, "it isn't listed");
        }
    }
}

/// Says which part of a log is at fault, and what comes of it.
pub fn say_damaged(rt: &HostRuntime, dir: &str, number: LogNo, part: Part, then: &str) {
    let digits = number.digits();
    let (Ok(folder), Ok(id)) = (folder_of_log(rt, dir, number), str::from_utf8(&digits)) else {
        return;
    };
    let folder = folder.as_str();
    let part = name_of(part);
    let _ = eprintln!(rt;
        "sudoreplay: log {id} ({folder}): {part} is absent, shorter than its journal says, or garbled{then}"
    );
}

/// Says which number files are damaged or don't cover the logs of their lanes. Logs up to `last` are listed.
fn say_numbers(rt: &HostRuntime, dir: &str, last: u32) {
    let Ok(look) = numbers_in(*rt, "sudoreplay", dir) else {
        return;
    };
    let most = look.newest.unwrap_or(0);
    for wrong in look.wrong.iter() {
        say_wrong(rt, dir, wrong, last, most);
    }
}

/// Says which last numbers are far above the newest log.
pub fn say_far_numbers(rt: &HostRuntime, dir: &str) {
    let Ok(look) = numbers_in(*rt, "sudoreplay", dir) else {
        return;
    };
    for far in look.far.iter() {
        say_far(rt, dir, far);
    }
}

/// Says what is wrong with a number file, by its own name. Logs up to `last` are listed, and the greatest is `newest`: of several
/// lanes another one may have drawn a greater number.
fn say_wrong(rt: &HostRuntime, dir: &str, wrong: &WrongNumbers, last: u32, newest: u32) {
    let lane = after_name(wrong.lane);
    let digits = digits_of(last);
    let listed = str::from_utf8(&digits).unwrap_or("");
    let _ = match wrong.why {
        Wrong::Damaged => eprintln!(rt;
            "sudoreplay: {dir}/seq2{lane}: it is damaged, so no log is listed: put it back from a copy; an identifier still plays its log"
        ),
        Wrong::Lanes { says, first } => eprintln!(rt;
            "sudoreplay: {dir}/seq2{lane}: it is of a store with --lanes {says}, and the number file before it says {first}: put back the files that belong together"
        ),
        Wrong::Uncovered(Uncovered::NoLast) if last == 0 => eprintln!(rt;
            "sudoreplay: {dir}/seq2{lane}: it has no entry, so no log is listed: put it back from a copy; an identifier still plays its log"
        ),
        Wrong::Uncovered(Uncovered::NoLast) if newest <= last => eprintln!(rt;
            "sudoreplay: {dir}/seq2{lane}: it has no entry, and there are logs of its numbers: all are listed, by the number file of another lane: put it back from a copy"
        ),
        Wrong::Uncovered(Uncovered::NoLast) => eprintln!(rt;
            "sudoreplay: {dir}/seq2{lane}: it has no entry, and there are logs of its numbers: those above {listed} aren't listed: put it back from a copy; an identifier still plays its log"
        ),
        Wrong::Uncovered(Uncovered::Above { last: own, log }) => {
            let (own, log) = (digits_of(own), digits_of(log));
            let own = str::from_utf8(&own).unwrap_or("");
            let log = str::from_utf8(&log).unwrap_or("");
            if newest <= last {
                return say_covered(rt, dir, lane, own, log);
            }
            eprintln!(rt;
                "sudoreplay: {dir}/seq2{lane}: its last number is {own}, and there is log {log} of its numbers: logs above {listed} aren't listed: put it back from a newer copy; an identifier still plays its log"
            )
        }
    };
}

/// Says that a number file is too old, but that of another lane has all logs listed.
fn say_covered(rt: &HostRuntime, dir: &str, lane: &str, own: &str, log: &str) {
    let _ = eprintln!(rt;
        "sudoreplay: {dir}/seq2{lane}: its last number is {own}, and there is log {log} of its numbers: all are listed, by the number file of another lane: put it back from a newer copy"
    );
}

/// Says that a last number is far above the newest log.
fn say_far(rt: &HostRuntime, dir: &str, far: &FarNumbers) {
    let lane = after_name(far.lane);
    let (last, newest) = (digits_of(far.last), digits_of(far.newest.unwrap_or(0)));
    let last = str::from_utf8(&last).unwrap_or("");
    let newest = str::from_utf8(&newest).unwrap_or("");
    let _ = eprintln!(rt;
        "sudoreplay: {dir}/seq2{lane}: warning: its last number is {last}, and the newest log is {newest}: if no logs between them were removed, it is damaged: put it back from a copy"
    );
}

/// What the names of a lane's own files have at their end.
fn after_name(lane: u32) -> &'static str {
    match lane {
        0 => "",
        1 => ".1",
        2 => ".2",
        3 => ".3",
        4 => ".4",
        5 => ".5",
        6 => ".6",
        _ => ".7",
    }
}

/// The six digits of a number, which may be 0.
fn digits_of(number: u32) -> [u8; 6] {
    match LogNo::new(number) {
        Some(number) => number.digits(),
        None => [b'0'; 6],
    }
}

/// Says of a log of this store whose files are there what it lacks, and what comes of it. Whether there was something to say.
pub fn say_lack_in(rt: &HostRuntime, dir: &str, number: LogNo, then: &str) -> bool {
    let mut disk = ReadOnlyDisk::new(*rt, "sudoreplay");
    disk.root(dir, "");
    say_lack(rt, &mut disk, dir, number, then)
}

/// The same, by a disk whose place the store is.
fn say_lack(
    rt: &HostRuntime,
    disk: &mut ReadOnlyDisk,
    dir: &str,
    number: LogNo,
    then: &str,
) -> bool {
    let Ok(Some(lack)) = lack_of(rt, disk, dir, number) else {
        return false;
    };
    let digits = number.digits();
    let (Ok(folder), Ok(id)) = (folder_of_log(rt, dir, number), str::from_utf8(&digits)) else {
        return false;
    };
    let folder = folder.as_str();
    let _ = match lack {
        Lack::Journal => eprintln!(rt;
            "sudoreplay: log {id} ({folder}): its journal, slots, is gone, so {then}: put it back from a copy"
        ),
        Lack::Entry => eprintln!(rt;
            "sudoreplay: log {id} ({folder}): its journal, slots, has no entry, so {then}: put it back from a copy, unless the server was ended while it made this log"
        ),
    };
    true
}

/// The name of a part's file.
fn name_of(part: Part) -> &'static str {
    match part {
        Part::Head => "log.json",
        Part::Exit => "exit.json",
        Part::Timing => "timing",
        Part::Stdin => "stdin",
        Part::Stdout => "stdout",
        Part::Stderr => "stderr",
        Part::Ttyin => "ttyin",
        Part::Ttyout => "ttyout",
        _ => "slots",
    }
}
