//! Plays, follows and lists the sessions that sudo's log server stored.
#![tactic(auto)]

mod gaps;
mod logs;
mod report;
mod search;
mod usage;

use crate::gaps::StoreGaps;
use crate::report::{advise, report, warn};
use lsv_follow::Nobody;
use lsv_real::{ArgumentFault, StdScreen, arguments};
use lsv_real_disk::ReadOnlyDisk;
use lsv_replay::{ReplayStatus, sudoreplay};
use std::process::ExitCode;

/// Does what the words ask for, and says on standard error what there is to say of it.
fn run(rt: HostRuntime) -> ReplayStatus {
    let alloc = rt.alloc();
    let words = match arguments(&rt) {
        Ok(words) => words,
        Err(fault) => return unread(&rt, fault),
    };
    warn(&rt, &words);
    let mut disk = ReadOnlyDisk::new(rt, "sudoreplay");
    let mut screen = StdScreen::new(rt);
    let mut gaps = StoreGaps::new(rt, &words);
    // Others write the store by themselves.
    let status = sudoreplay(
        alloc,
        &words,
        &mut disk,
        &mut screen,
        &mut Nobody,
        &mut gaps,
    );
    // Who reads a part of it, as `head` does, wants no more of it.
    if !screen.is_left() {
        report(&rt, &words, status, gaps.noted());
        tell(&rt, status);
    }
    status
}

/// Says why the words can't be had.
fn unread(rt: &HostRuntime, fault: ArgumentFault) -> ReplayStatus {
    let status = match fault {
        ArgumentFault::NoMem => ReplayStatus::NoMem,
        ArgumentFault::NotText => {
            let _ = eprintln!(rt; "sudoreplay: a word isn't UTF-8");
            ReplayStatus::Usage
        }
    };
    tell(rt, status);
    status
}

/// Prints why the run failed, if it did.
fn tell(rt: &HostRuntime, status: ReplayStatus) {
    if status == ReplayStatus::Shown {
        return;
    }
    let Ok(text) = status.text(rt.alloc()) else {
        return;
    };
    if let Ok(text) = str::from_utf8(text.as_slice()) {
        let _ = eprintln!(rt; "sudoreplay: {text}");
    }
    advise(rt, status);
}

fn main(rt: HostRuntime) -> ExitCode {
    ExitCode::from(run(rt).number())
}
