//! Says which logs of a store are whole, which end early, and which are damaged.
#![tactic(auto)]

mod progress;
mod report;
mod usage;
mod watched;

use crate::progress::Progress;
use crate::report::{report, report_unread};
use crate::watched::{WatchedLogs, WatchedSink};
use lsv_check::{CheckStatus, sudo_logcheck};
use lsv_real::{StdSink, arguments};
use lsv_real_disk::ReadOnlyDisk;
use std::process::ExitCode;

/// Does what the words ask for, and says on standard error what there is to say of it.
fn run(rt: HostRuntime) -> CheckStatus {
    let alloc = rt.alloc();
    let words = match arguments(&rt) {
        Ok(words) => words,
        Err(fault) => return report_unread(&rt, fault),
    };
    let progress = Progress::new(rt);
    let mut disk = ReadOnlyDisk::new(rt, "sudo_logcheck");
    let mut sink = WatchedSink::new(StdSink::new(rt), &progress);
    let mut logs = WatchedLogs::new(&progress);
    let status = sudo_logcheck(alloc, &words, &mut disk, &mut sink, &mut logs);
    progress.clear();
    report(&rt, &words, status)
}

fn main(rt: HostRuntime) -> ExitCode {
    ExitCode::from(run(rt).number())
}
