//! Sends one session that sudo's log server stored to a log server.
#![tactic(auto)]

mod progress;
mod report;
mod usage;
mod watched;

use crate::progress::Progress;
use crate::report::{report, report_unread};
use crate::watched::{WatchedLink, WatchedSink};
use lsv_real::{StdSink, arguments};
use lsv_real_disk::ReadOnlyDisk;
use lsv_send::{SendStatus, sudo_sendlog};
use lsv_tcp::TcpLink;
use std::process::ExitCode;

/// Does what the words ask for, and says on standard error what there is to say of it.
fn run(rt: HostRuntime) -> SendStatus {
    let alloc = rt.alloc();
    let words = match arguments(&rt) {
        Ok(words) => words,
        Err(fault) => return report_unread(&rt, fault),
    };
    let progress = Progress::new(rt);
    let mut disk = ReadOnlyDisk::new(rt, "sudo_sendlog");
    let mut link = WatchedLink::new(TcpLink::new(rt, rt, "sudo_sendlog"), &progress);
    let mut sink = WatchedSink::new(StdSink::new(rt), &progress);
    let status = sudo_sendlog(alloc, &words, &mut disk, &mut link, &mut sink);
    progress.finish();
    report(&rt, &words, &status);
    status
}

fn main(rt: HostRuntime) -> ExitCode {
    ExitCode::from(run(rt).number())
}
