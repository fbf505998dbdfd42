//! What to do about a run that failed, in a further line on standard error.

use lsv_conf::Conf;
use lsv_disk::Owner;
use lsv_keeper::StoreFault;
use lsv_serve::Status;
use std::str;

/// The forms of the commands that are built.
pub fn show_forms(rt: &HostRuntime) {
    let _ = eprintln!(rt;
        "usage: sudo_logsrvd serve [-f FILE] [--lanes N] [--workers N] [--stop-after N]"
    );
    let _ = eprintln!(rt; "       sudo_logsrvd check [-f FILE]");
    let _ = eprintln!(rt; "       sudo_logsrvd relay [-f FILE]");
    let _ = eprintln!(rt; "       sudo_logsrvd once [-f FILE]");
    let _ = eprintln!(rt; "       sudo_logsrvd load N [-f FILE]");
}

/// Says why a store isn't opened, where the disk hasn't said it already, and what to do.
pub fn advise(rt: &HostRuntime, fault: StoreFault, conf: &Conf) {
    let dir = text_of(conf.iolog_dir.as_slice());
    let events = text_of(conf.path.as_slice());
    match fault {
        StoreFault::Damaged(f) => match f.owner {
            Owner::Events(lane) => {
                let lane = after_name(lane);
                let _ = eprintln!(rt;
                    "sudo_logsrvd: {events}{lane}: it is absent or shorter than its journal {events}{lane}.slots says: if it was rotated, move the journal away too"
                );
            }
            Owner::Numbers(lane) => {
                let lane = after_name(lane);
                let _ = eprintln!(rt;
                    "sudo_logsrvd: {dir}/seq2{lane}: it is damaged: put it back from a copy, or let iolog_dir be a new folder"
                );
            }
            _ => {}
        },
        StoreFault::LanesDiffer { kept, asked } => {
            let _ = eprintln!(rt;
                "sudo_logsrvd: {dir}/seq2: the store was made with --lanes {kept}, and {asked} is asked for: start the server with --lanes {kept}, or let iolog_dir be a new folder and path of [logfile] a new file"
            );
        }
        StoreFault::Device(_) | StoreFault::NoMem => {}
    }
}

/// Says what to do about a relay that has nobody to send to.
pub fn advise_relay(rt: &HostRuntime, status: Status) {
    if status == Status::NoUpstream {
        let _ = eprintln!(rt;
            "sudo_logsrvd: nothing is relayed: in [relay] of the settings, relay_host names the other server, and store_first = true asks for it"
        );
    }
}

/// What the names of a lane's own files have at their end.
fn after_name(lane: u32) -> &'static str {
    match lane {
        0 => "",
        1 => ".1",
        2 => ".2",
        3 => ".3",
        4 => ".4",
        5 => ".5",
        6 => ".6",
        _ => ".7",
    }
}

/// A place of the settings, which are UTF-8.
fn text_of(bytes: &[u8]) -> &str {
    str::from_utf8(bytes).unwrap_or("the store")
}
