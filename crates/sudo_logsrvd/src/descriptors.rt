//! Whether the limit of open files suffices for a server, as it is told at its start.

use lsv_real::{clients_of, descriptors_for, fewest_descriptors};
use lsv_real_disk::most_descriptors;
use lsv_serve::Status;

/// Says on standard error whether the limit of open files lets a server of this many lanes and workers serve fewer clients than
/// it may. `PortFault` if it can't serve one.
pub fn check(rt: &HostRuntime, lanes: u32, workers: u32) -> Result<(), Status> {
    let limit = most_descriptors();
    let ports = u64::from(workers);
    let most = clients_of(ports, u64::MAX);
    let enough = descriptors_for(ports);
    if limit < fewest_descriptors(ports, u64::from(lanes)) {
        let _ = eprintln!(rt;
            "sudo_logsrvd: the limit of open files is {limit}: not one client can be served; {most} need {enough} (ulimit -n {enough}, or LimitNOFILE= of the unit)"
        );
        return Err(Status::PortFault);
    }
    let clients = clients_of(ports, limit);
    if clients < most {
        let _ = eprintln!(rt;
            "sudo_logsrvd: warning: the limit of open files is {limit}: at most {clients} of {most} clients are served at once; all need {enough} (ulimit -n {enough}, or LimitNOFILE= of the unit)"
        );
        advise_fewer(rt, ports, limit);
    }
    Ok(())
}

/// Says that fewer workers would serve more clients under a limit of open files, if they would: each worker takes some of them.
fn advise_fewer(rt: &HostRuntime, ports: u64, limit: u64) {
    let mut best = ports;
    for fewer in 1..ports {
        if clients_of(fewer, limit) > clients_of(best, limit) {
            best = fewer;
        }
    }
    if best < ports {
        let served = clients_of(best, limit);
        let _ = eprintln!(rt;
            "sudo_logsrvd: warning: each worker takes some of these files: --workers {best} would serve {served} clients at once"
        );
    }
}
