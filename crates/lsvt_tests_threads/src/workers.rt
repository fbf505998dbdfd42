//! Two workers run beside each other.

use crate::disks::Slow;
use crate::meeting::Meeting;
use crate::outside::{Ran, bay, empty, run};
use crate::ports::{Meets, Part};
use lsv_base::Bytes;
use lsv_gen::conversation;
use lsv_port::{MemPort, Step};
use lsv_serve::Status;
use lsvt_doubles::Watched;
use std::alloc::Global;
use std::sync::Wait;
use std::test::Fail;
use std::thread::Threads;

/// The hello of a server, and the number of a log of one digit.
const ANSWERS: usize = 27;

/// A port whose one link brings a generated conversation, without its end.
fn port<'a>(alloc: Global, part: Part, meeting: &'a Meeting) -> Result<Meets<'a>, Fail> {
    let sent = conversation(alloc, 1)?;
    let mut script = Vec::new(alloc);
    script.push(Step::Open(1))?;
    script.push(Step::Give(1, Bytes::of(alloc, sent.as_slice())?))?;
    script.push(Step::Stop)?;
    let port = Watched::new(alloc, MemPort::new(alloc, script));
    Ok(Meets::new(port, part, meeting))
}

/// Two ports: a read of the one waits until the other was put an answer.
fn run_with_a_slow_port<R: Threads + Wait + Sync>(
    rt: &R,
    alloc: Global,
    meeting: &Meeting,
) -> Result<Ran, Fail> {
    let stays = port(alloc, Part::Stays, meeting)?;
    let answers = port(alloc, Part::Answers { after: 0 }, meeting)?;
    let ports = vec![in alloc; stays, answers]?;
    let first = bay(Slow::quick(empty(alloc)?));
    let second = bay(Slow::quick(empty(alloc)?));
    run(rt, alloc, &["serve", "-f", "none"], ports, first, second)
}

#[test]
fn a_port_is_served_while_a_read_of_another_waits(rt: HostRuntime) -> Result<(), Fail> {
    let meeting = Meeting::new();
    let ran = run_with_a_slow_port(&rt, rt.alloc(), &meeting)?;
    assert_eq!(rt; ran.status, Status::Served);
    assert_eq!(rt; meeting.was_met(), true);
    assert_eq!(rt; ran.links.len(), 2);
    for link in &ran.links {
        assert_eq!(rt; link.put.len() >= ANSWERS, true);
    }
    Ok(())
}
