//! Lanes run beside each other and beside the workers.

use crate::disks::Slow;
use crate::meeting::Meeting;
use crate::outside::{Ran, bay, empty, run, starved};
use crate::ports::{Meets, Part};
use lsv_base::Bytes;
use lsv_gen::conversation;
use lsv_port::{MemPort, Step};
use lsv_serve::Status;
use lsvt_doubles::Watched;
use std::alloc::Global;
use std::sync::Wait;
use std::test::Fail;
use std::thread::Threads;

/// A port over whose links, numbered from 1, comes a generated conversation each, without its end.
fn port<'a>(
    alloc: Global,
    links: u32,
    conversation: &[u8],
    part: Part,
    meeting: &'a Meeting,
) -> Result<Meets<'a>, Fail> {
    let mut script = Vec::new(alloc);
    for link in 0..links {
        script.push(Step::Open(link + 1))?;
        script.push(Step::Give(link + 1, Bytes::of(alloc, conversation)?))?;
    }
    script.push(Step::Stop)?;
    let port = Watched::new(alloc, MemPort::new(alloc, script));
    Ok(Meets::new(port, part, meeting))
}

/// The frame of a log's number of six digits, and its length: field 3 of the server's messages.
fn log_id(digits: &[u8; 6]) -> [u8; 12] {
    let [a, b, c, d, e, f] = digits;
    [0, 0, 0, 8, 0x1a, 6, *a, *b, *c, *d, *e, *f]
}

/// The bytes of a server's hello with its length.
const HELLO: usize = 15;

/// Two lanes: the disk of lane 1 waits until lane 0 has answered.
fn run_with_a_slow_disk<R: Threads + Wait + Sync>(
    rt: &R,
    alloc: Global,
    meeting: &Meeting,
) -> Result<Ran, Fail> {
    let sent = conversation(alloc, 1)?;
    // The first link opens and is given its bytes in two turns; its connection, of number 1, is of lane 1.
    let part = Part::Answers { after: 2 };
    let port = port(alloc, 2, sent.as_slice(), part, meeting)?;
    let ports = vec![in alloc; port]?;
    let first = bay(Slow::quick(empty(alloc)?));
    let second = bay(Slow::waiting(empty(alloc)?, meeting));
    let words = ["serve", "--lanes", "2", "-f", "none"];
    run(rt, alloc, &words, ports, first, second)
}

#[test]
fn a_lane_answers_while_the_disk_of_another_waits(rt: HostRuntime) -> Result<(), Fail> {
    let meeting = Meeting::new();
    let ran = run_with_a_slow_disk(&rt, rt.alloc(), &meeting)?;
    assert_eq!(rt; ran.status, Status::Served);
    assert_eq!(rt; meeting.was_met(), true);
    let [one, two] = ran.links.as_slice() else {
        return Err("two links".into());
    };
    let told = one.put.get(HELLO..HELLO + 12);
    assert_eq!(rt; told, Some(log_id(b"000002").as_slice()));
    let told = two.put.get(HELLO..HELLO + 12);
    assert_eq!(rt; told, Some(log_id(b"000001").as_slice()));
    Ok(())
}

/// One lane, whose disk waits until its inbox is full.
fn run_with_a_full_inbox<R: Threads + Wait + Sync>(
    rt: &R,
    alloc: Global,
    meeting: &Meeting,
) -> Result<Ran, Fail> {
    // 53 messages
    let sent = conversation(alloc, 49)?;
    let port = port(alloc, 12, sent.as_slice(), Part::Fills, meeting)?;
    let ports = vec![in alloc; port]?;
    let first = bay(Slow::waiting(empty(alloc)?, meeting));
    let second = bay(Slow::quick(empty(alloc)?));
    run(rt, alloc, &["serve", "-f", "none"], ports, first, second)
}

#[test]
fn a_turn_has_all_jobs_that_a_full_inbox_holds(rt: HostRuntime) -> Result<(), Fail> {
    let meeting = Meeting::new();
    let ran = run_with_a_full_inbox(&rt, rt.alloc(), &meeting)?;
    assert_eq!(rt; ran.status, Status::Served);
    assert_eq!(rt; meeting.was_met(), true);
    assert_eq!(rt; ran.jobs, 256);
    Ok(())
}

/// Two lanes, of which lane 1 gets no memory, and a port that never tells Stop.
fn run_without_memory<R: Threads + Wait + Sync>(
    rt: &R,
    alloc: Global,
    nobody: &Meeting,
) -> Result<Ran, Fail> {
    let sent = conversation(alloc, 1)?;
    let part = Part::Answers { after: 4 };
    let port = port(alloc, 2, sent.as_slice(), part, nobody)?;
    let ports = vec![in alloc; port]?;
    let first = bay(Slow::quick(empty(alloc)?));
    let second = starved(Slow::quick(empty(alloc)?));
    let words = ["serve", "--lanes", "2", "-f", "none"];
    run(rt, alloc, &words, ports, first, second)
}

#[test]
fn a_lane_without_memory_ends_the_run_and_all_links_are_closed(
    rt: HostRuntime,
) -> Result<(), Fail> {
    let nobody = Meeting::new();
    let ran = run_without_memory(&rt, rt.alloc(), &nobody)?;
    assert_eq!(rt; ran.status, Status::NoMem);
    assert_eq!(rt; ran.links.is_empty(), false);
    for link in &ran.links {
        assert_eq!(rt; link.is_open, false);
    }
    Ok(())
}
