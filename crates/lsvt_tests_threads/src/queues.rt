//! A queue of two places under many senders.

ghost use Rattle.std.specs.Prelude.{◌≡◌, false};

use lsv_base::NoMem;
use lsv_queue::{InPass, OutPass, Queue, make};
use std::alloc::Global;
use std::sync::Wait;
use std::test::*;
use std::thread;
use std::thread::Threads;

/// How many numbers each sender puts.
const EACH: u32 = 250;

/// How often a thread looks for room, or for a number, at most.
const MOST_LOOKS: u32 = 10_000_000;

/// Puts a number, and tries again while the queue is full. False if it stays so.
fn put<R: Wait>(rt: &R, queue: &Queue<u32>, pass: &mut InPass<u32>, number: u32) -> bool
    requires queue { pass.old.queue ≡ queue.now.name }
    requires going { pass.old.list.ended ≡ false }
    ensures queue { pass.new.queue ≡ queue.now.name }
    ensures going { pass.new.list.ended ≡ false }
{
    for _ in 0..MOST_LOOKS {
        match queue.put(rt, pass, number) {
            Ok(()) => {
                return true;
            }
            Err(_) => thread::yield_now(),
        }
    }
    false
}

/// Puts the numbers of a sender, in order.
fn send<R: Wait>(rt: &R, queue: &Queue<u32>, pass: InPass<u32>, first: u32)
    requires queue { pass.queue ≡ queue.now.name }
    requires going { pass.list.ended ≡ false }
{
    let mut pass = pass;
    for n in 0..EACH {
        if !put(rt, queue, &mut pass, first.saturating_add(n)) {
            return;
        }
    }
}

/// Two send beside each other, the numbers from `first` on and those from 1,000 more on.
fn send_both<R: Threads + Wait + Sync>(
    rt: &R,
    queue: &Queue<u32>,
    one: InPass<u32>,
    other: InPass<u32>,
    first: u32,
)
    requires one { (one.queue ≡ queue.now.name) × (one.list.ended ≡ false) }
    requires other { (other.queue ≡ queue.now.name) × (other.list.ended ≡ false) }
{
    let second = first.saturating_add(1000);
    thread::join(
        rt,
        move || -> ()
            requires { (one.queue ≡ queue.now.name) × (one.list.ended ≡ false) }
        { send(rt, queue, one, first) },
        move || -> ()
            requires { (other.queue ≡ queue.now.name) × (other.list.ended ≡ false) }
        { send(rt, queue, other, second) },
    );
}

/// Two pairs send beside each other.
fn send_all<R: Threads + Wait + Sync>(
    rt: &R,
    queue: &Queue<u32>,
    one: InPass<u32>,
    two: InPass<u32>,
    three: InPass<u32>,
    four: InPass<u32>,
)
    requires one { (one.queue ≡ queue.now.name) × (one.list.ended ≡ false) }
    requires two { (two.queue ≡ queue.now.name) × (two.list.ended ≡ false) }
    requires three { (three.queue ≡ queue.now.name) × (three.list.ended ≡ false) }
    requires four { (four.queue ≡ queue.now.name) × (four.list.ended ≡ false) }
{
    thread::join(
        rt,
        move || -> ()
            requires one { (one.queue ≡ queue.now.name) × (one.list.ended ≡ false) }
            requires two { (two.queue ≡ queue.now.name) × (two.list.ended ≡ false) }
        { send_both(rt, queue, one, two, 0) },
        move || -> ()
            requires three { (three.queue ≡ queue.now.name) × (three.list.ended ≡ false) }
            requires four { (four.queue ≡ queue.now.name) × (four.list.ended ≡ false) }
        { send_both(rt, queue, three, four, 2000) },
    );
}

/// Takes this many numbers, if they come.
fn take<R: Wait>(
    rt: &R,
    alloc: Global,
    queue: &Queue<u32>,
    pass: OutPass<u32>,
    count: usize,
) -> Result<Vec<u32>, NoMem>
    requires queue { pass.queue ≡ queue.now.name }
{
    let mut pass = pass;
    let mut all = Vec::new(alloc);
    for _ in 0..MOST_LOOKS {
        if all.len() == count {
            return Ok(all);
        }
        match queue.get(rt, &mut pass) {
            Ok(number) => all.push(number)?,
            Err(_) => thread::yield_now(),
        }
    }
    Ok(all)
}

/// What comes out of a queue while four send.
fn send_and_take<R: Threads + Wait + Sync>(
    rt: &R,
    alloc: Global,
    queue: &Queue<u32>,
    one: InPass<u32>,
    two: InPass<u32>,
    three: InPass<u32>,
    four: InPass<u32>,
    out: OutPass<u32>,
) -> Result<Vec<u32>, NoMem>
    requires one { (one.queue ≡ queue.now.name) × (one.list.ended ≡ false) }
    requires two { (two.queue ≡ queue.now.name) × (two.list.ended ≡ false) }
    requires three { (three.queue ≡ queue.now.name) × (three.list.ended ≡ false) }
    requires four { (four.queue ≡ queue.now.name) × (four.list.ended ≡ false) }
    requires out { out.queue ≡ queue.now.name }
{
    let (_, all) = thread::join(
        rt,
        move || -> ()
            requires one { (one.queue ≡ queue.now.name) × (one.list.ended ≡ false) }
            requires two { (two.queue ≡ queue.now.name) × (two.list.ended ≡ false) }
            requires three { (three.queue ≡ queue.now.name) × (three.list.ended ≡ false) }
            requires four { (four.queue ≡ queue.now.name) × (four.list.ended ≡ false) }
        { send_all(rt, queue, one, two, three, four) },
        move || -> Result<Vec<u32>, NoMem>
            requires { out.queue ≡ queue.now.name }
        { take(rt, alloc, queue, out, 4 * EACH as usize) },
    );
    all
}

/// Whether the numbers of each of four senders are all there, in order.
fn are_in_order(all: &[u32]) -> bool {
    let mut next = [0; 4];
    for number in all {
        let Some(count) = next.get_mut((number / 1000) as usize) else {
            return false;
        };
        if *count != number % 1000 {
            return false;
        }
        *count += 1;
    }
    next == [EACH; 4]
}

#[test]
fn four_senders_get_through_a_queue_of_two_places(rt: HostRuntime) -> Result<(), Fail> {
    let alloc = rt.alloc();
    let (queue, mut one, out) = make::<u32>(alloc, 2)?;
    let two = queue.split(&mut one)?;
    let three = queue.split(&mut one)?;
    let four = queue.split(&mut one)?;
    let all = send_and_take(&rt, alloc, &queue, one, two, three, four, out)?;
    assert_eq!(rt; are_in_order(all.as_slice()), true);
    Ok(())
}
