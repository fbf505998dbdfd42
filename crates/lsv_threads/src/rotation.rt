//! The lanes without a thread of their own, which the caller's thread turns one after another.

ghost use Rattle.std.specs.Prelude.{◌≤◌, ◌<◌, All, length};
ghost use Rattle.std.specs.List.{AllZip};
ghost use Rattle.lsv_threads.specs.Threads.{IsLaneStarted, LaneWent};

use crate::lane_thread::LaneThread;
use crate::{Meanwhile, Parkings};
use lsv_port::Bell;
use lsv_queue::Queue;
use lsv_session::{Job, Reply};
use lsv_turn::Lane;
use std::alloc::Global;
use std::sync::Wait;

/// One step of the lane at this place, if it has no thread.
fn step_at<L: Lane, R: Wait, B: Bell, M: Meanwhile>(
    rt: &R,
    alloc: Global,
    inboxes: &[Queue<Job>],
    outs: &[Queue<Reply>],
    parkings: &Parkings<B>,
    workers: u32,
    threads: &mut Vec<LaneThread<L>>,
    place: usize,
    meanwhile: &mut M,
)
    requires within { place < length threads.old.items }
    requires started { All (IsLaneStarted ⟦<L as Lane>⟧ inboxes.now outs.now workers) threads.old.items }
    requires ready { M.ready meanwhile.old }
    ensures started { All (IsLaneStarted ⟦<L as Lane>⟧ inboxes.now outs.now workers) threads.new.items }
    ensures went { AllZip (LaneWent ⟦<L as Lane>⟧ inboxes.now outs.now workers) threads.old.items threads.new.items }
    ensures ready { M.ready meanwhile.new }
    ensures goes { M.goes meanwhile.old meanwhile.new }
{
    let lane = &mut threads[place];
    lane.step(rt, alloc, inboxes, outs, parkings, workers, meanwhile);
}

/// One step of each lane without a thread.
fn step_lanes<L: Lane, R: Wait, B: Bell, M: Meanwhile>(
    rt: &R,
    alloc: Global,
    inboxes: &[Queue<Job>],
    outs: &[Queue<Reply>],
    parkings: &Parkings<B>,
    workers: u32,
    threads: &mut Vec<LaneThread<L>>,
    meanwhile: &mut M,
)
    requires started { All (IsLaneStarted ⟦<L as Lane>⟧ inboxes.now outs.now workers) threads.old.items }
    requires ready { M.ready meanwhile.old }
    ensures started { All (IsLaneStarted ⟦<L as Lane>⟧ inboxes.now outs.now workers) threads.new.items }
    ensures went { AllZip (LaneWent ⟦<L as Lane>⟧ inboxes.now outs.now workers) threads.old.items threads.new.items }
    ensures ready { M.ready meanwhile.new }
    ensures goes { M.goes meanwhile.old meanwhile.new }
{
    for place in 0..threads.len() {
        step_at(
            rt, alloc, inboxes, outs, parkings, workers, threads, place, meanwhile,
        );
    }
}

/// Whether each lane has a thread, or is over.
fn are_settled<L: Lane>(threads: &[LaneThread<L>], workers: u32) -> bool {
    for lane in threads {
        if !lane.is_settled(workers) {
            return false;
        }
    }
    true
}

/// Whether a lane besides lane 0 has no thread.
pub fn are_many<L: Lane>(threads: &[LaneThread<L>]) -> bool {
    let mut first = true;
    for lane in threads {
        if !first && lane.is_here() {
            return true;
        }
        first = false;
    }
    false
}

/// Turns the lanes without a thread until each is over.
pub fn run_lanes<L: Lane, R: Wait, B: Bell, M: Meanwhile>(
    rt: &R,
    alloc: Global,
    inboxes: &[Queue<Job>],
    outs: &[Queue<Reply>],
    parkings: &Parkings<B>,
    workers: u32,
    threads: &mut Vec<LaneThread<L>>,
    meanwhile: &mut M,
)
    requires started { All (IsLaneStarted ⟦<L as Lane>⟧ inboxes.now outs.now workers) threads.old.items }
    requires ready { M.ready meanwhile.old }
    ensures started { All (IsLaneStarted ⟦<L as Lane>⟧ inboxes.now outs.now workers) threads.new.items }
    ensures went { AllZip (LaneWent ⟦<L as Lane>⟧ inboxes.now outs.now workers) threads.old.items threads.new.items }
    ensures ready { M.ready meanwhile.new }
    ensures goes { M.goes meanwhile.old meanwhile.new }
{
    for _ in rt.forever() {
        if are_settled(threads.as_slice(), workers) {
            return;
        }
        step_lanes(
            rt, alloc, inboxes, outs, parkings, workers, threads, meanwhile,
        );
    }
    unreachable!()
}
