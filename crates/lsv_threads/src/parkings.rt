//! Where threads sleep, and what wakes them.

use crate::shares::Shares;
use crate::take::Tally;
use lsv_base::NoMem;
use lsv_port::Bell;
use std::alloc::Global;
use std::sync::Wait;
use std::sync::atomic::{AtomicU64, Ordering};
use std::thread::Parker;
use std::time::Duration;

/// The most workers of a server.
const MOST_WORKERS: usize = 64;

/// How long a worker's thread sleeps at most, in milliseconds, if nothing wakes it.
const WORKER_MILLIS: u64 = 50;

/// How long the thread of several lanes sleeps at most, in milliseconds.
const SHORT_MILLIS: u64 = 1;

/// A place to sleep for each lane and each worker, the bell of each worker's port, and how the inboxes are shared among the
/// workers. All threads share it. Nothing is promised of it: it decides when a thread goes on, and never what it does.
#[derive(Drop)]
pub struct Parkings<B> {
    /// One for each lane, in their order.
    pub lanes: Vec<Parker>,
    /// Which places and bytes of the lanes' inboxes are whose.
    pub shares: Shares,
    /// One for each worker, in their order.
    pub workers: Vec<Parker>,
    /// For each worker, in their order: 1 if it may wait in its port's turn, else 0.
    pub waiting: Vec<AtomicU64>,
    /// The bells of the workers' ports, in the workers' order. The last may be missing.
    pub bells: Vec<B>,
}

impl<B: Bell> Parkings<B> {
    /// Parkings for this many lanes and workers. A worker may have no bell: it isn't woken out of its port's turn then.
    pub fn new(alloc: Global, lanes: usize, workers: usize, bells: Vec<B>) -> Result<Self, NoMem>
    where
        B: Drop,
    {
        let mut lane_parkers = Vec::new(alloc);
        for _ in 0..lanes {
            lane_parkers.push(Parker::new())?;
        }
        let mut worker_parkers = Vec::new(alloc);
        let mut waiting = Vec::new(alloc);
        for _ in 0..workers {
            worker_parkers.push(Parker::new())?;
            waiting.push(AtomicU64::new(0))?;
        }
        Ok(Parkings {
            lanes: lane_parkers,
            shares: Shares::new(alloc, lanes, workers)?,
            workers: worker_parkers,
            waiting,
            bells,
        })
    }

    /// Wakes the thread of a lane.
    pub fn wake_lane(&self, lane: usize) {
        if let Some(parker) = self.lanes.as_slice().get(lane) {
            parker.unpark();
        }
    }

    /// Wakes the thread of a worker, also if it waits in its port's turn.
    pub fn wake_worker(&self, worker: usize) {
        if let Some(parker) = self.workers.as_slice().get(worker) {
            parker.unpark();
        }
        if self.stops_waiting(worker) {
            self.ring(worker);
        }
    }

    /// Rings the bell of a worker's port: its turn that waits now, or else the next one, answers at once.
    pub fn ring(&self, worker: usize) {
        if let Some(bell) = self.bells.as_slice().get(worker) {
            bell.ring();
        }
    }

    /// Notes whether a worker may wait in its port's turn. A worker that says so before it looks for replies misses none: one that
    /// is put after the look rings.
    pub fn note_waiting(&self, worker: usize, waits: bool) {
        if let Some(waiting) = self.waiting.as_slice().get(worker) {
            waiting.store(u64::from(waits), Ordering::SeqCst);
        }
    }

    /// Whether a worker may wait in its port's turn. Then it is noted that it was woken, so that one of several rings.
    fn stops_waiting(&self, worker: usize) -> bool {
        match self.waiting.as_slice().get(worker) {
            Some(waiting) => {
                waiting.load(Ordering::SeqCst) == 1 && waiting.swap(0, Ordering::SeqCst) == 1
            }
            None => true,
        }
    }

    /// A lane's thread sleeps until it is woken.
    pub fn rest_lane<R: Wait>(&self, rt: &R, lane: usize) {
        if let Some(parker) = self.lanes.as_slice().get(lane) {
            parker.park(rt);
        }
    }

    /// A lane's thread sleeps until it is woken, and no longer than a millisecond.
    pub fn doze_lane<R: Wait>(&self, rt: &R, lane: usize) {
        if let Some(parker) = self.lanes.as_slice().get(lane) {
            parker.park_timeout(rt, Duration::from_millis(SHORT_MILLIS));
        }
    }

    /// A worker's thread sleeps until it is woken, and no longer than 50 ms.
    pub fn rest_worker<R: Wait>(&self, rt: &R, worker: usize) {
        if let Some(parker) = self.workers.as_slice().get(worker) {
            parker.park_timeout(rt, Duration::from_millis(WORKER_MILLIS));
        }
    }

    /// The lane took these jobs: their places are free, and the workers that wait for room at it are woken.
    pub fn note_taken(&self, lane: usize, tally: &Tally) {
        for worker in 0..MOST_WORKERS {
            if tally.jobs[worker] > 0 {
                self.shares.release(lane, worker, tally.jobs[worker]);
            }
        }
        self.wake_refused(lane);
    }

    /// The lane did the turn of these jobs: their bytes are free, and the workers that wait for room at it are woken.
    pub fn note_done(&self, lane: usize, tally: &Tally) {
        for worker in 0..MOST_WORKERS {
            if tally.bytes[worker] > 0 {
                self.shares.unload(lane, worker, tally.bytes[worker]);
            }
        }
        self.wake_refused(lane);
    }

    /// Wakes the workers that wait for room at a lane.
    fn wake_refused(&self, lane: usize) {
        let refused = self.shares.take_refused(lane);
        if refused == 0 {
            return;
        }
        for worker in 0..MOST_WORKERS {
            if refused & (1u64 << worker as u32) != 0 {
                self.shares.note_roomy(worker);
                self.wake_worker(worker);
            }
        }
    }

    /// Whether there may be room again where a worker was refused. Then it is noted no more. A worker that asks after it noted that
    /// it may wait misses nothing: it is rung later.
    pub fn takes_roomy(&self, worker: usize) -> bool {
        self.shares.takes_roomy(worker)
    }
}
