//! All threads of a server, from the first start to the last join.

ghost use Rattle.std.specs.Prelude.{◌≡◌, ◌≤◌, [], All, vec_len, vec_capacity};
ghost use Rattle.std.specs.List.{AllZip};
ghost use Rattle.lsv_threads.specs.Running.{HasRoom, MayRun};
ghost use Rattle.lsv_threads.specs.Threads.{Ends, IsDone, IsLane, IsLaneDone, IsLaneStarted, IsStarted, IsWorker, LaneEnds, LaneWent, Went};
ghost use Rattle.lsv_threads.specs.Words.{lane_words_of, words_of};

use crate::idle::{Idle, finish_idle};
use crate::lane_thread::{LaneThread, finish_lanes, start_lanes};
use crate::rotation::{are_many, run_lanes};
use crate::worker_thread::{WorkerThread, finish_workers, start_workers};
use crate::{LaneSide, Parkings, WorkerSide};
use lsv_port::Bell;
use lsv_queue::Queue;
use lsv_reactor::Endpoint;
use lsv_session::{Job, Reply};
use lsv_turn::Lane;
use std::alloc::Global;
use std::sync::Wait;
use std::sync::atomic::AtomicU64;
use std::thread;
use std::thread::{Scope, Threads};

/// Room for what threads run and hand back, which is reserved before the first thread starts.
#[derive(Drop)]
pub struct Rooms<T: Endpoint, L: Lane> {
    pub workers: Vec<WorkerThread<T>>,
    pub worker_sides: Vec<WorkerSide<T>>,
    pub lanes: Vec<LaneThread<L>>,
    pub lane_sides: Vec<LaneSide<L>>,
}

/// Turns the lanes without a thread and the workers without one, until they are over.
fn turn_all<T: Endpoint + Drop, L: Lane, R: Threads + Wait, B: Bell>(
    rt: &R,
    alloc: Global,
    inboxes: &[Queue<Job>],
    outs: &[Queue<Reply>],
    parkings: &Parkings<B>,
    count: u32,
    workers: Vec<WorkerThread<T>>,
    lanes: &mut Vec<LaneThread<L>>,
) -> Vec<WorkerThread<T>>
    requires workers { All (IsStarted ⟦<T as Endpoint>⟧ inboxes.now outs.now) workers.items }
    requires lanes { All (IsLaneStarted ⟦<L as Lane>⟧ inboxes.now outs.now count) lanes.old.items }
    ensures workers { All (IsStarted ⟦<T as Endpoint>⟧ inboxes.now outs.now) result.items }
    ensures went { AllZip (Went ⟦<T as Endpoint>⟧ inboxes.now outs.now) workers.items result.items }
    ensures lanes { All (IsLaneStarted ⟦<L as Lane>⟧ inboxes.now outs.now count) lanes.new.items }
    ensures lanes_went { AllZip (LaneWent ⟦<L as Lane>⟧ inboxes.now outs.now count) lanes.old.items lanes.new.items }
{
    let dozes = are_many(lanes.as_slice());
    let mut idle = Idle {
        alloc,
        inboxes,
        outs,
        parkings,
        threads: workers,
        dozes,
    };
    run_lanes(rt, alloc, inboxes, outs, parkings, count, lanes, &mut idle);
    let Idle { threads, .. } = idle;
    let mut threads = threads;
    finish_idle(rt, alloc, inboxes, outs, parkings, &mut threads);
    threads
}

/// Turns what has no thread until it is over, and waits for the threads.
fn finish<T: Endpoint + Drop, L: Lane + Drop, R: Threads + Wait, B: Bell>(
    rt: &R,
    alloc: Global,
    inboxes: &[Queue<Job>],
    outs: &[Queue<Reply>],
    parkings: &Parkings<B>,
    count: u32,
    workers: Vec<WorkerThread<T>>,
    lanes: Vec<LaneThread<L>>,
    worker_sides: &mut Vec<WorkerSide<T>>,
    lane_sides: &mut Vec<LaneSide<L>>,
)
    requires workers { All (IsStarted ⟦<T as Endpoint>⟧ inboxes.now outs.now) workers.items }
    requires lanes { All (IsLaneStarted ⟦<L as Lane>⟧ inboxes.now outs.now count) lanes.items }
    requires room { (worker_sides.old.items ≡ []) × (vec_len workers ≤ vec_capacity worker_sides.old) }
    requires lane_room { (lane_sides.old.items ≡ []) × (vec_len lanes ≤ vec_capacity lane_sides.old) }
    ensures workers { AllZip (Ends ⟦<T as Endpoint>⟧ inboxes.now outs.now) workers.items worker_sides.new.items }
    ensures lanes { AllZip (LaneEnds ⟦<L as Lane>⟧ inboxes.now outs.now count) lanes.items lane_sides.new.items }
{
    let mut lanes = lanes;
    let threads = turn_all(
        rt, alloc, inboxes, outs, parkings, count, workers, &mut lanes,
    );
    finish_workers(rt, alloc, inboxes, outs, parkings, threads, worker_sides);
    finish_lanes(rt, alloc, inboxes, outs, parkings, count, lanes, lane_sides);
}

/// Starts all threads.
fn start_all<
    's,
    E,
    T: Endpoint + Send + Drop + 's,
    L: Lane + Send + Drop + 's,
    R: Threads + Wait + Sync,
    B: Bell + Sync,
>(
    scope: &Scope<'s, E>,
    rt: &'s R,
    alloc: Global,
    inboxes: &'s [Queue<Job>],
    outs: &'s [Queue<Reply>],
    parkings: &'s Parkings<B>,
    refused: &'s [AtomicU64; 2],
    count: u32,
    workers: Vec<WorkerSide<T>>,
    lanes: Vec<LaneSide<L>>,
    worker_threads: &mut Vec<WorkerThread<T>>,
    lane_threads: &mut Vec<LaneThread<L>>,
)
    requires ready { MayRun ⟦<T as Endpoint>⟧ ⟦<L as Lane>⟧ inboxes.now outs.now workers.items lanes.items }
    requires room { (worker_threads.old.items ≡ []) × (vec_len workers ≤ vec_capacity worker_threads.old) }
    requires lane_room { (lane_threads.old.items ≡ []) × (vec_len lanes ≤ vec_capacity lane_threads.old) }
    ensures workers { AllZip (IsWorker ⟦<T as Endpoint>⟧ inboxes.now) workers.items worker_threads.new.items }
    ensures lanes { AllZip (IsLane ⟦<L as Lane>⟧ outs.now count) lanes.items lane_threads.new.items }
    ensures count { vec_len worker_threads.new ≡ vec_len workers }
    ensures lane_count { vec_len lane_threads.new ≡ vec_len lanes }
{
    start_workers(
        scope,
        rt,
        alloc,
        inboxes,
        outs,
        parkings,
        &refused[0],
        workers,
        worker_threads,
    );
    start_lanes(
        scope,
        rt,
        alloc,
        inboxes,
        outs,
        parkings,
        &refused[1],
        count,
        lanes,
        lane_threads,
    );
}

/// Starts all threads, and waits for them.
fn run_within<
    's,
    E,
    T: Endpoint + Send + Drop + 's,
    L: Lane + Send + Drop + 's,
    R: Threads + Wait + Sync,
    B: Bell + Sync,
>(
    scope: &Scope<'s, E>,
    rt: &'s R,
    alloc: Global,
    inboxes: &'s [Queue<Job>],
    outs: &'s [Queue<Reply>],
    parkings: &'s Parkings<B>,
    refused: &'s [AtomicU64; 2],
    count: u32,
    workers: Vec<WorkerSide<T>>,
    lanes: Vec<LaneSide<L>>,
    rooms: Rooms<T, L>,
) -> (Vec<WorkerSide<T>>, Vec<LaneSide<L>>)
    requires ready { MayRun ⟦<T as Endpoint>⟧ ⟦<L as Lane>⟧ inboxes.now outs.now workers.items lanes.items }
    requires room { HasRoom workers lanes rooms }
    ensures workers { AllZip (IsDone ⟦<T as Endpoint>⟧) workers.items result.0.items }
    ensures lanes { AllZip (IsLaneDone ⟦<L as Lane>⟧ count) lanes.items result.1.items }
{
    let Rooms {
        workers: mut started,
        worker_sides: mut ended,
        lanes: mut lanes_started,
        lane_sides: mut lanes_ended,
    } = rooms;
    start_all(
        scope,
        rt,
        alloc,
        inboxes,
        outs,
        parkings,
        refused,
        count,
        workers,
        lanes,
        &mut started,
        &mut lanes_started,
    );
    finish(
        rt,
        alloc,
        inboxes,
        outs,
        parkings,
        count,
        started,
        lanes_started,
        &mut ended,
        &mut lanes_ended,
    );
    (ended, lanes_ended)
}

/// Runs each worker and each lane, until all are over: each in a thread of its own, but lane 0 in the caller's, as is
/// each for which no thread could be made. `count` is the number of workers. Each side comes back in its place.
pub fn run_all<
    T: Endpoint + Send + Drop,
    L: Lane + Send + Drop,
    R: Threads + Wait + Sync,
    B: Bell + Sync,
>(
    rt: &R,
    alloc: Global,
    inboxes: &[Queue<Job>],
    outs: &[Queue<Reply>],
    parkings: &Parkings<B>,
    count: u32,
    workers: Vec<WorkerSide<T>>,
    lanes: Vec<LaneSide<L>>,
    rooms: Rooms<T, L>,
) -> (Vec<WorkerSide<T>>, Vec<LaneSide<L>>)
    requires ready { MayRun ⟦<T as Endpoint>⟧ ⟦<L as Lane>⟧ inboxes.now outs.now workers.items lanes.items }
    requires room { HasRoom workers lanes rooms }
    ensures workers { AllZip (IsDone ⟦<T as Endpoint>⟧) workers.items result.0.items }
    ensures lanes { AllZip (IsLaneDone ⟦<L as Lane>⟧ count) lanes.items result.1.items }
{
    let refused = [AtomicU64::new(0), AtomicU64::new(0)];
    let refused = &refused;
    thread::scope(
        thread::scope_env(),
        rt,
        |scope| -> (Vec<WorkerSide<T>>, Vec<LaneSide<L>>)
            requires ready { MayRun (words_of T.tells T.Start T.begun T.view T.number T.lanes T.made_by T.called) (lane_words_of L.tells L.Start L.made_by) inboxes.now outs.now workers.items lanes.items }
            requires room { HasRoom workers lanes rooms }
            ensures workers { AllZip (IsDone (words_of T.tells T.Start T.begun T.view T.number T.lanes T.made_by T.called)) workers.items result.0.items }
            ensures lanes { AllZip (IsLaneDone (lane_words_of L.tells L.Start L.made_by) count) lanes.items result.1.items }
        {
            run_within(
                scope, rt, alloc, inboxes, outs, parkings, refused, count, workers, lanes, rooms,
            )
        },
    )
}
