//! A server's threads from the first start to the last join.

ghost use Rattle.std.specs.Prelude.{◌≡◌, ◌≤◌, ℕ, length, IfOk};
ghost use Rattle.lsv_threads.specs.Prepared.{IsPrepared};
ghost use Rattle.lsv_threads.specs.Run.{AreFresh, AreFreshLanes};
ghost use Rattle.lsv_threads.specs.Served.{AreTurned};

use crate::dealing::{Dealt, deal};
use crate::running::{Rooms, run_all};
use crate::shares::inbox_places;
use crate::sides::{LaneParts, WorkerParts, make_lanes, make_workers, take_lanes, take_workers};
use crate::{LaneSide, Parkings, WorkerSide};
use lsv_base::NoMem;
use lsv_port::Bell;
use lsv_queue::settle;
use lsv_reactor::Endpoint;
use lsv_session::{Job, Reply};
use lsv_turn::Lane;
use std::alloc::Global;
use std::sync::Wait;
use std::thread::Threads;

/// How many replies an outbox holds.
const OUTBOX: usize = 1024;

/// All that takes memory, made before the first thread starts.
#[derive(Drop)]
pub(crate) struct Prepared<T: Endpoint, L: Lane> {
    inboxes: Dealt<Job>,
    outs: Dealt<Reply>,
    worker_sides: Vec<WorkerSide<T>>,
    lane_sides: Vec<LaneSide<L>>,
    rooms: Rooms<T, L>,
    worker_parts: WorkerParts<T>,
    lane_parts: LaneParts<L>,
}

/// Makes the queues, deals their passes out, and reserves room for the sides.
pub(crate) fn prepare<T: Endpoint + Drop, L: Lane + Drop>(
    alloc: Global,
    workers: usize,
    lanes: usize,
) -> Result<Prepared<T, L>, NoMem>
    requires some { 1 ≤ workers }
    requires some_lanes { 1 ≤ lanes }
    ensures { IfOk result (λ p. IsPrepared workers lanes p) }
{
    Ok(Prepared {
        inboxes: deal(alloc, inbox_places(workers), lanes, workers)?,
        outs: deal(alloc, OUTBOX, workers, lanes)?,
        worker_sides: Vec::with_capacity(alloc, workers)?,
        lane_sides: Vec::with_capacity(alloc, lanes)?,
        rooms: Rooms {
            workers: Vec::with_capacity(alloc, workers)?,
            worker_sides: Vec::with_capacity(alloc, workers)?,
            lanes: Vec::with_capacity(alloc, lanes)?,
            lane_sides: Vec::with_capacity(alloc, lanes)?,
        },
        worker_parts: WorkerParts {
            endpoints: Vec::with_capacity(alloc, workers)?,
            receivers: Vec::with_capacity(alloc, workers)?,
            rows: Vec::with_capacity(alloc, workers)?,
            stops: Vec::with_capacity(alloc, workers)?,
        },
        lane_parts: LaneParts {
            lanes: Vec::with_capacity(alloc, lanes)?,
            receivers: Vec::with_capacity(alloc, lanes)?,
            rows: Vec::with_capacity(alloc, lanes)?,
            failed: false,
        },
    })
}

/// The number of these, of which there are few.
fn count_of<T>(all: &Vec<T>) -> u32
    requires few { length all.now.items ≤ 64 }
    ensures { result ≡ length all.now.items }
{
    all.len() as u32
}

/// What all threads left.
#[derive(Drop)]
pub(crate) struct Ran<T, L> {
    /// The endpoints, in the workers' order.
    pub(crate) endpoints: Vec<T>,
    /// Whether each of them was stopped, since memory ran out for a lane.
    pub(crate) stops: Vec<bool>,
    /// The lanes, in their order.
    pub(crate) lanes: Vec<L>,
    /// Whether memory ran out for a lane.
    pub(crate) failed: bool,
}

/// Runs all threads over what was prepared, and waits for them.
pub(crate) fn run_prepared<
    T: Endpoint + Send + Drop,
    L: Lane + Send + Drop,
    R: Threads + Wait + Sync,
    B: Bell + Sync,
>(
    rt: &R,
    alloc: Global,
    parkings: &Parkings<B>,
    prepared: Prepared<T, L>,
    endpoints: Vec<T>,
    lanes: Vec<L>,
) -> Ran<T, L>
    requires prepared { IsPrepared (length endpoints.items) (length lanes.items) prepared }
    requires some { (1 ≤ length endpoints.items) × (length endpoints.items ≤ 64) }
    requires some_lanes { (1 ≤ length lanes.items) × (length lanes.items ≤ 8) }
    requires fresh { (starts : ℕ → T.Start) × AreFresh ⟦<T as Endpoint>⟧ endpoints.items (length lanes.items) starts }
    requires fresh_lanes { (begins : ℕ → L.Start) × AreFreshLanes ⟦<L as Lane>⟧ lanes.items begins }
    ensures { (starts : ℕ → T.Start) (begins : ℕ → L.Start) → AreFresh ⟦<T as Endpoint>⟧ endpoints.items (length lanes.items) starts → AreFreshLanes ⟦<L as Lane>⟧ lanes.items begins →
        AreTurned ⟦<T as Endpoint>⟧ ⟦<L as Lane>⟧ starts begins endpoints.items (length lanes.items) result.endpoints.items result.stops.items result.lanes.items result.failed }
{
    let Prepared {
        inboxes,
        outs,
        worker_sides,
        lane_sides,
        rooms,
        worker_parts,
        lane_parts,
    } = prepared;
    let Dealt {
        queues: inboxes,
        rows,
        receivers: lane_receivers,
    } = inboxes;
    let Dealt {
        queues: outs,
        rows: lane_rows,
        receivers,
    } = outs;
    let count = count_of(&endpoints);
    let workers = make_workers(endpoints, rows, receivers, worker_sides);
    let ways = make_lanes(lanes, lane_rows, lane_receivers, lane_sides);
    let (ended, lanes_ended) = run_all(
        rt,
        alloc,
        inboxes.as_slice(),
        outs.as_slice(),
        parkings,
        count,
        workers,
        ways,
        rooms,
    );
    let WorkerParts {
        endpoints: left,
        receivers: replies,
        rows: job_rows,
        stops,
    } = take_workers(ended, worker_parts);
    let LaneParts {
        lanes: lanes_left,
        receivers: jobs,
        rows: reply_rows,
        failed,
    } = take_lanes(lanes_ended, lane_parts);
    let mut jobs = jobs;
    settle(rt, inboxes.as_slice(), &mut jobs, job_rows);
    let mut replies = replies;
    settle(rt, outs.as_slice(), &mut replies, reply_rows);
    Ran {
        endpoints: left,
        stops,
        lanes: lanes_left,
        failed,
    }
}
