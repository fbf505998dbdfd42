//! Sides of workers and lanes: making them of their parts, and taking them apart.

ghost use Rattle.std.specs.Prelude.{◌≡◌, ◌≤◌, ◌<◌, [], false, All, map, length, vec_len, vec_capacity};
ghost use Rattle.lsv_threads.specs.Parts.{AreLaneSides, AreWorkerSides};

use crate::{Desk, LaneSide, WorkerSide};
use lsv_queue::{InPass, OutPass};
use lsv_session::{Job, Reply};

/// Makes the side of each worker, in their order.
pub fn make_workers<T: Drop>(
    endpoints: Vec<T>,
    rows: Vec<Vec<InPass<Job>>>,
    receivers: Vec<OutPass<Reply>>,
    room: Vec<WorkerSide<T>>,
) -> Vec<WorkerSide<T>>
    requires few { length endpoints.items ≤ 64 }
    requires rows { length rows.items ≡ length endpoints.items }
    requires receivers { length receivers.items ≡ length endpoints.items }
    requires room { (room.items ≡ []) × (vec_len endpoints ≤ vec_capacity room) }
    ensures sides { AreWorkerSides endpoints.items rows.items receivers.items result.items (length endpoints.items) }
    ensures count { vec_len result ≡ vec_len endpoints }
{
    let mut sides = room;
    let mut row_iter = rows.into_iter();
    let mut pass_iter = receivers.into_iter();
    let mut number: u32 = 0;
    for endpoint in endpoints {
        let Some(put) = row_iter.next() else {
            unreachable!();
        };
        let Some(taken) = pass_iter.next() else {
            unreachable!();
        };
        sides.push_reserved(WorkerSide {
            desk: Desk {
                endpoint,
                number,
                taken,
                stopped: false,
            },
            put,
            ended: 0,
        });
        number += 1;
    }
    sides
}

/// Makes the side of each lane, in their order.
pub fn make_lanes<L: Drop>(
    lanes: Vec<L>,
    rows: Vec<Vec<InPass<Reply>>>,
    receivers: Vec<OutPass<Job>>,
    room: Vec<LaneSide<L>>,
) -> Vec<LaneSide<L>>
    requires few { length lanes.items ≤ 8 }
    requires rows { length rows.items ≡ length lanes.items }
    requires receivers { length receivers.items ≡ length lanes.items }
    requires room { (room.items ≡ []) × (vec_len lanes ≤ vec_capacity room) }
    ensures sides { AreLaneSides lanes.items rows.items receivers.items result.items (length lanes.items) }
    ensures count { vec_len result ≡ vec_len lanes }
{
    let mut sides = room;
    let mut row_iter = rows.into_iter();
    let mut pass_iter = receivers.into_iter();
    let mut number: u32 = 0;
    for lane in lanes {
        let Some(given) = row_iter.next() else {
            unreachable!();
        };
        let Some(taken) = pass_iter.next() else {
            unreachable!();
        };
        sides.push_reserved(LaneSide {
            lane,
            number,
            taken,
            given,
            ended: 0,
            failed: false,
        });
        number += 1;
    }
    sides
}

/// What workers consist of, each in the workers' order.
#[derive(Drop)]
pub struct WorkerParts<T> {
    pub endpoints: Vec<T>,
    pub receivers: Vec<OutPass<Reply>>,
    pub rows: Vec<Vec<InPass<Job>>>,
    /// Whether each one's endpoint was stopped.
    pub stops: Vec<bool>,
}

/// Takes the sides of workers apart. The lists of `room` are empty.
pub fn take_workers<T: Drop>(sides: Vec<WorkerSide<T>>, room: WorkerParts<T>) -> WorkerParts<T>
    requires endpoints { (room.endpoints.items ≡ []) × (vec_len sides ≤ vec_capacity room.endpoints) }
    requires receivers { (room.receivers.items ≡ []) × (vec_len sides ≤ vec_capacity room.receivers) }
    requires rows { (room.rows.items ≡ []) × (vec_len sides ≤ vec_capacity room.rows) }
    requires stops { (room.stops.items ≡ []) × (vec_len sides ≤ vec_capacity room.stops) }
    ensures endpoints { result.endpoints.items ≡ map (λ s. s.desk.endpoint) sides.items }
    ensures receivers { result.receivers.items ≡ map (λ s. s.desk.taken) sides.items }
    ensures rows { result.rows.items ≡ map (λ s. s.put) sides.items }
    ensures stops { result.stops.items ≡ map (λ s. s.desk.stopped) sides.items }
{
    let WorkerParts {
        endpoints,
        receivers,
        rows,
        stops,
    } = room;
    let mut endpoints = endpoints;
    let mut receivers = receivers;
    let mut rows = rows;
    let mut stops = stops;
    for side in sides {
        let WorkerSide { desk, put, .. } = side;
        let Desk {
            endpoint,
            taken,
            stopped,
            ..
        } = desk;
        endpoints.push_reserved(endpoint);
        receivers.push_reserved(taken);
        rows.push_reserved(put);
        stops.push_reserved(stopped);
    }
    WorkerParts {
        endpoints,
        receivers,
        rows,
        stops,
    }
}

/// What lanes consist of, each in the lanes' order.
#[derive(Drop)]
pub struct LaneParts<L> {
    pub lanes: Vec<L>,
    pub receivers: Vec<OutPass<Job>>,
    pub rows: Vec<Vec<InPass<Reply>>>,
    /// Whether memory ran out for a lane.
    pub failed: bool,
}

/// Takes the sides of lanes apart. The lists of `room` are empty.
pub fn take_lanes<L: Drop>(sides: Vec<LaneSide<L>>, room: LaneParts<L>) -> LaneParts<L>
    requires lanes { (room.lanes.items ≡ []) × (vec_len sides ≤ vec_capacity room.lanes) }
    requires receivers { (room.receivers.items ≡ []) × (vec_len sides ≤ vec_capacity room.receivers) }
    requires rows { (room.rows.items ≡ []) × (vec_len sides ≤ vec_capacity room.rows) }
    ensures lanes { result.lanes.items ≡ map (λ s. s.lane) sides.items }
    ensures receivers { result.receivers.items ≡ map (λ s. s.taken) sides.items }
    ensures rows { result.rows.items ≡ map (λ s. s.given) sides.items }
    ensures failed { result.failed ≡ false → All (λ s. s.failed ≡ false) sides.items }
{
    let LaneParts {
        lanes,
        receivers,
        rows,
        ..
    } = room;
    let mut lanes = lanes;
    let mut receivers = receivers;
    let mut rows = rows;
    let mut failed = false;
    for side in sides {
        let LaneSide {
            lane,
            taken,
            given,
            failed: its,
            ..
        } = side;
        lanes.push_reserved(lane);
        receivers.push_reserved(taken);
        rows.push_reserved(given);
        failed = failed || its;
    }
    LaneParts {
        lanes,
        receivers,
        rows,
        failed,
    }
}
