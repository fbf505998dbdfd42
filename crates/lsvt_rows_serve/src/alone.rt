//! A run of the loop over one port on one thread: what comes of each step is known before the next.

ghost use Rattle.std.specs.Prelude.{◌≡◌, [], ℕ};
ghost use Rattle.std.specs.Mem.{FitsInMemory};

use crate::outside::Still;
use crate::run::policy;
use crate::tape::Jobs;
use anyhow::{Result, anyhow};
use lsv_endpoint::WorkerEndpoint;
use lsv_keeper::LaneId;
use lsv_lane::{Bay, StoreLane};
use lsv_reactor::{Endpoint, PortsEnd, serve};
use lsv_serve::Status;
use lsv_turn::Lane;
use lsvt_doubles::{Hostile, Watched};
use std::alloc::Global;
use std::slice;

/// What a run leaves.
#[derive(Drop)]
pub struct Left {
    pub port: Watched,
    pub disk: Hostile,
    pub tape: Jobs,
    pub status: Status,
}

/// Serves what comes at an endpoint by turns of a lane that has made none, and tells how it ended.
fn serve_one<T: Endpoint, L: Lane>(alloc: Global, endpoint: &mut T, lane: &mut L) -> Status
    requires fits { FitsInMemory T.row }
    requires number { T.number endpoint.old ≡ 0 }
    requires lanes { T.lanes endpoint.old ≡ 1 }
    requires begun { (begun : T.Start) × T.made_by begun endpoint.old (λ lane. []) [] }
    requires lane { (start : L.Start) × L.made_by start lane.old [] }
{
    match serve(alloc, slice::from_mut(endpoint), lane) {
        Ok(PortsEnd::Stopped) => Status::Served,
        Ok(PortsEnd::Failed) => Status::PortFault,
        Err(_) => Status::NoMem,
    }
}

/// Serves what comes at a port by turns of the one lane of this store.
pub fn serve_alone(alloc: Global, port: Watched, disk: Hostile) -> Result<Left> {
    let bay = Bay {
        disk,
        clock: Still,
        tape: Jobs::new(alloc),
    };
    let lane = LaneId { number: 0, of: 1 };
    let Ok(mut lane) = StoreLane::open(alloc, bay, lane, policy(alloc)) else {
        return Err(anyhow!("a store"));
    };
    let Ok(mut endpoint) = WorkerEndpoint::new(alloc, 0, 1, port) else {
        return Err(anyhow!("out of memory"));
    };
    let status = serve_one(alloc, &mut endpoint, &mut lane);
    let bay = lane.into_bay();
    Ok(Left {
        port: endpoint.into_port(),
        disk: bay.disk,
        tape: bay.tape,
        status,
    })
}
