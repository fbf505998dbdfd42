//! The public call: the store is opened, the connection is served, and the store is given back.

ghost use Rattle.std.specs.Prelude.{◌≡◌, []};
ghost use Rattle.lsv_lane.specs.InnerLane.{Begun};
ghost use Rattle.lsv_lane.specs.Store.{IsFresh, end_of_fault};
ghost use Rattle.lsv_once.specs.Causes.{HasOnceCause};
ghost use Rattle.lsv_once.specs.Complete.{Completes};
ghost use Rattle.lsv_once.specs.Once.{RunsOnce, once_settings};
ghost use Rattle.lsv_once.specs.World.{world_of};

use crate::run::OnceRun;
use lsv_base::{Clock, Sink, Source};
use lsv_disk::Disk;
use lsv_hook::LineWriter;
use lsv_keeper::{LaneId, Policy, StoreFault};
use lsv_lane::{Bay, StoreLane};
use lsv_mask::Search;
use lsv_turn::{Lane, Tape};
use std::alloc::Global;

/// How a run ended.
#[derive(Clone, Copy, Debug, PartialEq, Eq)]
pub enum OnceEnd {
    /// The input was read to its end, or the connection was shut before, and all answers are put.
    Served,
    /// A read of the source failed.
    ReadFault,
    /// A write to the sink failed.
    WriteFault,
    /// The store couldn't be opened: nothing was read or put.
    Store(StoreFault),
    /// Out of memory.
    NoMem,
}

/// Serves the connection by turns of an open lane, and gives back what the lane worked with.
fn serve_lane<
    S: Source,
    K: Sink,
    D: Disk,
    C: Clock,
    G: Tape,
    F: LineWriter + Drop,
    H: Search + Drop,
>(
    alloc: Global,
    source: &mut S,
    sink: &mut K,
    lane: StoreLane<D, C, G, F, H>,
) -> (Bay<D, C, G>, OnceEnd)
    requires lane { (start : Begun D G) × ⟦<StoreLane<D, C, G, F, H> as Lane>⟧.made_by start lane [] }
    ensures runs { (start : Begun D G) → ⟦<StoreLane<D, C, G, F, H> as Lane>⟧.made_by start lane [] → RunsOnce start.set start.texts
        (world_of ⟦<S as Source>⟧ ⟦<K as Sink>⟧ ⟦<D as Disk>⟧ ⟦<G as Tape>⟧ source.old sink.old start.disk start.tape)
        (world_of ⟦<S as Source>⟧ ⟦<K as Sink>⟧ ⟦<D as Disk>⟧ ⟦<G as Tape>⟧ source.new sink.new result.0.disk result.0.tape) result.1 }
    ensures cause { (start : Begun D G) → ⟦<StoreLane<D, C, G, F, H> as Lane>⟧.made_by start lane [] → HasOnceCause
        (world_of ⟦<S as Source>⟧ ⟦<K as Sink>⟧ ⟦<D as Disk>⟧ ⟦<G as Tape>⟧ source.old sink.old start.disk start.tape)
        (world_of ⟦<S as Source>⟧ ⟦<K as Sink>⟧ ⟦<D as Disk>⟧ ⟦<G as Tape>⟧ source.new sink.new result.0.disk result.0.tape) result.1 }
    ensures places { D.tells → (start : Begun D G) → ⟦<StoreLane<D, C, G, F, H> as Lane>⟧.made_by start lane [] → (D.view result.0.disk).places ≡ (D.view start.disk).places }
    ensures fresh { D.tells → (start : Begun D G) → ⟦<StoreLane<D, C, G, F, H> as Lane>⟧.made_by start lane [] → IsFresh start.set.lane start.set.lanes (D.view result.0.disk) }
{
    let mut run = OnceRun::new(alloc, lane);
    let end = run.serve(source, sink);
    (run.into_lane().into_bay(), end)
}

/// Serves one connection, from the source to the sink, over the store of lane 0 of 1, whose disk has its places. Event lines
/// and what is masked are as the policy says.
/// A piece of at most 65,536 bytes is one turn, and the turns are kept on the tape. Nothing else changes the store while it runs.
/// What the lane worked with is given back, with how the run ended; the next run may begin with its disk.
pub fn serve_once<
    S: Source,
    K: Sink,
    D: Disk,
    C: Clock,
    G: Tape,
    F: LineWriter + Drop,
    H: Search + Drop,
>(
    alloc: Global,
    source: &mut S,
    sink: &mut K,
    bay: Bay<D, C, G>,
    policy: Policy<F, H>,
) -> (Bay<D, C, G>, OnceEnd)
    requires fresh { D.tells → IsFresh 0 1 (D.view bay.disk) }
    ensures runs { RunsOnce (once_settings policy.formatter.kind policy.log_exit) policy.texts
        (world_of ⟦<S as Source>⟧ ⟦<K as Sink>⟧ ⟦<D as Disk>⟧ ⟦<G as Tape>⟧ source.old sink.old bay.disk bay.tape)
        (world_of ⟦<S as Source>⟧ ⟦<K as Sink>⟧ ⟦<D as Disk>⟧ ⟦<G as Tape>⟧ source.new sink.new result.0.disk result.0.tape) result.1 }
    ensures cause { HasOnceCause
        (world_of ⟦<S as Source>⟧ ⟦<K as Sink>⟧ ⟦<D as Disk>⟧ ⟦<G as Tape>⟧ source.old sink.old bay.disk bay.tape)
        (world_of ⟦<S as Source>⟧ ⟦<K as Sink>⟧ ⟦<D as Disk>⟧ ⟦<G as Tape>⟧ source.new sink.new result.0.disk result.0.tape) result.1 }
    ensures complete { Completes policy.formatter.kind policy.log_exit policy.texts
        (world_of ⟦<S as Source>⟧ ⟦<K as Sink>⟧ ⟦<D as Disk>⟧ ⟦<G as Tape>⟧ source.old sink.old bay.disk bay.tape)
        (world_of ⟦<S as Source>⟧ ⟦<K as Sink>⟧ ⟦<D as Disk>⟧ ⟦<G as Tape>⟧ source.new sink.new result.0.disk result.0.tape) result.1 }
    ensures places { D.tells → (D.view result.0.disk).places ≡ (D.view bay.disk).places }
    ensures fresh_again { D.tells → IsFresh 0 1 (D.view result.0.disk) }
{
    let lane = LaneId { number: 0, of: 1 };
    match StoreLane::open(alloc, bay, lane, policy) {
        Ok(lane) => serve_lane(alloc, source, sink, lane),
        Err(failed) => {
            let end = refused(failed.fault);
            (failed.bay, end)
        }
    }
}

/// How a run ends whose store isn't opened.
fn refused(fault: StoreFault) -> OnceEnd
    ensures { result ≡ end_of_fault OnceEnd.Store OnceEnd.NoMem fault }
{
    match fault {
        StoreFault::NoMem => OnceEnd::NoMem,
        fault => OnceEnd::Store(fault),
    }
}
