//! A load: its conversations are served over a store, and then the logs that they left are summed up.

ghost use Rattle.std.specs.Prelude.{◌≡◌, ◌≢◌, ◌≤◌, ℕ, true, [], List, IfOk, OnOk, OnErr};
ghost use Rattle.std.specs.Mem.{FitsInMemory};
ghost use Rattle.lsv_disk.specs.Throughout.{OnlyReads};
ghost use Rattle.lsv_lane.specs.InnerLane.{Begun};
ghost use Rattle.lsv_lane.specs.Store.{IsFresh, end_of_fault, lane_settings};
ghost use Rattle.lsv_links.specs.Turns.{AreSized};
ghost use Rattle.lsv_port.specs.Memory.Value.{port_state};
ghost use Rattle.lsv_service.specs.Runs.{RunsStore};
ghost use Rattle.lsv_service.specs.declared.run.End.TheVariants as ends;
ghost use Rattle.lsv_turn.specs.Turns.{LaneTurn, replies_in};
ghost use Rattle.lsv_load.specs.Numbers.{numbers_told};
ghost use Rattle.lsv_gen.specs.Load.{conversation};
ghost use Rattle.lsv_load.specs.Runs.{IsSumOf, LeavesLoad, PutsOne, RunsLoad, ServesLoad, ServesOne};

use crate::numbering::Numbering;
use crate::replay::sum_up;
use crate::script::load_script;
use lsv_base::{Bytes, Clock, LogNo, NoMem};
use lsv_disk::Disk;
use lsv_endpoint::WorkerEndpoint;
use lsv_gen::{conversation, summary};
use lsv_hook::LineWriter;
use lsv_keeper::{LaneId, Policy, StoreFault};
use lsv_lane::{Bay, StoreLane};
use lsv_mask::Search;
use lsv_port::MemPort;
use lsv_reactor::{Endpoint, PortsEnd, serve};
use lsv_turn::{Lane, Tape};
use std::alloc::Global;
use std::slice;

/// How a load ended.
#[derive(Debug, Drop)]
pub enum LoadEnd {
    /// All was served, each conversation over a connection of its own, of which it was read whole. This is the text of the
    /// summary.
    Served(Bytes),
    /// The store couldn't be opened, or a log of the load not be replayed.
    Store(StoreFault),
    /// Out of memory.
    NoMem,
}

/// How a load ends of a fault of its store.
fn ended_by(fault: StoreFault) -> LoadEnd
    ensures { result ≡ end_of_fault LoadEnd.Store LoadEnd.NoMem fault }
{
    match fault {
        StoreFault::NoMem => LoadEnd::NoMem,
        fault => LoadEnd::Store(fault),
    }
}

/// Whether something was put on each of the links from 1 to `count`: then each got a connection, which was greeted.
fn are_greeted(port: &MemPort, count: u32) -> bool
    ensures { result ≡ true → (i : ℕ) → 1 ≤ i → i ≤ count → ((port_state port.now).link i).output ≢ [] }
{
    for before in 0..count {
        if port.output(before + 1).is_empty() {
            return false;
        }
    }
    true
}

/// Whether a text has the bytes of another.
fn are_same(one: &[u8], other: &[u8]) -> bool
    ensures { result ≡ true → one.now ≡ other.now }
{
    one == other
}

/// Whether all of its conversation was read of each of the links from 1 to `count`.
fn are_read(alloc: Global, port: &MemPort, count: u32) -> Result<bool, NoMem>
    requires { count ≤ 10000 }
    ensures { IfOk result (λ all. all ≡ true → (i : ℕ) → 1 ≤ i → i ≤ count → ((port_state port.now).link i).input ≡ conversation i) }
{
    for before in 0..count {
        let sent = conversation(alloc, before + 1)?;
        if !are_same(port.input(before + 1), sent.as_slice()) {
            return Ok(false);
        }
    }
    Ok(true)
}

/// Serves what comes at a post, whose port fails for want of memory alone, by turns of a lane that has made none.
fn serve_one<T: Endpoint, L: Lane>(alloc: Global, post: &mut T, lane: &mut L) -> Result<(), NoMem>
    requires fits { FitsInMemory T.row }
    requires number { T.number post.old ≡ 0 }
    requires lanes { T.lanes post.old ≡ 1 }
    requires post { (begun : T.Start) × T.made_by begun post.old (λ lane. []) [] }
    requires lane { (start : L.Start) × L.made_by start lane.old [] }
    ensures ok { OnOk result ((begun : T.Start) (start : L.Start) → T.made_by begun post.old (λ lane. []) [] → L.made_by start lane.old [] →
        (turns : List LaneTurn) × L.made_by start lane.new turns × AreSized turns × (T.tells → ServesOne L.tells turns (T.begun begun) (T.view post.new))) }
    ensures err { OnErr result ((begun : T.Start) (start : L.Start) → T.made_by begun post.old (λ lane. []) [] → L.made_by start lane.old [] →
        (turns : List LaneTurn) × L.made_by start lane.new turns × AreSized turns × (T.tells → PutsOne turns (T.begun begun) (T.view post.new))) }
    ensures script { (T.view post.new).ledger.script ≡ (T.view post.old).ledger.script }
{
    match serve(alloc, slice::from_mut(post), lane) {
        Ok(PortsEnd::Stopped) => Ok(()),
        Ok(PortsEnd::Failed) => Err(NoMem),
        Err(NoMem) => Err(NoMem),
    }
}

/// Serves the conversations of a load by turns of a lane that has made none. Out of memory is also the answer where the link
/// of one got no connection, or wasn't read whole.
fn serve_conversations<L: Lane>(alloc: Global, count: u32, lane: &mut L) -> Result<(), NoMem>
    requires last { count ≤ 10000 }
    requires lane { (start : L.Start) × L.made_by start lane.old [] }
    ensures ok { OnOk result ((start : L.Start) → L.made_by start lane.old [] → (turns : List LaneTurn) × L.made_by start lane.new turns × AreSized turns × ServesLoad L.tells count turns) }
    ensures err { OnErr result ((start : L.Start) → L.made_by start lane.old [] → (turns : List LaneTurn) × L.made_by start lane.new turns × AreSized turns × LeavesLoad count turns) }
{
    let port = MemPort::new(alloc, load_script(alloc, count)?);
    let Ok(mut post) = WorkerEndpoint::new(alloc, 0, 1, port) else {
        return Err(NoMem);
    };
    let served = serve_one(alloc, &mut post, lane);
    let port = post.into_port();
    port.tells_its_script();
    let Ok(()) = served else {
        return Err(NoMem);
    };
    if port.refused() > 0 {
        return Err(NoMem);
    }
    if !are_greeted(&port, count) {
        return Err(NoMem);
    }
    if !are_read(alloc, &port, count)? {
        return Err(NoMem);
    }
    Ok(())
}

/// Serves the conversations of a load by turns of an open lane. What the lane worked with is given back, with the numbers of
/// the logs of which the turns told.
fn serve_lane<D: Disk, C: Clock, G: Tape, F: LineWriter + Drop, H: Search + Drop>(
    alloc: Global,
    count: u32,
    lane: StoreLane<D, C, G, F, H>,
) -> (Bay<D, C, G>, Result<Vec<LogNo>, NoMem>)
    requires last { count ≤ 10000 }
    requires lane { (start : Begun D G) × ⟦<StoreLane<D, C, G, F, H> as Lane>⟧.made_by start lane [] }
    ensures ok { IfOk result.1 (λ numbers. (start : Begun D G) → ⟦<StoreLane<D, C, G, F, H> as Lane>⟧.made_by start lane [] →
        (turns : List LaneTurn) × RunsStore D.tells G.tells start.set start.texts (D.view start.disk) (D.view result.0.disk) (G.turns start.tape) (G.turns result.0.tape) (ends.Over PortsEnd.Stopped) turns
        × AreSized turns × ServesLoad D.tells count turns × (numbers.items ≡ numbers_told (replies_in turns))) }
    ensures err { OnErr result.1 ((start : Begun D G) → ⟦<StoreLane<D, C, G, F, H> as Lane>⟧.made_by start lane [] →
        (turns : List LaneTurn) × RunsStore D.tells G.tells start.set start.texts (D.view start.disk) (D.view result.0.disk) (G.turns start.tape) (G.turns result.0.tape) ends.NoMem turns × AreSized turns × LeavesLoad count turns) }
    ensures places { D.tells → (start : Begun D G) → ⟦<StoreLane<D, C, G, F, H> as Lane>⟧.made_by start lane [] → (D.view result.0.disk).places ≡ (D.view start.disk).places }
    ensures fresh { D.tells → (start : Begun D G) → ⟦<StoreLane<D, C, G, F, H> as Lane>⟧.made_by start lane [] → IsFresh start.set.lane start.set.lanes (D.view result.0.disk) }
{
    let mut lane = Numbering::new(alloc, lane);
    let served = serve_conversations(alloc, count, &mut lane);
    let (lane, numbers) = lane.into_parts();
    let bay = lane.into_bay();
    match served {
        Ok(()) => (bay, numbers),
        Err(NoMem) => (bay, Err(NoMem)),
    }
}

/// The summary of the logs of these numbers, as their files read.
fn sum_logs<D: Disk>(alloc: Global, disk: &mut D, numbers: &[LogNo]) -> LoadEnd
    ensures is { IsSumOf D.tells numbers.now (D.view disk.old) (D.view disk.new) result }
    ensures reads { D.tells → OnlyReads (D.view disk.old) (D.view disk.new) }
{
    let totals = match sum_up(alloc, disk, numbers) {
        Ok(totals) => totals,
        Err(fault) => {
            return ended_by(fault);
        }
    };
    match summary(alloc, &totals) {
        Ok(text) => LoadEnd::Served(text),
        Err(NoMem) => LoadEnd::NoMem,
    }
}

/// Serves the conversations of a load by turns of an open lane, and sums up the logs of which the turns told.
fn load_lane<D: Disk, C: Clock, G: Tape, F: LineWriter + Drop, H: Search + Drop>(
    alloc: Global,
    count: u32,
    lane: StoreLane<D, C, G, F, H>,
) -> (Bay<D, C, G>, LoadEnd)
    requires last { count ≤ 10000 }
    requires lane { (start : Begun D G) × ⟦<StoreLane<D, C, G, F, H> as Lane>⟧.made_by start lane [] }
    ensures runs { (start : Begun D G) → ⟦<StoreLane<D, C, G, F, H> as Lane>⟧.made_by start lane [] →
        RunsLoad D.tells G.tells D.view start.set start.texts count start.disk result.0.disk (G.turns start.tape) (G.turns result.0.tape) result.1 }
    ensures places { D.tells → (start : Begun D G) → ⟦<StoreLane<D, C, G, F, H> as Lane>⟧.made_by start lane [] → (D.view result.0.disk).places ≡ (D.view start.disk).places }
    ensures fresh { D.tells → (start : Begun D G) → ⟦<StoreLane<D, C, G, F, H> as Lane>⟧.made_by start lane [] → IsFresh start.set.lane start.set.lanes (D.view result.0.disk) }
{
    let (bay, numbers) = serve_lane(alloc, count, lane);
    let mut bay = bay;
    match numbers {
        Ok(numbers) => {
            let end = sum_logs(alloc, &mut bay.disk, &numbers);
            (bay, end)
        }
        Err(NoMem) => (bay, LoadEnd::NoMem),
    }
}

/// Serves the generated conversations from 1 to `count` over the store of one lane, and sums up the logs that it told them
/// of, as they are replayed then. Nothing else changes the store meanwhile. What the lane worked with is given back, with how
/// the load ended; the next run may begin with its disk.
pub fn run_load<D: Disk, C: Clock, G: Tape, F: LineWriter + Drop, H: Search + Drop>(
    alloc: Global,
    count: u32,
    bay: Bay<D, C, G>,
    policy: Policy<F, H>,
) -> (Bay<D, C, G>, LoadEnd)
    requires first { 1 ≤ count }
    requires last { count ≤ 10000 }
    requires fresh { D.tells → IsFresh 0 1 (D.view bay.disk) }
    ensures runs { RunsLoad D.tells G.tells D.view (lane_settings 0 1 policy.formatter.kind policy.log_exit) policy.texts count bay.disk result.0.disk (G.turns bay.tape) (G.turns result.0.tape) result.1 }
    ensures places { D.tells → (D.view result.0.disk).places ≡ (D.view bay.disk).places }
    ensures fresh_again { D.tells → IsFresh 0 1 (D.view result.0.disk) }
{
    let lane = LaneId { number: 0, of: 1 };
    match StoreLane::open(alloc, bay, lane, policy) {
        Ok(lane) => load_lane(alloc, count, lane),
        Err(failed) => {
            let end = ended_by(failed.fault);
            (failed.bay, end)
        }
    }
}
