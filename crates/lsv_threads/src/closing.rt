//! A server by its threads: their run, and the ends of its endpoints after it.

ghost use Rattle.std.specs.Prelude.{◌≡◌, ◌≢◌, ◌≤◌, ℕ, List, Some, Ok, true, false, length, slice_index_or, OnErr};
ghost use Rattle.lsv_port.specs.Ledger.{Continues};
ghost use Rattle.lsv_session.specs.declared.job.Job.{Job};
ghost use Rattle.lsv_session.specs.declared.reply.Reply.{Reply};
ghost use Rattle.lsv_links.specs.Links.{PutsPrefixes};
ghost use Rattle.lsv_reactor.specs.InnerLoop.{AreMade, AreOver, worse};
ghost use Rattle.lsv_reactor.specs.Served.{KeepPorts};
ghost use Rattle.lsv_threads.specs.AtEnd.{AreAtEnd, AreStopped};
ghost use Rattle.lsv_threads.specs.Run.{AreFresh, AreFreshLanes};
ghost use Rattle.lsv_threads.specs.Served.{AreServed, AreTurned};

use crate::Parkings;
use crate::serve::{Ran, prepare, run_prepared};
use lsv_base::NoMem;
use lsv_port::Bell;
use lsv_reactor::{Endpoint, EndpointEnd, PortsEnd};
use lsv_turn::Lane;
use std::alloc::Global;
use std::sync::Wait;
use std::thread::Threads;

/// What threads left of a server.
#[derive(Drop)]
pub struct Served<T, L> {
    /// The endpoints, in the workers' order. Each came to its end, or was stopped.
    pub endpoints: Vec<T>,
    /// The lanes, in their order.
    pub lanes: Vec<L>,
    /// How the ports ended. `NoMem` if memory ran out, before the threads started or for a lane; or if an endpoint has no end, or lost
    /// a reply. That is one for which memory ran out, or to no connection. All links are closed then.
    pub end: Result<PortsEnd, NoMem>,
}

/// How ports ended, of which one more ended so.
fn worse(end: PortsEnd, its: EndpointEnd) -> PortsEnd
    ensures { result ≡ worse end its }
{
    match its {
        EndpointEnd::Failed => PortsEnd::Failed,
        EndpointEnd::Stopped | EndpointEnd::Lost => end,
    }
}

/// Whether an endpoint lost a reply.
fn is_lost(its: EndpointEnd) -> bool
    ensures { result ≡ false → its ≢ EndpointEnd.Lost }
{
    match its {
        EndpointEnd::Lost => true,
        EndpointEnd::Stopped | EndpointEnd::Failed => false,
    }
}

/// How the ports of these endpoints ended. Nothing if an endpoint lost a reply, or didn't come to its end.
fn how_ended<T: Endpoint>(endpoints: &[T]) -> Option<PortsEnd>
    ensures { (end : PortsEnd) → result ≡ Some end → (starts : ℕ → T.Start) (gave : ℕ → ℕ → List Job) (took : ℕ → List Reply) → AreMade T.made_by starts endpoints.now gave took →
        AreOver T.tells T.number T.lanes T.begun T.view starts endpoints.now gave took (length endpoints.now) end }
{
    let mut end = PortsEnd::Stopped;
    for endpoint in endpoints {
        let Some(its) = endpoint.end() else {
            return None;
        };
        if is_lost(its) {
            return None;
        }
        end = worse(end, its);
    }
    Some(end)
}

/// Whether the endpoint at this place was stopped. One of which nothing is noted wasn't.
fn was_stopped(stops: &[bool], place: usize) -> bool
    ensures { result ≡ slice_index_or stops.now place false }
{
    match stops.get(place) {
        Some(stopped) => *stopped,
        None => false,
    }
}

/// Whether one of them was stopped.
fn any_stopped(stops: &[bool]) -> bool
    ensures { result ≡ false → (w : ℕ) → slice_index_or stops.now w false ≡ false }
{
    for stopped in stops {
        if *stopped {
            return true;
        }
    }
    false
}

/// Closes all links of an endpoint, unless it was stopped.
fn stop_one<T: Endpoint>(endpoint: &mut T, stopped: bool)
    requires begun { stopped ≡ false → (start : T.Start) × (gave : ℕ → List Job) × (took : List Reply) × T.made_by start endpoint.old gave took }
    ensures kept { stopped ≡ true → endpoint.new ≡ endpoint.old }
    ensures put { stopped ≡ false → T.tells → (start : T.Start) (gave : ℕ → List Job) (took : List Reply) → T.made_by start endpoint.old gave took → PutsPrefixes (T.lanes endpoint.old) (T.number endpoint.old) gave (λ lane. took) (T.begun start) (T.view endpoint.new) }
    ensures continues { Continues (T.view endpoint.old).ledger (T.view endpoint.new).ledger }
{
    if stopped {
        return;
    }
    endpoint.stop();
}

/// Closes all links of all endpoints, of those that weren't stopped.
fn stop_all<T: Endpoint>(endpoints: &mut [T], stops: &[bool])
    requires ends { (starts : ℕ → T.Start) × (lanes : ℕ) × (gave : ℕ → ℕ → List Job) × (took : ℕ → List Reply) × AreAtEnd ⟦<T as Endpoint>⟧ starts lanes endpoints.old stops.now gave took }
    ensures stopped { (starts : ℕ → T.Start) (lanes : ℕ) (gave : ℕ → ℕ → List Job) (took : ℕ → List Reply) → AreAtEnd ⟦<T as Endpoint>⟧ starts lanes endpoints.old stops.now gave took → AreStopped ⟦<T as Endpoint>⟧ starts lanes endpoints.new gave took (length endpoints.new) }
    ensures keep { KeepPorts T.view endpoints.old endpoints.new }
    ensures count { length endpoints.new ≡ length endpoints.old }
{
    'stops: for place in 0..endpoints.len() {
        stop_one(&mut endpoints[place], was_stopped(stops, place));
    }
}

/// How the ports of these endpoints ended, if nothing was lost.
fn whole_end<T: Endpoint>(endpoints: &[T], stops: &[bool], failed: bool) -> Option<PortsEnd>
    ensures whole { (end : PortsEnd) → result ≡ Some end → (failed ≡ false) × ((w : ℕ) → slice_index_or stops.now w false ≡ false) }
    ensures over { (end : PortsEnd) → result ≡ Some end → (starts : ℕ → T.Start) (gave : ℕ → ℕ → List Job) (took : ℕ → List Reply) → AreMade T.made_by starts endpoints.now gave took →
        AreOver T.tells T.number T.lanes T.begun T.view starts endpoints.now gave took (length endpoints.now) end }
{
    if failed || any_stopped(stops) {
        return None;
    }
    how_ended(endpoints)
}

/// How the ports of these endpoints ended, if nothing was lost. Otherwise all links are closed.
fn close<T: Endpoint>(endpoints: &mut [T], stops: &[bool], failed: bool) -> Result<PortsEnd, NoMem>
    requires ends { (starts : ℕ → T.Start) × (lanes : ℕ) × (gave : ℕ → ℕ → List Job) × (took : ℕ → List Reply) × AreAtEnd ⟦<T as Endpoint>⟧ starts lanes endpoints.old stops.now gave took }
    ensures whole { (end : PortsEnd) → result ≡ Ok end → (failed ≡ false) × ((w : ℕ) → slice_index_or stops.now w false ≡ false) × (endpoints.new ≡ endpoints.old) }
    ensures over { (end : PortsEnd) → result ≡ Ok end → (starts : ℕ → T.Start) (gave : ℕ → ℕ → List Job) (took : ℕ → List Reply) → AreMade T.made_by starts endpoints.old gave took →
        AreOver T.tells T.number T.lanes T.begun T.view starts endpoints.old gave took (length endpoints.old) end }
    ensures stopped { OnErr result ((starts : ℕ → T.Start) (lanes : ℕ) (gave : ℕ → ℕ → List Job) (took : ℕ → List Reply) → AreAtEnd ⟦<T as Endpoint>⟧ starts lanes endpoints.old stops.now gave took → AreStopped ⟦<T as Endpoint>⟧ starts lanes endpoints.new gave took (length endpoints.new)) }
    ensures keep { KeepPorts T.view endpoints.old endpoints.new }
    ensures count { length endpoints.new ≡ length endpoints.old }
{
    if let Some(end) = whole_end(endpoints, stops, failed) {
        return Ok(end);
    }
    stop_all(endpoints, stops);
    Err(NoMem)
}

/// Brings the endpoints to their ends after their threads' run.
fn close_ran<T: Endpoint, L: Lane>(ran: Ran<T, L>) -> Served<T, L>
    requires turned { (starts : ℕ → T.Start) × (begins : ℕ → L.Start) × (olds : List T) × (count : ℕ) × AreTurned ⟦<T as Endpoint>⟧ ⟦<L as Lane>⟧ starts begins olds count ran.endpoints.items ran.stops.items ran.lanes.items ran.failed }
    ensures { (starts : ℕ → T.Start) (begins : ℕ → L.Start) (olds : List T) (count : ℕ) → AreTurned ⟦<T as Endpoint>⟧ ⟦<L as Lane>⟧ starts begins olds count ran.endpoints.items ran.stops.items ran.lanes.items ran.failed →
        AreServed ⟦<T as Endpoint>⟧ ⟦<L as Lane>⟧ starts begins olds count result.endpoints.items result.lanes.items result.end }
{
    let Ran {
        endpoints,
        stops,
        lanes,
        failed,
    } = ran;
    let mut endpoints = endpoints;
    let end = close(&mut endpoints, &stops, failed);
    Served {
        endpoints,
        lanes,
        end,
    }
}

/// Closes all links, of endpoints that did nothing yet.
fn break_off<T: Endpoint, L: Lane>(endpoints: Vec<T>, lanes: Vec<L>) -> Served<T, L>
    requires fresh { (starts : ℕ → T.Start) × AreFresh ⟦<T as Endpoint>⟧ endpoints.items (length lanes.items) starts }
    ensures { (starts : ℕ → T.Start) (begins : ℕ → L.Start) → AreFresh ⟦<T as Endpoint>⟧ endpoints.items (length lanes.items) starts → AreFreshLanes ⟦<L as Lane>⟧ lanes.items begins →
        AreServed ⟦<T as Endpoint>⟧ ⟦<L as Lane>⟧ starts begins endpoints.items (length lanes.items) result.endpoints.items result.lanes.items result.end }
{
    let mut endpoints = endpoints;
    let none: [bool; 0] = [];
    stop_all(&mut endpoints, &none);
    Served {
        endpoints,
        lanes,
        end: Err(NoMem),
    }
}

/// Serves what comes at these endpoints, 1 to 64, each numbered by its place, by turns of these lanes, 1 to 8: a thread for
/// each endpoint and for each lane, but lane 0 in the caller's. `bells` end the waits of the endpoints' ports, in their order.
/// It returns after each endpoint came to its end, or was stopped. If no thread can be made for one, the caller's thread turns it too.
/// The end is an Err if memory ran out, for the threads or for a lane. It is one too if an endpoint has no end, or lost a reply,
/// be it one to no connection. All links are closed then: nothing was put on them but prefixes of the answers.
pub fn serve_threads<
    T: Endpoint + Send + Drop,
    L: Lane + Send + Drop,
    R: Threads + Wait + Sync,
    B: Bell + Sync + Drop,
>(rt: &R, alloc: Global, endpoints: Vec<T>, lanes: Vec<L>, bells: Vec<B>) -> Served<T, L>
    requires some { (1 ≤ length endpoints.items) × (length endpoints.items ≤ 64) }
    requires some_lanes { (1 ≤ length lanes.items) × (length lanes.items ≤ 8) }
    requires fresh { (starts : ℕ → T.Start) × AreFresh ⟦<T as Endpoint>⟧ endpoints.items (length lanes.items) starts }
    requires fresh_lanes { (begins : ℕ → L.Start) × AreFreshLanes ⟦<L as Lane>⟧ lanes.items begins }
    ensures { (starts : ℕ → T.Start) (begins : ℕ → L.Start) → AreFresh ⟦<T as Endpoint>⟧ endpoints.items (length lanes.items) starts → AreFreshLanes ⟦<L as Lane>⟧ lanes.items begins →
        AreServed ⟦<T as Endpoint>⟧ ⟦<L as Lane>⟧ starts begins endpoints.items (length lanes.items) result.endpoints.items result.lanes.items result.end }
{
    let Ok(prepared) = prepare(alloc, endpoints.len(), lanes.len()) else {
        return break_off(endpoints, lanes);
    };
    let Ok(parkings) = Parkings::new(alloc, lanes.len(), endpoints.len(), bells) else {
        return break_off(endpoints, lanes);
    };
    close_ran(run_prepared(rt, alloc, &parkings, prepared, endpoints, lanes))
}
