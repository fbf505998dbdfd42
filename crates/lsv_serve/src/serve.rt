//! The command `serve`: the links of all ports, over the stores of some lanes.

ghost use Rattle.std.specs.Prelude.{◌≡◌, ◌≤◌, ◌+◌, ℕ, Some, length, slice_get};
ghost use Rattle.lsv_event.specs.declared.event.Kind.TheVariants as kinds;
ghost use Rattle.lsv_lane.specs.Store.{lane_settings};
ghost use Rattle.lsv_endpoint.specs.Ports.{IsUnopened};
ghost use Rattle.lsv_service.specs.Lanes.{AreFreshBays, KeepPlaces, bay_by};
ghost use Rattle.lsv_serve.specs.Causes.{HavePlaces, HavePlacesAt, MayServeLanes};
ghost use Rattle.lsv_serve.specs.Serve.{RunsAs, RunsTo, bays_of, server_of, told};

use crate::outside::{Kept, Options, Outside, give_all_places};
use crate::posts::{ports_of, posts_of};
use crate::status::Status;
use crate::text::text_of;
use lsv_base::Clock;
use lsv_disk::Disk;
use lsv_event::Kind;
use lsv_hook::{Formatter, LineWriter};
use lsv_keeper::Policy;
use lsv_lane::Bay;
use lsv_mask::{Prompt, Search};
use lsv_port::{Bell, Port};
use lsv_reactor::PortsEnd;
use lsv_service::{End, Notices, Site, serve_store};
use lsv_turn::Tape;
use std::alloc::Global;
use std::sync::Wait;
use std::thread::Threads;

/// How the program tells the end of a run.
fn told(end: End) -> Status
    ensures { result ≡ told end }
{
    match end {
        End::Over(PortsEnd::Stopped) => Status::Served,
        End::Over(PortsEnd::Failed) => Status::PortFault,
        End::Store(fault) => Status::Store(fault),
        End::NoMem => Status::NoMem,
    }
}

/// Serves the links of these ports over the stores of this many lanes. Bays and ports are given back, in their order.
fn serve_ports<
    P: Port + Send + Drop,
    D: Disk + Send + Drop,
    C: Clock + Send + Drop,
    G: Tape + Send + Drop,
    F: LineWriter + Sync + Drop,
    H: Search + Sync + Drop,
    R: Threads + Wait + Sync,
    B: Bell + Sync + Drop,
    N: Notices,
>(
    rt: &R,
    alloc: Global,
    ports: Vec<P>,
    bells: Vec<B>,
    bays: Vec<Bay<D, C, G>>,
    lanes: u32,
    policy: &Policy<F, H>,
    site: &Site<'_>,
    notices: &mut N,
) -> (Vec<P>, Vec<Bay<D, C, G>>, End)
    requires lanes { (1 ≤ lanes) × (lanes ≤ 8) }
    requires bays { lanes ≤ length bays.items }
    requires fresh { D.tells → AreFreshBays (bay_by ⟦<D as Disk>⟧ ⟦<G as Tape>⟧) lanes bays.items }
    requires ports { (1 ≤ length ports.items) × (length ports.items ≤ 64) }
    requires idle { P.tells → (i : ℕ) (port : P) → slice_get ports.items i ≡ Some port → IsUnopened (P.state port) }
    ensures runs { RunsTo (λ l. lane_settings l lanes policy.now.formatter.kind policy.now.log_exit) policy.now.texts lanes (record { address = site.now.address.now; stop_after = site.now.stop_after })
        (server_of ⟦<P as Port>⟧ ⟦<D as Disk>⟧ ⟦<G as Tape>⟧ ports.items bays.items)
        (server_of ⟦<P as Port>⟧ ⟦<D as Disk>⟧ ⟦<G as Tape>⟧ result.0.items result.1.items) result.2 }
    ensures places { D.tells → KeepPlaces (bay_by ⟦<D as Disk>⟧ ⟦<G as Tape>⟧) bays.items result.1.items }
    ensures fresh_again { D.tells → AreFreshBays (bay_by ⟦<D as Disk>⟧ ⟦<G as Tape>⟧) lanes result.1.items }
{
    let Ok(room) = Vec::with_capacity(alloc, ports.len()) else {
        return (ports, bays, End::NoMem);
    };
    let (endpoints, room) = match posts_of(alloc, lanes, ports, room) {
        Ok(made) => made,
        Err(ports) => return (ports, bays, End::NoMem),
    };
    let stored = serve_store(
        rt, alloc, endpoints, bells, bays, lanes, policy, site, notices,
    );
    (ports_of(stored.endpoints, room), stored.bays, stored.end)
}

/// Gives the disks the places of the store, and serves what comes at the ports, with event lines of this formatter.
fn serve_bays<
    P: Port + Send + Drop,
    D: Disk + Send + Drop,
    C: Clock + Send + Drop,
    G: Tape + Send + Drop,
    F: LineWriter + Sync + Drop,
    H: Search + Sync + Drop,
    R: Threads + Wait + Sync,
    B: Bell + Sync + Drop,
    N: Notices,
>(
    rt: &R,
    alloc: Global,
    ports: Vec<P>,
    bells: Vec<B>,
    bays: Vec<Bay<D, C, G>>,
    lanes: u32,
    options: Options,
    stop_after: Option<u32>,
    formatter: Formatter<F>,
    prompt: Prompt<H>,
    notices: &mut N,
) -> (Vec<P>, Vec<Bay<D, C, G>>, End)
    requires lanes { (1 ≤ lanes) × (lanes ≤ 8) }
    requires bays { lanes ≤ length bays.items }
    requires fresh { D.tells → AreFreshBays (bay_by ⟦<D as Disk>⟧ ⟦<G as Tape>⟧) lanes bays.items }
    requires ports { (1 ≤ length ports.items) × (length ports.items ≤ 64) }
    requires idle { P.tells → (i : ℕ) (port : P) → slice_get ports.items i ≡ Some port → IsUnopened (P.state port) }
    ensures runs { RunsTo (λ l. lane_settings l lanes formatter.kind options.log_exit) options.prompts lanes (record { address = options.listen; stop_after = stop_after })
        (server_of ⟦<P as Port>⟧ ⟦<D as Disk>⟧ ⟦<G as Tape>⟧ ports.items bays.items)
        (server_of ⟦<P as Port>⟧ ⟦<D as Disk>⟧ ⟦<G as Tape>⟧ result.0.items result.1.items) result.2 }
    ensures places { D.tells → HavePlaces (bay_by ⟦<D as Disk>⟧ ⟦<G as Tape>⟧) options.logs options.events result.1.items }
    ensures fresh_again { D.tells → AreFreshBays (bay_by ⟦<D as Disk>⟧ ⟦<G as Tape>⟧) lanes result.1.items }
{
    let mut bays = bays;
    give_all_places(&mut bays, &options);
    let Options {
        log_exit,
        prompts,
        logs,
        events,
        listen,
        ..
    } = options;
    let site = Site {
        address: text_of(&listen),
        stop_after,
        logs: text_of(&logs),
        events: text_of(&events),
    };
    let policy = Policy {
        formatter,
        log_exit,
        texts: prompts,
        prompt,
    };
    serve_ports(
        rt, alloc, ports, bells, bays, lanes, &policy, &site, notices,
    )
}

/// Serves what comes at the ports over the stores of this many lanes, with event lines of this formatter.
fn serve_by<
    S,
    K,
    P: Port + Send + Drop,
    D: Disk + Send + Drop,
    C: Clock + Send + Drop,
    G: Tape + Send + Drop,
    T,
    L,
    N: Notices,
    B: Bell + Sync + Drop,
    F: LineWriter + Sync + Drop,
    H: Search + Sync + Drop,
    R: Threads + Wait + Sync,
>(
    rt: &R,
    alloc: Global,
    options: Options,
    lanes: u32,
    stop_after: Option<u32>,
    out: Outside<S, K, P, D, C, G, T, L, N, B>,
    formatter: Formatter<F>,
    prompt: Prompt<H>,
) -> (Outside<S, K, P, D, C, G, T, L, N, B>, Status)
    requires lanes { (1 ≤ lanes) × (lanes ≤ 8) }
    requires bays { lanes ≤ 1 + length out.others.items }
    requires fresh { D.tells → AreFreshBays (bay_by ⟦<D as Disk>⟧ ⟦<G as Tape>⟧) lanes (bays_of out.disk out.clock out.tape out.others.items) }
    requires ports { (1 ≤ length out.ports.items) × (length out.ports.items ≤ 64) }
    requires idle { P.tells → (i : ℕ) (port : P) → slice_get out.ports.items i ≡ Some port → IsUnopened (P.state port) }
    ensures runs { RunsAs (λ l. lane_settings l lanes formatter.kind options.log_exit) options.prompts lanes (record { address = options.listen; stop_after = stop_after })
        (server_of ⟦<P as Port>⟧ ⟦<D as Disk>⟧ ⟦<G as Tape>⟧ out.ports.items (bays_of out.disk out.clock out.tape out.others.items))
        (server_of ⟦<P as Port>⟧ ⟦<D as Disk>⟧ ⟦<G as Tape>⟧ result.0.ports.items (bays_of result.0.disk result.0.clock result.0.tape result.0.others.items)) result.1 }
    ensures places { D.tells → HavePlacesAt (bay_by ⟦<D as Disk>⟧ ⟦<G as Tape>⟧) options.logs options.events (bays_of out.disk out.clock out.tape out.others.items) (bays_of result.0.disk result.0.clock result.0.tape result.0.others.items) result.1 }
    ensures again { D.tells → MayServeLanes (bay_by ⟦<D as Disk>⟧ ⟦<G as Tape>⟧) lanes (bays_of out.disk out.clock out.tape out.others.items) (bays_of result.0.disk result.0.clock result.0.tape result.0.others.items) }
    ensures beside { (result.0.source ≡ out.source) × (result.0.sink ≡ out.sink) × (result.0.texts ≡ out.texts) × (result.0.link ≡ out.link) }
{
    let Outside {
        source,
        sink,
        ports,
        bells,
        disk,
        clock,
        tape,
        others,
        texts,
        link,
        mut notices,
    } = out;
    let mut bays = others;
    if let Err(refused) = bays.insert(0, Bay { disk, clock, tape }) {
        let Bay { disk, clock, tape } = refused.value;
        let out = Outside {
            source,
            sink,
            ports,
            bells,
            disk,
            clock,
            tape,
            others: bays,
            texts,
            link,
            notices,
        };
        return (out, Status::NoMem);
    }
    let (ports, bays, end) = serve_bays(
        rt,
        alloc,
        ports,
        bells,
        bays,
        lanes,
        options,
        stop_after,
        formatter,
        prompt,
        &mut notices,
    );
    let mut others = bays;
    let Bay { disk, clock, tape } = others.remove(0);
    let out = Outside {
        source,
        sink,
        ports,
        bells: Vec::new(alloc),
        disk,
        clock,
        tape,
        others,
        texts,
        link,
        notices,
    };
    (out, told(end))
}

/// Serves what comes at the ports, over the stores of the first `lanes` lanes, until each port has told Stop or failed: a thread for
/// each port and for each lane, but lane 0 in the caller's. Nothing else changes the stores while it runs. The disks of all lanes
/// may be one folder, in which each lane has files of its own.
pub fn run_serve<
    S,
    K,
    P: Port + Send + Drop,
    D: Disk + Send + Drop,
    C: Clock + Send + Drop,
    G: Tape + Send + Drop,
    T,
    L,
    N: Notices,
    B: Bell + Sync + Drop,
    F: LineWriter + Sync + Drop,
    J: LineWriter + Sync + Drop,
    H: Search + Sync + Drop,
    R: Threads + Wait + Sync,
>(
    rt: &R,
    alloc: Global,
    options: Options,
    lanes: u32,
    stop_after: Option<u32>,
    out: Outside<S, K, P, D, C, G, T, L, N, B>,
    kept: Kept<F, J, H>,
) -> (Outside<S, K, P, D, C, G, T, L, N, B>, Status)
    requires sudo { kept.sudo.kind ≡ kinds.Sudo }
    requires json { kept.json.kind ≡ kinds.Json }
    requires lanes { (1 ≤ lanes) × (lanes ≤ 8) }
    requires bays { lanes ≤ 1 + length out.others.items }
    requires fresh { D.tells → AreFreshBays (bay_by ⟦<D as Disk>⟧ ⟦<G as Tape>⟧) lanes (bays_of out.disk out.clock out.tape out.others.items) }
    requires ports { (1 ≤ length out.ports.items) × (length out.ports.items ≤ 64) }
    requires idle { P.tells → (i : ℕ) (port : P) → slice_get out.ports.items i ≡ Some port → IsUnopened (P.state port) }
    ensures runs { RunsAs (λ l. lane_settings l lanes options.form options.log_exit) options.prompts lanes (record { address = options.listen; stop_after = stop_after })
        (server_of ⟦<P as Port>⟧ ⟦<D as Disk>⟧ ⟦<G as Tape>⟧ out.ports.items (bays_of out.disk out.clock out.tape out.others.items))
        (server_of ⟦<P as Port>⟧ ⟦<D as Disk>⟧ ⟦<G as Tape>⟧ result.0.ports.items (bays_of result.0.disk result.0.clock result.0.tape result.0.others.items)) result.1 }
    ensures places { D.tells → HavePlacesAt (bay_by ⟦<D as Disk>⟧ ⟦<G as Tape>⟧) options.logs options.events (bays_of out.disk out.clock out.tape out.others.items) (bays_of result.0.disk result.0.clock result.0.tape result.0.others.items) result.1 }
    ensures again { D.tells → MayServeLanes (bay_by ⟦<D as Disk>⟧ ⟦<G as Tape>⟧) lanes (bays_of out.disk out.clock out.tape out.others.items) (bays_of result.0.disk result.0.clock result.0.tape result.0.others.items) }
    ensures beside { (result.0.source ≡ out.source) × (result.0.sink ≡ out.sink) × (result.0.texts ≡ out.texts) × (result.0.link ≡ out.link) }
{
    match options.form {
        Kind::Sudo => serve_by(
            rt,
            alloc,
            options,
            lanes,
            stop_after,
            out,
            kept.sudo,
            kept.prompt,
        ),
        Kind::Json => serve_by(
            rt,
            alloc,
            options,
            lanes,
            stop_after,
            out,
            kept.json,
            kept.prompt,
        ),
    }
}
