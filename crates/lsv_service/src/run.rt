//! A run: the stores of the lanes are opened, the ports begin to listen, what comes is served by threads, and all is given back.

ghost use Rattle.std.specs.Prelude.{◌≡◌, ◌≤◌, ◌<◌, ◌+◌, ◌++◌, [], ℕ, List, Bool, IfErr, IfOk, drop, length, vec_capacity, vec_len};
ghost use Rattle.std.specs.Vec.Iter.{into_iter_items, into_iter_len};
ghost use Rattle.lsv_event.specs.declared.event.Kind.{Kind};
ghost use Rattle.lsv_lane.specs.declared.bay.Bay.{Bay};
ghost use Rattle.lsv_lane.specs.Store.{IsFresh, end_of_fault, lane_settings};
ghost use Rattle.lsv_threads.specs.Run.{AreFresh, AreFreshLanes};
ghost use Rattle.lsv_service.specs.InnerRun.{AreOpened, GiveBays, IsRefused, LeavesStores, ListenAndServe, RefusesOne, RunsWhole, end_of_serving};
ghost use Rattle.lsv_service.specs.Lanes.{AreFreshBays, KeepPlaces, RunsServer, bay_by};
ghost use Rattle.lsv_service.specs.Runs.{ListenAt};

use crate::{Notices, Site};
use lsv_base::{Clock, NoMem, copy_texts};
use lsv_disk::Disk;
use lsv_hook::LineWriter;
use lsv_keeper::{LaneId, Policy, StoreFault};
use lsv_lane::{Bay, StoreLane, Unopened};
use lsv_mask::Search;
use lsv_port::Bell;
use lsv_reactor::{Endpoint, PortsEnd};
use lsv_threads::{Served, serve_threads};
use lsv_turn::{Lane, Tape};
use std::alloc::Global;
use std::sync::Wait;
use std::thread::Threads;
use std::vec::IntoIter;

/// How a run ended.
#[derive(Clone, Copy, Debug, PartialEq, Eq)]
pub enum End {
    /// Nothing more was to come of any endpoint.
    Over(PortsEnd),
    /// The store of a lane couldn't be opened.
    Store(StoreFault),
    /// Out of memory.
    NoMem,
}

/// What a server's run gives back, and how it ended.
#[derive(Drop)]
pub struct Stored<T, D, C, G> {
    /// The endpoints, in their order.
    pub endpoints: Vec<T>,
    /// The bays, in their order.
    pub bays: Vec<Bay<D, C, G>>,
    pub end: End,
}

/// How a run ends if a store isn't opened.
fn end_of(fault: StoreFault) -> End
    ensures { result ≡ end_of_fault End.Store End.NoMem fault }
{
    match fault {
        StoreFault::NoMem => End::NoMem,
        fault => End::Store(fault),
    }
}

/// How a run ends if its endpoints were served so.
fn end_of_threads(end: Result<PortsEnd, NoMem>) -> End
    ensures { result ≡ end_of_serving end }
{
    match end {
        Ok(end) => End::Over(end),
        Err(NoMem) => End::NoMem,
    }
}

// ---- The endpoints

/// Each endpoint begins to take links. False if one can't.
fn open_all<T: Endpoint>(endpoints: &mut [T], site: &Site<'_>) -> bool
    requires fresh { (lanes : ℕ) × (starts : ℕ → T.Start) × AreFresh ⟦<T as Endpoint>⟧ endpoints.old lanes starts }
    ensures fresh { (lanes : ℕ) (starts : ℕ → T.Start) → AreFresh ⟦<T as Endpoint>⟧ endpoints.old lanes starts → AreFresh ⟦<T as Endpoint>⟧ endpoints.new lanes starts }
    ensures asked { T.tells → ListenAt T.view (record { address = site.now.address.now; stop_after = site.now.stop_after }) endpoints.old endpoints.new }
    ensures count { length endpoints.new ≡ length endpoints.old }
{
    let mut listens = true;
    'endpoints: for place in 0..endpoints.len() {
        if !endpoints[place].open(site.address, site.stop_after) {
            listens = false;
        }
    }
    listens
}

/// The endpoints begin to listen, and are then served by turns of these lanes, in threads. `last` is for the notice.
fn serve_opened<
    T: Endpoint + Send + Drop,
    L: Lane + Send + Drop,
    R: Threads + Wait + Sync,
    B: Bell + Sync + Drop,
    N: Notices,
>(
    rt: &R,
    alloc: Global,
    endpoints: Vec<T>,
    bells: Vec<B>,
    lanes: Vec<L>,
    last: u32,
    site: &Site<'_>,
    notices: &mut N,
) -> Served<T, L>
    requires some { (1 ≤ length endpoints.items) × (length endpoints.items ≤ 64) }
    requires some_lanes { (1 ≤ length lanes.items) × (length lanes.items ≤ 8) }
    requires fresh { (starts : ℕ → T.Start) × AreFresh ⟦<T as Endpoint>⟧ endpoints.items (length lanes.items) starts }
    requires fresh_lanes { (begins : ℕ → L.Start) × AreFreshLanes ⟦<L as Lane>⟧ lanes.items begins }
    ensures { (starts : ℕ → T.Start) (begins : ℕ → L.Start) → AreFresh ⟦<T as Endpoint>⟧ endpoints.items (length lanes.items) starts → AreFreshLanes ⟦<L as Lane>⟧ lanes.items begins →
        ListenAndServe ⟦<T as Endpoint>⟧ ⟦<L as Lane>⟧ starts begins (record { address = site.now.address.now; stop_after = site.now.stop_after }) endpoints.items result.endpoints.items (length lanes.items) result.lanes.items result.end }
{
    let mut endpoints = endpoints;
    if open_all(&mut endpoints, site) {
        notices.serving(site, last);
    }
    serve_threads(rt, alloc, endpoints, lanes, bells)
}

// ---- The stores

/// Room for the lanes of a run, and for the bays that come back.
#[derive(Drop)]
struct Rooms<D, C, G, F: LineWriter, H: Search> {
    lanes: Vec<StoreLane<D, C, G, F, H>>,
    bays: Vec<Bay<D, C, G>>,
}

/// Makes room for this many lanes and bays.
fn make_rooms<
    D: Disk + Drop,
    C: Clock + Drop,
    G: Tape + Drop,
    F: LineWriter + Drop,
    H: Search + Drop,
>(alloc: Global, lanes: u32, bays: usize) -> Result<Rooms<D, C, G, F, H>, NoMem>
    ensures lanes { IfOk result (λ r. (r.lanes.items ≡ []) × (lanes ≤ vec_capacity r.lanes)) }
    ensures bays { IfOk result (λ r. (vec_len r.bays ≡ 0) × (bays ≤ vec_capacity r.bays)) }
{
    Ok(Rooms {
        lanes: Vec::with_capacity(alloc, lanes as usize)?,
        bays: Vec::with_capacity(alloc, bays)?,
    })
}

/// Opens the store of a lane over a bay, with the policy by reference.
fn open_lane<'a, D: Disk, C: Clock, G: Tape, F: LineWriter, H: Search>(
    alloc: Global,
    bay: Bay<D, C, G>,
    lane: LaneId,
    policy: &'a Policy<F, H>,
) -> Result<StoreLane<D, C, G, &'a F, &'a H>, Unopened<D, C, G>>
    requires lane { lane.number < lane.of }
    requires lanes { lane.of ≤ 8 }
    requires fresh { D.tells → IsFresh lane.number lane.of (D.view bay.disk) }
    ensures made { IfOk result (λ l. ⟦<StoreLane<D, C, G, &'a F, &'a H> as Lane>⟧.made_by (record { set = lane_settings lane.number lane.of policy.now.formatter.kind policy.now.log_exit; texts = policy.now.texts; disk = bay.disk; tape = bay.tape }) l []) }
    ensures refused { IfErr result (λ e. IsRefused D.tells G.tells (lane_settings lane.number lane.of policy.now.formatter.kind policy.now.log_exit) policy.now.texts lane.number lane.of (bay_by ⟦<D as Disk>⟧ ⟦<G as Tape>⟧ bay) (bay_by ⟦<D as Disk>⟧ ⟦<G as Tape>⟧ e.bay) e.fault) }
{
    let Ok(texts) = copy_texts(alloc, policy.texts.as_slice()) else {
        return Err(Unopened {
            bay,
            fault: StoreFault::NoMem,
        });
    };
    let policy = Policy {
        formatter: policy.formatter.by_ref(),
        log_exit: policy.log_exit,
        texts,
        prompt: policy.prompt.by_ref(),
    };
    match StoreLane::open(alloc, bay, lane, policy) {
        Ok(lane) => Ok(lane),
        Err(unopened) => Err(unopened),
    }
}

/// The lanes whose stores are open, in their order, and the bays after theirs.
#[derive(Drop)]
struct Opened<D, C, G, F: LineWriter, H: Search> {
    lanes: Vec<StoreLane<D, C, G, F, H>>,
    rest: IntoIter<Bay<D, C, G>>,
}

/// A store that couldn't be opened: the bay of its lane, and why. `opened` are the lanes before it and the bays after it.
#[derive(Drop)]
struct Refused<D, C, G, F: LineWriter, H: Search> {
    opened: Opened<D, C, G, F, H>,
    bay: Bay<D, C, G>,
    fault: StoreFault,
}

/// Opens the stores of lanes from 0 on, each over the bay of its place, in their order. The first that can't be opened ends it.
fn open_lanes<'a, D: Disk + Drop, C: Clock + Drop, G: Tape + Drop, F: LineWriter, H: Search>(
    alloc: Global,
    bays: Vec<Bay<D, C, G>>,
    lanes: u32,
    policy: &'a Policy<F, H>,
    room: Vec<StoreLane<D, C, G, &'a F, &'a H>>,
) -> Result<Opened<D, C, G, &'a F, &'a H>, Refused<D, C, G, &'a F, &'a H>>
    requires most { lanes ≤ 8 }
    requires bays { lanes ≤ length bays.items }
    requires room { (room.items ≡ []) × (lanes ≤ vec_capacity room) }
    requires fresh { D.tells → AreFreshBays (bay_by ⟦<D as Disk>⟧ ⟦<G as Tape>⟧) lanes bays.items }
    ensures opened { IfOk result (λ o. (length o.lanes.items ≡ lanes) × AreOpened ⟦<StoreLane<D, C, G, &'a F, &'a H> as Lane>⟧.made_by (λ l. lane_settings l lanes policy.now.formatter.kind policy.now.log_exit) policy.now.texts bays.items o.lanes.items × (into_iter_items o.rest ≡ drop lanes bays.items)) }
    ensures all { IfOk result (λ o. vec_len o.lanes + into_iter_len o.rest ≡ vec_len bays) }
    ensures all_but { IfErr result (λ r. vec_len r.opened.lanes + 1 + into_iter_len r.opened.rest ≡ vec_len bays) }
    ensures before { IfErr result (λ r. AreOpened ⟦<StoreLane<D, C, G, &'a F, &'a H> as Lane>⟧.made_by (λ l. lane_settings l lanes policy.now.formatter.kind policy.now.log_exit) policy.now.texts bays.items r.opened.lanes.items) }
    ensures refused { IfErr result (λ r. RefusesOne ⟦<D as Disk>⟧ ⟦<G as Tape>⟧ (λ l. lane_settings l lanes policy.now.formatter.kind policy.now.log_exit) policy.now.texts lanes bays.items (length r.opened.lanes.items) r.bay r.fault (into_iter_items r.opened.rest)) }
{
    let mut lanes_opened = room;
    let mut rest = bays.into_iter();
    'opening: for number in 0..lanes {
        let Some(bay) = rest.next() else {
            unreachable!();
        };
        match open_lane(alloc, bay, LaneId { number, of: lanes }, policy) {
            Ok(lane) => lanes_opened.push_reserved(lane),
            Err(unopened) => {
                let Unopened { bay, fault } = unopened;
                return Err(Refused {
                    opened: Opened {
                        lanes: lanes_opened,
                        rest,
                    },
                    bay,
                    fault,
                });
            }
        }
    }
    Ok(Opened {
        lanes: lanes_opened,
        rest,
    })
}

/// The greatest last number that one of these lanes drew, 0 if none drew any.
fn last_of_all<D: Disk, C: Clock, G: Tape, F: LineWriter + Drop, H: Search + Drop>(
    lanes: &[StoreLane<D, C, G, F, H>],
) -> u32 {
    let mut last = 0;
    for lane in lanes {
        let drawn = lane.last_number();
        if drawn > last {
            last = drawn;
        }
    }
    last
}

// ---- Giving back

/// These values, and after them the rest, in a vector that has room for all.
fn with_rest<T: Drop>(front: Vec<T>, rest: IntoIter<T>) -> Vec<T>
    requires { vec_len front + into_iter_len rest ≤ vec_capacity front }
    ensures { result.items ≡ front.items ++ into_iter_items rest }
{
    let mut all = front;
    for value in rest {
        all.push_reserved(value);
    }
    all
}

/// Each lane gives its bay back, in their order, into a vector that has room for them.
fn give_back<
    D: Disk + Drop,
    C: Clock + Drop,
    G: Tape + Drop,
    F: LineWriter + Drop,
    H: Search + Drop,
>(lanes: Vec<StoreLane<D, C, G, F, H>>, room: Vec<Bay<D, C, G>>) -> Vec<Bay<D, C, G>>
    requires { (vec_len room ≡ 0) × (vec_len lanes ≤ vec_capacity room) }
    ensures bays { GiveBays ⟦<D as Disk>⟧ ⟦<G as Tape>⟧ ⟦<StoreLane<D, C, G, F, H> as Lane>⟧.made_by lanes.items result.items }
    ensures room { vec_capacity room ≤ vec_capacity result }
    ensures count { vec_len result ≡ vec_len lanes }
{
    let mut bays = room;
    for lane in lanes {
        bays.push_reserved(lane.into_bay());
    }
    bays
}

/// What a run leaves that did nothing, since memory ran out.
fn leave_untouched<T: Drop, D: Disk + Drop, C: Clock + Drop, G: Tape + Drop>(
    endpoints: Vec<T>,
    bays: Vec<Bay<D, C, G>>,
) -> Stored<T, D, C, G>
    ensures endpoints { result.endpoints ≡ endpoints }
    ensures end { result.end ≡ End.NoMem }
    ensures stores { (kind : Kind) (log_exit : Bool) (texts : List (List ℕ)) (lanes : ℕ) → 1 ≤ lanes → (D.tells → AreFreshBays (bay_by ⟦<D as Disk>⟧ ⟦<G as Tape>⟧) lanes bays.items) →
        LeavesStores (bay_by ⟦<D as Disk>⟧ ⟦<G as Tape>⟧) D.tells G.tells (λ l. lane_settings l lanes kind log_exit) texts lanes bays.items result.bays.items result.end (λ l. []) }
{
    Stored {
        endpoints,
        bays,
        end: End::NoMem,
    }
}

/// What a run leaves one of whose stores can't be opened: the endpoints as they are, and all bays.
fn leave_refused<
    T: Drop,
    D: Disk + Drop,
    C: Clock + Drop,
    G: Tape + Drop,
    F: LineWriter + Drop,
    H: Search + Drop,
>(endpoints: Vec<T>, refused: Refused<D, C, G, F, H>, room: Vec<Bay<D, C, G>>) -> Stored<T, D, C, G>
    requires room { (vec_len room ≡ 0) × (vec_len refused.opened.lanes + 1 + into_iter_len refused.opened.rest ≤ vec_capacity room) }
    ensures endpoints { result.endpoints ≡ endpoints }
    ensures end { result.end ≡ end_of_fault End.Store End.NoMem refused.fault }
    ensures stores { (kind : Kind) (log_exit : Bool) (texts : List (List ℕ)) (lanes : ℕ) (olds : List (Bay D C G)) →
        AreOpened ⟦<StoreLane<D, C, G, F, H> as Lane>⟧.made_by (λ l. lane_settings l lanes kind log_exit) texts olds refused.opened.lanes.items →
        RefusesOne ⟦<D as Disk>⟧ ⟦<G as Tape>⟧ (λ l. lane_settings l lanes kind log_exit) texts lanes olds (length refused.opened.lanes.items) refused.bay refused.fault (into_iter_items refused.opened.rest) →
        (D.tells → AreFreshBays (bay_by ⟦<D as Disk>⟧ ⟦<G as Tape>⟧) lanes olds) →
        LeavesStores (bay_by ⟦<D as Disk>⟧ ⟦<G as Tape>⟧) D.tells G.tells (λ l. lane_settings l lanes kind log_exit) texts lanes olds result.bays.items result.end (λ l. []) }
{
    let Refused { opened, bay, fault } = refused;
    let Opened { lanes, rest } = opened;
    let mut bays = give_back(lanes, room);
    bays.push_reserved(bay);
    Stored {
        endpoints,
        bays: with_rest(bays, rest),
        end: end_of(fault),
    }
}

// ---- The run

/// Serves the endpoints by turns of open lanes, and gives all bays back.
fn serve_lanes<
    T: Endpoint + Send + Drop,
    D: Disk + Send + Drop,
    C: Clock + Send + Drop,
    G: Tape + Send + Drop,
    F: LineWriter + Send + Drop,
    H: Search + Send + Drop,
    R: Threads + Wait + Sync,
    B: Bell + Sync + Drop,
    N: Notices,
>(
    rt: &R,
    alloc: Global,
    endpoints: Vec<T>,
    bells: Vec<B>,
    opened: Opened<D, C, G, F, H>,
    room: Vec<Bay<D, C, G>>,
    site: &Site<'_>,
    notices: &mut N,
) -> Stored<T, D, C, G>
    requires some { (1 ≤ length endpoints.items) × (length endpoints.items ≤ 64) }
    requires some_lanes { (1 ≤ length opened.lanes.items) × (length opened.lanes.items ≤ 8) }
    requires room { (vec_len room ≡ 0) × (vec_len opened.lanes + into_iter_len opened.rest ≤ vec_capacity room) }
    requires fresh { (starts : ℕ → T.Start) × AreFresh ⟦<T as Endpoint>⟧ endpoints.items (length opened.lanes.items) starts }
    requires begun { (kind : Kind) × (log_exit : Bool) × (texts : List (List ℕ)) × (olds : List (Bay D C G)) × AreOpened ⟦<StoreLane<D, C, G, F, H> as Lane>⟧.made_by (λ l. lane_settings l (length opened.lanes.items) kind log_exit) texts olds opened.lanes.items }
    ensures { (lanes : ℕ) (kind : Kind) (log_exit : Bool) (texts : List (List ℕ)) (olds : List (Bay D C G)) (starts : ℕ → T.Start) → length opened.lanes.items ≡ lanes → AreFresh ⟦<T as Endpoint>⟧ endpoints.items lanes starts →
        AreOpened ⟦<StoreLane<D, C, G, F, H> as Lane>⟧.made_by (λ l. lane_settings l lanes kind log_exit) texts olds opened.lanes.items → into_iter_items opened.rest ≡ drop lanes olds →
        RunsWhole ⟦<T as Endpoint>⟧ (bay_by ⟦<D as Disk>⟧ ⟦<G as Tape>⟧) D.tells G.tells (λ l. lane_settings l lanes kind log_exit) texts lanes starts (record { address = site.now.address.now; stop_after = site.now.stop_after }) endpoints.items result.endpoints.items
        olds result.bays.items result.end }
{
    let Opened { lanes, rest } = opened;
    let last = last_of_all(lanes.as_slice());
    let Served {
        endpoints,
        lanes,
        end,
    } = serve_opened(rt, alloc, endpoints, bells, lanes, last, site, notices);
    Stored {
        endpoints,
        bays: with_rest(give_back(lanes, room), rest),
        end: end_of_threads(end),
    }
}

/// Serves what comes, as `serve_store`.
fn serve_bays<
    T: Endpoint + Send + Drop,
    D: Disk + Send + Drop,
    C: Clock + Send + Drop,
    G: Tape + Send + Drop,
    F: LineWriter + Sync + Drop,
    H: Search + Sync + Drop,
    R: Threads + Wait + Sync,
    B: Bell + Sync + Drop,
    N: Notices,
>(
    rt: &R,
    alloc: Global,
    endpoints: Vec<T>,
    bells: Vec<B>,
    bays: Vec<Bay<D, C, G>>,
    lanes: u32,
    policy: &Policy<F, H>,
    site: &Site<'_>,
    notices: &mut N,
) -> Stored<T, D, C, G>
    requires lanes { (1 ≤ lanes) × (lanes ≤ 8) }
    requires bays { lanes ≤ length bays.items }
    requires endpoints { (1 ≤ length endpoints.items) × (length endpoints.items ≤ 64) }
    requires fresh { D.tells → AreFreshBays (bay_by ⟦<D as Disk>⟧ ⟦<G as Tape>⟧) lanes bays.items }
    requires begun { (starts : ℕ → T.Start) × AreFresh ⟦<T as Endpoint>⟧ endpoints.items lanes starts }
    ensures { (starts : ℕ → T.Start) → AreFresh ⟦<T as Endpoint>⟧ endpoints.items lanes starts →
        RunsWhole ⟦<T as Endpoint>⟧ (bay_by ⟦<D as Disk>⟧ ⟦<G as Tape>⟧) D.tells G.tells (λ l. lane_settings l lanes policy.now.formatter.kind policy.now.log_exit) policy.now.texts lanes starts (record { address = site.now.address.now; stop_after = site.now.stop_after }) endpoints.items result.endpoints.items
        bays.items result.bays.items result.end }
{
    let Ok(rooms) = make_rooms(alloc, lanes, bays.len()) else {
        return leave_untouched(endpoints, bays);
    };
    let Rooms {
        lanes: room,
        bays: back,
    } = rooms;
    match open_lanes(alloc, bays, lanes, policy, room) {
        Ok(opened) => serve_lanes(rt, alloc, endpoints, bells, opened, back, site, notices),
        Err(refused) => leave_refused(endpoints, refused, back),
    }
}

/// Serves what comes at these endpoints, 1 to 64, each numbered by its place, over the stores of 1 to 8 lanes, until nothing more
/// is to come of any. Each lane has the bay of its place; bays after the lanes' are given back as they are.
///
/// The stores are opened in the lanes' order. If all are open, each endpoint begins to listen at the address of the site, and then
/// it is served in a thread, as each lane is. `bells` end the waits of the endpoints' ports, in their order. Nothing else changes the
/// stores meanwhile. The disks of the bays may be one folder, since each lane touches files of its own alone (`lanes_keep_apart`).
/// What is said of a lane's disk is then meant of the lane's own files: others may change beside it.
///
/// `End::Store` is the fault of the first store that couldn't be opened; then no endpoint did anything. Out of memory, the jobs of
/// the turns are the first of what was read of the links, and nothing was put on a link but prefixes of the answers by the turns
/// made. All is given back in its order, and the next run may begin with the disks.
pub fn serve_store<
    T: Endpoint + Send + Drop,
    D: Disk + Send + Drop,
    C: Clock + Send + Drop,
    G: Tape + Send + Drop,
    F: LineWriter + Sync + Drop,
    H: Search + Sync + Drop,
    R: Threads + Wait + Sync,
    B: Bell + Sync + Drop,
    N: Notices,
>(
    rt: &R,
    alloc: Global,
    endpoints: Vec<T>,
    bells: Vec<B>,
    bays: Vec<Bay<D, C, G>>,
    lanes: u32,
    policy: &Policy<F, H>,
    site: &Site<'_>,
    notices: &mut N,
) -> Stored<T, D, C, G>
    requires lanes { (1 ≤ lanes) × (lanes ≤ 8) }
    requires bays { lanes ≤ length bays.items }
    requires endpoints { (1 ≤ length endpoints.items) × (length endpoints.items ≤ 64) }
    requires fresh { D.tells → AreFreshBays (bay_by ⟦<D as Disk>⟧ ⟦<G as Tape>⟧) lanes bays.items }
    requires begun { (starts : ℕ → T.Start) × AreFresh ⟦<T as Endpoint>⟧ endpoints.items lanes starts }
    ensures runs { (starts : ℕ → T.Start) → AreFresh ⟦<T as Endpoint>⟧ endpoints.items lanes starts →
        RunsServer ⟦<T as Endpoint>⟧ (bay_by ⟦<D as Disk>⟧ ⟦<G as Tape>⟧) D.tells G.tells (λ l. lane_settings l lanes policy.now.formatter.kind policy.now.log_exit) policy.now.texts lanes starts (record { address = site.now.address.now; stop_after = site.now.stop_after }) endpoints.items result.endpoints.items
        bays.items result.bays.items result.end }
    ensures places { D.tells → KeepPlaces (bay_by ⟦<D as Disk>⟧ ⟦<G as Tape>⟧) bays.items result.bays.items }
    ensures fresh_again { D.tells → AreFreshBays (bay_by ⟦<D as Disk>⟧ ⟦<G as Tape>⟧) lanes result.bays.items }
{
    serve_bays(
        rt, alloc, endpoints, bells, bays, lanes, policy, site, notices,
    )
}
