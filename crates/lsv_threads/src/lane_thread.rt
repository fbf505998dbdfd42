//! The threads of lanes: starting, stepping without a thread, and joining.

ghost use Rattle.std.specs.Prelude.{◌≡◌, ◌≤◌, [], All, vec_len, vec_capacity};
ghost use Rattle.std.specs.List.{AllZip};
ghost use Rattle.lsv_threads.specs.Threads.{IsLane, IsLaneBack, IsLaneBegun, IsLaneDone, IsLaneHere, IsLanePlaced, IsLaneReady, IsLaneStarted, LaneEnds, LaneWent};
ghost use Rattle.lsv_threads.specs.Words.{lane_words_of};
ghost use Rattle.lsv_threads.specs.declared.lane_side.LaneSide.{LaneSide};

use crate::{LaneSide, Meanwhile, Parking, Parkings};
use lsv_port::Bell;
use lsv_queue::Queue;
use lsv_session::{Job, Reply};
use lsv_turn::Lane;
use std::alloc::Global;
use std::snapshot::Snapshot;
use std::sync::Wait;
use std::sync::atomic::{AtomicU64, Ordering};
use std::thread::{Promise, PromisedHandle, Scope, Threads};

/// What a lane's thread hands back: its side, and whether it ran.
#[derive(Drop)]
pub struct LaneBack<L> {
    pub side: LaneSide<L>,
    pub ran: bool,
}

/// What was handed to a lane's thread.
#[derive(Drop)]
pub struct LaneGiven<L> {
    pub side: Snapshot<LaneSide<L>>,
    pub workers: u32,
}

impl<L: Lane> Promise<LaneBack<L>> for LaneGiven<L> {
    ghost kept_by = { λ p r. IsLaneBack (lane_words_of L.tells L.Start L.made_by) p.workers p.side.value r };
}

/// A lane's thread as its starter has it, or the lane's side, if it has no thread.
#[derive(Drop)]
pub enum LaneThread<L: Lane> {
    There(PromisedHandle<LaneBack<L>, LaneGiven<L>>),
    Here(LaneBack<L>),
}

/// What a lane's thread runs. If the thread couldn't be made, its starter calls this, and it hands the side back at once.
fn work<L: Lane, R: Wait, B: Bell>(
    rt: &R,
    alloc: Global,
    inbox: &Queue<Job>,
    outs: &[Queue<Reply>],
    parkings: &Parkings<B>,
    refused: &AtomicU64,
    workers: u32,
    side: LaneSide<L>,
) -> LaneBack<L>
    requires ready { IsLaneReady ⟦<L as Lane>⟧ inbox.now.name outs.now side }
    ensures { IsLaneBack ⟦<L as Lane>⟧ workers side result }
{
    if refused.load(Ordering::SeqCst) == u64::from(side.number) + 1 {
        return LaneBack { side, ran: false };
    }
    let mut side = side;
    let mut parking = Parking {
        parkings,
        lane: side.number,
    };
    side.run(rt, alloc, inbox, outs, parkings, workers, &mut parking);
    LaneBack { side, ran: true }
}

/// Starts a lane's thread. If none can be made, its side stays here.
fn start<'s, E, L: Lane + Send + Drop + 's, R: Threads + Wait + Sync, B: Bell + Sync>(
    scope: &Scope<'s, E>,
    rt: &'s R,
    alloc: Global,
    inbox: &'s Queue<Job>,
    outs: &'s [Queue<Reply>],
    parkings: &'s Parkings<B>,
    refused: &'s AtomicU64,
    workers: u32,
    side: LaneSide<L>,
) -> LaneThread<L>
    requires { IsLaneReady (lane_words_of L.tells L.Start L.made_by) inbox.now.name outs.now side }
    ensures { IsLaneBegun (lane_words_of L.tells L.Start L.made_by) workers side result }
{
    let number = u64::from(side.number) + 1;
    let given = LaneGiven {
        side: Snapshot::of(&side),
        workers,
    };
    let run = move || -> LaneBack<L>
        requires { IsLaneReady (lane_words_of L.tells L.Start L.made_by) inbox.now.name outs.now side }
        ensures { IsLaneBack (lane_words_of L.tells L.Start L.made_by) workers side result }
    { work(rt, alloc, inbox, outs, parkings, refused, workers, side) };
    match scope.spawn_with(given, run) {
        Ok(handle) => {
            return LaneThread::There(handle);
        }
        Err(back) => {
            refused.store(number, Ordering::SeqCst);
            let back = (back.value)();
            return LaneThread::Here(back);
        }
    }
}

/// Starts a thread for each lane but lane 0, in their order.
pub fn start_lanes<'s, E, L: Lane + Send + Drop + 's, R: Threads + Wait + Sync, B: Bell + Sync>(
    scope: &Scope<'s, E>,
    rt: &'s R,
    alloc: Global,
    inboxes: &'s [Queue<Job>],
    outs: &'s [Queue<Reply>],
    parkings: &'s Parkings<B>,
    refused: &'s AtomicU64,
    workers: u32,
    sides: Vec<LaneSide<L>>,
    threads: &mut Vec<LaneThread<L>>,
)
    requires ready { All (IsLanePlaced ⟦<L as Lane>⟧ inboxes.now outs.now) sides.items }
    requires none { threads.old.items ≡ [] }
    requires room { vec_len sides ≤ vec_capacity threads.old }
    ensures threads { AllZip (IsLane ⟦<L as Lane>⟧ outs.now workers) sides.items threads.new.items }
    ensures count { vec_len threads.new ≡ vec_len sides }
{
    for side in sides {
        threads.push_reserved(start_or_keep(
            scope, rt, alloc, inboxes, outs, parkings, refused, workers, side,
        ));
    }
}

/// Starts a lane's thread, but not that of lane 0.
fn start_or_keep<'s, E, L: Lane + Send + Drop + 's, R: Threads + Wait + Sync, B: Bell + Sync>(
    scope: &Scope<'s, E>,
    rt: &'s R,
    alloc: Global,
    inboxes: &'s [Queue<Job>],
    outs: &'s [Queue<Reply>],
    parkings: &'s Parkings<B>,
    refused: &'s AtomicU64,
    workers: u32,
    side: LaneSide<L>,
) -> LaneThread<L>
    requires { IsLanePlaced ⟦<L as Lane>⟧ inboxes.now outs.now side }
    ensures { IsLane ⟦<L as Lane>⟧ outs.now workers side result }
{
    if side.number == 0 {
        return LaneThread::Here(LaneBack { side, ran: false });
    }
    let place = side.number as usize;
    let thread = start(
        scope,
        rt,
        alloc,
        &inboxes[place],
        outs,
        parkings,
        refused,
        workers,
        side,
    );
    return thread;
}

impl<L: Lane> LaneThread<L> {
    /// One step of a lane without a thread.
    pub fn step<R: Wait, B: Bell, M: Meanwhile>(
        &mut self,
        rt: &R,
        alloc: Global,
        inboxes: &[Queue<Job>],
        outs: &[Queue<Reply>],
        parkings: &Parkings<B>,
        workers: u32,
        meanwhile: &mut M,
    )
        requires started { IsLaneStarted ⟦<L as Lane>⟧ inboxes.now outs.now workers self.old }
        requires ready { M.ready meanwhile.old }
        ensures went { LaneWent ⟦<L as Lane>⟧ inboxes.now outs.now workers self.old self.new }
        ensures ready { M.ready meanwhile.new }
        ensures goes { M.goes meanwhile.old meanwhile.new }
    {
        match self {
            LaneThread::There(_) => {
                return;
            }
            LaneThread::Here(back) => {
                if back.ran {
                    return;
                }
                let number = back.side.number as usize;
                back.side.step(
                    rt,
                    alloc,
                    &inboxes[number],
                    outs,
                    parkings,
                    workers,
                    meanwhile,
                );
                return;
            }
        }
    }

    /// Whether it has a thread, or is over.
    pub fn is_settled(&self, workers: u32) -> bool {
        match self {
            LaneThread::There(_) => true,
            LaneThread::Here(back) => back.ran || back.side.is_over(workers),
        }
    }

    /// Whether it has no thread.
    pub fn is_here(&self) -> bool {
        match self {
            LaneThread::There(_) => false,
            LaneThread::Here(_) => true,
        }
    }

    /// Waits until the lane is over, and gives its side.
    pub fn finish<R: Threads + Wait, B: Bell>(
        self,
        rt: &R,
        alloc: Global,
        inboxes: &[Queue<Job>],
        outs: &[Queue<Reply>],
        parkings: &Parkings<B>,
        workers: u32,
    ) -> LaneSide<L>
        requires started { IsLaneStarted ⟦<L as Lane>⟧ inboxes.now outs.now workers self }
        ensures { LaneEnds ⟦<L as Lane>⟧ inboxes.now outs.now workers self result }
    {
        match self {
            LaneThread::There(handle) => {
                finish_back(rt, alloc, inboxes, outs, parkings, workers, handle.join(rt))
            }
            LaneThread::Here(back) => {
                finish_back(rt, alloc, inboxes, outs, parkings, workers, back)
            }
        }
    }
}

/// Runs a side that didn't run in a thread of its own.
fn finish_back<L: Lane, R: Wait, B: Bell>(
    rt: &R,
    alloc: Global,
    inboxes: &[Queue<Job>],
    outs: &[Queue<Reply>],
    parkings: &Parkings<B>,
    workers: u32,
    back: LaneBack<L>,
) -> LaneSide<L>
    requires here { (first : LaneSide L) × IsLanePlaced ⟦<L as Lane>⟧ inboxes.now outs.now first × IsLaneHere ⟦<L as Lane>⟧ outs.now workers first back }
    ensures { (first : LaneSide L) → IsLanePlaced ⟦<L as Lane>⟧ inboxes.now outs.now first → IsLaneHere ⟦<L as Lane>⟧ outs.now workers first back → IsLaneDone ⟦<L as Lane>⟧ workers first result }
{
    let LaneBack { side, ran } = back;
    if ran {
        return side;
    }
    let mut side = side;
    let number = side.number;
    let mut parking = Parking {
        parkings,
        lane: number,
    };
    side.run(
        rt,
        alloc,
        &inboxes[number as usize],
        outs,
        parkings,
        workers,
        &mut parking,
    );
    side
}

/// Waits until each lane is over, and gives their sides.
pub fn finish_lanes<L: Lane + Drop, R: Threads + Wait, B: Bell>(
    rt: &R,
    alloc: Global,
    inboxes: &[Queue<Job>],
    outs: &[Queue<Reply>],
    parkings: &Parkings<B>,
    workers: u32,
    threads: Vec<LaneThread<L>>,
    sides: &mut Vec<LaneSide<L>>,
)
    requires started { All (IsLaneStarted ⟦<L as Lane>⟧ inboxes.now outs.now workers) threads.items }
    requires none { sides.old.items ≡ [] }
    requires room { vec_len threads ≤ vec_capacity sides.old }
    ensures { AllZip (LaneEnds ⟦<L as Lane>⟧ inboxes.now outs.now workers) threads.items sides.new.items }
{
    for thread in threads {
        sides.push_reserved(thread.finish(rt, alloc, inboxes, outs, parkings, workers));
    }
}
