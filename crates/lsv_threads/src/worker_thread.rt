//! The threads of workers: starting, stepping without a thread, and joining.

ghost use Rattle.std.specs.Prelude.{◌≡◌, ◌≤◌, [], All, vec_len, vec_capacity};
ghost use Rattle.std.specs.List.{AllZip};
ghost use Rattle.lsv_threads.specs.Threads.{Ends, IsBack, IsBegun, IsDone, IsHere, IsPlaced, IsReady, IsStarted, IsWorker, Went};
ghost use Rattle.lsv_threads.specs.Words.{words_of};
ghost use Rattle.lsv_threads.specs.declared.worker_side.WorkerSide.{WorkerSide};

use crate::{Parkings, WorkerSide};
use lsv_port::Bell;
use lsv_queue::Queue;
use lsv_reactor::Endpoint;
use lsv_session::{Job, Reply};
use std::alloc::Global;
use std::snapshot::Snapshot;
use std::sync::Wait;
use std::sync::atomic::{AtomicU64, Ordering};
use std::thread::{Promise, PromisedHandle, Scope, Threads};

/// What a worker's thread hands back: its side, and whether it ran.
#[derive(Drop)]
pub struct WorkerBack<T> {
    pub side: WorkerSide<T>,
    pub ran: bool,
}

/// What was handed to a worker's thread.
#[derive(Drop)]
pub struct WorkerGiven<T> {
    pub side: Snapshot<WorkerSide<T>>,
}

impl<T: Endpoint> Promise<WorkerBack<T>> for WorkerGiven<T> {
    ghost kept_by = { λ p r. IsBack (words_of T.tells T.Start T.begun T.view T.number T.lanes T.made_by T.called) p.side.value r };
}

/// A worker's thread as its starter has it, or the worker's side, if no thread could be made.
#[derive(Drop)]
pub enum WorkerThread<T: Endpoint> {
    There(PromisedHandle<WorkerBack<T>, WorkerGiven<T>>),
    Here(WorkerBack<T>),
}

/// What a worker's thread runs. If the thread couldn't be made, its starter calls this, and it hands the side back at once.
fn work<T: Endpoint, R: Wait, B: Bell>(
    rt: &R,
    alloc: Global,
    inboxes: &[Queue<Job>],
    outbox: &Queue<Reply>,
    parkings: &Parkings<B>,
    refused: &AtomicU64,
    side: WorkerSide<T>,
) -> WorkerBack<T>
    requires ready { IsReady ⟦<T as Endpoint>⟧ inboxes.now outbox.now.name side }
    ensures { IsBack ⟦<T as Endpoint>⟧ side result }
{
    if refused.load(Ordering::SeqCst) == u64::from(side.desk.number) + 1 {
        return WorkerBack { side, ran: false };
    }
    let mut side = side;
    side.run(rt, alloc, inboxes, outbox, parkings);
    WorkerBack { side, ran: true }
}

/// Starts a worker's thread. If none can be made, its side stays here.
fn start<'s, E, T: Endpoint + Send + Drop + 's, R: Threads + Wait + Sync, B: Bell + Sync>(
    scope: &Scope<'s, E>,
    rt: &'s R,
    alloc: Global,
    inboxes: &'s [Queue<Job>],
    outbox: &'s Queue<Reply>,
    parkings: &'s Parkings<B>,
    refused: &'s AtomicU64,
    side: WorkerSide<T>,
) -> WorkerThread<T>
    requires { IsReady (words_of T.tells T.Start T.begun T.view T.number T.lanes T.made_by T.called) inboxes.now outbox.now.name side }
    ensures { IsBegun (words_of T.tells T.Start T.begun T.view T.number T.lanes T.made_by T.called) side result }
{
    let number = u64::from(side.desk.number) + 1;
    let given = WorkerGiven {
        side: Snapshot::of(&side),
    };
    let run = move || -> WorkerBack<T>
        requires { IsReady (words_of T.tells T.Start T.begun T.view T.number T.lanes T.made_by T.called) inboxes.now outbox.now.name side }
        ensures { IsBack (words_of T.tells T.Start T.begun T.view T.number T.lanes T.made_by T.called) side result }
    { work(rt, alloc, inboxes, outbox, parkings, refused, side) };
    match scope.spawn_with(given, run) {
        Ok(handle) => {
            return WorkerThread::There(handle);
        }
        Err(back) => {
            refused.store(number, Ordering::SeqCst);
            let back = (back.value)();
            return WorkerThread::Here(back);
        }
    }
}

/// Starts a thread for each worker, in their order.
pub fn start_workers<
    's,
    E,
    T: Endpoint + Send + Drop + 's,
    R: Threads + Wait + Sync,
    B: Bell + Sync,
>(
    scope: &Scope<'s, E>,
    rt: &'s R,
    alloc: Global,
    inboxes: &'s [Queue<Job>],
    outs: &'s [Queue<Reply>],
    parkings: &'s Parkings<B>,
    refused: &'s AtomicU64,
    sides: Vec<WorkerSide<T>>,
    threads: &mut Vec<WorkerThread<T>>,
)
    requires ready { All (IsPlaced ⟦<T as Endpoint>⟧ inboxes.now outs.now) sides.items }
    requires none { threads.old.items ≡ [] }
    requires room { vec_len sides ≤ vec_capacity threads.old }
    ensures threads { AllZip (IsWorker ⟦<T as Endpoint>⟧ inboxes.now) sides.items threads.new.items }
    ensures count { vec_len threads.new ≡ vec_len sides }
{
    for side in sides {
        let place = side.desk.number as usize;
        threads.push_reserved(start(
            scope,
            rt,
            alloc,
            inboxes,
            &outs[place],
            parkings,
            refused,
            side,
        ));
    }
}

impl<T: Endpoint> WorkerThread<T> {
    /// One step of a worker without a thread. It doesn't wait.
    pub fn step<R: Wait, B: Bell>(
        &mut self,
        rt: &R,
        alloc: Global,
        inboxes: &[Queue<Job>],
        outs: &[Queue<Reply>],
        parkings: &Parkings<B>,
    )
        requires started { IsStarted ⟦<T as Endpoint>⟧ inboxes.now outs.now self.old }
        ensures went { Went ⟦<T as Endpoint>⟧ inboxes.now outs.now self.old self.new }
    {
        match self {
            WorkerThread::There(_) => {
                return;
            }
            WorkerThread::Here(back) => {
                if back.ran {
                    return;
                }
                let number = back.side.desk.number as usize;
                // A port's turn that was rung answers at once, so the caller's thread doesn't wait in it.
                parkings.ring(number);
                back.side
                    .step(rt, alloc, inboxes, &outs[number], parkings, true);
                return;
            }
        }
    }

    /// Whether it has a thread, or is over.
    pub fn is_settled(&self) -> bool {
        match self {
            WorkerThread::There(_) => true,
            WorkerThread::Here(back) => back.ran || back.side.is_over(),
        }
    }

    /// Whether it has a thread.
    pub fn is_there(&self) -> bool {
        match self {
            WorkerThread::There(_) => true,
            WorkerThread::Here(_) => false,
        }
    }

    /// Waits until the worker is over, and gives its side.
    pub fn finish<R: Threads + Wait, B: Bell>(
        self,
        rt: &R,
        alloc: Global,
        inboxes: &[Queue<Job>],
        outs: &[Queue<Reply>],
        parkings: &Parkings<B>,
    ) -> WorkerSide<T>
        requires started { IsStarted ⟦<T as Endpoint>⟧ inboxes.now outs.now self }
        ensures { Ends ⟦<T as Endpoint>⟧ inboxes.now outs.now self result }
    {
        match self {
            WorkerThread::There(handle) => {
                finish_back(rt, alloc, inboxes, outs, parkings, handle.join(rt))
            }
            WorkerThread::Here(back) => finish_back(rt, alloc, inboxes, outs, parkings, back),
        }
    }
}

/// Runs a side that didn't run in a thread of its own.
fn finish_back<T: Endpoint, R: Wait, B: Bell>(
    rt: &R,
    alloc: Global,
    inboxes: &[Queue<Job>],
    outs: &[Queue<Reply>],
    parkings: &Parkings<B>,
    back: WorkerBack<T>,
) -> WorkerSide<T>
    requires here { (first : WorkerSide T) × IsPlaced ⟦<T as Endpoint>⟧ inboxes.now outs.now first × IsHere ⟦<T as Endpoint>⟧ inboxes.now first back }
    ensures { (first : WorkerSide T) → IsPlaced ⟦<T as Endpoint>⟧ inboxes.now outs.now first → IsHere ⟦<T as Endpoint>⟧ inboxes.now first back → IsDone ⟦<T as Endpoint>⟧ first result }
{
    let WorkerBack { side, ran } = back;
    if ran {
        return side;
    }
    let mut side = side;
    let number = side.desk.number as usize;
    side.run(rt, alloc, inboxes, &outs[number], parkings);
    side
}

/// Waits until each worker is over, and gives their sides.
pub fn finish_workers<T: Endpoint + Drop, R: Threads + Wait, B: Bell>(
    rt: &R,
    alloc: Global,
    inboxes: &[Queue<Job>],
    outs: &[Queue<Reply>],
    parkings: &Parkings<B>,
    threads: Vec<WorkerThread<T>>,
    sides: &mut Vec<WorkerSide<T>>,
)
    requires started { All (IsStarted ⟦<T as Endpoint>⟧ inboxes.now outs.now) threads.items }
    requires none { sides.old.items ≡ [] }
    requires room { vec_len threads ≤ vec_capacity sides.old }
    ensures { AllZip (Ends ⟦<T as Endpoint>⟧ inboxes.now outs.now) threads.items sides.new.items }
{
    for thread in threads {
        sides.push_reserved(thread.finish(rt, alloc, inboxes, outs, parkings));
    }
}
