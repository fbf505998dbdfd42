//! Workers without a thread, which the caller's thread turns.

ghost use Rattle.std.specs.Prelude.{◌≤◌, ◌<◌, All, length};
ghost use Rattle.std.specs.List.{AllZip};
ghost use Rattle.lsv_threads.specs.Idling.{IdleGoes, idle_here, idle_through};
ghost use Rattle.lsv_threads.specs.Threads.{IsStarted, Went};

use crate::worker_thread::WorkerThread;
use crate::{Meanwhile, Parkings};
use lsv_port::Bell;
use lsv_queue::Queue;
use lsv_reactor::Endpoint;
use lsv_session::{Job, Reply};
use std::alloc::Global;
use std::sync::Wait;
use std::thread;

/// All workers, of which those without a thread are turned by the thread of lane 0.
#[derive(Drop)]
pub struct Idle<'a, T: Endpoint, B> {
    pub alloc: Global,
    pub inboxes: &'a [Queue<Job>],
    pub outs: &'a [Queue<Reply>],
    pub parkings: &'a Parkings<B>,
    pub threads: Vec<WorkerThread<T>>,
    /// Whether that thread has other lanes to turn, so that it may sleep for a millisecond at most.
    pub dozes: bool,
}

impl<'a, T: Endpoint, B: Bell> Meanwhile for Idle<'a, T, B> {
    ghost ready = { λ i. All (IsStarted ⟦<T as Endpoint>⟧ i.inboxes.now i.outs.now) i.threads.items };

    ghost goes = { λ a b. IdleGoes ⟦<T as Endpoint>⟧ a.inboxes.now a.outs.now a.threads.items b.inboxes.now b.outs.now b.threads.items };

    ghost goes_here = { λ a. idle_here ⟦<T as Endpoint>⟧ a.inboxes.now a.outs.now a.threads.items };

    ghost goes_through = { λ a b c f g. idle_through ⟦<T as Endpoint>⟧ a.inboxes.now b.inboxes.now c.inboxes.now a.outs.now b.outs.now c.outs.now a.threads.items b.threads.items c.threads.items f g };

    fn go_on<R: Wait>(&mut self, rt: &R, sleeps: bool) {
        step_workers(
            rt,
            self.alloc,
            self.inboxes,
            self.outs,
            self.parkings,
            &mut self.threads,
        );
        if !sleeps {
            thread::yield_now();
            return;
        }
        if self.dozes || !are_there(self.threads.as_slice()) {
            self.parkings.doze_lane(rt, 0);
            return;
        }
        self.parkings.rest_lane(rt, 0);
    }
}

/// One step of each worker without a thread.
fn step_workers<T: Endpoint, R: Wait, B: Bell>(
    rt: &R,
    alloc: Global,
    inboxes: &[Queue<Job>],
    outs: &[Queue<Reply>],
    parkings: &Parkings<B>,
    threads: &mut Vec<WorkerThread<T>>,
)
    requires started { All (IsStarted ⟦<T as Endpoint>⟧ inboxes.now outs.now) threads.old.items }
    ensures started { All (IsStarted ⟦<T as Endpoint>⟧ inboxes.now outs.now) threads.new.items }
    ensures went { AllZip (Went ⟦<T as Endpoint>⟧ inboxes.now outs.now) threads.old.items threads.new.items }
{
    for place in 0..threads.len() {
        step_at(rt, alloc, inboxes, outs, parkings, threads, place);
    }
}

/// One step of the worker at this place, if it has no thread.
fn step_at<T: Endpoint, R: Wait, B: Bell>(
    rt: &R,
    alloc: Global,
    inboxes: &[Queue<Job>],
    outs: &[Queue<Reply>],
    parkings: &Parkings<B>,
    threads: &mut Vec<WorkerThread<T>>,
    place: usize,
)
    requires within { place < length threads.old.items }
    requires started { All (IsStarted ⟦<T as Endpoint>⟧ inboxes.now outs.now) threads.old.items }
    ensures started { All (IsStarted ⟦<T as Endpoint>⟧ inboxes.now outs.now) threads.new.items }
    ensures went { AllZip (Went ⟦<T as Endpoint>⟧ inboxes.now outs.now) threads.old.items threads.new.items }
{
    let worker = &mut threads[place];
    worker.step(rt, alloc, inboxes, outs, parkings);
}

/// Whether each worker has a thread.
fn are_there<T: Endpoint>(threads: &[WorkerThread<T>]) -> bool {
    for worker in threads {
        if !worker.is_there() {
            return false;
        }
    }
    true
}

/// Whether each worker has a thread, or is over.
fn are_settled<T: Endpoint>(threads: &[WorkerThread<T>]) -> bool {
    for worker in threads {
        if !worker.is_settled() {
            return false;
        }
    }
    true
}

/// Turns the workers without a thread until each is over.
pub fn finish_idle<T: Endpoint, R: Wait, B: Bell>(
    rt: &R,
    alloc: Global,
    inboxes: &[Queue<Job>],
    outs: &[Queue<Reply>],
    parkings: &Parkings<B>,
    threads: &mut Vec<WorkerThread<T>>,
)
    requires started { All (IsStarted ⟦<T as Endpoint>⟧ inboxes.now outs.now) threads.old.items }
    ensures started { All (IsStarted ⟦<T as Endpoint>⟧ inboxes.now outs.now) threads.new.items }
    ensures went { AllZip (Went ⟦<T as Endpoint>⟧ inboxes.now outs.now) threads.old.items threads.new.items }
{
    for _ in rt.forever() {
        if are_settled(threads.as_slice()) {
            return;
        }
        step_workers(rt, alloc, inboxes, outs, parkings, threads);
        parkings.doze_lane(rt, 0);
    }
    unreachable!()
}
