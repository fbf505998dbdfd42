//! What a worker's thread has, and its steps.

ghost use Rattle.std.specs.Prelude.{◌≡◌, ◌<◌, true, false, length};
ghost use Rattle.lsv_threads.specs.WorkerSides.{IsFrom, IsOver};

use crate::gates::MOST_LANES;
use crate::{Desk, Gates, Parkings};
use lsv_port::Bell;
use lsv_queue::{InPass, Queue};
use lsv_reactor::Endpoint;
use lsv_session::{Job, Reply};
use std::alloc::Global;
use std::mem;
use std::sync::Wait;

/// What a worker's thread has: its endpoint, and its passes.
#[derive(Drop)]
pub struct WorkerSide<T> {
    pub desk: Desk<T>,
    /// One pass for each lane, in their order. The first `ended` of them have ended.
    pub put: Vec<InPass<Job>>,
    pub ended: usize,
}

impl<T: Endpoint> WorkerSide<T> {
    /// The endpoint waits for its port, or does what can be done without waiting, and puts jobs. The lanes that got some are
    /// woken.
    fn visit<R: Wait, B: Bell>(
        &mut self,
        rt: &R,
        alloc: Global,
        inboxes: &[Queue<Job>],
        parkings: &Parkings<B>,
        waits: bool,
        heard: bool,
    )
        requires going { self.old.ended ≡ 0 }
        requires unstopped { self.old.desk.stopped ≡ false }
        requires from { (first : WorkerSide T) × IsFrom ⟦<T as Endpoint>⟧ inboxes.now first self.old }
        ensures from { (first : WorkerSide T) → IsFrom ⟦<T as Endpoint>⟧ inboxes.now first self.old → IsFrom ⟦<T as Endpoint>⟧ inboxes.now first self.new }
        ensures queue { self.new.desk.taken ≡ self.old.desk.taken }
    {
        let put = mem::replace(&mut self.put, Vec::new(alloc));
        let mut gates = Gates::new(rt, inboxes, parkings, put, self.desk.number);
        self.desk.serve(&mut gates, waits, heard);
        gates.settle();
        let (put, touched) = gates.into_passes();
        self.put = put;
        for lane in 0..MOST_LANES {
            if touched[lane] {
                parkings.wake_lane(lane);
            }
        }
    }

    /// Ends the next pass, if its inbox has room.
    fn end_next<R: Wait, B: Bell>(&mut self, rt: &R, inboxes: &[Queue<Job>], parkings: &Parkings<B>)
        requires left { self.old.ended < length self.old.put.items }
        requires from { (first : WorkerSide T) × IsFrom ⟦<T as Endpoint>⟧ inboxes.now first self.old }
        ensures from { (first : WorkerSide T) → IsFrom ⟦<T as Endpoint>⟧ inboxes.now first self.old → IsFrom ⟦<T as Endpoint>⟧ inboxes.now first self.new }
        ensures queue { self.new.desk.taken ≡ self.old.desk.taken }
    {
        let place = self.ended;
        match inboxes[place].end(rt, &mut self.put[place]) {
            Ok(()) => {
                self.ended += 1;
                parkings.wake_lane(place);
                return;
            }
            Err(_) => {
                return;
            }
        }
    }

    /// Whether the endpoint is still to be served.
    fn is_going(&self) -> bool
        ensures unstopped { result ≡ true → self.now.desk.stopped ≡ false }
        ensures none { result ≡ true → self.now.ended ≡ 0 }
    {
        self.ended == 0 && !self.desk.stopped && self.desk.endpoint.end().is_none()
    }

    /// Serves the endpoint once, or stops it if a lane gave up; or ends a pass, after the endpoint's end.
    fn go_on<R: Wait, B: Bell>(
        &mut self,
        rt: &R,
        alloc: Global,
        inboxes: &[Queue<Job>],
        parkings: &Parkings<B>,
        waits: bool,
        heard: bool,
    )
        requires from { (first : WorkerSide T) × IsFrom ⟦<T as Endpoint>⟧ inboxes.now first self.old }
        ensures from { (first : WorkerSide T) → IsFrom ⟦<T as Endpoint>⟧ inboxes.now first self.old → IsFrom ⟦<T as Endpoint>⟧ inboxes.now first self.new }
        ensures queue { self.new.desk.taken.queue ≡ self.old.desk.taken.queue }
    {
        if self.is_going() {
            if self.desk.taken.ended() > 0 {
                self.desk.stop();
                return;
            }
            self.visit(rt, alloc, inboxes, parkings, waits, heard);
            return;
        }
        if self.ended < self.put.len() {
            self.end_next(rt, inboxes, parkings);
            return;
        }
    }

    /// One step: takes the replies that are there, and goes on. It doesn't wait if there was a reply, or if there may be room again
    /// where it was refused. True if so.
    pub fn step<R: Wait, B: Bell>(
        &mut self,
        rt: &R,
        alloc: Global,
        inboxes: &[Queue<Job>],
        outbox: &Queue<Reply>,
        parkings: &Parkings<B>,
        waits: bool,
    ) -> bool
        requires queue { self.old.desk.taken.queue ≡ outbox.now.name }
        requires from { (first : WorkerSide T) × IsFrom ⟦<T as Endpoint>⟧ inboxes.now first self.old }
        ensures from { (first : WorkerSide T) → IsFrom ⟦<T as Endpoint>⟧ inboxes.now first self.old → IsFrom ⟦<T as Endpoint>⟧ inboxes.now first self.new }
        ensures queue { self.new.desk.taken.queue ≡ self.old.desk.taken.queue }
    {
        let number = self.desk.number as usize;
        parkings.note_waiting(number, true);
        let heard = self.desk.hear(rt, outbox);
        let stirred = parkings.takes_roomy(number) || heard;
        parkings.note_waiting(number, !stirred);
        self.go_on(rt, alloc, inboxes, parkings, waits, stirred);
        parkings.note_waiting(number, false);
        stirred
    }

    /// Whether all its passes have ended, and each lane's too.
    pub fn is_over(&self) -> bool
        ensures { result ≡ true → IsOver self.now }
    {
        self.ended == self.put.len() && self.desk.taken.ended() as usize == self.put.len()
    }

    /// Whether its next step would wait in its port's turn.
    fn waits_itself(&self) -> bool {
        self.ended == 0 && !self.desk.stopped && self.desk.endpoint.waits()
    }

    /// Steps until it is over. Between two steps it sleeps, unless the port's turn is what it waits for.
    pub fn run<R: Wait, B: Bell>(
        &mut self,
        rt: &R,
        alloc: Global,
        inboxes: &[Queue<Job>],
        outbox: &Queue<Reply>,
        parkings: &Parkings<B>,
    )
        requires queue { self.old.desk.taken.queue ≡ outbox.now.name }
        requires from { (first : WorkerSide T) × IsFrom ⟦<T as Endpoint>⟧ inboxes.now first self.old }
        ensures from { (first : WorkerSide T) → IsFrom ⟦<T as Endpoint>⟧ inboxes.now first self.old → IsFrom ⟦<T as Endpoint>⟧ inboxes.now first self.new }
        ensures over { IsOver self.new }
    {
        for _ in rt.forever() {
            if self.is_over() {
                return;
            }
            let heard = self.step(rt, alloc, inboxes, outbox, parkings, true);
            if !heard && !self.waits_itself() {
                parkings.rest_worker(rt, self.desk.number as usize);
            }
        }
        unreachable!()
    }
}
