//! What a lane's thread has, and its steps.

ghost use Rattle.std.specs.Prelude.{◌≡◌, ◌<◌, ◌≤◌, true, false, length, Some};
ghost use Rattle.lsv_threads.specs.LaneSides.{IsFrom, IsOver, IsTurning, gap_of};

use crate::give::give_all;
use crate::take::{take_jobs, tally_of};
use crate::{Meanwhile, Parkings};
use lsv_port::Bell;
use lsv_queue::{Gap, InPass, OutPass, Queue};
use lsv_session::{Job, Reply};
use lsv_turn::Lane;
use std::alloc::Global;
use std::sync::Wait;

/// What a lane's thread has: the lane, and its passes.
#[derive(Drop)]
pub struct LaneSide<L> {
    pub lane: L,
    pub number: u32,
    pub taken: OutPass<Job>,
    /// One pass for each outbox, in their order. The first `ended` of them have ended.
    pub given: Vec<InPass<Reply>>,
    pub ended: usize,
    /// Memory ran out: no turn is made any more, and jobs are dropped.
    pub failed: bool,
}

impl<L: Lane> LaneSide<L> {
    /// Does a turn of these jobs, which its pass took last, and gives its replies.
    fn turn<R: Wait, B: Bell, M: Meanwhile>(
        &mut self,
        rt: &R,
        alloc: Global,
        outs: &[Queue<Reply>],
        parkings: &Parkings<B>,
        jobs: Vec<Job>,
        gap: Option<Gap<Job>>,
        meanwhile: &mut M,
    )
        requires going { self.old.failed ≡ false }
        requires none { self.old.ended ≡ 0 }
        requires some { 1 ≤ length jobs.items }
        requires most { length jobs.items ≤ 256 }
        requires gap { length jobs.items < 256 → gap ≡ Some (gap_of self.old.taken) }
        requires from { (first : LaneSide L) × IsTurning ⟦<L as Lane>⟧ outs.now first self.old jobs.items }
        requires ready { M.ready meanwhile.old }
        ensures from { (first : LaneSide L) → IsTurning ⟦<L as Lane>⟧ outs.now first self.old jobs.items → IsFrom ⟦<L as Lane>⟧ outs.now first self.new }
        ensures taken { self.new.taken ≡ self.old.taken }
        ensures ready { M.ready meanwhile.new }
        ensures goes { M.goes meanwhile.old meanwhile.new }
    {
        let mut replies = Vec::new(alloc);
        match self.lane.turn(jobs, gap, &mut replies) {
            Ok(_) => {
                give_all(rt, outs, parkings, &mut self.given, replies, meanwhile);
                return;
            }
            Err(_) => {
                self.failed = true;
                return;
            }
        }
    }

    /// Ends the next pass, if its outbox has room.
    fn end_next<R: Wait, B: Bell>(&mut self, rt: &R, outs: &[Queue<Reply>], parkings: &Parkings<B>)
        requires left { self.old.ended < length self.old.given.items }
        requires from { (first : LaneSide L) × IsFrom ⟦<L as Lane>⟧ outs.now first self.old }
        ensures from { (first : LaneSide L) → IsFrom ⟦<L as Lane>⟧ outs.now first self.old → IsFrom ⟦<L as Lane>⟧ outs.now first self.new }
        ensures taken { self.new.taken ≡ self.old.taken }
    {
        let place = self.ended;
        match outs[place].end(rt, &mut self.given[place]) {
            Ok(()) => {
                self.ended += 1;
                parkings.wake_worker(place);
                return;
            }
            Err(_) => {
                parkings.wake_worker(place);
                return;
            }
        }
    }

    /// Does a turn of the jobs that were taken, if no pass has ended and memory never ran out; else they are dropped.
    fn work<R: Wait, B: Bell, M: Meanwhile>(
        &mut self,
        rt: &R,
        alloc: Global,
        outs: &[Queue<Reply>],
        parkings: &Parkings<B>,
        jobs: Vec<Job>,
        gap: Option<Gap<Job>>,
        meanwhile: &mut M,
    )
        requires some { 1 ≤ length jobs.items }
        requires most { length jobs.items ≤ 256 }
        requires gap { length jobs.items < 256 → gap ≡ Some (gap_of self.old.taken) }
        requires from { (first : LaneSide L) × IsTurning ⟦<L as Lane>⟧ outs.now first self.old jobs.items }
        requires ready { M.ready meanwhile.old }
        ensures from { (first : LaneSide L) → IsTurning ⟦<L as Lane>⟧ outs.now first self.old jobs.items → IsFrom ⟦<L as Lane>⟧ outs.now first self.new }
        ensures taken { self.new.taken ≡ self.old.taken }
        ensures ready { M.ready meanwhile.new }
        ensures goes { M.goes meanwhile.old meanwhile.new }
    {
        if self.ended > 0 {
            self.failed = true;
            return;
        }
        if self.failed {
            return;
        }
        self.turn(rt, alloc, outs, parkings, jobs, gap, meanwhile);
    }

    /// One step: takes jobs, and does a turn of them; or if there is none, rests.
    pub fn step<R: Wait, B: Bell, M: Meanwhile>(
        &mut self,
        rt: &R,
        alloc: Global,
        inbox: &Queue<Job>,
        outs: &[Queue<Reply>],
        parkings: &Parkings<B>,
        workers: u32,
        meanwhile: &mut M,
    )
        requires queue { self.old.taken.queue ≡ inbox.now.name }
        requires from { (first : LaneSide L) × IsFrom ⟦<L as Lane>⟧ outs.now first self.old }
        requires ready { M.ready meanwhile.old }
        ensures from { (first : LaneSide L) → IsFrom ⟦<L as Lane>⟧ outs.now first self.old → IsFrom ⟦<L as Lane>⟧ outs.now first self.new }
        ensures queue { self.new.taken.queue ≡ self.old.taken.queue }
        ensures ready { M.ready meanwhile.new }
        ensures goes { M.goes meanwhile.old meanwhile.new }
    {
        match take_jobs(rt, alloc, inbox, &mut self.taken) {
            Ok((jobs, gap)) => {
                let tally = tally_of(jobs.as_slice());
                parkings.note_taken(self.number as usize, &tally);
                if jobs.is_empty() {
                    self.rest(rt, outs, parkings, workers, meanwhile);
                    return;
                }
                self.work(rt, alloc, outs, parkings, jobs, gap, meanwhile);
                parkings.note_done(self.number as usize, &tally);
                return;
            }
            Err(_) => {
                self.failed = true;
                return;
            }
        }
    }

    /// If no job was there: ends a pass, if memory ran out or all workers have ended; else the thread has nothing to do.
    fn rest<R: Wait, B: Bell, M: Meanwhile>(
        &mut self,
        rt: &R,
        outs: &[Queue<Reply>],
        parkings: &Parkings<B>,
        workers: u32,
        meanwhile: &mut M,
    )
        requires from { (first : LaneSide L) × IsFrom ⟦<L as Lane>⟧ outs.now first self.old }
        requires ready { M.ready meanwhile.old }
        ensures from { (first : LaneSide L) → IsFrom ⟦<L as Lane>⟧ outs.now first self.old → IsFrom ⟦<L as Lane>⟧ outs.now first self.new }
        ensures taken { self.new.taken ≡ self.old.taken }
        ensures ready { M.ready meanwhile.new }
        ensures goes { M.goes meanwhile.old meanwhile.new }
    {
        if self.ended < self.given.len() && (self.failed || self.taken.ended() == workers) {
            self.end_next(rt, outs, parkings);
            meanwhile.go_on(rt, false);
            return;
        }
        meanwhile.go_on(rt, !self.is_over(workers));
    }

    /// Whether all its passes have ended, and those of this many workers.
    pub fn is_over(&self, workers: u32) -> bool
        ensures { result ≡ true → IsOver workers self.now }
    {
        self.ended == self.given.len() && self.taken.ended() == workers
    }

    /// Steps until it is over.
    pub fn run<R: Wait, B: Bell, M: Meanwhile>(
        &mut self,
        rt: &R,
        alloc: Global,
        inbox: &Queue<Job>,
        outs: &[Queue<Reply>],
        parkings: &Parkings<B>,
        workers: u32,
        meanwhile: &mut M,
    )
        requires queue { self.old.taken.queue ≡ inbox.now.name }
        requires from { (first : LaneSide L) × IsFrom ⟦<L as Lane>⟧ outs.now first self.old }
        requires ready { M.ready meanwhile.old }
        ensures from { (first : LaneSide L) → IsFrom ⟦<L as Lane>⟧ outs.now first self.old → IsFrom ⟦<L as Lane>⟧ outs.now first self.new }
        ensures over { IsOver workers self.new }
        ensures ready { M.ready meanwhile.new }
        ensures goes { M.goes meanwhile.old meanwhile.new }
    {
        for _ in rt.forever() {
            if self.is_over(workers) {
                return;
            }
            self.step(rt, alloc, inbox, outs, parkings, workers, meanwhile);
        }
        unreachable!()
    }
}
