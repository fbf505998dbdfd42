//! The inboxes of all lanes as a worker has them.

ghost use Rattle.std.specs.Prelude.{◌≡◌, ◌≤◌, ◌<◌, ℕ, length};
ghost use Rattle.lsv_defs.specs.Causes.{HasRisen};
ghost use Rattle.lsv_queue.specs.Settled.{puts_at};
ghost use Rattle.lsv_threads.specs.Gates.{AreOpen, KeepsGates, count_of, gates_same, gates_through, gates_lanes};

use crate::Parkings;
use crate::purse::Purse;
use lsv_port::Bell;
use lsv_queue::{InPass, Queue};
use lsv_session::{Full, Job};
use lsv_worker::{Inbox, job_size};
use std::sync::Wait;

/// The most lanes of a server.
pub(crate) const MOST_LANES: usize = 8;

/// The inboxes of all lanes, with a worker's passes. A put of a job that isn't the worker's own is refused. So is one to a lane at
/// which the worker has its share of places or of memory.
#[derive(Drop)]
pub struct Gates<'a, R, B> {
    rt: &'a R,
    inboxes: &'a [Queue<Job>],
    parkings: &'a Parkings<B>,
    pub(crate) passes: Vec<InPass<Job>>,
    pub(crate) number: u32,
    refused: [u64; 8],
    touched: [bool; 8],
    purse: Purse,
    ghost are_of: { AreOpen inboxes.now passes.items },
    ghost few: { length passes.items ≤ 8 },
}

impl<'a, R, B> Gates<'a, R, B> {
    /// `passes` are the worker's, one for each inbox in their order, and none has ended. `number` is the worker's.
    pub fn new(
        rt: &'a R,
        inboxes: &'a [Queue<Job>],
        parkings: &'a Parkings<B>,
        passes: Vec<InPass<Job>>,
        number: u32,
    ) -> Self
        requires of { AreOpen inboxes.now passes.items }
        requires few { length passes.items ≤ 8 }
        ensures passes { result.passes ≡ passes }
        ensures number { result.number ≡ number }
    {
        Gates {
            rt,
            inboxes,
            parkings,
            passes,
            number,
            refused: [0; MOST_LANES],
            touched: [false; MOST_LANES],
            purse: Purse::new(),
        }
    }

    /// Gives the passes back, and says to which lanes jobs were put.
    pub fn into_passes(self) -> (Vec<InPass<Job>>, [bool; 8])
        ensures { result.0 ≡ self.entry.passes }
    {
        let Gates {
            passes,
            touched,
            ..
        } = self;
        (passes, touched)
    }

    /// Gives back what was claimed and isn't used.
    pub fn settle(&self) {
        self.purse
            .settle(&self.parkings.shares, self.number as usize);
    }

    /// A put to this lane was refused.
    fn refuse(&mut self, lane: u32)
        requires lane { lane < 8 }
        ensures passes { self.new.passes ≡ self.old.passes }
        ensures number { self.new.number ≡ self.old.number }
        ensures counts { (m : ℕ) → count_of self.old.refused m ≤ count_of self.new.refused m }
        ensures cause { HasRisen (count_of self.old.refused lane) (count_of self.new.refused lane) }
    {
        let lane = lane as usize;
        if self.refused[lane] < u64::MAX {
            self.refused[lane] += 1;
        }
    }

    /// A job was put to this lane.
    fn touch(&mut self, lane: u32)
        requires lane { lane < 8 }
        ensures passes { self.new.passes ≡ self.old.passes }
        ensures number { self.new.number ≡ self.old.number }
        ensures refused { self.new.refused ≡ self.old.refused }
    {
        self.touched[lane as usize] = true;
    }
}

impl<'a, R: Wait, B: Bell> Inbox for Gates<'a, R, B> {
    ghost lanes = { λ g. length g.passes.items };

    ghost jobs = { λ g lane. puts_at g.passes.items lane };

    ghost refused = { λ g lane. count_of g.refused lane };

    ghost is_same = { λ g h. KeepsGates g.passes.items h.passes.items g.number h.number };

    ghost same_here = { λ g. gates_same g.passes.items g.number };

    ghost same_through = { λ g h i a b. gates_through g.passes.items h.passes.items i.passes.items g.number h.number i.number a b };

    ghost same_lanes = { λ g h a. gates_lanes g.passes.items h.passes.items g.number h.number a };

    fn put(&mut self, lane: u32, job: Job) -> Result<(), (Job, Full)> {
        if job.conn.worker != self.number {
            self.refuse(lane);
            return Err((job, Full));
        }
        let place = lane as usize;
        let bytes = job_size(&job);
        let seq = job.conn.seq;
        if !self
            .purse
            .pay(self.parkings, self.number, place, seq, bytes)
        {
            self.refuse(lane);
            return Err((job, Full));
        }
        match self.inboxes[place].put(self.rt, &mut self.passes[place], job) {
            Ok(()) => {
                self.touch(lane);
                Ok(())
            }
            Err(e) => {
                self.purse.refund(self.parkings, self.number, place, bytes);
                self.refuse(lane);
                Err(e)
            }
        }
    }
}
