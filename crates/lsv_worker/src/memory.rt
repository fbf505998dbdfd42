//! An inbox in memory, of one lane.

ghost use Rattle.std.specs.Prelude.{◌≡◌, ℕ, ◌<◌, ◌≤◌, ◌==◌, ◌↔◌, [], ◌∷◌, ◌++◌, length, vec_capacity, IfOk, IfErr, IsTrue, OnOk, OnErr, refl};
ghost use Rattle.lsv_defs.specs.Causes.{HasRisen};
ghost use Rattle.lsv_session.specs.declared.job.Job.{Job};
ghost use Rattle.lsv_links.specs.Lanes.{one_lane};
ghost use Rattle.lsv_worker.specs.Memory.{Admits, HasRoom, IsOrderly, KeepsOrder, count_in, order_here, order_through, waiting};

use crate::Inbox;
use crate::size::job_size;
use lsv_base::NoMem;
use lsv_session::{Full, Job};
use std::alloc::Global;
use std::mem;

/// The most jobs that wait.
const MOST_JOBS: usize = 256;

/// The most bytes that the waiting jobs after the first may hold.
const MOST_BYTES: u64 = 67_108_864;

/// An inbox in memory, of one lane and one worker. It refuses the jobs of another worker. It is full if 256 jobs wait, or if
/// those after the first would hold more than 64 MiB by `job_size`.
#[derive(Debug, Drop)]
pub struct MemInbox {
    pub(crate) worker: u32,
    pub(crate) jobs: Vec<Job>,
    pub(crate) bytes: u64,
    pub(crate) refused: u64,
}

impl MemInbox {
    /// No job waits.
    #[tactic(auto, using(crate::proofs::Memories::order_none))]
    pub fn new(alloc: Global, worker: u32) -> Result<Self, NoMem>
        ensures empty { IfOk result (λ inbox. waiting inbox ≡ []) }
        ensures worker { IfOk result (λ inbox. inbox.worker ≡ worker) }
        ensures orderly { IfOk result IsOrderly }
    {
        Ok(MemInbox {
            worker,
            jobs: Vec::with_capacity(alloc, MOST_JOBS)?,
            bytes: 0,
            refused: 0,
        })
    }

    pub fn is_empty(&self) -> bool
        ensures { result ≡ (length (waiting self.now) == 0) }
    {
        self.jobs.is_empty()
    }

    /// Hands out the jobs that wait, in order, and keeps the empty vector for the next ones.
    #[tactic(auto, using(crate::proofs::Memories::order_none))]
    pub fn take(&mut self, jobs: &mut Vec<Job>)
        requires { jobs.old.items ≡ [] }
        ensures taken { jobs.new.items ≡ waiting self.old }
        ensures empty { waiting self.new ≡ [] }
        ensures refused { self.new.refused ≡ self.old.refused }
        ensures worker { self.new.worker ≡ self.old.worker }
        ensures orderly { IsOrderly self.new }
    {
        mem::swap(&mut self.jobs, jobs);
        self.bytes = 0;
    }

    /// Puts a job at the end. Returns it if it is another worker's, if there is no room, or if memory runs out.
    #[tactic(auto, using(crate::proofs::Memories::order_same, crate::proofs::Memories::order_first, crate::proofs::Memories::order_behind, crate::proofs::Memories::admits, crate::proofs::Memories::admitted))]
    pub fn offer(&mut self, job: Job) -> Result<(), (Job, Full)>
        ensures ok { OnOk result (waiting self.new ≡ waiting self.old ++ job ∷ []) }
        ensures err { OnErr result (waiting self.new ≡ waiting self.old) }
        ensures back { IfErr result (λ e. e.0 ≡ job) }
        ensures admitted { OnOk result (Admits self.old job) }
        ensures refused { OnErr result (Admits self.old job → vec_capacity self.old.jobs ≤ length (waiting self.old)) }
        ensures counts { self.old.refused ≤ self.new.refused }
        ensures cause { OnErr result (HasRisen self.old.refused self.new.refused) }
        ensures order { KeepsOrder self.old self.new }
    {
        let size = job_size(&job);
        if job.conn.worker != self.worker {
            self.refuse();
            return Err((job, Full));
        }
        if !self.has_room(size) {
            self.refuse();
            return Err((job, Full));
        }
        let is_first = self.jobs.is_empty();
        if let Err(failed) = self.jobs.push(job) {
            self.refuse();
            return Err((failed.value, Full));
        }
        if is_first {
            return Ok(());
        }
        self.bytes += size;
        Ok(())
    }

    /// Whether there is room for one more job of this size.
    fn has_room(&self, size: u64) -> bool
        ensures { IsTrue result ↔ HasRoom self.now size }
    {
        if self.jobs.len() >= MOST_JOBS {
            return false;
        }
        self.jobs.is_empty() || self.bytes.saturating_add(size) <= MOST_BYTES
    }

    /// A job was refused.
    fn refuse(&mut self)
        ensures jobs { waiting self.new ≡ waiting self.old }
        ensures worker { self.new.worker ≡ self.old.worker }
        ensures bytes { self.new.bytes ≡ self.old.bytes }
        ensures counts { self.old.refused ≤ self.new.refused }
        ensures cause { HasRisen self.old.refused self.new.refused }
    {
        if self.refused < u64::MAX {
            self.refused += 1;
        }
    }
}

impl Inbox for MemInbox {
    ghost lanes = { λ inbox. 1 };

    ghost jobs = { λ inbox lane. one_lane lane (waiting inbox) };

    ghost refused = { λ inbox lane. count_in lane inbox.refused };

    ghost is_same = { λ i j. KeepsOrder i j };

    #[tactic(auto, using(crate::proofs::Memories::lane_put, crate::proofs::Memories::lane_others, crate::proofs::Memories::lane_same, crate::proofs::Memories::lane_counts, crate::proofs::Memories::lane_risen))]
    fn put(&mut self, _lane: u32, job: Job) -> Result<(), (Job, Full)> {
        self.offer(job)
    }

    ghost same_here = { order_here };

    ghost same_through = { order_through };

    ghost same_lanes = { λ i j a. refl };
}
