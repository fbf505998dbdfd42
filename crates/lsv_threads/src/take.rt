//! The jobs of a turn.

ghost use Rattle.std.specs.Prelude.{◌≡◌, ◌≤◌, ◌<◌, ◌++◌, List, length, Some, IfOk, OnErr};
ghost use Rattle.lsv_queue.specs.Passes.{items_of};
ghost use Rattle.lsv_session.specs.declared.job.Job.{Job};
ghost use Rattle.lsv_threads.specs.LaneSides.{gap_of};

use lsv_queue::{Gap, NoMem, OutPass, Queue};
use lsv_session::Job;
use lsv_worker::job_size;
use std::alloc::Global;
use std::sync::Wait;

/// The most jobs of a turn.
const MOST: usize = 256;

/// Takes jobs until there are 256, or none is there. If memory runs out, those that it took are lost.
pub(crate) fn take_jobs<R: Wait>(
    rt: &R,
    alloc: Global,
    inbox: &Queue<Job>,
    pass: &mut OutPass<Job>,
) -> Result<(Vec<Job>, Option<Gap<Job>>), NoMem>
    requires queue { pass.old.queue ≡ inbox.now.name }
    ensures queue { pass.new.queue ≡ pass.old.queue }
    ensures joined { pass.new.taken.joined ≡ pass.old.taken.joined }
    ensures jobs { IfOk result (λ t. items_of pass.new.taken.got ≡ items_of pass.old.taken.got ++ t.0.items) }
    ensures most { IfOk result (λ t. length t.0.items ≤ 256) }
    ensures gap { IfOk result (λ t. length t.0.items < 256 → t.1 ≡ Some (gap_of pass.new)) }
    ensures lost { OnErr result ((lost : List Job) × (items_of pass.new.taken.got ≡ items_of pass.old.taken.got ++ lost)) }
{
    let mut jobs = Vec::new(alloc);
    for _ in 0..MOST {
        if jobs.reserve(1).is_err() {
            return Err(NoMem);
        }
        match inbox.get(rt, pass) {
            Ok(job) => jobs.push_reserved(job),
            Err(gap) => {
                return Ok((jobs, Some(gap)));
            }
        }
    }
    Ok((jobs, None))
}

/// How many jobs of a turn each worker put, and how much memory these are taken to hold. By the rests of the workers' numbers modulo 64.
#[derive(Drop)]
pub struct Tally {
    pub(crate) jobs: [u64; 64],
    pub(crate) bytes: [u64; 64],
}

/// Counts these jobs.
pub(crate) fn tally_of(jobs: &[Job]) -> Tally {
    let mut tally = Tally {
        jobs: [0; 64],
        bytes: [0; 64],
    };
    for job in jobs {
        let worker = (job.conn.worker % 64) as usize;
        tally.jobs[worker] = tally.jobs[worker].wrapping_add(1);
        tally.bytes[worker] = tally.bytes[worker].wrapping_add(job_size(job));
    }
    tally
}
