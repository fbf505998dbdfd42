ghost use Rattle.std.specs.Prelude.{◌≡◌, ◌<◌, [], ◌∷◌, ◌++◌, map, vec_capacity, vec_len, IfOk};
ghost use Rattle.lsv_turn.specs.Kept.{turn_of};

use crate::Tape;
use lsv_base::{List, NoMem, TimeSpec};
use lsv_queue::Gap;
use lsv_session::{Body, Job};
use std::alloc::Global;
use std::marker::Model;
use std::mem;

/// A turn that was kept. `gap` is the empty pop at which its lane stopped taking jobs, if there was one.
#[derive(Drop)]
pub struct KeptTurn {
    pub now: TimeSpec,
    pub jobs: List<Job>,
    pub gap: Option<Gap<Job>>,
}

/// A tape in memory, which tells its turns.
#[derive(Drop)]
pub struct MemTape {
    alloc: Global,
    turns: Vec<KeptTurn>,
    spare: Vec<Job>,
}

impl MemTape {
    /// A tape without turns. It takes no memory yet.
    pub fn new(alloc: Global) -> Self
        ensures { ⟦<MemTape as Tape>⟧.turns result ≡ [] }
    {
        MemTape {
            alloc,
            turns: Vec::new(alloc),
            spare: Vec::new(alloc),
        }
    }

    /// The turns that were kept, in order.
    pub fn turns(&self) -> &[KeptTurn]
        ensures { map turn_of result.now ≡ ⟦<MemTape as Tape>⟧.turns self.now }
    {
        &self.turns
    }
}

impl Tape for MemTape {
    ghost tells = { Unit {0} };

    ghost turns = { λ t. map turn_of t.turns.items };

    ghost has_room = { λ t jobs. (t.spare.items ≡ jobs) × (vec_len t.turns < vec_capacity t.turns) };

    fn room(&mut self, jobs: &[Job]) -> Result<(), NoMem> {
        self.spare = copy_jobs(self.alloc, jobs)?;
        self.turns.reserve(1)?;
        Ok(())
    }

    fn keep(&mut self, _jobs: &[Job], now: TimeSpec, gap: Option<Gap<Job>>) {
        let jobs = mem::replace(&mut self.spare, Vec::new(self.alloc));
        let turn = KeptTurn {
            now,
            jobs: List::from_vec(jobs),
            gap,
        };
        let Ok(()) = self.turns.push(turn) else {
            unreachable!();
        };
    }
}

/// A copy of what a connection brings.
fn copy_body(alloc: Global, body: &Body) -> Result<Body, NoMem>
    ensures { IfOk result (λ copy. copy ≡ body.now) }
{
    match body {
        Body::Msg(message) => Ok(Body::Msg(message.copy(alloc)?)),
        Body::Bad(fault) => Ok(Body::Bad(*fault)),
        Body::Gone => Ok(Body::Gone),
    }
}

/// A copy of a job.
fn copy_job(alloc: Global, job: &Job) -> Result<Job, NoMem>
    ensures { IfOk result (λ copy. copy ≡ job.now) }
{
    Ok(Job {
        conn: job.conn,
        body: copy_body(alloc, &job.body)?,
    })
}

/// A copy of these jobs.
fn copy_jobs(alloc: Global, jobs: &[Job]) -> Result<Vec<Job>, NoMem>
    ensures { IfOk result (λ copy. copy.items ≡ jobs.now) }
{
    let mut copy = Vec::with_capacity(alloc, jobs.len())?;
    for job in jobs {
        copy.push(copy_job(alloc, job)?)?;
    }
    Ok(copy)
}
