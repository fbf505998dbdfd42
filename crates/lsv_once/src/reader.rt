//! The pieces of the one connection, and the jobs that they are.

ghost use Rattle.std.specs.Prelude.{◌≡◌, ◌≤◌, ◌<◌, ◌++◌, ◌∷◌, [], true, false, length, IfOk, OnOk};
ghost use Rattle.lsv_cut.specs.Cuts.{unread};
ghost use Rattle.lsv_once.specs.InnerRun.{CutsAll, CutsOn, Takes};
ghost use Rattle.lsv_once.specs.Course.{once_conn};
ghost use Rattle.lsv_session.specs.declared.job.Body.TheVariants as bodies;

use crate::run::CONN;
use lsv_base::NoMem;
use lsv_cut::{Cut, PieceReader};
use lsv_session::{Body, Fault, Job};
use std::alloc::Global;

/// The bytes that were read and are no job yet. After bytes that are no message nothing is one.
#[derive(Debug, Drop)]
pub(crate) struct JobReader {
    pub alloc: Global,
    pub kept: PieceReader,
    pub is_over: bool,
    /// For how many jobs the last piece's list had room. The next one is likely to need as much.
    pub room: usize,
}

impl JobReader {
    pub fn new(alloc: Global) -> Self
        ensures kept { result.kept ≡ [] }
        ensures over { result.is_over ≡ false }
    {
        JobReader {
            alloc,
            kept: PieceReader::new(alloc),
            is_over: false,
            room: 0,
        }
    }

    /// The jobs that this piece completes. What is left of it is kept.
    pub fn take(&mut self, piece: &[u8]) -> Result<Vec<Job>, NoMem>
        ensures { IfOk result (λ jobs. Takes piece.now self.old.is_over self.old.kept jobs.items self.new.is_over self.new.kept) }
    {
        if self.is_over {
            return Ok(Vec::new(self.alloc));
        }
        let mut jobs = Vec::with_capacity(self.alloc, self.room)?;
        self.take_all(piece, &mut jobs)?;
        self.room = jobs.capacity();
        Ok(jobs)
    }

    /// Puts the jobs at the end that this piece completes.
    fn take_all(&mut self, piece: &[u8], jobs: &mut Vec<Job>) -> Result<(), NoMem>
        requires { self.old.is_over ≡ false }
        ensures { OnOk result (CutsAll jobs.old.items self.old.is_over (self.old.kept ++ piece.now) jobs.new.items self.new.is_over self.new.kept) }
    {
        let mut at = 0;
        while self.put_next(piece, &mut at, jobs)? {}
        Ok(())
    }

    /// Puts the next job of what is kept and then of a piece from a place on at the end. False if there is no more: less than a
    /// frame is left, all of which is kept, or no message was next, and nothing is one after that.
    #[inline(always)]
    fn put_next(&mut self, piece: &[u8], at: &mut usize, jobs: &mut Vec<Job>) -> Result<bool, NoMem>
        requires going { self.old.is_over ≡ false }
        requires within { at.old ≤ length piece.now }
        ensures more { IfOk result (λ more. more ≡ true → CutsOn jobs.old.items false (unread self.old.kept piece.now at.old) jobs.new.items false (unread self.new.kept piece.now at.new)) }
        ensures going { IfOk result (λ more. more ≡ true → self.new.is_over ≡ false) }
        ensures less { IfOk result (λ more. more ≡ true → length (unread self.new.kept piece.now at.new) < length (unread self.old.kept piece.now at.old)) }
        ensures none { IfOk result (λ more. more ≡ false → CutsAll jobs.old.items false (unread self.old.kept piece.now at.old) jobs.new.items self.new.is_over self.new.kept) }
        ensures within { at.new ≤ length piece.now }
    {
        match self.kept.next(piece, at)? {
            Cut::Nothing => Ok(false),
            Cut::Message(message, _) => {
                put_job(jobs, Body::Msg(message))?;
                Ok(true)
            }
            Cut::NoMessage(fault) => {
                self.end(jobs, fault)?;
                Ok(false)
            }
        }
    }

    /// Puts a last job at the end: what follows is no message.
    fn end(&mut self, jobs: &mut Vec<Job>, fault: Fault) -> Result<(), NoMem>
        ensures over { OnOk result (self.new.is_over ≡ true) }
        ensures put { OnOk result (jobs.new.items ≡ jobs.old.items ++ record { conn = once_conn; body = bodies.Bad fault } ∷ []) }
        ensures kept { self.new.kept ≡ self.old.kept }
    {
        put_job(jobs, Body::Bad(fault))?;
        self.is_over = true;
        Ok(())
    }
}

/// Puts a job of the connection at the end.
pub(crate) fn put_job(jobs: &mut Vec<Job>, body: Body) -> Result<(), NoMem>
    ensures { OnOk result (jobs.new.items ≡ jobs.old.items ++ record { conn = once_conn; body = body } ∷ []) }
{
    jobs.push(Job { conn: CONN, body })?;
    Ok(())
}
