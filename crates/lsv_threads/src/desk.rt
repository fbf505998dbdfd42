//! An endpoint with the pass by which it takes replies.

ghost use Rattle.std.specs.Prelude.{◌≡◌, true, false, ℕ, List};
ghost use Rattle.lsv_session.specs.declared.job.Job.{Job};
ghost use Rattle.lsv_threads.specs.Desks.{GoesOn, IsAt, IsSameDesk, Puts, Stands};

use lsv_queue::{OutPass, Queue};
use lsv_reactor::Endpoint;
use lsv_session::Reply;
use lsv_worker::Inbox;
use std::sync::Wait;

/// An endpoint, with its worker's number and the pass by which it takes replies.
#[derive(Drop)]
pub struct Desk<T> {
    pub endpoint: T,
    pub number: u32,
    pub taken: OutPass<Reply>,
    /// The endpoint was stopped, since memory ran out for a lane: it puts no job, and replies are dropped.
    pub stopped: bool,
}

impl<T: Endpoint> Desk<T> {
    /// Takes a reply, if one is there. One that isn't to its worker, or comes after its endpoint was stopped, is dropped.
    fn hear_one<R: Wait>(&mut self, rt: &R, outbox: &Queue<Reply>) -> bool
        requires queue { self.old.taken.queue ≡ outbox.now.name }
        requires at { (gave : ℕ → List Job) × IsAt ⟦<T as Endpoint>⟧ self.old gave }
        ensures on { GoesOn ⟦<T as Endpoint>⟧ self.old self.new }
    {
        match outbox.get(rt, &mut self.taken) {
            Err(_) => {
                return false;
            }
            Ok(reply) => {
                if self.stopped {
                    return true;
                }
                if reply.conn.worker == self.number {
                    self.endpoint.take(reply);
                    return true;
                }
                return true;
            }
        }
    }

    /// Takes all replies that are there. True if there was one.
    pub fn hear<R: Wait>(&mut self, rt: &R, outbox: &Queue<Reply>) -> bool
        requires queue { self.old.taken.queue ≡ outbox.now.name }
        requires at { (gave : ℕ → List Job) × IsAt ⟦<T as Endpoint>⟧ self.old gave }
        ensures on { GoesOn ⟦<T as Endpoint>⟧ self.old self.new }
    {
        let mut heard = false;
        for _ in rt.forever() {
            if !self.hear_one(rt, outbox) {
                return heard;
            }
            heard = true;
        }
        unreachable!()
    }

    /// Lets the endpoint wait for its port, and do what that asks for.
    fn wait<I: Inbox>(&mut self, inbox: &mut I)
        requires going { self.old.stopped ≡ false }
        requires lanes { I.lanes inbox.old ≡ T.lanes self.old.endpoint }
        requires at { IsAt ⟦<T as Endpoint>⟧ self.old (I.jobs inbox.old) }
        ensures on { Puts ⟦<T as Endpoint>⟧ self.old self.new (I.jobs inbox.old) (I.jobs inbox.new) }
        ensures same { I.is_same inbox.old inbox.new }
    {
        self.endpoint.wait(inbox);
    }

    /// Lets the endpoint do what can be done without waiting.
    fn push<I: Inbox>(&mut self, inbox: &mut I)
        requires going { self.old.stopped ≡ false }
        requires lanes { I.lanes inbox.old ≡ T.lanes self.old.endpoint }
        requires at { IsAt ⟦<T as Endpoint>⟧ self.old (I.jobs inbox.old) }
        ensures on { Puts ⟦<T as Endpoint>⟧ self.old self.new (I.jobs inbox.old) (I.jobs inbox.new) }
        ensures same { I.is_same inbox.old inbox.new }
    {
        self.endpoint.push(inbox);
    }

    /// The one or the other: it doesn't wait if replies were just heard, so that they are put at once.
    pub fn serve<I: Inbox>(&mut self, inbox: &mut I, waits: bool, heard: bool)
        requires going { self.old.stopped ≡ false }
        requires lanes { I.lanes inbox.old ≡ T.lanes self.old.endpoint }
        requires at { IsAt ⟦<T as Endpoint>⟧ self.old (I.jobs inbox.old) }
        ensures on { Puts ⟦<T as Endpoint>⟧ self.old self.new (I.jobs inbox.old) (I.jobs inbox.new) }
        ensures same { I.is_same inbox.old inbox.new }
    {
        if heard {
            self.push(inbox);
            return;
        }
        if waits {
            self.wait(inbox);
            return;
        }
        self.push(inbox);
    }

    /// Stops the endpoint, which closes all its links.
    pub fn stop(&mut self)
        requires going { self.old.stopped ≡ false }
        requires at { (gave : ℕ → List Job) × IsAt ⟦<T as Endpoint>⟧ self.old gave }
        ensures stopped { self.new.stopped ≡ true }
        ensures same { IsSameDesk ⟦<T as Endpoint>⟧ self.old self.new }
        ensures taken { self.new.taken ≡ self.old.taken }
        ensures stands { (start : T.Start) (lanes : ℕ) (gave : ℕ → List Job) → Stands ⟦<T as Endpoint>⟧ start lanes self.old gave → Stands ⟦<T as Endpoint>⟧ start lanes self.new gave }
    {
        self.stopped = true;
        self.endpoint.stop();
    }
}
