//! An endpoint whose messages are fixed beforehand, a clock that stands still, and a tape that counts.

ghost use Rattle.std.specs.Prelude.{◌<◌, []};
ghost use Rattle.lsv_worker.specs.Frames.{InboxKeeps, PutsOwn};
ghost use Rattle.lsvt_tests_server.specs.Nothing.{no_port};

use lsv_base::{Clock, NoMem, TimeSpec};
use lsv_queue::Gap;
use lsv_reactor::{Endpoint, EndpointEnd};
use lsv_service::{Notices, Site};
use lsv_session::{Body, ConnId, Job, Reply, ReplyBody};
use lsv_turn::Tape;
use lsv_worker::Inbox;

/// A clock that stands still.
#[derive(Drop)]
pub(crate) struct Still;

impl Clock for Still {
    fn now(&mut self) -> TimeSpec {
        TimeSpec {
            sec: 1_700_000_000,
            nsec: 0,
        }
    }
}

/// A tape that counts the jobs of the turns.
#[derive(Drop)]
pub(crate) struct Counted {
    pub jobs: usize,
}

impl Tape for Counted {
    ghost tells = { ⊥ };

    ghost turns = { λ _. [] };

    ghost has_room = { λ _ _. Unit {0} };

    fn room(&mut self, _jobs: &[Job]) -> Result<(), NoMem> {
        Ok(())
    }

    fn keep(&mut self, jobs: &[Job], _now: TimeSpec, _gap: Option<Gap<Job>>) {
        self.jobs = self.jobs.saturating_add(jobs.len());
    }
}

/// Keeps how often a server told that it serves, and the last log number that it named then.
#[derive(Drop)]
pub(crate) struct Heard {
    pub times: u32,
    pub last: u32,
}

impl Notices for Heard {
    fn serving(&mut self, _site: &Site<'_>, last: u32) {
        self.times = self.times.saturating_add(1);
        self.last = last;
    }
}

/// One connection that brings these, the last first and one at a time, and counts what it is told.
#[derive(Drop)]
pub(crate) struct Scripted {
    pub number: u32,
    pub bodies: Vec<Body>,
    pub said: u32,
    pub is_shut: bool,
}

/// Puts a job of this worker's first connection. One that is refused is lost.
fn put_one<I: Inbox>(worker: u32, body: Body, inbox: &mut I)
    requires lanes { 0 < I.lanes inbox.old }
    ensures own { PutsOwn worker (I.jobs inbox.old) (I.jobs inbox.new) }
    ensures keeps { InboxKeeps I.lanes I.refused I.is_same inbox.old inbox.new }
{
    let conn = ConnId { worker, seq: 1 };
    match inbox.put(0, Job { conn, body }) {
        Ok(()) => {
            return;
        }
        Err(_) => {
            return;
        }
    }
}

impl Endpoint for Scripted {
    ghost tells = { ⊥ };

    ghost Start = { Unit {0} };

    ghost begun = { λ _. no_port };

    ghost view = { λ _. no_port };

    ghost number = { λ p. p.number };

    ghost lanes = { λ _. 1 };

    ghost made_by = { λ _ _ _ _. Unit {0} };

    ghost called = { λ _ _. Unit {0} };

    fn open(&mut self, _address: &str, _stop_after: Option<u32>) -> bool {
        true
    }

    fn wait<I: Inbox>(&mut self, inbox: &mut I) {
        if let Some(body) = self.bodies.pop() {
            put_one(self.number, body, inbox);
        }
    }

    fn push<I: Inbox>(&mut self, _inbox: &mut I) {}

    fn waits(&self) -> bool {
        true
    }

    fn take(&mut self, reply: Reply) {
        match reply.body {
            ReplyBody::Say(_) => self.said = self.said.saturating_add(1),
            ReplyBody::Shut => self.is_shut = true,
        }
    }

    fn end(&self) -> Option<EndpointEnd> {
        if self.bodies.is_empty() && self.is_shut {
            return Some(EndpointEnd::Stopped);
        }
        None
    }

    fn stop(&mut self) {
        self.bodies.clear();
    }

    ghost none_called = { λ _ _ _. tt };
}
