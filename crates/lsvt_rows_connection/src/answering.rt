//! A lane that answers by fixed rules and keeps all jobs.

ghost use Rattle.std.specs.Prelude.{◌≡◌, false, OnOk};
ghost use Rattle.lsv_session.specs.Connections.{same};
ghost use Rattle.lsv_session.specs.declared.connection.ConnId.{ConnId};
ghost use Rattle.lsv_turn.specs.Turns.{NoneFor};

use lsv_base::{Bytes, NoMem, TimeSpec};
use lsv_msg::{ClientMessage, ServerMessage};
use lsv_queue::Gap;
use lsv_session::{Body, ConnId, Job, Reply, ReplyBody};
use lsv_turn::Lane;
use std::alloc::Global;

/// The text that gets an answer of `LADEN` bytes.
const LONG: &[u8] = b"long";

/// A link with this many unsent bytes isn't read.
const LADEN: usize = 65_536;

/// It says each text to the connection that brought it; at an exit, at bytes that are no message and at its end a connection
/// is shut.
#[derive(Drop)]
pub struct Answering {
    pub alloc: Global,
    pub turns: Vec<Vec<Job>>,
    /// The connections that are shut.
    pub shut: Vec<u64>,
}

impl Answering {
    /// No turn was done.
    pub fn new(alloc: Global) -> Self {
        Answering {
            alloc,
            turns: Vec::new(alloc),
            shut: Vec::new(alloc),
        }
    }

    /// What is answered to a text.
    fn answer(&self, text: &[u8]) -> Result<ServerMessage, NoMem> {
        if text == LONG {
            let long = vec![in self.alloc; b'x'; LADEN]?;
            return Ok(ServerMessage::Error(Bytes::from_vec(long)));
        }
        Ok(ServerMessage::Error(Bytes::of(self.alloc, text)?))
    }

    /// Shuts a connection, once. It replies to no other.
    fn shut(&mut self, conn: ConnId, last: bool, replies: &mut Vec<Reply>) -> Result<(), NoMem>
        ensures to_it { OnOk result ((k : ConnId) → same conn k ≡ false → NoneFor k replies.old.items → NoneFor k replies.new.items) }
    {
        if self.shut.contains(&conn.seq) {
            return Ok(());
        }
        self.shut.push(conn.seq)?;
        replies.push(Reply {
            conn,
            body: ReplyBody::Shut,
            last,
        })?;
        Ok(())
    }

    /// Answers a job. It replies to the job's connection alone.
    fn judge(&mut self, job: &Job, replies: &mut Vec<Reply>) -> Result<(), NoMem>
        ensures to_it { OnOk result ((k : ConnId) → same job.now.conn k ≡ false → NoneFor k replies.old.items → NoneFor k replies.new.items) }
    {
        match &job.body {
            Body::Msg(ClientMessage::Ttyout(shown)) => {
                if !self.shut.contains(&job.conn.seq) {
                    replies.push(Reply {
                        conn: job.conn,
                        body: ReplyBody::Say(self.answer(shown.bytes.as_slice())?),
                        last: false,
                    })?;
                }
                Ok(())
            }
            Body::Msg(_) | Body::Bad(_) => self.shut(job.conn, false, replies),
            Body::Gone => self.shut(job.conn, true, replies),
        }
    }
}

impl Lane for Answering {
    ghost tells = { ⊥ };

    ghost Start = { Unit {0} };

    ghost made_by = { λ _ _ _. Unit {0} };

    fn turn(
        &mut self,
        jobs: Vec<Job>,
        _gap: Option<Gap<Job>>,
        replies: &mut Vec<Reply>,
    ) -> Result<TimeSpec, NoMem> {
        replies.clear();
        for job in &jobs {
            self.judge(job, replies)?;
        }
        self.turns.push(jobs)?;
        Ok(TimeSpec { sec: 0, nsec: 0 })
    }
}
