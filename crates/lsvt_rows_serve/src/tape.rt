//! A tape that keeps what is printed of it: the jobs of each connection, in order.

ghost use Rattle.std.specs.Prelude.{[]};

use anyhow::{Result, anyhow};
use lsv_base::{NoMem, TimeSpec};
use lsv_msg::ClientMessage;
use lsv_queue::Gap;
use lsv_session::{Body, ConnId, Fault, Job};
use lsv_turn::Tape;
use std::alloc::Global;

/// What a connection brought, one kind after the other.
#[derive(Drop)]
struct Brought {
    conn: ConnId,
    words: String,
    /// The last kind, and how often it came one after the other.
    kind: String,
    times: u64,
}

/// The word for a message.
fn word_of(message: &ClientMessage) -> &'static str {
    match message {
        ClientMessage::Accept(_) => "accept",
        ClientMessage::Reject(_) => "reject",
        ClientMessage::Exit(_) => "exit",
        ClientMessage::Restart(_) => "restart",
        ClientMessage::Alert(_) => "alert",
        ClientMessage::Ttyin(_) => "ttyin",
        ClientMessage::Ttyout(_) => "ttyout",
        ClientMessage::Stdin(_) => "stdin",
        ClientMessage::Stdout(_) => "stdout",
        ClientMessage::Stderr(_) => "stderr",
        ClientMessage::Winsize(_) => "window",
        ClientMessage::Suspend(_) => "suspend",
        ClientMessage::Hello(_) => "hello",
    }
}

/// The word for what a connection brings.
fn kind_of(alloc: Global, body: &Body) -> Result<String> {
    let word = match body {
        Body::Msg(message) => word_of(message),
        Body::Bad(Fault::Malformed(_)) => "malformed",
        Body::Bad(Fault::TooLarge(stated)) => return Ok(format!(in alloc; "large:{stated}")?),
        Body::Bad(Fault::NoMem) => "starved",
        Body::Gone => "gone",
    };
    Ok(format!(in alloc; "{word}")?)
}

impl Brought {
    /// Nothing yet.
    fn new(alloc: Global, conn: ConnId) -> Self {
        Brought {
            conn,
            words: String::new(alloc),
            kind: String::new(alloc),
            times: 0,
        }
    }

    /// The last kind is written.
    fn settle(&mut self, alloc: Global) -> Result<()> {
        let word = match self.times {
            0 => return Ok(()),
            1 => format!(in alloc; " {}", self.kind)?,
            times => format!(in alloc; " {}*{times}", self.kind)?,
        };
        self.words.push_str(word.as_str())?;
        self.times = 0;
        Ok(())
    }

    /// A job more.
    fn add(&mut self, alloc: Global, job: &Job) -> Result<()> {
        let kind = kind_of(alloc, &job.body)?;
        if kind.as_str() != self.kind.as_str() {
            self.settle(alloc)?;
            self.kind = kind;
        }
        self.times = self.times.saturating_add(1);
        Ok(())
    }
}

/// The jobs of each connection, in the order in which the connections came.
#[derive(Drop)]
pub struct Jobs {
    alloc: Global,
    all: Vec<Brought>,
    /// Whether each job was kept.
    is_whole: bool,
}

impl Jobs {
    /// None yet.
    pub fn new(alloc: Global) -> Self {
        Jobs {
            alloc,
            all: Vec::new(alloc),
            is_whole: true,
        }
    }

    /// Adds a job to those of its connection.
    fn add(&mut self, job: &Job) -> Result<()> {
        if !self.all.iter().any(|brought| brought.conn == job.conn) {
            self.all.push(Brought::new(self.alloc, job.conn))?;
        }
        let its = self.all.iter_mut().find(|brought| brought.conn == job.conn);
        its.ok_or(anyhow!("a connection"))?.add(self.alloc, job)
    }

    /// Adds those of another tape.
    pub fn add_all(&mut self, other: Jobs) -> Result<()> {
        for brought in other.all {
            self.all.push(brought)?;
        }
        self.is_whole = self.is_whole && other.is_whole;
        Ok(())
    }

    /// Puts the connections into the order of their numbers.
    pub fn sort(&mut self) -> Result<()> {
        Ok(self.all.sort_by(|a, b| (a.conn.worker, a.conn.seq).cmp(&(b.conn.worker, b.conn.seq)))?)
    }
}

impl Tape for Jobs {
    ghost tells = { ⊥ };

    ghost turns = { λ _. [] };

    ghost has_room = { λ _ _. Unit {0} };

    fn room(&mut self, _jobs: &[Job]) -> Result<(), NoMem> {
        Ok(())
    }

    fn keep(&mut self, jobs: &[Job], _now: TimeSpec, _gap: Option<Gap<Job>>) {
        for job in jobs {
            if self.add(job).is_err() {
                self.is_whole = false;
            }
        }
    }
}

/// Prints the jobs of each connection.
pub fn show_jobs(rt: &HostRuntime, jobs: &mut Jobs) -> Result<()> {
    if !jobs.is_whole {
        return Err(anyhow!("out of memory"));
    }
    for brought in &mut jobs.all {
        brought.settle(jobs.alloc)?;
        println!(rt;
            "jobs {}.{}{}",
            brought.conn.worker, brought.conn.seq, brought.words
        )?;
    }
    Ok(())
}
