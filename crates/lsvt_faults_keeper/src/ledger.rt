//! What a history says of one log, by jobs and answers alone: who writes it, what was sent, what was promised.

use crate::history::{Act, Answer, Asked, Happened, Says};
use anyhow::Result;
use lsv_base::LogNo;
use lsv_info::{Exit, Head};
use lsv_record::Record;
use lsv_request::{Accept, Request, Restart};
use lsv_session::ConnId;
use std::alloc::Global;

/// What a history says of a log. The runs have no prompts, so what is shown of a log is what was sent.
#[derive(Drop)]
pub struct Ledger<'a> {
    number: LogNo,
    /// To whom a Shut went, since the later of their last Gone and the run's start.
    shut: Vec<ConnId>,
    /// Who writes the log.
    writers: Vec<ConnId>,
    /// The head of the accept that was answered by the log's number.
    pub head: Option<&'a Head>,
    /// What the writers sent and a restart has not cut off.
    pub sent: Vec<&'a Record>,
    /// How many of these are promised: none until the log's number was answered.
    pub promised: Option<usize>,
    /// The last exit of a writer.
    pub exit: Option<&'a Exit>,
    /// Whether a commit point has answered an exit.
    pub finished: bool,
    /// How often the log's number was answered.
    pub told: usize,
}

/// What a history says of the log of a number.
pub fn ledger_of<'a>(alloc: Global, number: LogNo, history: &'a [Happened]) -> Result<Ledger<'a>> {
    let mut ledger = Ledger::blank(alloc, number);
    for happened in history {
        ledger.note(happened)?;
    }
    Ok(ledger)
}

/// How many records there are through the first that ends at this point, if one ends there.
fn first(records: &[&Record], point: u64) -> Option<usize> {
    let mut elapsed: u64 = 0;
    let mut count: usize = 0;
    for r in records {
        elapsed = elapsed.saturating_add(r.delay());
        count = count.saturating_add(1);
        if elapsed == point {
            return Some(count);
        }
    }
    None
}

impl<'a> Ledger<'a> {
    fn blank(alloc: Global, number: LogNo) -> Self {
        Ledger {
            number,
            shut: Vec::new(alloc),
            writers: Vec::new(alloc),
            head: None,
            sent: Vec::new(alloc),
            promised: None,
            exit: None,
            finished: false,
            told: 0,
        }
    }

    /// What happens is noted.
    fn note(&mut self, happened: &'a Happened) -> Result<()> {
        match happened {
            Happened::Did(act) => self.note_act(act),
            Happened::Tailed(tail) => self.hear_all(false, &tail.answers),
            Happened::Begins => {
                self.shut.clear();
                self.writers.clear();
                Ok(())
            }
        }
    }

    /// What a job changes: by what it asks, by what is told, and where the connection went.
    fn note_act(&mut self, act: &'a Act) -> Result<()> {
        match &act.asked {
            Asked::Request(request) => {
                self.note_request(act, request)?;
                self.hear_all(matches!(request, Request::Exit(_)), &act.answers)
            }
            Asked::Gone => {
                self.hear_all(false, &act.answers)?;
                self.shut.retain(|conn| *conn != act.conn);
                Ok(())
            }
        }
    }

    /// What a request changes, by how it was answered.
    fn note_request(&mut self, act: &'a Act, request: &'a Request) -> Result<()> {
        let writes = self.writers.contains(&act.conn);
        match request {
            Request::Accept(accept) if self.is_told(&act.answers) => self.open(act.conn, accept),
            Request::Restart(restart) if restart.log == self.number => self.restart(act, restart),
            Request::Record(r) if act.answers.is_empty() && writes => Ok(self.sent.push(r)?),
            Request::Exit(exit) if writes => {
                self.exit = Some(exit);
                Ok(())
            }
            _ => Ok(()),
        }
    }

    /// Whether these answers tell the log's number.
    fn is_told(&self, answers: &[Answer]) -> bool {
        let told = Says::LogId(self.number);
        answers.iter().any(|answer| answer.says == told)
    }

    /// A connection opened the log: it writes it, unless it was shut.
    fn open(&mut self, conn: ConnId, accept: &'a Accept) -> Result<()> {
        if !self.shut.contains(&conn) {
            self.writers.push(conn)?;
        }
        self.head = Some(&accept.head);
        self.sent.clear();
        self.promised = Some(0);
        self.exit = None;
        self.finished = false;
        self.told = self.told.saturating_add(1);
        Ok(())
    }

    /// A restart of the log is accepted where it has no answer and the connection wasn't shut. One that failed inside its cut
    /// promises no record after the first that ends at its point.
    fn restart(&mut self, act: &Act, restart: &Restart) -> Result<()> {
        let ends = first(&self.sent, restart.point.nanos());
        if act.answers.is_empty() {
            if !self.shut.contains(&act.conn) {
                self.resume(act.conn, ends)?;
            }
        } else if act.in_cut {
            self.lower(ends);
        }
        Ok(())
    }

    /// A connection writes the log after this many records: what was sent is cut there.
    fn resume(&mut self, conn: ConnId, ends: Option<usize>) -> Result<()> {
        let kept = ends.unwrap_or(self.sent.len());
        self.writers.push(conn)?;
        self.sent.truncate(kept);
        if self.promised.is_some() {
            self.promised = Some(kept);
        }
        Ok(())
    }

    /// No record after these is promised.
    fn lower(&mut self, ends: Option<usize>) {
        if let (Some(promised), Some(kept)) = (self.promised, ends) {
            self.promised = Some(promised.min(kept));
        }
    }

    /// A commit point at a point promises the records through the first that ends there.
    fn raise(&mut self, point: u64) {
        let ends = first(&self.sent, point);
        if let (Some(promised), Some(kept)) = (self.promised, ends) {
            self.promised = Some(promised.max(kept));
        }
    }

    /// What is told. exits: it answers an exit.
    fn hear(&mut self, exits: bool, answer: &Answer) -> Result<()> {
        let writes = self.writers.contains(&answer.conn);
        match answer.says {
            Says::CommitPoint(_) if writes && exits => {
                self.finished = true;
                if self.promised.is_some() {
                    self.promised = Some(self.sent.len());
                }
            }
            Says::CommitPoint(point) if writes => self.raise(point),
            Says::Shut => {
                self.shut.push(answer.conn)?;
                self.writers.retain(|conn| *conn != answer.conn);
            }
            _ => (),
        }
        Ok(())
    }

    fn hear_all(&mut self, exits: bool, answers: &[Answer]) -> Result<()> {
        for answer in answers {
            self.hear(exits, answer)?;
        }
        Ok(())
    }
}
