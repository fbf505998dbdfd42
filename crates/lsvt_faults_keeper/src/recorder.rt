//! Notes what happens, job by job and turn by turn.

use crate::history::{Act, Answer, Asked, Happened, Says, Tail, own_answers};
use crate::lines::line_of;
use crate::script::asked_of;
use anyhow::Result;
use lsv_base::{Bytes, LogNo};
use lsv_disk::{FileId, Owner, Part};
use lsv_request::Request;
use lsv_session::ConnId;
use lsvt_doubles::Hostile;
use std::alloc::Global;

/// What has happened, who was shut, and who writes which log.
#[derive(Drop)]
pub struct Recorder {
    alloc: Global,
    pub history: Vec<Happened>,
    shut: Vec<ConnId>,
    writing: Vec<(ConnId, LogNo)>,
    /// How many replies were refusals.
    pub refused: u64,
}

/// Whether a call on an event log failed.
fn lines_failed(disk: &Hostile) -> bool {
    [Part::Slots, Part::Lines].iter().any(|part| disk.has_failed(FileId::new(
        Owner::Events(0),
        *part,
    )))
}

/// Whether it is a restart of a log whose journal failed.
fn is_in_cut(asked: &Asked, disk: &Hostile) -> bool {
    match asked {
        Asked::Request(Request::Restart(restart)) => {
            disk.has_failed(FileId::new(Owner::Log(restart.log.get()), Part::Slots))
        }
        _ => false,
    }
}

/// Whether these answers begin with a refusal.
fn is_refused(answers: &[Answer]) -> bool {
    matches!(answers.first(), Some(answer) if answer.says == Says::Error)
}

impl Recorder {
    pub fn new(alloc: Global) -> Self {
        Recorder {
            alloc,
            history: Vec::new(alloc),
            shut: Vec::new(alloc),
            writing: Vec::new(alloc),
            refused: 0,
        }
    }

    /// A run begins.
    pub fn begin(&mut self) -> Result<()> {
        self.shut.clear();
        self.writing.clear();
        Ok(self.history.push(Happened::Begins)?)
    }

    /// The jobs of a turn, and their answers. It says how many of the answers are those of jobs.
    pub fn note_jobs(
        &mut self,
        disk: &Hostile,
        lines: &[String],
        answers: &[Answer],
    ) -> Result<usize> {
        let mut told: usize = 0;
        for line in lines {
            let (conn, asked) = asked_of(self.alloc, line.as_str())?;
            let rest = answers.get(told..).unwrap_or(&[]);
            let count = own_answers(conn, &asked, rest);
            let own = rest.get(..count).unwrap_or(&[]).to_vec(self.alloc)?;
            told = told.saturating_add(count);
            self.note_job(disk, conn, asked, own)?;
        }
        Ok(told)
    }

    /// The end of a turn.
    pub fn note_tail(&mut self, disk: &Hostile, answers: &[Answer]) -> Result<()> {
        let tail = Tail {
            answers: answers.to_vec(self.alloc)?,
            lines_failed: lines_failed(disk),
        };
        self.hear_all(answers)?;
        Ok(self.history.push(Happened::Tailed(tail))?)
    }

    fn note_job(
        &mut self,
        disk: &Hostile,
        conn: ConnId,
        asked: Asked,
        answers: Vec<Answer>,
    ) -> Result<()> {
        let line = self.line(conn, &asked, &answers)?;
        self.note_writer(conn, &asked, &answers)?;
        self.hear_all(&answers)?;
        if let Asked::Gone = asked {
            self.shut.retain(|other| *other != conn);
        }
        let in_cut = is_in_cut(&asked, disk);
        let act = Act {
            conn,
            asked,
            answers,
            in_cut,
            line,
        };
        Ok(self.history.push(Happened::Did(act))?)
    }

    /// The event line that a job left: none where its connection was shut before, or is refused.
    fn line(&self, conn: ConnId, asked: &Asked, answers: &[Answer]) -> Result<Bytes> {
        match asked {
            Asked::Request(request) if !self.shut.contains(&conn) && !is_refused(answers) => {
                line_of(self.alloc, conn, request, self.log_of(conn, answers))
            }
            _ => Ok(Bytes::new(self.alloc)),
        }
    }

    /// The log that a connection is told, or else the one that it writes.
    fn log_of(&self, conn: ConnId, answers: &[Answer]) -> Option<LogNo> {
        if let Some(
            Answer {
                says: Says::LogId(number),
                ..
            },
        ) = answers.first()
        {
            return Some(*number);
        }
        let (_, number) = self.writing.iter().find(|(writer, _)| *writer == conn)?;
        Some(*number)
    }

    /// Who opens a log, or goes on with one, writes it.
    fn note_writer(&mut self, conn: ConnId, asked: &Asked, answers: &[Answer]) -> Result<()> {
        match (asked, answers.first()) {
            (Asked::Request(Request::Restart(restart)), None) => {
                Ok(self.writing.push((conn, restart.log))?)
            }
            (_, Some(answer)) => match answer.says {
                Says::LogId(number) => Ok(self.writing.push((conn, number))?),
                _ => Ok(()),
            },
            _ => Ok(()),
        }
    }

    fn hear_all(&mut self, answers: &[Answer]) -> Result<()> {
        for answer in answers {
            match answer.says {
                Says::Shut => self.shut.push(answer.conn)?,
                Says::Error => self.refused = self.refused.saturating_add(1),
                _ => (),
            }
        }
        Ok(())
    }
}
