//! What happened: the jobs and replies that were given, as what a connection asked and what it was told.

use anyhow::{Result, anyhow};
use lsv_base::{Bytes, LogNo};
use lsv_msg::{ClientMessage, ServerMessage};
use lsv_request::{Request, request_of};
use lsv_session::{ConnId, Reply, ReplyBody};
use std::alloc::Global;

/// What a connection is told.
#[derive(Clone, Copy, Debug, PartialEq, Eq)]
pub enum Says {
    /// The number of the log that was opened.
    LogId(LogNo),
    /// All is durable up to this many nanoseconds.
    CommitPoint(u64),
    /// Why the session ends.
    Error,
    /// Nothing more comes.
    Shut,
}

/// What one connection is told.
#[derive(Clone, Copy, Debug, PartialEq, Eq)]
pub struct Answer {
    pub conn: ConnId,
    pub says: Says,
}

/// What a job is about.
#[derive(Debug, Drop)]
pub enum Asked {
    /// A message that isn't refused for what it brings.
    Request(Request),
    /// The connection went.
    Gone,
}

/// A job with its answers, whether its log may have failed inside a cut, and the event line that it left.
#[derive(Debug, Drop)]
pub struct Act {
    pub conn: ConnId,
    pub asked: Asked,
    pub answers: Vec<Answer>,
    pub in_cut: bool,
    pub line: Bytes,
}

/// The end of a turn: its answers, and whether a call on the event log failed in the turn.
#[derive(Debug, Drop)]
pub struct Tail {
    pub answers: Vec<Answer>,
    pub lines_failed: bool,
}

/// What happens, one after another.
#[derive(Debug, Drop)]
pub enum Happened {
    Did(Act),
    Tailed(Tail),
    /// A run begins, where all that ran before has stopped.
    Begins,
}

impl Happened {
    /// Whether a job is answered so.
    pub fn tells(&self, says: Says) -> bool {
        match self {
            Happened::Did(act) => act.answers.iter().any(|answer| answer.says == says),
            _ => false,
        }
    }
}

impl Asked {
    /// What a message asks for.
    pub fn of_message(message: ClientMessage) -> Result<Asked> {
        match request_of(message) {
            Ok(request) => Ok(Asked::Request(request)),
            Err(_) => Err(anyhow!("a message that is refused for what it brings")),
        }
    }
}

/// What these replies tell.
pub fn answers_of(alloc: Global, replies: &[Reply]) -> Result<Vec<Answer>> {
    let mut answers = Vec::new(alloc);
    for reply in replies {
        let conn = reply.conn;
        let says = says_of(&reply.body)?;
        answers.push(Answer { conn, says })?;
    }
    Ok(answers)
}

fn says_of(body: &ReplyBody) -> Result<Says> {
    match body {
        ReplyBody::Say(message) => said(message),
        ReplyBody::Shut => Ok(Says::Shut),
    }
}

fn said(message: &ServerMessage) -> Result<Says> {
    match message {
        ServerMessage::LogId(text) => {
            let number = LogNo::read(text.as_slice()).ok_or(anyhow!("no number of a log"))?;
            Ok(Says::LogId(number))
        }
        ServerMessage::CommitPoint(time) => {
            let point = time.delay().ok_or(anyhow!("no time"))?;
            Ok(Says::CommitPoint(point))
        }
        ServerMessage::Error(_) => Ok(Says::Error),
        _ => Err(anyhow!("no answer of a keeper")),
    }
}

/// How many of these answers, which come after those of the jobs before, are the job's own. The others are of later
/// jobs, or of the turn's end. It is told by what a job can be answered: a record, a hello or an alert that is
/// refused is so at the turn's end, as in conversations that are legal.
pub fn own_answers(conn: ConnId, asked: &Asked, answers: &[Answer]) -> usize {
    let [first, ..] = answers else {
        return 0;
    };
    if first.conn != conn {
        return 0;
    }
    match (first.says, asked) {
        (Says::LogId(_), Asked::Request(Request::Accept(_))) => 1,
        (Says::CommitPoint(_), Asked::Request(Request::Exit(_))) => 2,
        (Says::Shut, Asked::Request(Request::Reject(_)) | Asked::Gone) => 1,
        (Says::Error, Asked::Request(request)) if may_be_refused(request) => 2,
        _ => 0,
    }
}

/// Whether a job itself may meet a fault of a device.
fn may_be_refused(request: &Request) -> bool {
    match request {
        Request::Accept(_) | Request::Reject(_) | Request::Restart(_) | Request::Exit(_) => true,
        Request::Hello | Request::Alert(_) | Request::Record(_) => false,
    }
}
