use lsv_base::{Bytes, LogNo, Point, TimeSpec};
use lsv_info::{Exit, Head, Info};
use lsv_record::Record;

/// What a message of a client asks of a session. Its times are valid, and its record is.
#[derive(Debug, Drop)]
pub enum Request {
    /// A conversation begins.
    Hello,
    /// A command was accepted.
    Accept(Accept),
    /// A command was rejected.
    Reject(Report),
    /// Something is amiss.
    Alert(Report),
    /// A log is to be gone on with.
    Restart(Restart),
    /// A record of the command's session.
    Record(Record),
    /// The command ended.
    Exit(Exit),
}

/// An accepted command, and whether records of it will follow.
#[derive(Debug, Drop)]
pub struct Accept {
    pub head: Head,
    pub expect_iobufs: bool,
}

/// A rejected command or an alert: when and why, and what is told of the command.
#[derive(Debug, Drop)]
pub struct Report {
    pub time: TimeSpec,
    pub reason: Bytes,
    pub info: Info,
}

/// The log that is to be gone on with, and the point after which its next record comes.
#[derive(Clone, Copy, Debug, PartialEq, Eq)]
pub struct Restart {
    pub log: LogNo,
    pub point: Point,
}
