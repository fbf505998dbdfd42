//! The messages of sudo_logsrv.proto(5). Strings are bytes, which needn't be UTF-8.

use crate::Boxed;
use lsv_base::{Bytes, List, TimeSpec};
use lsv_info::Info;

/// A message of a client. What is rare and large stands on the heap, so that a record is small.
#[derive(Debug, Drop)]
pub enum ClientMessage {
    Accept(Boxed<AcceptMessage>),
    Reject(Boxed<RejectMessage>),
    Exit(Boxed<ExitMessage>),
    Restart(RestartMessage),
    Alert(Boxed<AlertMessage>),
    Ttyin(IoBuffer),
    Ttyout(IoBuffer),
    Stdin(IoBuffer),
    Stdout(IoBuffer),
    Stderr(IoBuffer),
    Winsize(ChangeWindowSize),
    Suspend(CommandSuspend),
    Hello(ClientHello),
}

/// A message of a server.
#[derive(Debug, Drop)]
pub enum ServerMessage {
    Hello(Boxed<ServerHello>),
    CommitPoint(TimeSpec),
    LogId(Bytes),
    Error(Bytes),
    Abort(Bytes),
}

/// Data of a stream, and the time since the record before.
#[derive(Debug, Drop)]
pub struct IoBuffer {
    pub delay: Option<TimeSpec>,
    pub bytes: Bytes,
}

#[derive(Debug, Drop)]
pub struct ChangeWindowSize {
    pub delay: Option<TimeSpec>,
    pub rows: i32,
    pub cols: i32,
}

#[derive(Debug, Drop)]
pub struct CommandSuspend {
    pub delay: Option<TimeSpec>,
    /// The name of the signal, without `SIG`.
    pub signal: Bytes,
}

#[derive(Debug, Drop)]
pub struct AcceptMessage {
    pub submit_time: Option<TimeSpec>,
    pub info_msgs: Info,
    /// Whether records of the command's input and output will follow.
    pub expect_iobufs: bool,
}

#[derive(Debug, Drop)]
pub struct RejectMessage {
    pub submit_time: Option<TimeSpec>,
    pub reason: Bytes,
    pub info_msgs: Info,
}

#[derive(Debug, Drop)]
pub struct AlertMessage {
    pub alert_time: Option<TimeSpec>,
    pub reason: Bytes,
    pub info_msgs: Info,
}

#[derive(Debug, Drop)]
pub struct ExitMessage {
    pub run_time: Option<TimeSpec>,
    pub exit_value: i32,
    pub dumped_core: bool,
    /// The name of the signal that ended the command, without `SIG`.
    pub signal: Bytes,
    pub error: Bytes,
}

#[derive(Debug, Drop)]
pub struct RestartMessage {
    pub log_id: Bytes,
    pub resume_point: Option<TimeSpec>,
}

#[derive(Debug, Drop)]
pub struct ClientHello {
    pub client_id: Bytes,
}

#[derive(Debug, Drop)]
pub struct ServerHello {
    pub server_id: Bytes,
    pub redirect: Bytes,
    pub servers: List<Bytes>,
    pub subcommands: bool,
}
