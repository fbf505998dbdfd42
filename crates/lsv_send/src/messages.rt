//! The messages of a log without its records.
ghost use Rattle.std.specs.Prelude.{◌≡◌, IfOk};
ghost use Rattle.lsv_transcript.specs.Transcript.{ending};
ghost use Rattle.lsv_send.specs.Plan.{lone_accept, reject_of};

use lsv_base::{Bytes, List, NoMem};
use lsv_info::{Exit, Head};
use lsv_msg::{AcceptMessage, Boxed, ClientMessage, RejectMessage};
use lsv_request::exit_message;
use std::alloc::Global;

/// The accept of a head, after which no records follow.
pub fn lone_accept(alloc: Global, head: Head) -> Result<ClientMessage, NoMem>
    ensures { IfOk result (λ m. m ≡ lone_accept head) }
{
    let accept = AcceptMessage {
        submit_time: Some(head.submit),
        info_msgs: head.info,
        expect_iobufs: false,
    };
    Ok(ClientMessage::Accept(Boxed::new(alloc, accept)?))
}

/// A reject of the command of a head, for this reason.
pub fn reject_of(alloc: Global, head: Head, reason: &Bytes) -> Result<ClientMessage, NoMem>
    ensures { IfOk result (λ m. m ≡ reject_of head reason.now) }
{
    let reject = RejectMessage {
        submit_time: Some(head.submit),
        reason: reason.copy(alloc)?,
        info_msgs: head.info,
    };
    Ok(ClientMessage::Reject(Boxed::new(alloc, reject)?))
}

/// The message of an exit, if there is one.
pub fn ending(alloc: Global, exit: Option<Exit>) -> Result<List<ClientMessage>, NoMem>
    ensures { IfOk result (λ ms. ms ≡ ending exit) }
{
    let Some(exit) = exit else {
        return Ok(List::new(alloc));
    };
    let mut messages = Vec::with_capacity(alloc, 1)?;
    messages.push(exit_message(alloc, exit)?)?;
    Ok(List::from_vec(messages))
}
