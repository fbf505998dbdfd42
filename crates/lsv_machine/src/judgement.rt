ghost use Rattle.std.specs.Prelude.{◌≡◌, Ok};
ghost use Rattle.lsv_request.specs.Requests.{request_of};
ghost use Rattle.lsv_machine.specs.Judgement.{allows, fault_refusal, is_accept, judged, row, with_keys};

use crate::connections::is_running;
use lsv_msg::{ClientMessage, MsgFault};
use lsv_request::{Refusal, Request, has_keys, request_of};
use lsv_session::{ConnState, Fault};

/// Whether a message is allowed to a fresh, a greeted and an alerted connection, and in a session without and with a log.
#[derive(Clone, Copy)]
struct Row(bool, bool, bool, bool, bool);

impl Row {
    /// Whether it is allowed in this state.
    fn allows(self, state: ConnState) -> bool
        ensures { result ≡ row self.0 self.1 self.2 self.3 self.4 state }
    {
        match state {
            ConnState::Fresh => self.0,
            ConnState::Greeted => self.1,
            ConnState::Alerted => self.2,
            ConnState::Running(None) => self.3,
            ConnState::Running(Some(_)) => self.4,
            ConnState::Dead => false,
        }
    }
}

/// Whether a message is allowed in this state.
#[inline(always)]
fn allows(message: &ClientMessage, state: ConnState) -> bool
    ensures { result ≡ allows message.now state }
{
    match message {
        ClientMessage::Hello(_) => Row(true, false, false, false, false).allows(state),
        ClientMessage::Accept(_) => Row(true, true, true, true, true).allows(state),
        ClientMessage::Reject(_) => Row(true, true, true, true, true).allows(state),
        ClientMessage::Alert(_) => Row(true, true, true, true, true).allows(state),
        ClientMessage::Restart(_) => Row(true, true, false, false, false).allows(state),
        ClientMessage::Exit(_) => Row(false, false, false, true, true).allows(state),
        _ => Row(false, false, false, false, true).allows(state),
    }
}

/// What is asked, or that an accept that opens a session lacks its keys.
fn with_keys(state: ConnState, asked: Request) -> Result<Request, Refusal>
    ensures { result ≡ with_keys state (Ok asked) }
{
    match &asked {
        Request::Accept(accept) if !is_running(state) && !has_keys(&accept.head.info) => {
            Err(Refusal::MissingKey)
        }
        _ => Ok(asked),
    }
}

/// What an accept asks, or why it is refused.
#[cold]
#[inline(never)]
fn judged_accept(state: ConnState, message: ClientMessage) -> Result<Request, Refusal>
    ensures { result ≡ with_keys state (request_of message) }
{
    with_keys(state, request_of(message)?)
}

/// What a message asks of a session in this state, or the first refusal: its state, then its time, then its size, signal,
/// identifier or amount of data, then its keys, which an accept alone has.
#[inline(always)]
#[tactic(auto, using(crate::proofs::JudgedLemmas::others_pass))]
pub fn judged(state: ConnState, message: ClientMessage) -> Result<Request, Refusal>
    ensures { result ≡ judged state message }
{
    if !allows(&message, state.copied()) {
        return Err(Refusal::UnexpectedMessage);
    }
    if is_accept(&message) {
        return judged_accept(state, message);
    }
    request_of(message)
}

/// Whether this is an accept.
#[inline(always)]
fn is_accept(message: &ClientMessage) -> bool
    ensures { result ≡ is_accept message.now }
{
    matches!(message, ClientMessage::Accept(_))
}

/// Why a connection is refused from which no message comes.
pub fn fault_refusal(fault: Fault) -> Refusal
    ensures { result ≡ fault_refusal fault }
{
    match fault {
        Fault::Malformed(MsgFault::NoMem) | Fault::NoMem => Refusal::OutOfMemory,
        Fault::Malformed(_) => Refusal::MalformedMessage,
        Fault::TooLarge(_) => Refusal::MessageTooLarge,
    }
}
