//! Why a pair ends by an error, and what its client is told of it.

ghost use Rattle.std.specs.Prelude.{◌≡◌, IfOk, Some, codes};
ghost use Rattle.lsv_live.specs.Pairs.{error_frame, refusal_for, words};

use crate::LiveFault;
use crate::meter::frame;
use lsv_base::{Bytes, NoMem};
use lsv_msg::ServerMessage;
use lsv_request::Refusal;
use std::alloc::Global;

/// Why a pair ends by an error.
#[derive(Clone, Copy, Debug, PartialEq, Eq)]
pub enum Trouble {
    /// The client's message is refused.
    Refused(LiveFault),
    /// The client stated a length above the limit of a frame.
    TooLarge,
    /// The other server couldn't be reached, or its link ended or failed before an exit or a reject was passed on.
    RelayLost,
    /// The other server's message is refused.
    BadUpstream,
    /// The other server said an error or an abort, which was passed on.
    Told,
    NoMem,
}

/// The error of this text, in its frame.
fn error_frame(alloc: Global, text: &str) -> Result<Bytes, NoMem>
    ensures { IfOk result (λ f. f ≡ error_frame text.now) }
{
    let message = ServerMessage::Error(Bytes::of(alloc, text.as_bytes())?);
    match frame(alloc, &message) {
        Ok(frame) => Ok(frame),
        Err(_) => Err(NoMem),
    }
}

/// As what a client's message is refused that has this fault.
fn refusal_for(fault: &LiveFault) -> Refusal
    ensures { result ≡ refusal_for fault.now }
{
    match fault {
        LiveFault::Malformed(_) => Refusal::MalformedMessage,
        LiveFault::BadTime => Refusal::BadTime,
        LiveFault::TooLong(_) => Refusal::LogFull,
        LiveFault::Strange(_) => Refusal::OutOfMemory,
        LiveFault::NoMem => Refusal::OutOfMemory,
        LiveFault::Long(_) => Refusal::OutOfMemory,
    }
}

/// The text for a client whose other server is lost.
fn lost_text() -> &'static str
    ensures { result.now ≡ codes "relay lost" }
{
    "relay lost"
}

/// The text for a client whose other server says what is refused.
fn bad_text() -> &'static str
    ensures { result.now ≡ codes "bad upstream" }
{
    "bad upstream"
}

/// The error that the client is told of a trouble.
pub(crate) fn words(alloc: Global, trouble: &Trouble) -> Result<Bytes, NoMem>
    ensures { IfOk result (λ f. f ≡ words (Some trouble.now)) }
{
    match trouble {
        Trouble::Refused(fault) => error_frame(alloc, refusal_for(fault).text()),
        Trouble::TooLarge => error_frame(alloc, Refusal::MessageTooLarge.text()),
        Trouble::RelayLost => error_frame(alloc, lost_text()),
        Trouble::BadUpstream => error_frame(alloc, bad_text()),
        Trouble::Told => Ok(Bytes::new(alloc)),
        Trouble::NoMem => error_frame(alloc, Refusal::OutOfMemory.text()),
    }
}
