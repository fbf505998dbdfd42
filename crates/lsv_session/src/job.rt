use crate::ConnId;
use lsv_msg::{ClientMessage, MsgFault};

/// What a connection brings to the keeper of its lane.
#[derive(Debug, Drop)]
pub struct Job {
    pub conn: ConnId,
    pub body: Body,
}

#[derive(Debug, Drop)]
pub enum Body {
    /// A message.
    Msg(ClientMessage),
    /// The bytes go on as no message. Nothing of this connection comes after it but its end.
    Bad(Fault),
    /// The connection ended.
    Gone,
}

/// Why no message was read.
#[derive(Clone, Copy, Debug, PartialEq, Eq)]
pub enum Fault {
    /// The bytes of a frame are no message.
    Malformed(MsgFault),
    /// A frame states this many bytes, more than a message may have.
    TooLarge(u32),
    NoMem,
}
