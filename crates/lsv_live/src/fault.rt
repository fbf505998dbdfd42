use lsv_base::Point;
use lsv_msg::MsgFault;
use thiserror::Error;

/// Why a message isn't passed on.
#[derive(Clone, Copy, Debug, PartialEq, Eq, Error)]
pub enum LiveFault {
    /// The bytes are no message.
    #[error("malformed message: {0}")]
    Malformed(MsgFault),
    /// A record's delay or a restart's point is missing or isn't a valid time.
    #[error("bad time")]
    BadTime,
    /// The client's elapsed time would reach 2^63 nanoseconds. It is this far.
    #[error("the elapsed time is too long")]
    TooLong(Point),
    /// A commit point is above the client's elapsed time. Or it isn't a valid time: then this is the greatest point.
    #[error("a commit point of the other server can't be")]
    Strange(Point),
    #[error("out of memory")]
    NoMem,
    /// The message has this many canonical bytes, more than a frame holds.
    #[error("a message of {0} bytes is longer than a frame holds")]
    Long(u64),
}
