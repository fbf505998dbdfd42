ghost use Rattle.std.specs.Prelude.{◌≡◌};

use lsv_base::{Bytes, NoMem, Point};
use lsv_msg::MsgFault;

/// At most this many messages are said before it is looked again whether something came.
pub const MOST_PUT: usize = 16;

/// No identifier of a server is longer, in bytes.
pub const LONGEST_ID: usize = 4_096;

/// The most messages that are heard on one connection.
pub const MOST_HEARD: u32 = 1_048_576;

/// What a speaker makes of a message before it takes it.
#[derive(Clone, Copy, Debug, PartialEq, Eq)]
pub enum Judged {
    /// It takes it.
    Takes,
    /// A commit point above what was sent, or of no valid time, and then with the greatest point.
    Strange(Point),
    /// A log identifier that is too long, with its length.
    LongId(u64),
}

/// What a speaker wants of a conversation.
#[derive(Clone, Copy, Debug, PartialEq, Eq)]
pub enum Wants {
    /// To go on.
    More,
    /// All was said and answered. The connection is read on to its end.
    End,
    /// Nothing. The connection is closed.
    Nothing,
}

/// Why a conversation stopped.
#[derive(Debug, Drop)]
pub enum Cause {
    /// The connection couldn't be made.
    Unreached,
    /// 30 s went by without progress: no message was put, no identifier came, and no commit point above the last one.
    NotYet,
    /// The connection's input ended.
    Ended,
    /// A read or a write failed.
    Failed,
    /// The server said an error or an abort, with this text.
    Said(Bytes),
    /// The server's message is malformed.
    Malformed(MsgFault),
    /// The server states a message of this length, above the limit of a frame.
    TooLarge(u32),
    /// As the speaker judged: a commit point that can't be.
    Strange(Point),
    /// As the speaker judged: an identifier of this length.
    LongId(u64),
    /// 1,048,576 messages were heard.
    Chatter,
    /// The next message to the server has this many bytes, above the limit of a frame.
    TooLong(u64),
}

/// How a conversation ended.
#[derive(Debug, Drop)]
pub enum End {
    /// The speaker has what it wanted: it wants nothing more; or it wants the connection's end, and the input ended after a
    /// whole message, or nothing came for 30 s.
    Over,
    Stopped(Cause),
}

/// Why a conversation broke off.
#[derive(Debug, Drop)]
pub enum TalkFault<F> {
    NoMem,
    /// A step of the speaker failed.
    Speaker(F),
}

impl<F> From<NoMem> for TalkFault<F> {
    ghost use Rattle.lsv_dialogue.specs.declared.ends.TalkFault.TheVariants as faults;

    ghost from_gives = { λ _ e. e ≡ faults.NoMem };

    fn from(_: NoMem) -> Self {
        TalkFault::NoMem
    }
}
