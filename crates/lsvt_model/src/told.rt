ghost use Rattle.std.specs.Prelude.{◌≡◌, [], ◌∷◌, ◌++◌, true, false, map, OnOk};
ghost use Rattle.lsv_machine.specs.Answers.{reply_of};
ghost use Rattle.lsvt_model.specs.Inner.{answers_of};
ghost use Rattle.lsv_session.specs.declared.reply.ReplyBody.TheVariants as body;

use crate::points::time_of;
use lsv_base::{Bytes, LogNo, NoMem};
use lsv_msg::ServerMessage;
use lsv_request::Refusal;
use lsv_session::{ConnId, Reply, ReplyBody};
use std::alloc::Global;

/// What a job is answered.
#[derive(Clone, Copy, Debug, PartialEq, Eq)]
pub enum Told {
    Nothing,
    /// A log was opened.
    Log(LogNo),
    /// The session is refused, and shut.
    Refused(Refusal),
    /// A log ended at this point, in nanoseconds, and the session with it.
    Finished(u64),
    /// The session ended.
    Shut,
    /// The connection went.
    Farewell,
}

/// The reply that says this to a connection.
pub fn say(conn: ConnId, message: ServerMessage) -> Reply
    ensures { result ≡ record { conn = conn; body = body.Say message; last = false } }
{
    Reply {
        conn,
        body: ReplyBody::Say(message),
        last: false,
    }
}

/// The reply that ends what is said to a connection.
fn shut(conn: ConnId, last: bool) -> Reply
    ensures { result ≡ record { conn = conn; body = body.Shut; last = last } }
{
    Reply {
        conn,
        body: ReplyBody::Shut,
        last,
    }
}

/// Puts the replies of an answer at the end.
pub fn put_replies(
    alloc: Global,
    replies: &mut Vec<Reply>,
    conn: ConnId,
    told: Told,
) -> Result<(), NoMem>
    ensures { OnOk result (replies.new.items ≡ replies.old.items ++ map reply_of (answers_of conn told)) }
{
    match told {
        Told::Nothing => (),
        Told::Log(log) => {
            let id = Bytes::of(alloc, &log.digits())?;
            replies.push(say(conn, ServerMessage::LogId(id)))?;
        }
        Told::Refused(why) => {
            let text = Bytes::of(alloc, why.text().as_bytes())?;
            replies.push(say(conn, ServerMessage::Error(text)))?;
            replies.push(shut(conn, false))?;
        }
        Told::Finished(point) => {
            replies.push(say(conn, ServerMessage::CommitPoint(time_of(point))))?;
            replies.push(shut(conn, false))?;
        }
        Told::Shut => replies.push(shut(conn, false))?,
        Told::Farewell => replies.push(shut(conn, true))?,
    }
    Ok(())
}
