ghost use Rattle.std.specs.Prelude.{◌≡◌, ◌≤◌, ◌⊎◌, false, [], ◌∷◌, map, IfSome};
ghost use Rattle.lsv_request.specs.declared.refusal.Refusal.TheVariants.{OutOfMemory};
ghost use Rattle.lsv_session.specs.Connections.{refusal_message};
ghost use Rattle.lsv_session.specs.declared.reply.ReplyBody.TheVariants as body;
ghost use Rattle.lsv_machine.specs.Answers.{CommitPoint, refusal, reply_of, say};
ghost use Rattle.lsv_machine.specs.Failures.{WantsMemory};
ghost use Rattle.lsv_keeper.specs.Replies.{Puts, PutsAnswers, room_in};
ghost use Rattle.lsv_keeper.specs.Rows.{NamesLog, AnswersWith, outcome_of};

use lsv_base::{Bytes, LogNo, Point};
use lsv_msg::ServerMessage;
use lsv_request::Refusal;
use lsv_session::{ConnId, Reply, ReplyBody, refusal_message};
use std::alloc::Global;

/// What a job is answered.
#[derive(Debug, Drop)]
pub enum Outcome {
    Nothing,
    /// A log was opened, of this number and identifier.
    Log(LogNo, Bytes),
    /// The session is refused, and shut.
    Refused(Refusal),
    /// A log ended at this point, and the session with it.
    Finished(Point),
    /// The session ended.
    Shut,
    /// The connection went.
    Farewell,
}

/// The outcome if a log took a record, or why it refused it.
#[inline(always)]
pub(crate) fn outcome_of(refused: Option<Refusal>) -> Outcome
    ensures is { result ≡ outcome_of refused }
    ensures named { NamesLog result }
{
    match refused {
        None => Outcome::Nothing,
        Some(why) => Outcome::Refused(why),
    }
}

/// Puts a reply at the end, for which there is room.
fn put(out: &mut Vec<Reply>, reply: Reply)
    requires room { 1 ≤ room_in out.old }
    ensures { Puts (reply ∷ []) 1 out.old out.new }
{
    let _ = out.push(reply);
}

/// The reply that says this to a connection.
fn say(conn: ConnId, message: ServerMessage) -> Reply
    ensures { result ≡ record { conn = conn; body = body.Say message; last = false } }
{
    Reply {
        conn,
        body: ReplyBody::Say(message),
        last: false,
    }
}

/// The reply that ends what is said to a connection.
fn shut(conn: ConnId, last: bool) -> Reply
    ensures { result ≡ record { conn = conn; body = body.Shut; last = last } }
{
    Reply {
        conn,
        body: ReplyBody::Shut,
        last,
    }
}

/// The message of a refusal; where no memory is for it, that of want of memory, or none.
fn message_of(alloc: Global, why: Refusal) -> Option<ServerMessage>
    ensures { IfSome result (λ m. (m ≡ refusal_message why) ⊎ (m ≡ refusal_message OutOfMemory)) }
{
    match refusal_message(alloc, why) {
        Ok(message) => Some(message),
        Err(_) => refusal_message(alloc, Refusal::OutOfMemory).ok(),
    }
}

/// Puts the replies of a refusal at the end, for which there is room.
fn put_refusal(alloc: Global, out: &mut Vec<Reply>, conn: ConnId, why: Refusal)
    requires room { 2 ≤ room_in out.old }
    ensures { PutsAnswers (λ answers. (answers ≡ refusal conn why) ⊎ WantsMemory conn answers) out.old out.new }
{
    if let Some(message) = message_of(alloc, why) {
        put(out, say(conn, message));
    }
    put(out, shut(conn, false));
}

/// Puts the replies of an answer at the end, for which there is room. Nearly all jobs are answered nothing.
#[inline(always)]
pub(crate) fn put_replies(alloc: Global, out: &mut Vec<Reply>, conn: ConnId, outcome: Outcome)
    requires named { NamesLog outcome }
    requires room { 2 ≤ room_in out.old }
    ensures { PutsAnswers (AnswersWith conn outcome) out.old out.new }
{
    if let Outcome::Nothing = outcome {
        return;
    }
    put_outcome(alloc, out, conn, outcome);
}

/// Puts the replies of an answer at the end, for which there is room. Where no memory is for the text of a refusal, it is a
/// refusal for want of memory, or a `Shut` alone.
#[cold]
#[inline(never)]
fn put_outcome(alloc: Global, out: &mut Vec<Reply>, conn: ConnId, outcome: Outcome)
    requires named { NamesLog outcome }
    requires room { 2 ≤ room_in out.old }
    ensures { PutsAnswers (AnswersWith conn outcome) out.old out.new }
{
    match outcome {
        Outcome::Nothing => {}
        Outcome::Log(_, id) => put(out, say(conn, ServerMessage::LogId(id))),
        Outcome::Refused(why) => put_refusal(alloc, out, conn, why),
        Outcome::Finished(point) => {
            put(out, say(conn, ServerMessage::CommitPoint(point.spec())));
            put(out, shut(conn, false));
        }
        Outcome::Shut => put(out, shut(conn, false)),
        Outcome::Farewell => put(out, shut(conn, true)),
    }
}

/// Puts a commit point at the end, for which there is room.
pub(crate) fn put_point(out: &mut Vec<Reply>, conn: ConnId, point: Point)
    requires room { 1 ≤ room_in out.old }
    ensures { Puts (map reply_of (say conn (CommitPoint point) ∷ [])) 1 out.old out.new }
{
    put(out, say(conn, ServerMessage::CommitPoint(point.spec())));
}
