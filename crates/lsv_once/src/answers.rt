//! What is said to the connection, as bytes.

ghost use Rattle.std.specs.Prelude.{◌≡◌, ◌≤◌, ◌&&◌, ◌++◌, ◌∷◌, [], ℕ, List, OnOk, OnErr};
ghost use Rattle.lsv_defs.specs.Causes.{HasRisen};
ghost use Rattle.lsv_defs.specs.Pieces.{IsPrefix};
ghost use Rattle.lsv_wire.specs.Frame.{frame_of};
ghost use Rattle.lsv_msg.specs.Messages.{server_bytes};
ghost use Rattle.lsv_session.specs.Connections.{same, server_hello};
ghost use Rattle.lsv_session.specs.Transcript.{frames_of, said_to};
ghost use Rattle.lsv_turn.specs.Turns.{is_shut};
ghost use Rattle.lsv_once.specs.Course.{once_conn, shuts};

use crate::run::CONN;
use lsv_base::{Bytes, NoMem, Sink, SinkFault};
use lsv_msg::put_server;
use lsv_session::{Reply, ReplyBody, server_hello};
use std::alloc::Global;

/// Whether a reply shuts the connection.
fn is_shut(reply: &Reply) -> bool
    ensures { result ≡ (same reply.now.conn once_conn && is_shut reply.now.body) }
{
    reply.conn == CONN && matches!(reply.body, ReplyBody::Shut)
}

/// Whether one of these replies shuts the connection.
pub(crate) fn shuts(replies: &[Reply]) -> bool
    ensures { result ≡ shuts replies.now }
{
    replies.iter().any(|reply| is_shut(reply))
}

/// Puts the frame of what a reply says to the connection at the end.
fn put_reply(alloc: Global, answers: &mut Bytes, reply: &Reply) -> Result<(), NoMem>
    ensures { OnOk result (answers.new ≡ answers.old ++ frames_of (said_to once_conn (reply.now ∷ []))) }
{
    if reply.conn != CONN {
        return Ok(());
    }
    match &reply.body {
        ReplyBody::Say(message) => put_server(alloc, answers, message).map_err(|_| NoMem),
        ReplyBody::Shut => Ok(()),
    }
}

/// Puts the frames of what these replies say to the connection at the end.
pub(crate) fn put_replies(
    alloc: Global,
    answers: &mut Bytes,
    replies: &[Reply],
) -> Result<(), NoMem>
    ensures { OnOk result (answers.new ≡ answers.old ++ frames_of (said_to once_conn replies.now)) }
{
    for reply in replies {
        put_reply(alloc, answers, reply)?;
    }
    Ok(())
}

/// Puts the frame of the server's hello at the end.
pub(crate) fn put_hello(alloc: Global, answers: &mut Bytes) -> Result<(), NoMem>
    ensures { OnOk result (answers.new ≡ answers.old ++ frame_of (server_bytes server_hello)) }
{
    let hello = server_hello(alloc)?;
    put_server(alloc, answers, &hello).map_err(|_| NoMem)
}

/// Writes the answers of a turn, where there are any.
pub(crate) fn write_answers<K: Sink>(sink: &mut K, answers: &[u8]) -> Result<(), SinkFault>
    ensures put { K.tells → OnOk result (K.put sink.new ≡ K.put sink.old ++ answers.now) }
    ensures failed { K.tells → OnErr result ((front : List ℕ) × IsPrefix front answers.now × (K.put sink.new ≡ K.put sink.old ++ front)) }
    ensures faults { K.faults sink.old ≤ K.faults sink.new }
    ensures cause { OnErr result (HasRisen (K.faults sink.old) (K.faults sink.new)) }
{
    if answers.is_empty() {
        return Ok(());
    }
    sink.write(answers)
}
