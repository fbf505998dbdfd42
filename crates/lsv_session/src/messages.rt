//! The messages of the server that don't depend on a log.

ghost use Rattle.std.specs.Prelude.{◌≡◌, IfOk};
ghost use Rattle.lsv_session.specs.Connections.{refusal_message, server_hello};

use lsv_base::{Bytes, List, NoMem};
use lsv_msg::{Boxed, ServerHello, ServerMessage};
use lsv_request::Refusal;
use std::alloc::Global;

const SERVER_ID: &str = "lsv 1";

/// The server's hello, which opens each connection: its name, and that it takes subcommands.
pub fn server_hello(alloc: Global) -> Result<ServerMessage, NoMem>
    ensures { IfOk result (λ m. m ≡ server_hello) }
{
    let hello = ServerHello {
        server_id: Bytes::of(alloc, SERVER_ID.as_bytes())?,
        redirect: Bytes::new(alloc),
        servers: List::new(alloc),
        subcommands: true,
    };
    Ok(ServerMessage::Hello(Boxed::new(alloc, hello)?))
}

/// The error by which a client is told of a refusal: its text.
pub fn refusal_message(alloc: Global, refusal: Refusal) -> Result<ServerMessage, NoMem>
    ensures { IfOk result (λ m. m ≡ refusal_message refusal) }
{
    Ok(ServerMessage::Error(Bytes::of(alloc, refusal.text().as_bytes())?))
}
