//! The messages of sudo_logsrv.proto(5), read in place and written.
#![tactic(auto)]

mod boxed;
mod commands;
mod copies;
mod decode;
mod encode;
mod entry;
mod fault;
mod fields;
mod hellos;
mod laws;
mod messages;
mod packed;
mod plain;
mod put;
mod records;
mod reply;
mod rows;
mod time;

pub use boxed::Boxed;
pub use decode::{decode_client, decode_server};
pub use encode::{encode_client, encode_server};
pub use fault::{EncodeFault, MsgFault};
pub use laws::{a_written_message_is_read_back, what_is_decoded_fits};
pub use messages::{
    AcceptMessage, AlertMessage, ChangeWindowSize, ClientHello, ClientMessage, CommandSuspend,
    ExitMessage, IoBuffer, RejectMessage, RestartMessage, ServerHello, ServerMessage,
};
pub use reply::put_server;
