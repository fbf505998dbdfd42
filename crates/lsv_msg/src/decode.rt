//! Messages are read in place, from front to back.

ghost use Rattle.std.specs.Prelude.{◌≡◌, ◌≢◌, ◌≤◌, length, None, Ok, Err, IfOk, IfErr};
ghost use Rattle.lsv_wire.specs.Fields.{IsWithin};
ghost use Rattle.lsv_msg.specs.declared.fault.MsgFault.TheVariants as faults;
ghost use Rattle.lsv_msg.specs.Fitting.{FitsClient, FitsServer, ClientWithin, ServerWithin};
ghost use Rattle.lsv_msg.specs.Format.{Gives, read};
ghost use Rattle.lsv_msg.specs.Messages.{client_in, client_message, data_message, server_in, server_message};

use crate::commands::{read_accept, read_alert, read_exit, read_reject};
use crate::fields::{Fields, take_all};
use crate::hellos::{read_client_hello, read_restart, read_server_hello};
use crate::plain::plain_record;
use crate::records::{read_buffer, read_size, read_suspend};
use crate::rows::{bytes_of, no_second};
use crate::time::read_time;
use crate::{Boxed, ClientMessage, IoBuffer, MsgFault, ServerMessage};
use lsv_base::Bytes;
use lsv_wire::Field;
use std::alloc::Global;

/// The message of a client that these bytes are. It takes one copy of a record's data and no other memory, and time
/// and memory that grow with the bytes and no faster. No text in the message, nor a record's data, is longer than the bytes.
#[inline(always)]
pub fn decode_client(alloc: Global, b: &[u8]) -> Result<ClientMessage, MsgFault>
    ensures message { IfOk result (λ m. client_in b.now ≡ Ok m) }
    ensures fits { IfOk result FitsClient }
    ensures within { IfOk result (ClientWithin (length b.now)) }
    ensures refused { IfErr result (λ e. e ≢ faults.NoMem → client_in b.now ≡ Err e) }
{
    client_in(alloc, b)
}

/// The message of a server that these bytes are. No text in it is longer than the bytes.
pub fn decode_server(alloc: Global, b: &[u8]) -> Result<ServerMessage, MsgFault>
    ensures message { IfOk result (λ m. server_in b.now ≡ Ok m) }
    ensures fits { IfOk result FitsServer }
    ensures within { IfOk result (ServerWithin (length b.now)) }
    ensures refused { IfErr result (λ e. e ≢ faults.NoMem → server_in b.now ≡ Err e) }
{
    server_in(alloc, b)
}

/// A plain record of data, which nearly all messages are, is read by a function of few values: whatever a function may
/// hold is cleared where it begins.
#[inline(always)]
#[tactic(auto, using(crate::proofs::FewFields::plain_member))]
fn client_in(alloc: Global, bytes: &[u8]) -> Result<ClientMessage, MsgFault>
    ensures { Gives (λ m. m) result (client_in bytes.now) }
{
    if let Some((number, delay, data)) = plain_record(bytes) {
        let bytes = Bytes::of(alloc, data)?;
        let delay = Some(delay);
        return Ok(data_message(number, IoBuffer { delay, bytes }));
    }
    any_client_in(alloc, bytes)
}

#[cold]
#[inline(never)]
fn any_client_in(alloc: Global, bytes: &[u8]) -> Result<ClientMessage, MsgFault>
    ensures { Gives (λ m. m) result (client_in bytes.now) }
{
    read_client(alloc, bytes)?.ok_or(MsgFault::Untyped)
}

/// The message with this number whose data these are.
#[inline(always)]
fn data_message(number: u8, buffer: IoBuffer) -> ClientMessage
    requires { (6 ≤ number) × (number ≤ 10) }
    ensures { result ≡ data_message number buffer }
{
    match number {
        6 => ClientMessage::Ttyin(buffer),
        7 => ClientMessage::Ttyout(buffer),
        8 => ClientMessage::Stdin(buffer),
        9 => ClientMessage::Stdout(buffer),
        _ => ClientMessage::Stderr(buffer),
    }
}

fn server_in(alloc: Global, bytes: &[u8]) -> Result<ServerMessage, MsgFault>
    ensures { Gives (λ m. m) result (server_in bytes.now) }
{
    read_server(alloc, bytes)?.ok_or(MsgFault::Untyped)
}

/// A member of the client's messages, where the number is that of one.
fn client_of(alloc: Global, bytes: &[u8], field: Field) -> Result<Option<ClientMessage>, MsgFault>
    requires { IsWithin (length bytes.now) field.value }
    ensures { Gives (λ m. m) result (client_message.take bytes.now 0 None field) }
{
    match field.number {
        1 => Ok(Some(ClientMessage::Accept(Boxed::new(
            alloc,
            read_accept(alloc, bytes_of(bytes, field)?)?,
        )?))),
        2 => Ok(Some(ClientMessage::Reject(Boxed::new(
            alloc,
            read_reject(alloc, bytes_of(bytes, field)?)?,
        )?))),
        3 => Ok(Some(ClientMessage::Exit(Boxed::new(
            alloc,
            read_exit(alloc, bytes_of(bytes, field)?)?,
        )?))),
        4 => Ok(Some(ClientMessage::Restart(read_restart(alloc, bytes_of(bytes, field)?)?))),
        5 => Ok(Some(ClientMessage::Alert(Boxed::new(
            alloc,
            read_alert(alloc, bytes_of(bytes, field)?)?,
        )?))),
        6 => Ok(Some(ClientMessage::Ttyin(read_buffer(alloc, bytes_of(bytes, field)?)?))),
        7 => Ok(Some(ClientMessage::Ttyout(read_buffer(alloc, bytes_of(bytes, field)?)?))),
        8 => Ok(Some(ClientMessage::Stdin(read_buffer(alloc, bytes_of(bytes, field)?)?))),
        9 => Ok(Some(ClientMessage::Stdout(read_buffer(alloc, bytes_of(bytes, field)?)?))),
        10 => Ok(Some(ClientMessage::Stderr(read_buffer(alloc, bytes_of(bytes, field)?)?))),
        11 => Ok(Some(ClientMessage::Winsize(read_size(alloc, bytes_of(bytes, field)?)?))),
        12 => Ok(Some(ClientMessage::Suspend(read_suspend(alloc, bytes_of(bytes, field)?)?))),
        13 => Ok(Some(ClientMessage::Hello(read_client_hello(alloc, bytes_of(bytes, field)?)?))),
        _ => Ok(None),
    }
}

#[derive(Drop)]
struct ClientFields {
    message: Option<ClientMessage>,
}

impl Fields for ClientFields {
    ghost use Rattle.std.specs.Prelude.{Option};
    ghost use Rattle.lsv_msg.specs.declared.messages.ClientMessage.{ClientMessage};
    ghost use Rattle.lsv_msg.specs.Messages.{client_message};

    ghost State = { Option ClientMessage };

    ghost Whole = { Option ClientMessage };

    ghost format = { client_message };

    ghost state = { λ f. f.message };

    fn take(
        &mut self,
        alloc: Global,
        bytes: &[u8],
        _key: usize,
        field: Field,
    ) -> Result<(), MsgFault> {
        if self.message.is_some() {
            return no_second(field, 1, 13);
        }
        self.message = client_of(alloc, bytes, field)?;
        Ok(())
    }
}

#[tactic(auto, unfolding(crate::specs::Format::read))]
fn read_client(alloc: Global, bytes: &[u8]) -> Result<Option<ClientMessage>, MsgFault>
    ensures { Gives (λ m. m) result (read client_message bytes.now) }
{
    let mut fields = ClientFields { message: None };
    take_all(alloc, bytes, &mut fields)?;
    Ok(fields.message)
}

/// A member of the server's messages, where the number is that of one.
fn server_of(alloc: Global, bytes: &[u8], field: Field) -> Result<Option<ServerMessage>, MsgFault>
    requires { IsWithin (length bytes.now) field.value }
    ensures { Gives (λ m. m) result (server_message.take bytes.now 0 None field) }
{
    match field.number {
        1 => Ok(Some(ServerMessage::Hello(Boxed::new(
            alloc,
            read_server_hello(alloc, bytes_of(bytes, field)?)?,
        )?))),
        2 => Ok(Some(ServerMessage::CommitPoint(read_time(alloc, bytes_of(bytes, field)?)?))),
        3 => Ok(Some(ServerMessage::LogId(Bytes::of(alloc, bytes_of(bytes, field)?)?))),
        4 => Ok(Some(ServerMessage::Error(Bytes::of(alloc, bytes_of(bytes, field)?)?))),
        5 => Ok(Some(ServerMessage::Abort(Bytes::of(alloc, bytes_of(bytes, field)?)?))),
        _ => Ok(None),
    }
}

#[derive(Drop)]
struct ServerFields {
    message: Option<ServerMessage>,
}

impl Fields for ServerFields {
    ghost use Rattle.std.specs.Prelude.{Option};
    ghost use Rattle.lsv_msg.specs.declared.messages.ServerMessage.{ServerMessage};
    ghost use Rattle.lsv_msg.specs.Messages.{server_message};

    ghost State = { Option ServerMessage };

    ghost Whole = { Option ServerMessage };

    ghost format = { server_message };

    ghost state = { λ f. f.message };

    fn take(
        &mut self,
        alloc: Global,
        bytes: &[u8],
        _key: usize,
        field: Field,
    ) -> Result<(), MsgFault> {
        if self.message.is_some() {
            return no_second(field, 1, 5);
        }
        self.message = server_of(alloc, bytes, field)?;
        Ok(())
    }
}

#[tactic(auto, unfolding(crate::specs::Format::read))]
fn read_server(alloc: Global, bytes: &[u8]) -> Result<Option<ServerMessage>, MsgFault>
    ensures { Gives (λ m. m) result (read server_message bytes.now) }
{
    let mut fields = ServerFields { message: None };
    take_all(alloc, bytes, &mut fields)?;
    Ok(fields.message)
}
