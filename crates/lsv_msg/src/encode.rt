//! Messages are written as their canonical bytes.

ghost use Rattle.std.specs.Prelude.{◌≡◌, ◌≤◌, ◌<◌, ◌++◌, length, Some, IfOk, OnOk, IfErr, IsErrOf};
ghost use Rattle.lsv_msg.specs.declared.fault.EncodeFault.TheVariants as faults;
ghost use Rattle.lsv_msg.specs.Format.{canon, repeated_said};
ghost use Rattle.lsv_msg.specs.Messages.{io_buffer, change_window_size, command_suspend, entry_value, info_message, accept_message, reject_message, alert_message, exit_message, restart_message, client_hello, server_hello, client_bytes, server_bytes};

use crate::put::{put_flag, put_int32, put_numbers, put_text, put_texts, put_time, time_bytes};
use crate::{
    AcceptMessage, AlertMessage, ChangeWindowSize, ClientHello, ClientMessage, CommandSuspend,
    EncodeFault, ExitMessage, IoBuffer, RejectMessage, RestartMessage, ServerHello, ServerMessage,
};
use lsv_base::{Bytes, NoMem};
use lsv_info::{Entry, Value};
use lsv_wire::{FRAME_LIMIT, LAST_FIELD_NUMBER, put_bytes, put_number};
use std::alloc::Global;

/// The canonical bytes of a message of a client: fields in the order of their numbers, numbers as short as can be, and
/// neither zero nor empty values outside a oneof.
pub fn encode_client(alloc: Global, m: &ClientMessage) -> Result<Bytes, EncodeFault>
    ensures bytes { IfOk result (λ b. b ≡ client_bytes m.now) }
    ensures within { IfOk result (λ b. length b ≤ FRAME_LIMIT) }
    ensures too_long { (n : _) → IsErrOf result (EncodeFault.TooLong n) → (n ≡ length (client_bytes m.now)) × (FRAME_LIMIT < n) }
{
    framed(client_message_bytes(alloc, m)?)
}

/// The canonical bytes of a message of a server.
pub fn encode_server(alloc: Global, m: &ServerMessage) -> Result<Bytes, EncodeFault>
    ensures bytes { IfOk result (λ b. b ≡ server_bytes m.now) }
    ensures within { IfOk result (λ b. length b ≤ FRAME_LIMIT) }
    ensures too_long { (n : _) → IsErrOf result (EncodeFault.TooLong n) → (n ≡ length (server_bytes m.now)) × (FRAME_LIMIT < n) }
{
    framed(server_message_bytes(alloc, m)?)
}

/// The bytes of data.
#[tactic(auto, unfolding(crate::specs::Format::canon))]
fn buffer_bytes(alloc: Global, m: &IoBuffer) -> Result<Bytes, NoMem>
    ensures { IfOk result (λ b. b ≡ canon io_buffer m.now) }
{
    let mut out = Bytes::new(alloc);
    put_time(alloc, &mut out, 1, m.delay)?;
    put_text(&mut out, 2, &m.bytes)?;
    Ok(out)
}

/// The bytes of a new size of the window.
#[tactic(auto, unfolding(crate::specs::Format::canon))]
fn size_bytes(alloc: Global, m: &ChangeWindowSize) -> Result<Bytes, NoMem>
    ensures { IfOk result (λ b. b ≡ canon change_window_size m.now) }
{
    let mut out = Bytes::new(alloc);
    put_time(alloc, &mut out, 1, m.delay)?;
    put_int32(&mut out, 2, m.rows)?;
    put_int32(&mut out, 3, m.cols)?;
    Ok(out)
}

/// The bytes of a suspension.
#[tactic(auto, unfolding(crate::specs::Format::canon))]
fn suspend_bytes(alloc: Global, m: &CommandSuspend) -> Result<Bytes, NoMem>
    ensures { IfOk result (λ b. b ≡ canon command_suspend m.now) }
{
    let mut out = Bytes::new(alloc);
    put_time(alloc, &mut out, 1, m.delay)?;
    put_text(&mut out, 2, &m.signal)?;
    Ok(out)
}

/// The bytes of an entry.
#[tactic(auto, unfolding(crate::specs::Format::canon))]
fn entry_bytes(alloc: Global, entry: &Entry) -> Result<Bytes, NoMem>
    ensures { IfOk result (λ b. b ≡ canon info_message (Some entry.now)) }
{
    let mut out = Bytes::new(alloc);
    put_text(&mut out, 1, &entry.key)?;
    put_value(alloc, &mut out, &entry.value)?;
    Ok(out)
}

/// Puts the value of an entry, a zero or an empty one too.
#[tactic(auto, unfolding(crate::specs::Format::canon))]
fn put_value(alloc: Global, out: &mut Bytes, value: &Value) -> Result<(), NoMem>
    ensures { OnOk result (out.new ≡ out.old ++ entry_value.write (Some value.now)) }
{
    match value {
        Value::Num(n) => put_number(out, 2, n.cast_unsigned()),
        Value::Text(text) => put_bytes(out, 3, text.as_slice()),
        Value::Texts(texts) => {
            let mut strings = Bytes::new(alloc);
            put_texts(&mut strings, 1, texts.as_slice())?;
            put_bytes(out, 4, strings.as_slice())
        }
        Value::Nums(numbers) => {
            let mut list = Bytes::new(alloc);
            put_numbers(alloc, &mut list, 1, numbers.as_slice())?;
            put_bytes(out, 5, list.as_slice())
        }
    }
}

/// Puts entries, each as a field.
fn put_entries(alloc: Global, out: &mut Bytes, number: u32, entries: &[Entry]) -> Result<(), NoMem>
    requires first { 1 ≤ number }
    requires last { number ≤ LAST_FIELD_NUMBER }
    ensures { OnOk result (out.new ≡ out.old ++ (repeated_said number info_message).write entries.now) }
{
    for entry in entries {
        put_bytes(out, number, entry_bytes(alloc, entry)?.as_slice())?;
    }
    Ok(())
}

/// The bytes of an accepted command.
#[tactic(auto, unfolding(crate::specs::Format::canon))]
fn accept_bytes(alloc: Global, m: &AcceptMessage) -> Result<Bytes, NoMem>
    ensures { IfOk result (λ b. b ≡ canon accept_message m.now) }
{
    let mut out = Bytes::new(alloc);
    put_time(alloc, &mut out, 1, m.submit_time)?;
    put_entries(alloc, &mut out, 2, m.info_msgs.entries.as_slice())?;
    put_flag(&mut out, 3, m.expect_iobufs)?;
    Ok(out)
}

/// The bytes of a rejected command.
#[tactic(auto, unfolding(crate::specs::Format::canon))]
fn reject_bytes(alloc: Global, m: &RejectMessage) -> Result<Bytes, NoMem>
    ensures { IfOk result (λ b. b ≡ canon reject_message m.now) }
{
    let mut out = Bytes::new(alloc);
    put_time(alloc, &mut out, 1, m.submit_time)?;
    put_text(&mut out, 2, &m.reason)?;
    put_entries(alloc, &mut out, 3, m.info_msgs.entries.as_slice())?;
    Ok(out)
}

/// The bytes of an alert.
#[tactic(auto, unfolding(crate::specs::Format::canon))]
fn alert_bytes(alloc: Global, m: &AlertMessage) -> Result<Bytes, NoMem>
    ensures { IfOk result (λ b. b ≡ canon alert_message m.now) }
{
    let mut out = Bytes::new(alloc);
    put_time(alloc, &mut out, 1, m.alert_time)?;
    put_text(&mut out, 2, &m.reason)?;
    put_entries(alloc, &mut out, 3, m.info_msgs.entries.as_slice())?;
    Ok(out)
}

/// The bytes of the end of a command.
#[tactic(auto, unfolding(crate::specs::Format::canon))]
fn exit_bytes(alloc: Global, m: &ExitMessage) -> Result<Bytes, NoMem>
    ensures { IfOk result (λ b. b ≡ canon exit_message m.now) }
{
    let mut out = Bytes::new(alloc);
    put_time(alloc, &mut out, 1, m.run_time)?;
    put_int32(&mut out, 2, m.exit_value)?;
    put_flag(&mut out, 3, m.dumped_core)?;
    put_text(&mut out, 4, &m.signal)?;
    put_text(&mut out, 5, &m.error)?;
    Ok(out)
}

/// The bytes of a restart.
#[tactic(auto, unfolding(crate::specs::Format::canon))]
fn restart_bytes(alloc: Global, m: &RestartMessage) -> Result<Bytes, NoMem>
    ensures { IfOk result (λ b. b ≡ canon restart_message m.now) }
{
    let mut out = Bytes::new(alloc);
    put_text(&mut out, 1, &m.log_id)?;
    put_time(alloc, &mut out, 2, m.resume_point)?;
    Ok(out)
}

/// The bytes of a hello of a client.
#[tactic(auto, unfolding(crate::specs::Format::canon))]
fn client_hello_bytes(alloc: Global, m: &ClientHello) -> Result<Bytes, NoMem>
    ensures { IfOk result (λ b. b ≡ canon client_hello m.now) }
{
    let mut out = Bytes::new(alloc);
    put_text(&mut out, 1, &m.client_id)?;
    Ok(out)
}

/// The bytes of a hello of a server.
#[tactic(auto, unfolding(crate::specs::Format::canon))]
pub fn server_hello_bytes(alloc: Global, m: &ServerHello) -> Result<Bytes, NoMem>
    ensures { IfOk result (λ b. b ≡ canon server_hello m.now) }
{
    let mut out = Bytes::new(alloc);
    put_text(&mut out, 1, &m.server_id)?;
    put_text(&mut out, 2, &m.redirect)?;
    put_texts(&mut out, 3, m.servers.as_slice())?;
    put_flag(&mut out, 4, m.subcommands)?;
    Ok(out)
}

/// The bytes of a message of a client.
#[tactic(auto, unfolding(crate::specs::Format::canon))]
fn client_message_bytes(alloc: Global, m: &ClientMessage) -> Result<Bytes, NoMem>
    ensures { IfOk result (λ b. b ≡ client_bytes m.now) }
{
    let mut out = Bytes::new(alloc);
    match m {
        ClientMessage::Accept(m) => put_bytes(
            &mut out,
            1,
            accept_bytes(alloc, m.get())?.as_slice(),
        )?,
        ClientMessage::Reject(m) => put_bytes(
            &mut out,
            2,
            reject_bytes(alloc, m.get())?.as_slice(),
        )?,
        ClientMessage::Exit(m) => put_bytes(&mut out, 3, exit_bytes(alloc, m.get())?.as_slice())?,
        ClientMessage::Restart(m) => put_bytes(&mut out, 4, restart_bytes(alloc, m)?.as_slice())?,
        ClientMessage::Alert(m) => put_bytes(&mut out, 5, alert_bytes(alloc, m.get())?.as_slice())?,
        ClientMessage::Ttyin(m) => put_bytes(&mut out, 6, buffer_bytes(alloc, m)?.as_slice())?,
        ClientMessage::Ttyout(m) => put_bytes(&mut out, 7, buffer_bytes(alloc, m)?.as_slice())?,
        ClientMessage::Stdin(m) => put_bytes(&mut out, 8, buffer_bytes(alloc, m)?.as_slice())?,
        ClientMessage::Stdout(m) => put_bytes(&mut out, 9, buffer_bytes(alloc, m)?.as_slice())?,
        ClientMessage::Stderr(m) => put_bytes(&mut out, 10, buffer_bytes(alloc, m)?.as_slice())?,
        ClientMessage::Winsize(m) => put_bytes(&mut out, 11, size_bytes(alloc, m)?.as_slice())?,
        ClientMessage::Suspend(m) => put_bytes(&mut out, 12, suspend_bytes(alloc, m)?.as_slice())?,
        ClientMessage::Hello(m) => put_bytes(
            &mut out,
            13,
            client_hello_bytes(alloc, m)?.as_slice(),
        )?,
    }
    Ok(out)
}

/// The bytes of a message of a server.
#[tactic(auto, unfolding(crate::specs::Format::canon))]
fn server_message_bytes(alloc: Global, m: &ServerMessage) -> Result<Bytes, NoMem>
    ensures { IfOk result (λ b. b ≡ server_bytes m.now) }
{
    let mut out = Bytes::new(alloc);
    match m {
        ServerMessage::Hello(m) => put_bytes(
            &mut out,
            1,
            server_hello_bytes(alloc, m.get())?.as_slice(),
        )?,
        ServerMessage::CommitPoint(t) => put_bytes(&mut out, 2, time_bytes(alloc, *t)?.as_slice())?,
        ServerMessage::LogId(id) => put_bytes(&mut out, 3, id.as_slice())?,
        ServerMessage::Error(text) => put_bytes(&mut out, 4, text.as_slice())?,
        ServerMessage::Abort(text) => put_bytes(&mut out, 5, text.as_slice())?,
    }
    Ok(out)
}

/// The bytes that one frame may hold.
fn framed(bytes: Bytes) -> Result<Bytes, EncodeFault>
    ensures ok { IfOk result (λ b. (b ≡ bytes) × (length bytes ≤ FRAME_LIMIT)) }
    ensures err { IfErr result (λ e. (e ≡ faults.TooLong (length bytes)) × (FRAME_LIMIT < length bytes)) }
{
    let len = bytes.as_slice().len();
    if len > FRAME_LIMIT {
        return Err(EncodeFault::TooLong(len as u64));
    }
    Ok(bytes)
}
