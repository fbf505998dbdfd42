//! The lines that are printed of the server's messages.
ghost use Rattle.std.specs.Prelude.{◌≡◌, ◌++◌, Some, Err, IfOk, IfErr, OnOk, OnErr};
ghost use Rattle.lsv_base.specs.Outside.{HasCause};
ghost use Rattle.lsv_record.specs.Records.{last_digits, seconds};
ghost use Rattle.lsv_send.specs.Lines.{commit_line, id_line, line_of};
ghost use Rattle.lsv_send.specs.Print.{IsPrintFault, PrintsSome};
ghost use Rattle.lsv_send.specs.declared.fault.SendFault.TheVariants as faults;

use crate::fault::SendFault;
use crate::visible::add_visible;
use itoa::Buffer;
use lsv_base::{Bytes, NoMem, Sink};
use lsv_msg::ServerMessage;
use std::alloc::Global;

/// Nanoseconds a second.
const NANOS_PER_SEC: u64 = 1_000_000_000;

/// Prints the line of a message, if it has one.
pub fn print<K: Sink>(alloc: Global, sink: &mut K, m: &ServerMessage) -> Result<(), SendFault>
    ensures put { K.tells → OnOk result (K.put sink.new ≡ K.put sink.old ++ line_of m.now) }
    ensures some { K.tells → OnErr result (PrintsSome (line_of m.now) (K.put sink.old) (K.put sink.new)) }
    ensures fault { IfErr result IsPrintFault }
    ensures cause { HasCause (result ≡ Err faults.Sink) (K.faults sink.old) (K.faults sink.new) }
{
    let line = line_of(alloc, m)?;
    if !line.as_slice().is_empty() {
        sink.write(line.as_slice())?;
    }
    Ok(())
}

/// The line of a message; empty if it has none.
fn line_of(alloc: Global, m: &ServerMessage) -> Result<Bytes, NoMem>
    ensures { IfOk result (λ line. line ≡ line_of m.now) }
{
    match m {
        ServerMessage::LogId(id) => id_line(alloc, id.as_slice()),
        ServerMessage::CommitPoint(time) => match time.delay() {
            Some(nanos) => commit_line(alloc, nanos),
            None => Ok(Bytes::new(alloc)),
        },
        ServerMessage::Hello(_) | ServerMessage::Error(_) | ServerMessage::Abort(_) => {
            Ok(Bytes::new(alloc))
        }
    }
}

/// The line of an identifier.
fn id_line(alloc: Global, id: &[u8]) -> Result<Bytes, NoMem>
    ensures { IfOk result (λ line. line ≡ id_line id.now) }
{
    let shown = String::from_utf8_lossy(alloc, id)?;
    let mut line = Bytes::of(alloc, b"id ")?;
    add_visible(&mut line, shown.as_bytes())?;
    line.add(b"\n")?;
    Ok(line)
}

/// The line of a commit point.
fn commit_line(alloc: Global, nanos: u64) -> Result<Bytes, NoMem>
    ensures { IfOk result (λ line. line ≡ commit_line (Some nanos)) }
{
    let mut line = Bytes::of(alloc, b"commit ")?;
    add_seconds(&mut line, nanos)?;
    line.add(b"\n")?;
    Ok(line)
}

/// Adds nanoseconds as seconds, with nine digits after the point.
fn add_seconds(line: &mut Bytes, nanos: u64) -> Result<(), NoMem>
    ensures { OnOk result (line.new ≡ line.old ++ seconds nanos) }
{
    line.add(Buffer::new().format(nanos / NANOS_PER_SEC).as_bytes())?;
    line.add(b".")?;
    add_last_digits(line, 9, nanos % NANOS_PER_SEC)
}

/// Adds the last digits of a number, `count` of them.
fn add_last_digits(line: &mut Bytes, count: u8, n: u64) -> Result<(), NoMem>
    ensures { OnOk result (line.new ≡ line.old ++ last_digits count n) }
{
    if count == 0 {
        return Ok(());
    }
    add_last_digits(line, count - 1, n / 10)?;
    line.add(&[b'0' + (n % 10) as u8])
}
