//! Replies are put after one another, each in its frame.

ghost use Rattle.std.specs.Prelude.{◌≡◌, ◌+◌, ◌≤◌, ◌<◌, ◌++◌, length, take, OnOk, OnErr, IsErrOf};
ghost use Rattle.lsv_wire.specs.Fields.{bytes_field};
ghost use Rattle.lsv_wire.specs.Frame.{frame_of};
ghost use Rattle.lsv_msg.specs.declared.messages.ServerMessage.TheVariants as server;
ghost use Rattle.lsv_msg.specs.declared.fault.EncodeFault.TheVariants as faults;
ghost use Rattle.lsv_msg.specs.Format.{canon, single, int64};
ghost use Rattle.lsv_msg.specs.Messages.{time_spec, server_bytes};

use crate::encode::server_hello_bytes;
use crate::{EncodeFault, ServerMessage};
use lsv_base::{Bytes, NoMem, TimeSpec};
use lsv_wire::{FRAME_LIMIT, LAST_FIELD_NUMBER, write_varint};
use std::alloc::Global;

/// The most bytes that a number takes with its key.
const LONGEST: usize = 20;

/// Puts a message of a server at the end, in its frame. Where it is refused nothing is put. A commit point takes no memory
/// where `out` has 28 bytes of room.
#[tactic(auto, unfolding(crate::specs::Format::canon))]
pub fn put_server(alloc: Global, out: &mut Bytes, m: &ServerMessage) -> Result<(), EncodeFault>
    ensures ok { OnOk result (out.new ≡ out.old ++ frame_of (server_bytes m.now)) }
    ensures err { OnErr result (out.new ≡ out.old) }
    ensures within { OnOk result (length (server_bytes m.now) ≤ FRAME_LIMIT) }
    ensures too_long { (n : _) → IsErrOf result (EncodeFault.TooLong n) → (n ≡ length (server_bytes m.now)) × (FRAME_LIMIT < n) }
{
    match m {
        ServerMessage::Hello(m) => {
            put_framed(out, 1, server_hello_bytes(alloc, m.get())?.as_slice())
        }
        ServerMessage::CommitPoint(t) => Ok(put_commit_point(out, *t)?),
        ServerMessage::LogId(id) => put_framed(out, 3, id.as_slice()),
        ServerMessage::Error(text) => put_framed(out, 4, text.as_slice()),
        ServerMessage::Abort(text) => put_framed(out, 5, text.as_slice()),
    }
}

/// Puts the frame of one field of bytes.
fn put_framed(out: &mut Bytes, number: u32, b: &[u8]) -> Result<(), EncodeFault>
    requires first { 1 ≤ number }
    requires last { number ≤ LAST_FIELD_NUMBER }
    ensures ok { OnOk result (out.new ≡ out.old ++ frame_of (bytes_field number b.now)) }
    ensures err { OnErr result (out.new ≡ out.old) }
    ensures within { OnOk result (length (bytes_field number b.now) ≤ FRAME_LIMIT) }
    ensures too_long { (n : _) → IsErrOf result (EncodeFault.TooLong n) → (n ≡ length (bytes_field number b.now)) × (FRAME_LIMIT < n) }
{
    let mut head = [0; LONGEST];
    let end = write_varint(&mut head, 0, u64::from(number) * 8 + 2);
    let end = write_varint(&mut head, end, b.len() as u64);
    let len = end as u64 + b.len() as u64;
    if len > FRAME_LIMIT as u64 {
        return Err(EncodeFault::TooLong(len));
    }
    put_three(out, &(len as u32).to_be_bytes(), &head[..end], b)?;
    Ok(())
}

/// Puts three pieces, one after another, or none.
fn put_three(out: &mut Bytes, first: &[u8], second: &[u8], third: &[u8]) -> Result<(), NoMem>
    ensures ok { OnOk result (out.new ≡ out.old ++ (first.now ++ (second.now ++ third.now))) }
    ensures err { OnErr result (out.new ≡ out.old) }
{
    let before = out.as_slice().len();
    out.add(first)?;
    if let Err(e) = put_two(out, second, third) {
        out.truncate(before);
        return Err(e);
    }
    Ok(())
}

/// Puts two pieces, one after another, or none.
fn put_two(out: &mut Bytes, first: &[u8], second: &[u8]) -> Result<(), NoMem>
    ensures ok { OnOk result (out.new ≡ out.old ++ (first.now ++ second.now)) }
    ensures err { OnErr result (out.new ≡ out.old) }
{
    let before = out.as_slice().len();
    out.add(first)?;
    if let Err(e) = out.add(second) {
        out.truncate(before);
        return Err(e);
    }
    Ok(())
}

/// Puts the frame of a commit point: all of its lengths are below 128.
fn put_commit_point(out: &mut Bytes, t: TimeSpec) -> Result<(), NoMem>
    ensures ok { OnOk result (out.new ≡ out.old ++ frame_of (server_bytes (server.CommitPoint t))) }
    ensures err { OnErr result (out.new ≡ out.old) }
    ensures within { length (server_bytes (server.CommitPoint t)) ≤ FRAME_LIMIT }
{
    let mut bytes = [0; 6 + 2 * LONGEST];
    let end = write_time(&mut bytes, 6, t);
    bytes[3] = (end - 4) as u8;
    bytes[4] = 2 * 8 + 2;
    bytes[5] = (end - 6) as u8;
    out.add(&bytes[..end])
}

/// Writes a time from a place on, and gives the place after it.
#[tactic(auto, unfolding(crate::specs::Format::canon))]
fn write_time(bytes: &mut [u8], at: usize, t: TimeSpec) -> usize
    requires { at + 40 ≤ length bytes.old }
    ensures after { at ≤ result }
    ensures there { result ≤ at + 40 }
    ensures written { take result bytes.new ≡ take at bytes.old ++ canon time_spec t }
{
    let end = write_int64(bytes, at, 1, t.sec);
    write_int64(bytes, end, 2, i64::from(t.nsec))
}

/// Writes an int64 from a place on, a 0 not, and gives the place after it.
fn write_int64(bytes: &mut [u8], at: usize, number: u32, n: i64) -> usize
    requires room { at + 20 ≤ length bytes.old }
    requires first { 1 ≤ number }
    requires last { number ≤ LAST_FIELD_NUMBER }
    ensures after { at ≤ result }
    ensures there { result ≤ at + 20 }
    ensures written { take result bytes.new ≡ take at bytes.old ++ (single number int64).write n }
{
    if n == 0 {
        return at;
    }
    let end = write_varint(bytes, at, u64::from(number) * 8);
    write_varint(bytes, end, n.cast_unsigned())
}
