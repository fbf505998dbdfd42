//! How the rows of a table are written. A number is that of a field: from 1 to 536,870,911.

ghost use Rattle.std.specs.Prelude.{◌≡◌, ◌≤◌, ◌++◌, OnOk, IfOk};
ghost use Rattle.lsv_msg.specs.Format.{canon, single, part, repeated, repeated_int64, int64, int32, flag, text};
ghost use Rattle.lsv_msg.specs.Messages.{time_spec};
ghost use Rattle.lsv_wire.specs.Varint.{varint};
ghost use Rattle.std.specs.List.{flat_map};
ghost use Rattle.std.specs.Int.{w64, cast_unsigned};

use lsv_base::{Bytes, NoMem, TimeSpec};
use lsv_wire::{LAST_FIELD_NUMBER, put_bytes, put_number, put_varint};
use std::alloc::Global;

/// Puts an int64, a 0 not.
pub fn put_int64(out: &mut Bytes, number: u32, n: i64) -> Result<(), NoMem>
    requires first { 1 ≤ number }
    requires last { number ≤ LAST_FIELD_NUMBER }
    ensures { OnOk result (out.new ≡ out.old ++ (single number int64).write n) }
{
    if n == 0 {
        return Ok(());
    }
    put_number(out, number, n.cast_unsigned())
}

/// Puts an int32, a 0 not.
pub fn put_int32(out: &mut Bytes, number: u32, n: i32) -> Result<(), NoMem>
    requires first { 1 ≤ number }
    requires last { number ≤ LAST_FIELD_NUMBER }
    ensures { OnOk result (out.new ≡ out.old ++ (single number int32).write n) }
{
    put_int64(out, number, i64::from(n))
}

/// Puts a bool, a false one not.
pub fn put_flag(out: &mut Bytes, number: u32, b: bool) -> Result<(), NoMem>
    requires first { 1 ≤ number }
    requires last { number ≤ LAST_FIELD_NUMBER }
    ensures { OnOk result (out.new ≡ out.old ++ (single number flag).write b) }
{
    if !b {
        return Ok(());
    }
    put_number(out, number, 1)
}

/// Puts a string or bytes, an empty one not.
pub fn put_text(out: &mut Bytes, number: u32, b: &Bytes) -> Result<(), NoMem>
    requires first { 1 ≤ number }
    requires last { number ≤ LAST_FIELD_NUMBER }
    ensures { OnOk result (out.new ≡ out.old ++ (single number text).write b.now) }
{
    let b = b.as_slice();
    if b.is_empty() {
        return Ok(());
    }
    put_bytes(out, number, b)
}

/// The bytes of a time.
#[tactic(auto, unfolding(crate::specs::Format::canon))]
pub fn time_bytes(alloc: Global, t: TimeSpec) -> Result<Bytes, NoMem>
    ensures { IfOk result (λ b. b ≡ canon time_spec t) }
{
    let mut out = Bytes::new(alloc);
    put_int64(&mut out, 1, t.sec)?;
    put_int32(&mut out, 2, t.nsec)?;
    Ok(out)
}

/// Puts a time where there is one.
pub fn put_time(
    alloc: Global,
    out: &mut Bytes,
    number: u32,
    t: Option<TimeSpec>,
) -> Result<(), NoMem>
    requires first { 1 ≤ number }
    requires last { number ≤ LAST_FIELD_NUMBER }
    ensures { OnOk result (out.new ≡ out.old ++ (part number time_spec).write t) }
{
    let Some(t) = t else {
        return Ok(());
    };
    put_bytes(out, number, time_bytes(alloc, t)?.as_slice())
}

/// Puts strings, each as a field.
pub fn put_texts(out: &mut Bytes, number: u32, texts: &[Bytes]) -> Result<(), NoMem>
    requires first { 1 ≤ number }
    requires last { number ≤ LAST_FIELD_NUMBER }
    ensures { OnOk result (out.new ≡ out.old ++ (repeated number text.kind).write texts.now) }
{
    for text in texts {
        put_bytes(out, number, text.as_slice())?;
    }
    Ok(())
}

/// Puts numbers as one packed field, where there are any.
pub fn put_numbers(
    alloc: Global,
    out: &mut Bytes,
    number: u32,
    numbers: &[i64],
) -> Result<(), NoMem>
    requires first { 1 ≤ number }
    requires last { number ≤ LAST_FIELD_NUMBER }
    ensures { OnOk result (out.new ≡ out.old ++ (repeated_int64 number).write numbers.now) }
{
    if numbers.is_empty() {
        return Ok(());
    }
    put_bytes(out, number, varints(alloc, numbers)?.as_slice())
}

/// The varints of these numbers.
fn varints(alloc: Global, numbers: &[i64]) -> Result<Bytes, NoMem>
    ensures { IfOk result (λ b. b ≡ flat_map (λ n. varint (cast_unsigned w64 n)) numbers.now) }
{
    let mut out = Bytes::new(alloc);
    for n in numbers {
        put_varint(&mut out, n.cast_unsigned())?;
    }
    Ok(out)
}
