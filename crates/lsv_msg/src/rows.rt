//! How the rows of a table take a field.

ghost use Rattle.std.specs.Prelude.{◌≡◌, ◌≤◌, ◌<◌, ◌%◌, ◌^◌, ◌⊎◌, [], length, MatchResult};
ghost use Rattle.std.specs.Int.{w32, cast_signed};
ghost use Rattle.lsv_msg.specs.declared.fault.MsgFault.TheVariants as faults;
ghost use Rattle.lsv_wire.specs.Fields.{IsWithin};
ghost use Rattle.lsv_msg.specs.Format.{Gives, once, pushed, extended, number_in, bytes_in, numbers_in, message, value_or, int64, int32, flag, text};
ghost use Rattle.lsv_msg.specs.Messages.{time_spec};

use crate::MsgFault;
use crate::packed::{push_number, push_packed};
use crate::time::read_time;
use lsv_base::{Bytes, List, TimeSpec};
use lsv_wire::{Field, FieldValue};
use std::alloc::Global;

/// The number of a field of type 0.
pub fn number_of(field: Field) -> Result<u64, MsgFault>
    ensures { Gives (λ n. n) result (number_in field) }
{
    match field.value {
        FieldValue::Varint(n) => Ok(n),
        _ => Err(MsgFault::WrongType(field.number)),
    }
}

/// The bytes of a field of type 2.
pub fn bytes_of(bytes: &[u8], field: Field) -> Result<&[u8], MsgFault>
    requires { IsWithin (length bytes.now) field.value }
    ensures { Gives (λ b. b.now) result (bytes_in bytes.now field) }
{
    match field.value {
        FieldValue::Range(from, to) => Ok(&bytes[from..to]),
        _ => Err(MsgFault::WrongType(field.number)),
    }
}

/// Takes the one value of an int64.
pub fn set_int64(slot: &mut Option<i64>, field: Field) -> Result<(), MsgFault>
    ensures { Gives (λ _. slot.new) result (once slot.old field.number (int64.kind.read [] field)) }
{
    if slot.is_some() {
        return Err(MsgFault::Twice(field.number));
    }
    *slot = Some(number_of(field)?.cast_signed());
    Ok(())
}

/// Takes the one value of an int32, the low 32 bits of the number.
pub fn set_int32(slot: &mut Option<i32>, field: Field) -> Result<(), MsgFault>
    ensures { Gives (λ _. slot.new) result (once slot.old field.number (int32.kind.read [] field)) }
{
    if slot.is_some() {
        return Err(MsgFault::Twice(field.number));
    }
    *slot = Some(int32_of(number_of(field)?));
    Ok(())
}

/// The int32 of a varint, its low 32 bits.
#[inline(always)]
pub fn int32_of(n: u64) -> i32
    ensures { result ≡ cast_signed w32 (n % 2 ^ 32) }
{
    let low = (n & 0xffff_ffff) as u32;
    low.cast_signed()
}

/// Takes the one value of a bool.
pub fn set_flag(slot: &mut Option<bool>, field: Field) -> Result<(), MsgFault>
    ensures { Gives (λ _. slot.new) result (once slot.old field.number (flag.kind.read [] field)) }
{
    if slot.is_some() {
        return Err(MsgFault::Twice(field.number));
    }
    *slot = Some(number_of(field)? != 0);
    Ok(())
}

/// Takes the one value of a string or of bytes.
pub fn set_text(
    alloc: Global,
    slot: &mut Option<Bytes>,
    bytes: &[u8],
    field: Field,
) -> Result<(), MsgFault>
    requires { IsWithin (length bytes.now) field.value }
    ensures { Gives (λ _. slot.new) result (once slot.old field.number (text.kind.read bytes.now field)) }
{
    if slot.is_some() {
        return Err(MsgFault::Twice(field.number));
    }
    *slot = Some(Bytes::of(alloc, bytes_of(bytes, field)?)?);
    Ok(())
}

/// Takes the one value of a time.
pub fn set_time(
    alloc: Global,
    slot: &mut Option<TimeSpec>,
    bytes: &[u8],
    field: Field,
) -> Result<(), MsgFault>
    requires { IsWithin (length bytes.now) field.value }
    ensures { Gives (λ _. slot.new) result (once slot.old field.number ((message time_spec).read bytes.now field)) }
{
    if slot.is_some() {
        return Err(MsgFault::Twice(field.number));
    }
    *slot = Some(read_time(alloc, bytes_of(bytes, field)?)?);
    Ok(())
}

/// Takes one more string.
pub fn push_text(
    alloc: Global,
    texts: &mut List<Bytes>,
    bytes: &[u8],
    field: Field,
) -> Result<(), MsgFault>
    requires { IsWithin (length bytes.now) field.value }
    ensures { Gives (λ _. texts.new) result (pushed texts.old (text.kind.read bytes.now field)) }
{
    let text = Bytes::of(alloc, bytes_of(bytes, field)?)?;
    match texts.push(text) {
        Ok(()) => Ok(()),
        Err(_) => Err(MsgFault::NoMem),
    }
}

/// Takes the numbers of a field, packed or not, whose key is at this place.
pub fn push_numbers(
    numbers: &mut List<i64>,
    bytes: &[u8],
    key: usize,
    field: Field,
) -> Result<(), MsgFault>
    requires { IsWithin (length bytes.now) field.value }
    ensures { Gives (λ _. numbers.new) result (extended numbers.old (numbers_in bytes.now key field)) }
{
    match field.value {
        FieldValue::Varint(n) => push_number(numbers, n),
        FieldValue::Range(from, to) => push_packed(numbers, &bytes[from..to], key),
        _ => Err(MsgFault::WrongType(field.number)),
    }
}

/// A field of one of these numbers is a fault where a member of a oneof of these numbers is set.
pub fn no_second(field: Field, first: u32, last: u32) -> Result<(), MsgFault>
    ensures { MatchResult result
        (λ _. (field.number < first) ⊎ (last < field.number))
        (λ e. (first ≤ field.number) × (field.number ≤ last) × (e ≡ faults.Twice field.number)) }
{
    if first <= field.number && field.number <= last {
        return Err(MsgFault::Twice(field.number));
    }
    Ok(())
}

/// The text that was found, or none.
pub fn text_or_empty(alloc: Global, text: Option<Bytes>) -> Bytes
    ensures { result ≡ value_or [] text }
{
    match text {
        Some(text) => text,
        None => Bytes::new(alloc),
    }
}
