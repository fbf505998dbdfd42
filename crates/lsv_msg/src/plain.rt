//! The plain form of a record of data, which nearly all messages have. It is tried before fields are taken one after
//! another, and where bytes aren't in it, that says nothing about them.

ghost use Rattle.std.specs.Prelude.{◌≡◌, ◌≤◌, ℕ, [], ◌∷◌, length, Some, None, Ok, IfSome, slice_range};
ghost use Rattle.std.specs.Bool.{OnTrue};
ghost use Rattle.lsv_wire.specs.declared.field.FieldValue.TheVariants as values;
ghost use Rattle.lsv_wire.specs.Fields.{fields_from, fields_of};
ghost use Rattle.lsv_msg.specs.Format.{read};
ghost use Rattle.lsv_msg.specs.Messages.{time_spec, io_buffer};

use crate::rows::int32_of;
use lsv_base::TimeSpec;
use lsv_wire::{keyed_bytes, keyed_number};

/// The keys of a record's delay and data, and of a time's seconds and nanoseconds: the field's number times 8, and its type.
const DELAY: u8 = 0x0a;

const DATA: u8 = 0x12;

/// The keys of the first and the last message of data, 6 and 10.
const FIRST_DATA: u8 = 0x32;

const LAST_DATA: u8 = 0x52;

const SECONDS: u8 = 0x08;

const NANOS: u8 = 0x10;

/// The number, the delay and the data of a message of data that is one field, in which these two are.
#[inline(always)]
#[tactic(auto, using(crate::proofs::FewFields::one_part))]
pub fn plain_record(bytes: &[u8]) -> Option<(u8, TimeSpec, &[u8])>
    ensures number { IfSome result (λ r. (6 ≤ r.0) × (r.0 ≤ 10)) }
    ensures message { IfSome result (λ r. (from : ℕ) × (to : ℕ) × (fields_of bytes.now ≡ record { fields = record { number = r.0; value = values.Range from to } ∷ []; fault = None })
        × (read io_buffer (slice_range bytes.now from to) ≡ Ok (record { delay = Some r.1; bytes = r.2.now }))) }
{
    let key = *bytes.first()?;
    if key % 8 != 2 || key < FIRST_DATA || key > LAST_DATA {
        return None;
    }
    let (from, to) = keyed_bytes(bytes, 0, key)?;
    if !is_end(bytes, to) {
        return None;
    }
    let (delay, data) = plain_buffer(&bytes[from..to])?;
    Some((key / 8, delay, data))
}

/// The delay and the data of a record that has these two fields and no other.
#[inline(always)]
#[tactic(auto, using(crate::proofs::FewFields::delay_and_data))]
fn plain_buffer(bytes: &[u8]) -> Option<(TimeSpec, &[u8])>
    ensures { IfSome result (λ b. read io_buffer bytes.now ≡ Ok (record { delay = Some b.0; bytes = b.1.now })) }
{
    let (from, to) = keyed_bytes(bytes, 0, DELAY)?;
    let (start, end) = keyed_bytes(bytes, to, DATA)?;
    if !is_end(bytes, end) {
        return None;
    }
    let delay = plain_time(&bytes[from..to])?;
    Some((delay, &bytes[start..end]))
}

/// The time that has only nanoseconds, or seconds and then nanoseconds.
#[inline(always)]
fn plain_time(bytes: &[u8]) -> Option<TimeSpec>
    ensures { IfSome result (λ t. read time_spec bytes.now ≡ Ok t) }
{
    let Some((sec, next)) = keyed_number(bytes, 0, SECONDS) else {
        let nsec = int32_of(last_number(bytes, 0)?);
        return Some(TimeSpec { sec: 0, nsec });
    };
    let sec = sec.cast_signed();
    let nsec = int32_of(last_number(bytes, next)?);
    Some(TimeSpec { sec, nsec })
}

/// The number of the nanoseconds' field at a place, where no other field follows.
#[inline(always)]
fn last_number(bytes: &[u8], at: usize) -> Option<u64>
    requires { at ≤ length bytes.now }
    ensures { IfSome result (λ n. fields_from bytes.now at ≡ record { fields = record { number = 2; value = values.Varint n } ∷ []; fault = None }) }
{
    let (n, end) = keyed_number(bytes, at, NANOS)?;
    if !is_end(bytes, end) {
        return None;
    }
    Some(n)
}

/// Whether no field follows at a place.
#[inline(always)]
#[tactic(auto, using(crate::proofs::FewFields::none_at_end))]
fn is_end(bytes: &[u8], at: usize) -> bool
    ensures { OnTrue result (fields_from bytes.now at ≡ record { fields = []; fault = None }) }
{
    at == bytes.len()
}
