ghost use Rattle.std.specs.Prelude.{◌≡◌, ◌≤◌, ◌<◌, ◌/◌, ◌%◌, ◌↔◌, [], ◌∷◌, length, get_or, MatchResult, MatchOption, IfOk, IfSome, IfNone, IsErr, Some, None, Ok};
ghost use Rattle.std.specs.Int.{w32, w64};
ghost use Rattle.lsv_wire.specs.Fields as spelled;
ghost use Rattle.lsv_wire.specs.Fields.{fixed_at, fields_from, with_field, IsWithin};
ghost use Rattle.lsv_wire.specs.declared.field.FieldValue.TheVariants.{Varint, Range};

use thiserror::Error;

/// The last number that a field may have.
pub const LAST_FIELD_NUMBER: u32 = 536_870_911;

/// A field of the protobuf encoding.
#[derive(Clone, Copy, Debug, PartialEq, Eq)]
pub struct Field {
    /// From 1 to 536,870,911.
    pub number: u32,
    pub value: FieldValue,
}

/// The value of a field, by its type.
#[derive(Clone, Copy, Debug, PartialEq, Eq)]
pub enum FieldValue {
    /// Type 0: a varint, modulo 2^64.
    Varint(u64),
    /// Type 1: eight bytes, the least significant first.
    Eight(u64),
    /// Type 2: the bytes from the first place up to the second, which isn't one of them.
    Range(usize, usize),
    /// Type 5: four bytes, the least significant first.
    Four(u32),
}

/// Why there is no field at a place. Each tells the place of the field's key.
#[derive(Clone, Copy, Debug, PartialEq, Eq, Error)]
pub enum WireFault {
    /// The bytes end inside the key or the value.
    #[error("the bytes end inside the field at offset {0}")]
    Truncated(usize),
    /// The tenth byte of a varint says that another follows.
    #[error("a varint of the field at offset {0} has more than ten bytes")]
    LongVarint(usize),
    /// The number is 0 or above 536,870,911, or the type is none of 0, 1, 2 and 5.
    #[error("no key of a field stands at offset {0}")]
    BadKey(usize),
}

/// The field at a place, and the place after it. None at the end.
#[inline(always)]
pub fn read_field(bytes: &[u8], at: usize) -> Result<Option<(Field, usize)>, WireFault>
    requires { at ≤ length bytes.now }
    ensures exact { result ≡ spelled.next_field bytes.now at }
    ensures end { (result ≡ Ok None) ↔ (at ≡ length bytes.now) }
    ensures forward { IfOk result (λ f. IfSome f (λ f. (at < f.1) × (f.1 ≤ length bytes.now))) }
    ensures number { IfOk result (λ f. IfSome f (λ f. (1 ≤ f.0.number) × (f.0.number ≤ LAST_FIELD_NUMBER))) }
    ensures within { IfOk result (λ f. IfSome f (λ f. IsWithin (length bytes.now) f.0.value)) }
    ensures fields { MatchResult result
        (λ f. MatchOption f
        (fields_from bytes.now at ≡ record { fields = []; fault = None })
        (λ f. fields_from bytes.now at ≡ with_field f.0 (fields_from bytes.now f.1)))
        (λ e. fields_from bytes.now at ≡ record { fields = []; fault = Some e }) }
{
    next_field(bytes, at)
}

/// The places of the bytes of the field at a place, whose key is this one byte. None where the byte there is another one,
/// at the end, and where the field is cut off or its length is no varint.
#[inline(always)]
#[tactic(auto, using(crate::proofs::Keyed::keyed_bytes, crate::proofs::Keyed::no_length, crate::proofs::Keyed::past_the_end))]
pub fn keyed_bytes(bytes: &[u8], at: usize, key: u8) -> Option<(usize, usize)>
    requires place { at ≤ length bytes.now }
    requires key { (8 ≤ key) × (key < 128) × (key % 8 ≡ 2) }
    ensures fields { IfSome result (λ r. fields_from bytes.now at ≡ with_field (record { number = key / 8; value = Range r.0 r.1 }) (fields_from bytes.now r.1)) }
    ensures none { IfNone result (get_or bytes.now at 0 ≡ key → IsErr (spelled.next_field bytes.now at)) }
    ensures within { IfSome result (λ r. (r.0 ≤ r.1) × (r.1 ≤ length bytes.now)) }
{
    if at == bytes.len() || bytes[at] != key {
        return None;
    }
    let Ok((n, from)) = varint_at(bytes, at, at + 1) else {
        return None;
    };
    if n > (bytes.len() - from) as u64 {
        return None;
    }
    Some((from, from + n as usize))
}

/// The number in the field at a place, whose key is this one byte, and the place after it. None where the byte there is
/// another one, at the end, and where no varint follows it.
#[inline(always)]
#[tactic(auto, using(crate::proofs::Keyed::keyed_number, crate::proofs::Keyed::no_number))]
pub fn keyed_number(bytes: &[u8], at: usize, key: u8) -> Option<(u64, usize)>
    requires place { at ≤ length bytes.now }
    requires key { (8 ≤ key) × (key < 128) × (key % 8 ≡ 0) }
    ensures fields { IfSome result (λ r. fields_from bytes.now at ≡ with_field (record { number = key / 8; value = Varint r.0 }) (fields_from bytes.now r.1)) }
    ensures none { IfNone result (get_or bytes.now at 0 ≡ key → IsErr (spelled.next_field bytes.now at)) }
    ensures within { IfSome result (λ r. r.1 ≤ length bytes.now) }
{
    if at == bytes.len() || bytes[at] != key {
        return None;
    }
    let Ok((n, next)) = varint_at(bytes, at, at + 1) else {
        return None;
    };
    Some((n, next))
}

#[inline(always)]
#[tactic(auto, unfolding(crate::specs::Fields::next_field))]
fn next_field(bytes: &[u8], at: usize) -> Result<Option<(Field, usize)>, WireFault>
    requires { at ≤ length bytes.now }
    ensures { result ≡ spelled.next_field bytes.now at }
{
    if at == bytes.len() {
        return Ok(None);
    }
    let (field, next) = field_at(bytes, at)?;
    Ok(Some((field, next)))
}

#[inline(always)]
#[tactic(auto, unfolding(crate::specs::Fields::field_at))]
fn field_at(bytes: &[u8], at: usize) -> Result<(Field, usize), WireFault>
    requires { at ≤ length bytes.now }
    ensures { result ≡ spelled.field_at bytes.now at }
{
    let (key, after) = varint_at(bytes, at, at)?;
    let number = key / 8;
    if number == 0 || number > LAST_FIELD_NUMBER as u64 {
        return Err(WireFault::BadKey(at));
    }
    let (value, next) = value_at(key % 8, bytes, at, after)?;
    let number = number as u32;
    Ok((Field { number, value }, next))
}

#[inline(always)]
#[tactic(auto, unfolding(crate::specs::Fields::value_at))]
fn value_at(
    kind: u64,
    bytes: &[u8],
    key: usize,
    at: usize,
) -> Result<(FieldValue, usize), WireFault>
    requires { at ≤ length bytes.now }
    ensures { result ≡ spelled.value_at kind bytes.now key at }
{
    match kind {
        0 => {
            let (n, next) = varint_at(bytes, key, at)?;
            Ok((FieldValue::Varint(n), next))
        }
        1 => {
            let (n, next) = eight_at(bytes, key, at)?;
            Ok((FieldValue::Eight(n), next))
        }
        2 => {
            let (n, start) = varint_at(bytes, key, at)?;
            let end = after_bytes(n, bytes, key, start)?;
            Ok((FieldValue::Range(start, end), end))
        }
        5 => {
            let (n, next) = four_at(bytes, key, at)?;
            Ok((FieldValue::Four(n), next))
        }
        _ => Err(WireFault::BadKey(key)),
    }
}

#[cold]
#[inline(never)]
#[tactic(auto, unfolding(crate::specs::Fields::fixed_at))]
fn eight_at(bytes: &[u8], key: usize, at: usize) -> Result<(u64, usize), WireFault>
    requires { at ≤ length bytes.now }
    ensures { result ≡ fixed_at w64 bytes.now key at }
{
    if bytes.len() - at < 8 {
        return Err(WireFault::Truncated(key));
    }
    let eight = &bytes[at..at + 8];
    let n = u64::from_le_bytes([
        eight[0], eight[1], eight[2], eight[3], eight[4], eight[5], eight[6], eight[7],
    ]);
    Ok((n, at + 8))
}

#[cold]
#[inline(never)]
#[tactic(auto, unfolding(crate::specs::Fields::fixed_at))]
fn four_at(bytes: &[u8], key: usize, at: usize) -> Result<(u32, usize), WireFault>
    requires { at ≤ length bytes.now }
    ensures { result ≡ fixed_at w32 bytes.now key at }
{
    if bytes.len() - at < 4 {
        return Err(WireFault::Truncated(key));
    }
    let four = &bytes[at..at + 4];
    let n = u32::from_le_bytes([four[0], four[1], four[2], four[3]]);
    Ok((n, at + 4))
}

/// The place after this many bytes.
#[tactic(auto, unfolding(crate::specs::Fields::after_bytes))]
fn after_bytes(n: u64, bytes: &[u8], key: usize, at: usize) -> Result<usize, WireFault>
    requires { at ≤ length bytes.now }
    ensures { result ≡ spelled.after_bytes n bytes.now key at }
{
    if n > (bytes.len() - at) as u64 {
        return Err(WireFault::Truncated(key));
    }
    Ok(at + n as usize)
}

/// The varint at a place, and the place after it. A fault tells `key`, the place of the key of the field that the
/// varint stands in.
#[inline(always)]
#[tactic(auto, using(crate::proofs::Varints::one_byte))]
pub fn varint_at(bytes: &[u8], key: usize, at: usize) -> Result<(u64, usize), WireFault>
    requires { at ≤ length bytes.now }
    ensures exact { result ≡ spelled.varint_at bytes.now key at }
    ensures forward { IfOk result (λ n. (at < n.1) × (n.1 ≤ length bytes.now)) }
{
    // Nearly all have one byte.
    if at < bytes.len() && bytes[at] < 128 {
        return Ok((bytes[at] as u64, at + 1));
    }
    long_varint_at(bytes, key, at)
}

#[cold]
#[inline(never)]
fn long_varint_at(bytes: &[u8], key: usize, at: usize) -> Result<(u64, usize), WireFault>
    requires { at ≤ length bytes.now }
    ensures exact { result ≡ spelled.varint_at bytes.now key at }
    ensures forward { IfOk result (λ n. (at < n.1) × (n.1 ≤ length bytes.now)) }
{
    let (_, text) = bytes.split_at(at);
    let mut value: u64 = 0;
    for i in 0..10usize {
        if i >= text.len() {
            return Err(WireFault::Truncated(key));
        }
        let byte = text[i];
        value |= u64::from(byte & 0x7f) << (7 * i);
        if byte < 128 {
            return Ok((value, at + i + 1));
        }
    }
    Err(WireFault::LongVarint(key))
}
