ghost use Rattle.std.specs.Prelude.{◌≡◌, ◌+◌, ◌≤◌, ◌<◌, ◌++◌, length, take, OnOk, OnErr};
ghost use Rattle.lsv_wire.specs.Varint.{varint};
ghost use Rattle.lsv_wire.specs.Fields.{number_field, bytes_field};

use crate::LAST_FIELD_NUMBER;
use lsv_base::{Bytes, NoMem};

/// The longest varint, in bytes.
const LONGEST: usize = 10;

/// Puts the shortest varint of a number at the end.
pub fn put_varint(out: &mut Bytes, v: u64) -> Result<(), NoMem>
    ensures ok { OnOk result (out.new ≡ out.old ++ varint v) }
    ensures err { OnErr result (out.new ≡ out.old) }
{
    let mut bytes = [0; LONGEST];
    let end = write_varint(&mut bytes, 0, v);
    out.add(&bytes[..end])
}

/// Puts a field whose value is a number at the end, a number 0 too.
pub fn put_number(out: &mut Bytes, number: u32, v: u64) -> Result<(), NoMem>
    requires first { 1 ≤ number }
    requires last { number ≤ LAST_FIELD_NUMBER }
    ensures ok { OnOk result (out.new ≡ out.old ++ number_field number v) }
    ensures err { OnErr result (out.new ≡ out.old) }
{
    let mut bytes = [0; 2 * LONGEST];
    let end = write_varint(&mut bytes, 0, u64::from(number) * 8);
    let end = write_varint(&mut bytes, end, v);
    out.add(&bytes[..end])
}

/// Puts a field whose value is bytes at the end, an empty one too.
pub fn put_bytes(out: &mut Bytes, number: u32, b: &[u8]) -> Result<(), NoMem>
    requires first { 1 ≤ number }
    requires last { number ≤ LAST_FIELD_NUMBER }
    ensures ok { OnOk result (out.new ≡ out.old ++ bytes_field number b.now) }
    ensures err { OnErr result (out.new ≡ out.old) }
{
    let mut bytes = [0; 2 * LONGEST];
    let end = write_varint(&mut bytes, 0, u64::from(number) * 8 + 2);
    let end = write_varint(&mut bytes, end, b.len() as u64);
    let before = out.as_slice().len();
    out.add(&bytes[..end])?;
    if let Err(e) = out.add(b) {
        out.truncate(before);
        return Err(e);
    }
    Ok(())
}

/// Writes the shortest varint of a number from a place on, and gives the place after it.
pub fn write_varint(bytes: &mut [u8], at: usize, v: u64) -> usize
    requires { at + 10 ≤ length bytes.old }
    ensures after { at < result }
    ensures there { result ≤ at + 10 }
    ensures written { take result bytes.new ≡ take at bytes.old ++ varint v }
{
    let mut end = at;
    let mut rest = v;
    while rest >= 128 {
        bytes[end] = (rest % 128) as u8 + 128;
        rest /= 128;
        end += 1;
    }
    bytes[end] = rest as u8;
    end + 1
}
