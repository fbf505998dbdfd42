//! DEL and the C1 controls in a line of JSON, as lsv_event writes them.

ghost use Rattle.std.specs.Prelude.{◌≡◌, ◌<◌, ◌++◌, OnOk};
ghost use Rattle.std.specs.Char.{digit_char};
ghost use Rattle.lsv_event.specs.Controls.{byte_after, is_lead, is_second, lead_before, numbered, uncontrolled};

use lsv_base::NoMem;

/// By this byte each C1 control begins in UTF-8.
const LEAD: u8 = 0xc2;

/// Puts a text in UTF-8 at the end, its DEL and its C1 controls by their numbers.
pub(crate) fn put_uncontrolled(out: &mut Vec<u8>, text: &[u8]) -> Result<(), NoMem>
    ensures { OnOk result (out.new.items ≡ out.old.items ++ uncontrolled 0 text.now) }
{
    let mut before = 0;
    for byte in text {
        put_after(out, before, *byte)?;
        before = *byte;
    }
    if is_lead(before) {
        out.push(LEAD)?;
    }
    Ok(())
}

/// Puts a byte that comes after another one.
fn put_after(out: &mut Vec<u8>, before: u8, byte: u8) -> Result<(), NoMem>
    ensures { OnOk result (out.new.items ≡ out.old.items ++ lead_before before byte ++ byte_after before byte) }
{
    if is_lead(before) && !is_second(byte) {
        out.push(LEAD)?;
    }
    if is_lead(byte) {
        return Ok(());
    }
    if byte == 0x7f || (is_lead(before) && is_second(byte)) {
        out.extend_from_slice(&numbered(byte))?;
    } else {
        out.push(byte)?;
    }
    Ok(())
}

fn is_lead(byte: u8) -> bool
    ensures { result ≡ is_lead byte }
{
    byte == LEAD
}

/// Whether a byte makes a C1 control after its first byte.
fn is_second(byte: u8) -> bool
    ensures { result ≡ is_second byte }
{
    0x80 <= byte && byte <= 0x9f
}

fn numbered(byte: u8) -> [u8; 6]
    ensures { result ≡ numbered byte }
{
    [b'\\', b'u', b'0', b'0', digit(byte / 16), digit(byte % 16)]
}

/// The digit of a number below 16.
fn digit(n: u8) -> u8
    requires { n < 16 }
    ensures { result ≡ digit_char n }
{
    if n < 10 { b'0' + n } else { b'a' - 10 + n }
}
