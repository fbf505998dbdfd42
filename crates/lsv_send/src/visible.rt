//! Texts of the server in a line, without control characters.

ghost use Rattle.std.specs.Prelude.{◌≡◌, ◌<◌, ◌++◌, OnOk};
ghost use Rattle.std.specs.Char.{digit_char};
ghost use Rattle.lsv_send.specs.Visible.{byte_after, is_control, is_lead, is_second, lead_before, numbered, visible};

use lsv_base::{Bytes, NoMem};

/// By this byte each C1 control begins in UTF-8.
const LEAD: u8 = 0xc2;

/// Adds a text in UTF-8, its control characters by their numbers.
pub fn add_visible(out: &mut Bytes, text: &[u8]) -> Result<(), NoMem>
    ensures { OnOk result (out.new ≡ out.old ++ visible 0 text.now) }
{
    let mut before = 0;
    for byte in text {
        add_after(out, before, *byte)?;
        before = *byte;
    }
    if is_lead(before) {
        out.add(&[LEAD])?;
    }
    Ok(())
}

/// Adds a byte that comes after another one.
fn add_after(out: &mut Bytes, before: u8, byte: u8) -> Result<(), NoMem>
    ensures { OnOk result (out.new ≡ out.old ++ lead_before before byte ++ byte_after before byte) }
{
    if is_lead(before) && !is_second(byte) {
        out.add(&[LEAD])?;
    }
    if is_lead(byte) {
        return Ok(());
    }
    if is_control(byte) || (is_lead(before) && is_second(byte)) {
        out.add(&numbered(byte))?;
    } else {
        out.add(&[byte])?;
    }
    Ok(())
}

fn is_lead(byte: u8) -> bool
    ensures { result ≡ is_lead byte }
{
    byte == LEAD
}

/// Whether a byte makes a C1 control after its first byte.
fn is_second(byte: u8) -> bool
    ensures { result ≡ is_second byte }
{
    0x80 <= byte && byte <= 0x9f
}

/// Whether a byte is a control character of ASCII.
fn is_control(byte: u8) -> bool
    ensures { result ≡ is_control byte }
{
    byte < b' ' || byte == 0x7f
}

/// A character by its number.
fn numbered(byte: u8) -> [u8; 4]
    ensures { result ≡ numbered byte }
{
    [b'\\', b'x', digit(byte / 16), digit(byte % 16)]
}

/// The digit of a number below 16.
fn digit(n: u8) -> u8
    requires { n < 16 }
    ensures { result ≡ digit_char n }
{
    if n < 10 { b'0' + n } else { b'a' - 10 + n }
}
