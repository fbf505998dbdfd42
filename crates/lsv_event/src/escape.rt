ghost use Rattle.std.specs.Prelude.{◌≡◌, ◌++◌, OnOk};
ghost use Rattle.lsv_event.specs.Escapes.{escaped, escaped_byte, is_plain, octal};

use lsv_base::NoMem;

/// Puts a text of a client at the end. What isn't a space or visible, and `#`, is written as `#` and three octal digits.
pub fn put_escaped(out: &mut Vec<u8>, text: &[u8]) -> Result<(), NoMem>
    ensures { OnOk result (out.new.items ≡ out.old.items ++ escaped text.now) }
{
    for byte in text {
        put_byte(out, *byte)?;
    }
    Ok(())
}

fn put_byte(out: &mut Vec<u8>, byte: u8) -> Result<(), NoMem>
    ensures { OnOk result (out.new.items ≡ out.old.items ++ escaped_byte byte) }
{
    if is_plain(byte) {
        out.push(byte)?;
    } else {
        out.push(b'#')?;
        out.extend_from_slice(&octal(byte))?;
    }
    Ok(())
}

/// Whether a byte stands in a line as it is.
fn is_plain(byte: u8) -> bool
    ensures { result ≡ is_plain byte }
{
    b' ' <= byte && byte <= b'~' && byte != b'#'
}

fn octal(byte: u8) -> [u8; 3]
    ensures { result ≡ octal byte }
{
    [b'0' + byte / 64 % 8, b'0' + byte / 8 % 8, b'0' + byte % 8]
}
