ghost use Rattle.std.specs.Prelude.{◌≡◌, option_map};
ghost use Rattle.lsv_conf.specs.Texts.{before, behind, is_blank, trimmed, without_end, without_front};

use memchr::memchr;

/// What stands before the first such byte, and what stands after it, if there is one.
pub fn cut(separator: u8, bytes: &[u8]) -> (&[u8], Option<&[u8]>)
    ensures before { result.0.now ≡ before separator bytes.now }
    ensures behind { option_map (λ rest. rest.now) result.1 ≡ behind separator bytes.now }
{
    match memchr(separator, bytes) {
        Some(at) => (&bytes[..at], Some(&bytes[at + 1..])),
        None => (bytes, None),
    }
}

/// Whether a byte is a blank: a space, a tab or a carriage return.
fn is_blank(byte: u8) -> bool
    ensures { result ≡ is_blank byte }
{
    byte == b' ' || byte == b'\t' || byte == b'\r'
}

/// The bytes without the blanks in front.
fn without_front(mut bytes: &[u8]) -> &[u8]
    ensures { result.now ≡ without_front bytes.entry.now }
{
    while let Some((first, rest)) = bytes.split_first()
        && is_blank(*first)
    {
        bytes = rest;
    }
    bytes
}

/// The bytes without the blanks at the end.
fn without_end(mut bytes: &[u8]) -> &[u8]
    ensures { result.now ≡ without_end bytes.entry.now }
{
    while let Some((last, rest)) = bytes.split_last()
        && is_blank(*last)
    {
        bytes = rest;
    }
    bytes
}

/// The bytes without the blanks at both ends.
pub fn trimmed(bytes: &[u8]) -> &[u8]
    ensures { result.now ≡ trimmed bytes.now }
{
    without_end(without_front(bytes))
}
