ghost use Rattle.std.specs.Prelude.{◌≡◌};
ghost use Rattle.lsv_conf.specs.Inner.{said};
ghost use Rattle.lsv_conf.specs.Lines.{form_of, line_of};

use crate::text::{cut, trimmed};
use std::str;

/// What a line is.
#[derive(Clone, Copy, Debug)]
pub enum Line<'t> {
    Empty,
    /// A section with this name.
    Section(&'t [u8]),
    /// A key and its value.
    Setting(&'t [u8], &'t [u8]),
    /// None of these.
    Bad,
}

/// What a text without comment, and without blanks at its ends, is.
fn form_of(text: &[u8]) -> Line<'_>
    ensures { said result ≡ form_of text.now }
{
    match text {
        [] | [b';', ..] => return Line::Empty,
        [b'[', .., b']'] => return Line::Section(&text[1..text.len() - 1]),
        _ => (),
    }
    match cut(b'=', text) {
        (_, None) => Line::Bad,
        (key, Some(value)) => {
            let key = trimmed(key);
            if key.is_empty() {
                Line::Bad
            } else {
                Line::Setting(key, trimmed(value))
            }
        }
    }
}

/// What a line's bytes are: from `#` on they are comment.
pub fn line_of(bytes: &[u8]) -> Line<'_>
    ensures { said result ≡ line_of bytes.now }
{
    let Ok(_) = str::from_utf8(bytes) else {
        return Line::Bad;
    };
    form_of(trimmed(cut(b'#', bytes).0))
}
