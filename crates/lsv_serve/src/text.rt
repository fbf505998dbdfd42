//! Bytes that are texts.

ghost use Rattle.std.specs.Prelude.{◌≡◌, IsTrue};
ghost use Rattle.std.specs.List.{list_all};
ghost use Rattle.std.specs.Str.{is_utf8};

use lsv_base::Bytes;
use std::str;

/// Whether these bytes are UTF-8.
fn is_text(bytes: &Bytes) -> bool
    ensures { result ≡ is_utf8 bytes.now }
{
    str::from_utf8(bytes.as_slice()).is_ok()
}

/// Whether each of these is UTF-8.
pub(crate) fn are_texts(words: &[Bytes]) -> bool
    ensures { result ≡ list_all is_utf8 words.now }
{
    words.iter().all(|word| is_text(word))
}

/// The text that bytes are.
pub(crate) fn text_of(bytes: &Bytes) -> &str
    requires { IsTrue (is_utf8 bytes.now) }
    ensures { result.now ≡ bytes.now }
{
    let Ok(text) = str::from_utf8(bytes.as_slice()) else {
        unreachable!();
    };
    text
}
