//! Words and parts of words.
ghost use Rattle.std.specs.Prelude.{◌≡◌, IsTrue, IfOk, map, option_map};
ghost use Rattle.std.specs.List.{list_all};
ghost use Rattle.std.specs.Str.{is_utf8};
ghost use Rattle.lsv_replay_args.specs.Texts.{before, behind};

use lsv_base::Bytes;
use memchr::memchr;
use std::alloc::{AllocError, Global};
use std::str;

/// The words as texts.
pub fn texts_of(alloc: Global, words: &[Bytes]) -> Result<Vec<&str>, AllocError>
    requires { IsTrue (list_all is_utf8 words.now) }
    ensures { IfOk result (λ texts. map (λ t. t.now) texts.items ≡ words.now) }
{
    let mut texts = Vec::with_capacity(alloc, words.len())?;
    for word in words {
        let Ok(text) = str::from_utf8(word.as_slice()) else {
            unreachable!();
        };
        texts.push(text)?;
    }
    Ok(texts)
}

/// What stands before the first such byte, and what stands after it, if there is one.
pub fn cut(separator: u8, bytes: &[u8]) -> (&[u8], Option<&[u8]>)
    ensures before { result.0.now ≡ before separator bytes.now }
    ensures behind { option_map (λ rest. rest.now) result.1 ≡ behind separator bytes.now }
{
    match memchr(separator, bytes) {
        Some(at) => (&bytes[..at], Some(&bytes[at + 1..])),
        None => (bytes, None),
    }
}
