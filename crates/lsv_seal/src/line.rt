//! A line of a seal.
ghost use Rattle.std.specs.Prelude.{◌≡◌, ◌≢◌, ◌++◌, ◌∷◌, ◌&&◌, true, Err, IfOk, IfSome, None, List, ℕ, length, codes};
ghost use Rattle.std.specs.List.{list_all};
ghost use Rattle.lsv_base.specs.LogNo.{digits_of};
ghost use Rattle.lsv_seal.specs.Line.{IsLine, fits, fits_byte, is_decimal, is_digest, is_hex, is_moment, line_of};
ghost use Rattle.lsv_seal.specs.Parts.{line_in};
ghost use Rattle.lsv_seal.specs.declared.line.Line.{Line};
ghost use Rattle.lsv_seal.specs.declared.line.LineFault.TheVariants as faults;

use lsv_base::{Bytes, LogNo, NoMem};
use std::alloc::Global;
use thiserror::Error;

/// The form of a moment: 0 stands for any decimal digit.
const MOMENT: &[u8] = b"0000-00-00T00:00:00Z";

/// Why a text is not read as a line.
#[derive(Clone, Copy, Debug, Error, PartialEq, Eq)]
pub enum LineFault {
    #[error("no line of a seal")]
    Malformed,
    #[error("out of memory")]
    NoMem,
}

impl From<NoMem> for LineFault {
    ghost from_gives = { λ _ fault. fault ≡ faults.NoMem };

    fn from(_: NoMem) -> Self {
        LineFault::NoMem
    }
}

/// What a line says: a log, when it was submitted, the digest of its committed bytes, and the chain's value after it. Digest and
/// value are 64 hexadecimal digits, the moment is one as `2026-12-01T10:00:00Z`.
#[derive(Debug, Drop)]
pub struct Line {
    pub number: LogNo,
    pub time: Bytes,
    pub digest: Bytes,
    pub value: Bytes,
}

impl Line {
    /// The line's text, with a line feed at its end.
    pub fn text(&self, alloc: Global) -> Result<Bytes, NoMem>
        ensures { IfOk result (λ text. text ≡ line_of self.now) }
    {
        let mut text = Bytes::of(alloc, self.number.digits().as_slice())?;
        text.add(b" ")?;
        text.add(self.time.as_slice())?;
        text.add(b" ")?;
        text.add(self.digest.as_slice())?;
        text.add(b" ")?;
        text.add(self.value.as_slice())?;
        text.add(b"\n")?;
        Ok(text)
    }

    /// The line with this text, which ends with its line feed.
    pub fn read(alloc: Global, text: &[u8]) -> Result<Line, LineFault>
        ensures ok { IfOk result (λ l. IsLine l × (text.now ≡ line_of l)) }
        ensures malformed { result ≡ Err faults.Malformed → (l : Line) → IsLine l → text.now ≢ line_of l }
    {
        let Some(parts) = parts_of(text) else {
            return Err(LineFault::Malformed);
        };
        Ok(Line {
            number: parts.number,
            time: Bytes::of(alloc, parts.time)?,
            digest: Bytes::of(alloc, parts.digest)?,
            value: Bytes::of(alloc, parts.value)?,
        })
    }
}

/// The parts of a line's text.
#[derive(Clone, Copy)]
struct Parts<'t> {
    number: LogNo,
    time: &'t [u8],
    digest: &'t [u8],
    value: &'t [u8],
}

/// The parts of a line's text, if each is in its form.
fn parts_of(text: &[u8]) -> Option<Parts<'_>>
    ensures some { IfSome result (λ p. IsLine (line_in p) × (text.now ≡ line_of (line_in p))) }
    ensures none { result ≡ None → (l : Line) → IsLine l → text.now ≢ line_of l }
{
    let (digits, rest) = cut(text, 6, b' ')?;
    let (time, rest) = cut(rest, 20, b' ')?;
    let (digest, rest) = cut(rest, 64, b' ')?;
    let (value, rest) = cut(rest, 64, b'\n')?;
    let number = LogNo::read(digits)?;
    if is_in_form(time, digest, value) && rest.is_empty() {
        return Some(Parts {
            number,
            time,
            digest,
            value,
        });
    }
    None
}

/// Whether these are a moment and two digests.
fn is_in_form(time: &[u8], digest: &[u8], value: &[u8]) -> bool
    ensures { result ≡ (is_moment time.now && is_digest digest.now && is_digest value.now) }
{
    is_moment(time) && is_digest(digest) && is_digest(value)
}

/// The first part of a text, of this length, and what stands after the byte that ends it.
fn cut(text: &[u8], count: usize, end: u8) -> Option<(&[u8], &[u8])>
    ensures some { IfSome result (λ p. (length p.0.now ≡ count) × (text.now ≡ p.0.now ++ end ∷ p.1.now)) }
    ensures none { result ≡ None → (part rest : List ℕ) → length part ≡ count → text.now ≢ part ++ end ∷ rest }
{
    let (part, rest) = text.split_at_checked(count)?;
    match rest {
        [byte, rest @ ..] if *byte == end => Some((part, rest)),
        _ => None,
    }
}

/// Whether a text is a moment.
fn is_moment(text: &[u8]) -> bool
    ensures { result ≡ is_moment text.now }
{
    fits(MOMENT, text)
}

/// Whether a text is in this form.
fn fits(form: &[u8], text: &[u8]) -> bool
    ensures { result ≡ fits form.now text.now }
{
    let [first, form @ ..] = form else {
        return text.is_empty();
    };
    let [byte, text @ ..] = text else {
        return false;
    };
    fits_byte(*first, *byte) && fits(form, text)
}

/// Whether a byte is in the form of this byte.
fn fits_byte(form: u8, byte: u8) -> bool
    ensures { result ≡ fits_byte form byte }
{
    if form == b'0' {
        byte.is_ascii_digit()
    } else {
        byte == form
    }
}

/// Whether a text is a digest.
fn is_digest(text: &[u8]) -> bool
    ensures { result ≡ is_digest text.now }
{
    text.len() == 64 && is_hex_text(text)
}

/// Whether each byte of a text is a digit of a digest.
fn is_hex_text(text: &[u8]) -> bool
    ensures { result ≡ list_all is_hex text.now }
{
    text.iter().all(|byte| is_hex(*byte))
}

/// Whether a byte is a digit of a digest.
fn is_hex(byte: u8) -> bool
    ensures { result ≡ is_hex byte }
{
    matches!(byte, b'0'..=b'9' | b'a'..=b'f')
}
