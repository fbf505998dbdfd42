ghost use Rattle.std.specs.Prelude.{◌≡◌, ◌≢◌, ◌↔◌, ◌≤◌, ◌<◌, ◌^◌, ◌+◌, ◌++◌, ◌∷◌, ℕ, length, All, IfOk, IfErr, IfSome, IfNone, MatchOption, SomeIff, option_map, IsTrue};
ghost use Rattle.std.specs.Fmt.{decimal};
ghost use Rattle.std.specs.Str.Parse.{AllDigits, digits_value};
ghost use Rattle.lsv_record.specs.Lines.{IsLineAt, IsBadAt};
ghost use Rattle.lsv_record.specs.Records.{IsGood, last_digits, seconds, text_of, event_of};
ghost use Rattle.lsv_record.specs.Inner.Spelled as spelled;
ghost use Rattle.lsv_record.specs.Inner.Spelled.{Reads, IsPlain, joined};
ghost use Rattle.lsv_record.specs.declared.read.LineFault.TheVariants as faults;

use crate::write::NANOS_PER_SEC;
use crate::{Shaped, Stream, is_signal};
use lsv_base::{Bytes, NoMem};
use std::alloc::Global;
use thiserror::Error;

/// Delays and elapsed times stay below this, in nanoseconds.
pub(crate) const TIME_LIMIT: u64 = 1 << 63;

/// A record has at most this many bytes of data.
const DATA_LIMIT: u64 = 2_097_152;

/// Rows and columns stay below this.
const WINDOW_LIMIT: u64 = 1 << 31;

/// Why a line of timing couldn't be read.
#[derive(Clone, Copy, Debug, PartialEq, Eq, Error)]
pub enum LineFault {
    /// No line of timing stands at this offset.
    #[error("no line of timing stands at offset {0}")]
    BadLine(usize),
    /// Out of memory.
    #[error("out of memory")]
    NoMem,
}

impl From<NoMem> for LineFault {
    ghost use Rattle.lsv_record.specs.declared.read.LineFault.{LineFault};

    ghost from_gives = { λ _ fault. fault ≡ LineFault.NoMem };

    fn from(_: NoMem) -> Self {
        LineFault::NoMem
    }
}

/// The line of timing at an offset, and the offset after its line feed. None at the end of the text. It is a bad line
/// where the text from there doesn't begin with the line of a valid record, as where a number has a needless zero in
/// front, where the delay reaches 2^63 nanoseconds, or where the line feed is missing.
pub fn read_line(
    alloc: Global,
    text: &[u8],
    at: usize,
) -> Result<Option<(Shaped, usize)>, LineFault>
    requires { at ≤ length text.now }
    ensures line { IfOk result (λ found. MatchOption found (at ≡ length text.now) (λ line. IsLineAt text.now at line.0 line.1)) }
    ensures forward { IfOk result (λ found. IfSome found (λ line. (at < line.1) × (line.1 ≤ length text.now))) }
    ensures bad { IfErr result (λ fault. fault ≢ faults.NoMem → (fault ≡ faults.BadLine at) × IsBadAt text.now at) }
{
    let (_, rest) = text.split_at(at);
    if rest.is_empty() {
        return Ok(None);
    }
    let Some((line, _)) = split_first(rest, b'\n') else {
        return Err(LineFault::BadLine(at));
    };
    match told(alloc, line)? {
        Some(told) => Ok(Some((told, at + line.len() + 1))),
        None => Err(LineFault::BadLine(at)),
    }
}

/// What a line without its line feed tells.
fn told(alloc: Global, line: &[u8]) -> Result<Option<Shaped>, NoMem>
    ensures { IfOk result (λ told. Reads IsGood text_of line.now told) }
{
    let Some((event, delay, rest)) = parts_of(line) else {
        return Ok(None);
    };
    told_by_parts(alloc, event, delay, rest)
}

/// The event and the delay of a line, and the rest of it.
fn parts_of(line: &[u8]) -> Option<(u8, u64, &[u8])>
    ensures { Reads (λ p. p.delay < 2 ^ 63) joined line.now (option_map (λ p. record { event = p.0; delay = p.1; rest = p.2.now }) result) }
{
    if line.len() < 2 || line[1] != b' ' {
        return None;
    }
    let (delay, rest) = split_first(&line[2..], b' ')?;
    Some((line[0], delay_of(delay)?, rest))
}

/// What a line of these parts tells.
fn told_by_parts(alloc: Global, event: u8, delay: u64, rest: &[u8]) -> Result<Option<Shaped>, NoMem>
    requires { delay < 2 ^ 63 }
    ensures { IfOk result (Reads IsGood spelled.parts_of (record { event = event; delay = delay; rest = rest.now })) }
{
    match event {
        b'0' => Ok(data_told(delay, Stream::Stdin, rest)),
        b'1' => Ok(data_told(delay, Stream::Stdout, rest)),
        b'2' => Ok(data_told(delay, Stream::Stderr, rest)),
        b'3' => Ok(data_told(delay, Stream::Ttyin, rest)),
        b'4' => Ok(data_told(delay, Stream::Ttyout, rest)),
        b'5' => Ok(window_told(delay, rest)),
        b'7' => signal_told(alloc, delay, rest),
        _ => Ok(None),
    }
}

fn data_told(delay: u64, stream: Stream, rest: &[u8]) -> Option<Shaped>
    requires { delay < 2 ^ 63 }
    ensures { Reads IsGood spelled.parts_of (record { event = 48 + event_of stream; delay = delay; rest = rest.now }) result }
{
    let count = number_below(rest, DATA_LIMIT + 1)?;
    Some(Shaped::Io(delay, stream, count))
}

fn window_told(delay: u64, rest: &[u8]) -> Option<Shaped>
    requires { delay < 2 ^ 63 }
    ensures { Reads IsGood spelled.parts_of (record { event = 53; delay = delay; rest = rest.now }) result }
{
    let (rows, cols) = split_first(rest, b' ')?;
    let rows = number_below(rows, WINDOW_LIMIT)?;
    let cols = number_below(cols, WINDOW_LIMIT)?;
    Some(Shaped::Winsize(delay, rows, cols))
}

fn signal_told(alloc: Global, delay: u64, rest: &[u8]) -> Result<Option<Shaped>, NoMem>
    requires { delay < 2 ^ 63 }
    ensures { IfOk result (Reads IsGood spelled.parts_of (record { event = 55; delay = delay; rest = rest.now })) }
{
    if !is_signal(rest) {
        return Ok(None);
    }
    Ok(Some(Shaped::Suspend(delay, Bytes::of(alloc, rest)?)))
}

/// The nanoseconds of a delay in seconds, with nine digits after the point.
fn delay_of(text: &[u8]) -> Option<u64>
    ensures { Reads (λ delay. delay < 2 ^ 63) seconds text.now result }
{
    let (whole, fraction) = split_first(text, b'.')?;
    let delay = number_of(whole)? * NANOS_PER_SEC + nanos_of(fraction)?;
    if delay < TIME_LIMIT {
        Some(delay)
    } else {
        None
    }
}

/// The number below a limit that a text has the digits of.
fn number_below(text: &[u8], limit: u64) -> Option<u32>
    requires { limit ≤ 2 ^ 32 }
    ensures { Reads (λ n. n < limit) decimal text.now result }
{
    let number = number_of(text)?;
    if number < limit {
        Some(number as u32)
    } else {
        None
    }
}

/// The number of at most ten digits, none of them a needless zero.
fn number_of(text: &[u8]) -> Option<u64>
    ensures { Reads (λ n. n < 10 ^ 10) decimal text.now result }
{
    if !is_plain(text) {
        return None;
    }
    digits_in(text)
}

/// Whether a text is short enough for a number, and has no needless zero in front.
fn is_plain(text: &[u8]) -> bool
    ensures { IsTrue result ↔ IsPlain text.now }
{
    !text.is_empty() && text.len() <= 10 && (text[0] != b'0' || text.len() == 1)
}

/// The number of exactly nine digits.
fn nanos_of(text: &[u8]) -> Option<u64>
    ensures { Reads (λ n. n < 10 ^ 9) (last_digits 9) text.now result }
{
    if text.len() != 9 {
        return None;
    }
    digits_in(text)
}

/// What these digits stand for, if they are digits.
fn digits_in(text: &[u8]) -> Option<u64>
    requires { length text.now ≤ 10 }
    ensures { SomeIff result (AllDigits 10 text.now) (digits_value 10 text.now) }
{
    let mut number = 0;
    for byte in text {
        if !byte.is_ascii_digit() {
            return None;
        }
        number = 10 * number + u64::from(*byte - b'0');
    }
    Some(number)
}

/// What stands before the first such byte, and what stands after it.
fn split_first(text: &[u8], stop: u8) -> Option<(&[u8], &[u8])>
    ensures found { IfSome result (λ parts. text.now ≡ parts.0.now ++ stop ∷ parts.1.now) }
    ensures first { IfSome result (λ parts. All (λ byte. byte ≢ stop) parts.0.now) }
    ensures none { IfNone result (All (λ byte. byte ≢ stop) text.now) }
{
    let at = text.iter().position(|byte| *byte == stop)?;
    Some((&text[..at], &text[at + 1..]))
}
