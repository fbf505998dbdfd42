ghost use Rattle.std.specs.Prelude.{◌≡◌, ◌+◌, ◌^◌, ◌<◌, ◌≤◌, ◌++◌, ◌∷◌, [], length, drop, IfOk, OnOk, OnErr};
ghost use Rattle.std.specs.Fmt.{decimal};
ghost use Rattle.lsv_defs.specs.Pieces.{IsPrefix};
ghost use Rattle.lsv_record.specs.Records.{line_of, fields_of, last_digits};

use crate::Record;
use itoa::write_digits;
use lsv_base::{Bytes, NoMem};
use std::alloc::Global;

/// Nanoseconds a second.
pub(crate) const NANOS_PER_SEC: u64 = 1_000_000_000;

/// No line of a valid record is longer, its line feed among it.
pub(crate) const LONGEST_LINE: usize = 56;

/// The event of a new size of the window.
const WINSIZE: u8 = 5;

/// The event of a signal.
const SUSPEND: u8 = 7;

/// The line of timing of a record, which needn't be valid: the event, the delay in seconds with nine digits after
/// the point, and what the event tells (sudoers I/O log format).
pub fn line(alloc: Global, r: &Record) -> Result<Bytes, NoMem>
    ensures { IfOk result (λ line. line ≡ line_of r.now) }
{
    let mut out = Bytes::new(alloc);
    put_line(&mut out, r)?;
    Ok(out)
}

/// Puts the line of timing of a record, which needn't be valid, at the end. It takes no memory but what `out` grows
/// by. Out of memory it leaves `out` as it was.
pub fn put_line(out: &mut Bytes, r: &Record) -> Result<(), NoMem>
    ensures ok { OnOk result (out.new ≡ out.old ++ line_of r.now) }
    ensures err { OnErr result (out.new ≡ out.old) }
{
    match r {
        Record::Io {
            delay,
            stream,
            bytes,
        } => put_data_line(out, *delay, stream.event(), bytes.as_slice().len() as u64),
        Record::Winsize { delay, rows, cols } => put_window_line(out, *delay, *rows, *cols),
        Record::Suspend { delay, signal } => put_signal_line(out, *delay, signal.as_slice()),
    }
}

/// The line is written from its end, and added at once.
fn put_data_line(out: &mut Bytes, delay: u64, event: u8, count: u64) -> Result<(), NoMem>
    requires { event < 10 }
    ensures ok { OnOk result (out.new ≡ out.old ++ fields_of event delay (decimal count) ++ 10 ∷ []) }
    ensures err { OnErr result (out.new ≡ out.old) }
{
    let mut text = [b'\n'; LONGEST_LINE];
    let rest = write_digits(count, &mut text, LONGEST_LINE - 1);
    let at = write_start(&mut text, rest, event, delay);
    out.add(&text[at..])
}

fn put_window_line(out: &mut Bytes, delay: u64, rows: u32, cols: u32) -> Result<(), NoMem>
    ensures ok { OnOk result (out.new ≡ out.old ++ fields_of 5 delay (decimal rows ++ 32 ∷ decimal cols) ++ 10 ∷ []) }
    ensures err { OnErr result (out.new ≡ out.old) }
{
    let mut text = [b'\n'; LONGEST_LINE];
    let cols = write_digits(u64::from(cols), &mut text, LONGEST_LINE - 1);
    text[cols - 1] = b' ';
    let rest = write_digits(u64::from(rows), &mut text, cols - 1);
    let at = write_start(&mut text, rest, WINSIZE, delay);
    out.add(&text[at..])
}

/// A signal's name may have any length, since the record needn't be valid.
fn put_signal_line(out: &mut Bytes, delay: u64, signal: &[u8]) -> Result<(), NoMem>
    ensures ok { OnOk result (out.new ≡ out.old ++ fields_of 7 delay signal.now ++ 10 ∷ []) }
    ensures err { OnErr result (out.new ≡ out.old) }
{
    let len = out.as_slice().len();
    let put = put_signal_parts(out, delay, signal);
    if put.is_err() {
        out.truncate(len);
    }
    put
}

/// Puts the line of a signal, or at a refusal a prefix of it.
fn put_signal_parts(out: &mut Bytes, delay: u64, signal: &[u8]) -> Result<(), NoMem>
    ensures ok { OnOk result (out.new ≡ out.old ++ fields_of 7 delay signal.now ++ 10 ∷ []) }
    ensures err { OnErr result (IsPrefix out.old out.new) }
{
    let mut text = [b'\n'; LONGEST_LINE];
    let at = write_start(&mut text, LONGEST_LINE, SUSPEND, delay);
    out.add(&text[at..])?;
    out.add(signal)?;
    out.add(b"\n")
}

/// Writes the event and the delay of a line before the rest of it, and says where the line starts.
fn write_start(text: &mut [u8], rest: usize, event: u8, delay: u64) -> usize
    requires event { event < 10 }
    requires room { 24 ≤ rest }
    requires within { rest ≤ length text.old }
    ensures text { drop result text.new ≡ fields_of event delay (drop rest text.old) }
    ensures within { result ≤ rest }
{
    text[rest - 1] = b' ';
    let point = write_fraction(text, rest - 1, delay % NANOS_PER_SEC);
    let at = write_digits(delay / NANOS_PER_SEC, text, point);
    text[at - 1] = b' ';
    text[at - 2] = b'0' + event;
    at - 2
}

/// Writes a point and nine digits before an offset, and says where the point stands.
fn write_fraction(text: &mut [u8], end: usize, nanos: u64) -> usize
    requires below { nanos < 10 ^ 9 }
    requires room { 10 ≤ end }
    requires within { end ≤ length text.old }
    ensures text { drop result text.new ≡ 46 ∷ last_digits 9 nanos ++ drop end text.old }
    ensures at { result + 10 ≡ end }
{
    let at = write_digits(NANOS_PER_SEC + nanos, text, end);
    text[at] = b'.';
    at
}
