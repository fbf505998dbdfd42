ghost use Rattle.std.specs.Prelude.{◌≡◌, ◌++◌, ◌≤◌, IfOk, OnOk};
ghost use Rattle.std.specs.Fmt.{decimal};
ghost use Rattle.lsv_record.specs.Records.{last_digits, seconds};
ghost use Rattle.lsv_gen.specs.Summary.{line_of, lines_of};

use crate::Totals;
use lsv_base::{Bytes, NoMem};
use std::alloc::Global;

/// Puts a number in decimal digits.
fn put_number(alloc: Global, out: &mut Bytes, n: u64) -> Result<(), NoMem>
    ensures { OnOk result (out.new ≡ out.old ++ decimal n) }
{
    let text = format!(in alloc; "{n}")?;
    out.add(text.as_bytes())
}

/// Puts the last digits of a number, this many.
fn put_last_digits(out: &mut Bytes, count: u8, n: u64) -> Result<(), NoMem>
    ensures { OnOk result (out.new ≡ out.old ++ last_digits count n) }
{
    if count == 0 {
        return Ok(());
    }
    put_last_digits(out, count - 1, n / 10)?;
    out.add(&[b'0' + (n % 10) as u8])
}

/// Puts nanoseconds as seconds, with nine digits after the point.
fn put_seconds(alloc: Global, out: &mut Bytes, nanos: u64) -> Result<(), NoMem>
    ensures { OnOk result (out.new ≡ out.old ++ seconds nanos) }
{
    put_number(alloc, out, nanos / 1_000_000_000)?;
    out.add(b".")?;
    put_last_digits(out, 9, nanos % 1_000_000_000)
}

/// Puts a word, a space, a number and a line feed.
fn put_line(alloc: Global, out: &mut Bytes, word: &str, n: u64) -> Result<(), NoMem>
    ensures { OnOk result (out.new ≡ out.old ++ line_of word.now (decimal n)) }
{
    out.add(word.as_bytes())?;
    out.add(b" ")?;
    put_number(alloc, out, n)?;
    out.add(b"\n")
}

/// The summary of a load in five lines.
pub fn summary(alloc: Global, totals: &Totals) -> Result<Bytes, NoMem>
    ensures { IfOk result (λ text. text ≡ lines_of totals.now) }
{
    let mut out = Bytes::new(alloc);
    put_line(alloc, &mut out, "logs", totals.logs)?;
    put_line(alloc, &mut out, "records", totals.records)?;
    put_line(alloc, &mut out, "bytes", totals.bytes)?;
    out.add(b"elapsed ")?;
    put_seconds(alloc, &mut out, totals.elapsed)?;
    out.add(b"\n")?;
    put_line(alloc, &mut out, "complete", totals.complete)?;
    Ok(out)
}
