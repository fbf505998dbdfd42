//! The lines of verdicts as text.
ghost use Rattle.std.specs.Prelude.{◌≡◌, ◌++◌, IfOk, OnOk, IsSome};
ghost use Rattle.lsv_base.specs.Time.{nanos_of};
ghost use Rattle.lsv_record.specs.Records.{last_digits, seconds};
ghost use Rattle.lsv_verdict.specs.Text.{broken_text, bytes_in, complete_text, faulty_text, found_text, incomplete_text, listing_line, name_of, said, started, text_of, text_of_sums, with_body, with_cuts, with_digest, with_exit};

use crate::sums::Sums;
use crate::verdict::Verdict;
use itoa::Buffer;
use lsv_base::{Bytes, LogNo, NoMem};
use lsv_bundle::Body;
use lsv_disk::Part;
use lsv_event::{Event, Peer, sudo_line};
use lsv_finding::Checked;
use lsv_info::{Exit, Head};
use std::alloc::Global;

/// The kind of the last entry of a complete log.
const COMPLETE: u8 = 3;

/// Nanoseconds a second.
const NANOS_PER_SEC: u64 = 1_000_000_000;

/// A line says nothing of the connection by which a command came.
const NOBODY: Peer = Peer { worker: 0, seq: 0 };

#[tactic(auto, unfolding(crate::specs::Text::text_of))]
/// The line of a verdict.
pub(crate) fn text_of(alloc: Global, verdict: Verdict) -> Result<Bytes, NoMem>
    ensures { IfOk result (λ text. text ≡ text_of verdict) }
{
    let Verdict {
        number,
        found,
        relayed,
        digest,
    } = verdict;
    match found {
        None => said(
            alloc,
            b"unread      ",
            number,
            b" ; a read of its files failed",
        ),
        Some(found) => found_text(alloc, number, found, relayed, digest),
    }
}

/// The line of what was found of a log.
fn found_text(
    alloc: Global,
    number: LogNo,
    found: Checked,
    relayed: bool,
    digest: Option<[u8; 32]>,
) -> Result<Bytes, NoMem>
    ensures { IfOk result (λ text. text ≡ found_text number relayed digest found) }
{
    match found {
        Checked::Nowhere => said(alloc, b"absent      ", number, b""),
        Checked::Unlisted(part) => faulty(
            alloc,
            number,
            b" ; no entry in slots, but ",
            part,
            b" has bytes",
        ),
        Checked::Closed(part) => faulty(
            alloc,
            number,
            b" ; ",
            part,
            b" is missing, short or unreadable",
        ),
        Checked::Broken {
            head,
            count,
            elapsed,
            part,
            ..
        } => broken(alloc, number, head, count, elapsed, part),
        Checked::Sound { head, body, exit } => {
            if body.kind == COMPLETE {
                complete(alloc, number, head, &body, exit, relayed, digest)
            } else {
                incomplete(alloc, number, head, &body)
            }
        }
    }
}

/// A line of a state, an identifier and a text.
fn said(alloc: Global, state: &[u8], number: LogNo, text: &[u8]) -> Result<Bytes, NoMem>
    ensures { IfOk result (λ line. line ≡ said state.now number text.now) }
{
    let mut line = start(alloc, state, number)?;
    line.add(text)?;
    line.add(b"\n")?;
    Ok(line)
}

/// The start of a line.
fn start(alloc: Global, state: &[u8], number: LogNo) -> Result<Bytes, NoMem>
    ensures { IfOk result (λ line. line ≡ started state.now number) }
{
    let mut line = Bytes::of(alloc, state)?;
    line.add(&number.digits())?;
    Ok(line)
}

/// The line of a damaged log without a head, of which this part is at fault.
fn faulty(
    alloc: Global,
    number: LogNo,
    before: &[u8],
    part: Part,
    after: &[u8],
) -> Result<Bytes, NoMem>
    ensures { IfOk result (λ line. line ≡ faulty_text number before.now part after.now) }
{
    let mut line = start(alloc, b"damaged     ", number)?;
    line.add(before)?;
    line.add(name_of(part))?;
    line.add(after)?;
    line.add(b"\n")?;
    Ok(line)
}

/// The line of a log that is damaged after records.
fn broken(
    alloc: Global,
    number: LogNo,
    head: Head,
    count: u64,
    elapsed: u64,
    part: Part,
) -> Result<Bytes, NoMem>
    ensures { IfOk result (λ line. line ≡ broken_text number head count elapsed part) }
{
    let mut line = start(alloc, b"damaged     ", number)?;
    line.add(b" ; ")?;
    line.add(name_of(part))?;
    line.add(b", after record ")?;
    line.add(Buffer::new().format(count).as_bytes())?;
    line.add(b" at ")?;
    add_seconds(&mut line, elapsed)?;
    line.add(b" s ; ")?;
    add_listing(alloc, &mut line, number, head)?;
    Ok(line)
}

/// The line of a complete log.
fn complete(
    alloc: Global,
    number: LogNo,
    head: Head,
    body: &Body,
    exit: Option<Exit>,
    relayed: bool,
    digest: Option<[u8; 32]>,
) -> Result<Bytes, NoMem>
    ensures { IfOk result (λ line. line ≡ complete_text number head body.now exit relayed digest) }
{
    let mut line = start(alloc, b"complete    ", number)?;
    add_body(&mut line, b", ", body)?;
    add_cuts(&mut line, body.extra)?;
    add_exit(&mut line, &exit)?;
    if relayed {
        line.add(b", relayed")?;
    }
    add_digest(alloc, &mut line, digest)?;
    line.add(b" ; ")?;
    add_listing(alloc, &mut line, number, head)?;
    Ok(line)
}

/// The line of an incomplete log.
fn incomplete(alloc: Global, number: LogNo, head: Head, body: &Body) -> Result<Bytes, NoMem>
    ensures { IfOk result (λ line. line ≡ incomplete_text number head body.now) }
{
    let mut line = start(alloc, b"incomplete  ", number)?;
    add_body(&mut line, b", up to ", body)?;
    add_cuts(&mut line, body.extra)?;
    line.add(b" ; ")?;
    add_listing(alloc, &mut line, number, head)?;
    Ok(line)
}

/// Adds what a last entry says of a log.
fn add_body(line: &mut Bytes, until: &[u8], body: &Body) -> Result<(), NoMem>
    ensures { OnOk result (line.new ≡ with_body line.old until.now body.now) }
{
    line.add(b" ; ")?;
    line.add(Buffer::new().format(body.count).as_bytes())?;
    line.add(b" records")?;
    line.add(until)?;
    add_seconds(line, body.elapsed)?;
    line.add(b" s, ")?;
    line.add(Buffer::new().format(bytes_in(body)).as_bytes())?;
    line.add(b" bytes")
}

/// The committed bytes of all files of a log, at most 2^64 - 1.
pub(crate) fn bytes_in(body: &Body) -> u64
    ensures { result ≡ bytes_in body.now }
{
    let [a, b, c, d, e, f, g, h] = body.lens;
    let first = u128::from(a) + u128::from(b) + u128::from(c) + u128::from(d);
    let more = u128::from(e) + u128::from(f) + u128::from(g) + u128::from(h);
    (first + more).min(u128::from(u64::MAX)) as u64
}

/// Adds how often a log was cut, if it was.
fn add_cuts(line: &mut Bytes, cuts: u64) -> Result<(), NoMem>
    ensures { OnOk result (line.new ≡ with_cuts line.old cuts) }
{
    if cuts == 0 {
        return Ok(());
    }
    line.add(b", cuts ")?;
    line.add(Buffer::new().format(cuts).as_bytes())
}

/// Adds the exit value, if the exit reads.
fn add_exit(line: &mut Bytes, exit: &Option<Exit>) -> Result<(), NoMem>
    ensures { OnOk result (line.new ≡ with_exit line.old exit.now) }
{
    match exit {
        None => line.add(b", exit unreadable"),
        Some(exit) => {
            line.add(b", exit ")?;
            line.add(Buffer::new().format(exit.value).as_bytes())
        }
    }
}

/// Adds the digest, if it was made.
fn add_digest(alloc: Global, line: &mut Bytes, digest: Option<[u8; 32]>) -> Result<(), NoMem>
    ensures { OnOk result (line.new ≡ with_digest line.old digest) }
{
    let Some(digest) = digest else {
        return Ok(());
    };
    let digits = hex::encode(alloc, &digest[..])?;
    line.add(b", sha256 ")?;
    line.add(digits.as_bytes())
}

/// Adds the line of a listing.
fn add_listing(alloc: Global, line: &mut Bytes, number: LogNo, head: Head) -> Result<(), NoMem>
    ensures { OnOk result (line.new ≡ line.old ++ listing_line number head) }
{
    // A head that was read has a valid time.
    if head.submit.delay().is_none() {
        return Err(NoMem);
    }
    line.add(listing(alloc, number, head)?.as_slice())
}

#[tactic(auto, unfolding(crate::specs::Text::listing_line))]
/// The line of a listing: that of the event by which the log was accepted.
fn listing(alloc: Global, number: LogNo, head: Head) -> Result<Bytes, NoMem>
    requires timed { IsSome (nanos_of head.submit) }
    ensures { IfOk result (λ line. line ≡ listing_line number head) }
{
    let accept = Event::Accept {
        at: head.submit,
        peer: NOBODY,
        log: Some(number),
        head,
    };
    sudo_line(alloc, &accept)
}

/// Adds nanoseconds as seconds, with nine digits after the point.
fn add_seconds(line: &mut Bytes, nanos: u64) -> Result<(), NoMem>
    ensures { OnOk result (line.new ≡ line.old ++ seconds nanos) }
{
    line.add(Buffer::new().format(nanos / NANOS_PER_SEC).as_bytes())?;
    line.add(b".")?;
    add_last_digits(line, 9, nanos % NANOS_PER_SEC)
}

/// Adds the last digits of a number, `count` of them.
fn add_last_digits(line: &mut Bytes, count: u8, n: u64) -> Result<(), NoMem>
    ensures { OnOk result (line.new ≡ line.old ++ last_digits count n) }
{
    if count == 0 {
        return Ok(());
    }
    add_last_digits(line, count - 1, n / 10)?;
    line.add(&[b'0' + (n % 10) as u8])
}

/// The name of a part's file.
pub(crate) fn name_of(part: Part) -> &'static [u8]
    ensures { result.now ≡ name_of part }
{
    match part {
        Part::Head => b"log.json",
        Part::Exit => b"exit.json",
        Part::Timing => b"timing",
        Part::Stdin => b"stdin",
        Part::Stdout => b"stdout",
        Part::Stderr => b"stderr",
        Part::Ttyin => b"ttyin",
        Part::Ttyout => b"ttyout",
        Part::Lines | Part::Id | Part::Commit | Part::Slots => b"slots",
    }
}

#[tactic(auto, unfolding(crate::specs::Text::text_of_sums))]
/// The line of the sums.
pub(crate) fn text_of_sums(alloc: Global, sums: Sums) -> Result<Bytes, NoMem>
    ensures { IfOk result (λ text. text ≡ text_of_sums sums) }
{
    let mut line = Bytes::new(alloc);
    line.add(Buffer::new().format(sums.complete).as_bytes())?;
    line.add(b" complete, ")?;
    line.add(Buffer::new().format(sums.incomplete).as_bytes())?;
    line.add(b" incomplete, ")?;
    line.add(Buffer::new().format(sums.damaged).as_bytes())?;
    line.add(b" damaged, ")?;
    line.add(Buffer::new().format(sums.unread).as_bytes())?;
    line.add(b" unread, ")?;
    line.add(Buffer::new().format(sums.absent).as_bytes())?;
    line.add(b" absent")?;
    line.add(b"\n")?;
    Ok(line)
}
