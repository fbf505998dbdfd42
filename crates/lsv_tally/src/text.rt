//! The lines of event logs as text.
ghost use Rattle.std.specs.Prelude.{◌≡◌, ◌++◌, IfOk, OnOk, decimal};
ghost use Rattle.lsv_tally.specs.Text.{found_text, numbered, one_number, said, two_numbers, text_of};

use crate::tally::Tally;
use crate::verdict::EventVerdict;
use itoa::Buffer;
use lsv_base::{Bytes, NoMem};
use std::alloc::Global;

#[tactic(auto, unfolding(crate::specs::Text::text_of))]
/// The line of an event log.
pub(crate) fn text_of(alloc: Global, verdict: EventVerdict) -> Result<Bytes, NoMem>
    ensures { IfOk result (λ text. text ≡ text_of verdict) }
{
    let lane = verdict.lane;
    match verdict.found {
        None => said(alloc, b"unread      ", lane, b"a read of its files failed"),
        Some(found) => found_text(alloc, lane, found),
    }
}

/// The line of what was found of it.
fn found_text(alloc: Global, lane: u32, found: Tally) -> Result<Bytes, NoMem>
    ensures { IfOk result (λ text. text ≡ found_text lane found) }
{
    match found {
        Tally::Nowhere => said(alloc, b"absent      ", lane, b"no file and no journal"),
        Tally::Unlisted => said(
            alloc,
            b"damaged     ",
            lane,
            b"no entry in its journal, but it has bytes",
        ),
        Tally::Short => said(
            alloc,
            b"damaged     ",
            lane,
            b"missing, or shorter than its journal says",
        ),
        Tally::Bad { lines } => one_number(
            alloc,
            lane,
            lines,
            b" lines, and the next one is no event",
        ),
        Tally::Torn { lines } => one_number(
            alloc,
            lane,
            lines,
            b" lines, and the end of the next one is missing",
        ),
        Tally::Miscounted { lines, counted } => {
            two_numbers(
                alloc,
                b"damaged     ",
                lane,
                lines,
                b" lines, but its journal counts ",
                counted,
                b"",
            )
        }
        Tally::Sound { lines, bytes } => {
            two_numbers(
                alloc,
                b"sound       ",
                lane,
                lines,
                b" lines, ",
                bytes,
                b" bytes",
            )
        }
    }
}

/// A line begins with the state and the lane.
fn start(alloc: Global, state: &[u8], lane: u32) -> Result<Bytes, NoMem>
    ensures { IfOk result (λ line. line ≡ numbered state.now lane) }
{
    let mut line = Bytes::of(alloc, state)?;
    line.add(b"event log ")?;
    line.add(Buffer::new().format(lane).as_bytes())?;
    line.add(b" ; ")?;
    Ok(line)
}

/// A line with a text alone.
fn said(alloc: Global, state: &[u8], lane: u32, text: &[u8]) -> Result<Bytes, NoMem>
    ensures { IfOk result (λ line. line ≡ said state.now lane text.now) }
{
    let mut line = start(alloc, state, lane)?;
    line.add(text)?;
    line.add(b"\n")?;
    Ok(line)
}

/// A line of a damaged event log, with a number before a text.
fn one_number(alloc: Global, lane: u32, n: u64, text: &[u8]) -> Result<Bytes, NoMem>
    ensures { IfOk result (λ line. line ≡ one_number lane n text.now) }
{
    let mut line = start(alloc, b"damaged     ", lane)?;
    line.add(Buffer::new().format(n).as_bytes())?;
    line.add(text)?;
    line.add(b"\n")?;
    Ok(line)
}

/// A line with two numbers, and a text after each.
fn two_numbers(
    alloc: Global,
    state: &[u8],
    lane: u32,
    n: u64,
    text: &[u8],
    m: u64,
    more: &[u8],
) -> Result<Bytes, NoMem>
    ensures { IfOk result (λ line. line ≡ two_numbers state.now lane n text.now m more.now) }
{
    let mut line = start(alloc, state, lane)?;
    line.add(Buffer::new().format(n).as_bytes())?;
    line.add(text)?;
    line.add(Buffer::new().format(m).as_bytes())?;
    line.add(more)?;
    line.add(b"\n")?;
    Ok(line)
}
