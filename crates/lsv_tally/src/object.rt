//! The lines of event logs as JSON.
ghost use Rattle.std.specs.Prelude.{◌≡◌, IfOk, OnOk};
ghost use Rattle.serde_json.specs.View.{members_view};
ghost use Rattle.lsv_tally.specs.Json.{json_of, members_of, with_fault, with_found, with_number, with_text};

use crate::tally::Tally;
use crate::verdict::EventVerdict;
use lsv_base::{Bytes, NoMem};
use lsv_info::{json_line, text_json};
use serde_json::{Map, Value as Json, put};
use std::alloc::Global;

#[tactic(auto, unfolding(crate::specs::Json::json_of))]
/// The line of an event log.
pub(crate) fn json_of(alloc: Global, verdict: EventVerdict) -> Result<Bytes, NoMem>
    ensures { IfOk result (λ line. line ≡ json_of verdict) }
{
    let members = members_of(alloc, verdict)?;
    json_line(alloc, &Json::Object(members))
}

/// The members of its line.
fn members_of(alloc: Global, verdict: EventVerdict) -> Result<Map<String, Json>, NoMem>
    ensures { IfOk result (λ members. members_view members.entries ≡ members_of verdict) }
{
    let mut members = Map::new(alloc);
    put_number(&mut members, alloc, "events", u64::from(verdict.lane))?;
    match verdict.found {
        None => put_text(&mut members, alloc, "state", b"unread")?,
        Some(found) => put_found(&mut members, alloc, found)?,
    }
    Ok(members)
}

/// Puts what was found.
fn put_found(members: &mut Map<String, Json>, alloc: Global, found: Tally) -> Result<(), NoMem>
    ensures { OnOk result (members_view members.new.entries ≡ with_found found (members_view members.old.entries)) }
{
    match found {
        Tally::Nowhere => put_text(members, alloc, "state", b"absent"),
        Tally::Unlisted => put_fault(members, alloc, b"unlisted"),
        Tally::Short => put_fault(members, alloc, b"short"),
        Tally::Bad { lines } => {
            put_number(members, alloc, "lines", lines)?;
            put_fault(members, alloc, b"line")
        }
        Tally::Torn { lines } => {
            put_number(members, alloc, "lines", lines)?;
            put_fault(members, alloc, b"torn")
        }
        Tally::Miscounted { lines, counted } => {
            put_number(members, alloc, "lines", lines)?;
            put_number(members, alloc, "counted", counted)?;
            put_fault(members, alloc, b"count")
        }
        Tally::Sound { lines, bytes } => {
            put_number(members, alloc, "lines", lines)?;
            put_number(members, alloc, "bytes", bytes)?;
            put_text(members, alloc, "state", b"sound")
        }
    }
}

/// Puts what is wrong with a damaged one.
fn put_fault(members: &mut Map<String, Json>, alloc: Global, fault: &[u8]) -> Result<(), NoMem>
    ensures { OnOk result (members_view members.new.entries ≡ with_fault fault.now (members_view members.old.entries)) }
{
    put_text(members, alloc, "fault", fault)?;
    put_text(members, alloc, "state", b"damaged")
}

/// Puts a text.
fn put_text(
    members: &mut Map<String, Json>,
    alloc: Global,
    key: &str,
    text: &[u8],
) -> Result<(), NoMem>
    ensures { OnOk result (members_view members.new.entries ≡ with_text key.now text.now (members_view members.old.entries)) }
{
    Ok(put(members, alloc, key, text_json(alloc, text)?)?)
}

/// Puts a number.
fn put_number(
    members: &mut Map<String, Json>,
    alloc: Global,
    key: &str,
    n: u64,
) -> Result<(), NoMem>
    ensures { OnOk result (members_view members.new.entries ≡ with_number key.now n (members_view members.old.entries)) }
{
    Ok(put(members, alloc, key, Json::from(n))?)
}
