//! The lines of verdicts as JSON.
ghost use Rattle.std.specs.Prelude.{◌≡◌, ◌++◌, ◌∷◌, [], false, IfOk, OnOk};
ghost use Rattle.serde_json.specs.Data.{put as with_member};
ghost use Rattle.serde_json.specs.View.{members_view, view};
ghost use Rattle.serde_json.specs.Written.{compact_text, has_float};
ghost use Rattle.lsv_event.specs.Controls.{uncontrolled};
ghost use Rattle.lsv_info.specs.Info.{text_of};
ghost use Rattle.lsv_info.specs.Layout.{shown_text};
ghost use Rattle.lsv_verdict.specs.Json.{counts_of, json_of, json_of_sums, members_of, state_of, sums_members, with_counts, with_digest, with_exit, with_found, with_head, with_mark, with_number, with_text};

use crate::controls::put_uncontrolled;
use crate::sums::Sums;
use crate::text::{bytes_in, name_of};
use crate::verdict::{Class, Verdict};
use lsv_base::{Bytes, NoMem};
use lsv_bundle::Body;
use lsv_finding::Checked;
use lsv_info::{Exit, Head, json_line, text_json, time_json};
use serde_json::{Map, Value as Json, put};
use std::alloc::Global;

#[tactic(auto, unfolding(crate::specs::Json::json_of))]
/// The line of a verdict.
pub(crate) fn json_of(alloc: Global, verdict: &Verdict) -> Result<Bytes, NoMem>
    ensures { IfOk result (λ line. line ≡ json_of verdict.now) }
{
    let members = members_of(alloc, verdict)?;
    uncontrolled_line(alloc, &Json::Object(members))
}

/// The compact text of a JSON value, its DEL and C1 controls by their numbers, and a line feed.
fn uncontrolled_line(alloc: Global, json: &Json) -> Result<Bytes, NoMem>
    requires { has_float (view json.now) ≡ false }
    ensures { IfOk result (λ line. line ≡ uncontrolled 0 (compact_text (view json.now)) ++ 10 ∷ []) }
{
    let plain = json.to_vec(alloc)?;
    let mut text = Vec::with_capacity(alloc, plain.len())?;
    put_uncontrolled(&mut text, &plain)?;
    text.push(b'\n')?;
    Ok(Bytes::from_vec(text))
}

/// The members of a verdict's line.
fn members_of(alloc: Global, verdict: &Verdict) -> Result<Map<String, Json>, NoMem>
    ensures { IfOk result (λ members. members_view members.entries ≡ members_of verdict.now) }
{
    let class = verdict.class();
    let mut members = Map::new(alloc);
    put_text(&mut members, alloc, "state", state_of(class))?;
    put_text(&mut members, alloc, "id", &verdict.number.digits())?;
    if let Some(found) = &verdict.found {
        put_found(&mut members, alloc, found)?;
    }
    put_mark(&mut members, alloc, class, verdict.relayed)?;
    put_digest(&mut members, alloc, verdict.digest)?;
    Ok(members)
}

/// Puts whether a complete log is relayed.
fn put_mark(
    members: &mut Map<String, Json>,
    alloc: Global,
    class: Class,
    relayed: bool,
) -> Result<(), NoMem>
    ensures { OnOk result (members_view members.new.entries ≡ with_mark class relayed (members_view members.old.entries)) }
{
    match class {
        Class::Complete => Ok(put(members, alloc, "relayed", Json::from(relayed))?),
        Class::Incomplete | Class::Damaged | Class::Unread | Class::Absent => Ok(()),
    }
}

/// Puts the digest of a log, if it was made.
fn put_digest(
    members: &mut Map<String, Json>,
    alloc: Global,
    digest: Option<[u8; 32]>,
) -> Result<(), NoMem>
    ensures { OnOk result (members_view members.new.entries ≡ with_digest digest (members_view members.old.entries)) }
{
    let Some(digest) = digest else {
        return Ok(());
    };
    let digits = hex::encode(alloc, &digest[..])?;
    Ok(put(members, alloc, "digest", Json::String(digits))?)
}

/// The name of a kind of verdicts.
fn state_of(class: Class) -> &'static [u8]
    ensures { result.now ≡ state_of class }
{
    match class {
        Class::Complete => b"complete",
        Class::Incomplete => b"incomplete",
        Class::Damaged => b"damaged",
        Class::Unread => b"unread",
        Class::Absent => b"absent",
    }
}

/// Puts a text.
fn put_text(
    members: &mut Map<String, Json>,
    alloc: Global,
    key: &str,
    text: &[u8],
) -> Result<(), NoMem>
    ensures { OnOk result (members_view members.new.entries ≡ with_member key.now (shown_text text.now) (members_view members.old.entries)) }
{
    Ok(put(members, alloc, key, text_json(alloc, text)?)?)
}

/// Puts a number.
fn put_number(
    members: &mut Map<String, Json>,
    alloc: Global,
    key: &str,
    n: u64,
) -> Result<(), NoMem>
    ensures { OnOk result (members_view members.new.entries ≡ with_number key.now n (members_view members.old.entries)) }
{
    Ok(put(members, alloc, key, Json::from(n))?)
}

/// Puts what was found.
fn put_found(members: &mut Map<String, Json>, alloc: Global, found: &Checked) -> Result<(), NoMem>
    ensures { OnOk result (members_view members.new.entries ≡ with_found found.now (members_view members.old.entries)) }
{
    match found {
        Checked::Nowhere => Ok(()),
        Checked::Unlisted(part) => {
            put_text(members, alloc, "fault", b"unlisted")?;
            put_text(members, alloc, "part", name_of(*part))
        }
        Checked::Closed(part) => {
            put_text(members, alloc, "fault", b"closed")?;
            put_text(members, alloc, "part", name_of(*part))
        }
        Checked::Broken {
            head,
            body,
            count,
            elapsed,
            part,
        } => {
            put_text(members, alloc, "fault", b"broken")?;
            put_text(members, alloc, "part", name_of(*part))?;
            put_counts(members, alloc, body, *count, *elapsed)?;
            put_head(members, alloc, head)
        }
        Checked::Sound { head, body, exit } => {
            put_counts(members, alloc, body, body.count, body.elapsed)?;
            put_exit(members, alloc, exit)?;
            put_head(members, alloc, head)
        }
    }
}

/// Puts the exit value, if the exit reads.
fn put_exit(
    members: &mut Map<String, Json>,
    alloc: Global,
    exit: &Option<Exit>,
) -> Result<(), NoMem>
    ensures { OnOk result (members_view members.new.entries ≡ with_exit exit.now (members_view members.old.entries)) }
{
    match exit {
        Some(exit) => Ok(put(members, alloc, "exit_value", Json::from(exit.value))?),
        None => Ok(()),
    }
}

/// Puts the counts of a log that was opened: its records and their elapsed time as far as they were read, its committed
/// bytes, and its cuts.
fn put_counts(
    members: &mut Map<String, Json>,
    alloc: Global,
    body: &Body,
    count: u64,
    elapsed: u64,
) -> Result<(), NoMem>
    ensures { OnOk result (members_view members.new.entries ≡ with_counts body.now count elapsed (members_view members.old.entries)) }
{
    put_number(members, alloc, "records", count)?;
    put_number(members, alloc, "elapsed", elapsed)?;
    put_number(members, alloc, "bytes", bytes_in(body))?;
    put_number(members, alloc, "cuts", body.extra)
}

/// Puts what the client said of the command.
fn put_head(members: &mut Map<String, Json>, alloc: Global, head: &Head) -> Result<(), NoMem>
    ensures { OnOk result (members_view members.new.entries ≡ with_head head.now (members_view members.old.entries)) }
{
    put(
        members,
        alloc,
        "submit_time",
        time_json(alloc, head.submit)?,
    )?;
    put_info(members, alloc, head, "command")?;
    put_info(members, alloc, head, "submithost")?;
    put_info(members, alloc, head, "submituser")
}

/// Puts the text of a key of a head's information, if it has one.
fn put_info(
    members: &mut Map<String, Json>,
    alloc: Global,
    head: &Head,
    key: &str,
) -> Result<(), NoMem>
    ensures { OnOk result (members_view members.new.entries ≡ with_text key.now (text_of head.now.info key.now) (members_view members.old.entries)) }
{
    match head.info.text_of(key.as_bytes()) {
        Some(text) => put_text(members, alloc, key, text),
        None => Ok(()),
    }
}

#[tactic(auto, unfolding(crate::specs::Json::json_of_sums))]
/// The line of the sums.
pub(crate) fn json_of_sums(alloc: Global, sums: Sums) -> Result<Bytes, NoMem>
    ensures { IfOk result (λ line. line ≡ json_of_sums sums) }
{
    let members = sums_members(alloc, sums)?;
    json_line(alloc, &Json::Object(members))
}

/// The member of the line of the sums.
fn sums_members(alloc: Global, sums: Sums) -> Result<Map<String, Json>, NoMem>
    ensures { IfOk result (λ members. members_view members.entries ≡ sums_members sums) }
{
    let mut members = Map::new(alloc);
    put(
        &mut members,
        alloc,
        "sums",
        Json::Object(counts_of(alloc, sums)?),
    )?;
    Ok(members)
}

/// The counts of logs of each kind.
fn counts_of(alloc: Global, sums: Sums) -> Result<Map<String, Json>, NoMem>
    ensures { IfOk result (λ counts. members_view counts.entries ≡ counts_of sums) }
{
    let mut counts = Map::new(alloc);
    put_number(&mut counts, alloc, "unread", sums.unread)?;
    put_number(&mut counts, alloc, "incomplete", sums.incomplete)?;
    put_number(&mut counts, alloc, "damaged", sums.damaged)?;
    put_number(&mut counts, alloc, "complete", sums.complete)?;
    put_number(&mut counts, alloc, "absent", sums.absent)?;
    Ok(counts)
}
