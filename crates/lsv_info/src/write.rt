//! Heads and exits are written as JSON, and so are their parts, of which other lines of JSON are made.

ghost use Rattle.std.specs.Prelude.{◌≡◌, [], ◌∷◌, ◌++◌, map, false, IfOk, OnOk};
ghost use Rattle.serde_json.specs.Data.{object};
ghost use Rattle.serde_json.specs.View.{view, members_view};
ghost use Rattle.serde_json.specs.Written.{has_float, compact_text};
ghost use Rattle.lsv_info.specs.Layout.{IsFirst, shown_text, shown_number, shown_value, with_entry, info_members, time_value, head_value, unless_empty, exit_members, exit_value, head_text, exit_text};

use crate::{Entry, Exit, Head, Info, Value};
use lsv_base::{Bytes, NoMem, TimeSpec};
use serde_json::{Map, Value as Json, json, put};
use std::alloc::Global;

/// The text of log.json: one compact JSON object and a line feed, its keys in byte order. `info` has a member for each
/// key: a number, a string, or an array of either. `submit_time` has `nanoseconds` and `seconds`. Keys and texts are
/// shown as `String::from_utf8_lossy` shows them, and of several entries with one key that is shown so the last counts.
/// It takes memory in proportion to the head, and so much time and that of putting the keys in order.
#[tactic(auto, unfolding(crate::specs::Layout::head_text))]
pub fn write_head(alloc: Global, head: &Head) -> Result<Bytes, NoMem>
    ensures { IfOk result (λ text. text ≡ head_text head.now) }
{
    json_line(alloc, &head_json(alloc, head)?)
}

/// The text of exit.json: one compact JSON object and a line feed, its keys in byte order. It has `dumped_core`,
/// `exit_value` and `run_time`, and `error` and `signal` where they aren't empty, shown as a head's texts are.
#[tactic(auto, unfolding(crate::specs::Layout::exit_text))]
pub fn write_exit(alloc: Global, exit: &Exit) -> Result<Bytes, NoMem>
    ensures { IfOk result (λ text. text ≡ exit_text exit.now) }
{
    json_line(alloc, &exit_json(alloc, exit)?)
}

/// The compact text of a JSON value, and a line feed.
pub fn json_line(alloc: Global, json: &Json) -> Result<Bytes, NoMem>
    requires { has_float (view json.now) ≡ false }
    ensures { IfOk result (λ text. text ≡ compact_text (view json.now) ++ 10 ∷ []) }
{
    let mut text = json.to_vec(alloc)?;
    text.push(b'\n')?;
    Ok(Bytes::from_vec(text))
}

fn head_json(alloc: Global, head: &Head) -> Result<Json, NoMem>
    ensures { IfOk result (λ json. view json ≡ head_value head.now) }
{
    let info = info_json(alloc, &head.info)?;
    let submit_time = time_json(alloc, head.submit)?;
    Ok(json!(in alloc; {"info": info, "submit_time": submit_time})?)
}

fn exit_json(alloc: Global, exit: &Exit) -> Result<Json, NoMem>
    ensures { IfOk result (λ json. view json ≡ exit_value exit.now) }
{
    Ok(Json::Object(exit_members(alloc, exit)?))
}

/// The members of an exit's JSON: `dumped_core`, `exit_value` and `run_time`, and `error` and `signal` where they aren't
/// empty.
pub fn exit_members(alloc: Global, exit: &Exit) -> Result<Map<String, Json>, NoMem>
    ensures { IfOk result (λ members. members_view members.entries ≡ exit_members exit.now) }
{
    let mut members = Map::new(alloc);
    // From the last key to the first, so that each member goes before those that are there.
    put_text(&mut members, alloc, "signal", exit.signal.as_slice())?;
    put(&mut members, alloc, "run_time", time_json(alloc, exit.run)?)?;
    put(&mut members, alloc, "exit_value", Json::from(exit.value))?;
    put_text(&mut members, alloc, "error", exit.error.as_slice())?;
    put(&mut members, alloc, "dumped_core", Json::from(exit.dumped))?;
    Ok(members)
}

/// Puts a text where it isn't empty.
fn put_text(
    members: &mut Map<String, Json>,
    alloc: Global,
    key: &str,
    bytes: &[u8],
) -> Result<(), NoMem>
    ensures { OnOk result (IsFirst key.now (members_view members.old.entries)
        → members_view members.new.entries ≡ unless_empty key.now bytes.now (members_view members.old.entries)) }
{
    if !bytes.is_empty() {
        put(members, alloc, key, text_json(alloc, bytes)?)?;
    }
    Ok(())
}

/// The JSON of a time: an object with `nanoseconds` and `seconds`.
pub fn time_json(alloc: Global, time: TimeSpec) -> Result<Json, NoMem>
    ensures { IfOk result (λ json. view json ≡ time_value time) }
{
    Ok(json!(in alloc; {"nanoseconds": (time.nsec), "seconds": (time.sec)})?)
}

/// The JSON of a command's information: an object with a member for each key as it is shown, a number, a string, or an
/// array of either. Of several entries with one such key the last counts.
pub fn info_json(alloc: Global, info: &Info) -> Result<Json, NoMem>
    ensures { IfOk result (λ json. view json ≡ object (info_members info.now.entries)) }
{
    Ok(Json::Object(entries_json(alloc, info.entries.as_slice())?))
}

fn entries_json(alloc: Global, entries: &[Entry]) -> Result<Map<String, Json>, NoMem>
    ensures { IfOk result (λ members. members_view members.entries ≡ info_members entries.now) }
{
    let mut members = Map::new(alloc);
    for entry in entries {
        put_entry(&mut members, alloc, entry)?;
    }
    Ok(members)
}

/// An entry takes the place of an earlier one with the same key as it is shown.
#[tactic(auto, using(crate::proofs::Writing::entry_put))]
fn put_entry(members: &mut Map<String, Json>, alloc: Global, entry: &Entry) -> Result<(), NoMem>
    ensures { OnOk result (members_view members.new.entries ≡ with_entry (members_view members.old.entries) entry.now) }
{
    let key = String::from_utf8_lossy(alloc, entry.key.as_slice())?;
    let value = value_json(alloc, &entry.value)?;
    drop(members.insert(key, value)?);
    Ok(())
}

/// The JSON of an entry's value: a number, a string, or an array of either.
pub fn value_json(alloc: Global, value: &Value) -> Result<Json, NoMem>
    ensures { IfOk result (λ json. view json ≡ shown_value value.now) }
{
    match value {
        Value::Num(number) => Ok(Json::from(*number)),
        Value::Text(text) => text_json(alloc, text.as_slice()),
        Value::Texts(texts) => Ok(Json::Array(texts_json(alloc, texts.as_slice())?)),
        Value::Nums(numbers) => Ok(Json::Array(numbers_json(alloc, numbers.as_slice())?)),
    }
}

fn texts_json(alloc: Global, texts: &[Bytes]) -> Result<Vec<Json>, NoMem>
    ensures { IfOk result (λ items. map view items.items ≡ map shown_text texts.now) }
{
    let mut items = Vec::with_capacity(alloc, texts.len())?;
    for text in texts {
        items.push(text_json(alloc, text.as_slice())?)?;
    }
    Ok(items)
}

fn numbers_json(alloc: Global, numbers: &[i64]) -> Result<Vec<Json>, NoMem>
    ensures { IfOk result (λ items. map view items.items ≡ map shown_number numbers.now) }
{
    let mut items = Vec::with_capacity(alloc, numbers.len())?;
    for number in numbers {
        items.push(Json::from(*number))?;
    }
    Ok(items)
}

/// The JSON of bytes: a string, in which what is no UTF-8 is U+FFFD.
pub fn text_json(alloc: Global, bytes: &[u8]) -> Result<Json, NoMem>
    ensures { IfOk result (λ json. view json ≡ shown_text bytes.now) }
{
    Ok(Json::String(String::from_utf8_lossy(alloc, bytes)?))
}
