//! Heads and exits are read from JSON.

ghost use Rattle.std.specs.Prelude.{◌≡◌, ◌≢◌, Ok, Err, Some, None, IfOk, IfErr, option_map, option_and_then, codes};
ghost use Rattle.lsv_info.specs.declared.fault.InfoFault.TheVariants as faults;
ghost use Rattle.serde_json.specs.Find.{get, as_object};
ghost use Rattle.serde_json.specs.View.{view, items_view, members_view};
ghost use Rattle.lsv_info.specs.Reading.{Gives, json_in, small_in, texts_in, numbers_in, unless_texts, value_in, needed, entries_in, if_valid, time_in, head_in, text_or_empty, exit_in, head_of, exit_of};

use crate::{Entry, Exit, Head, Info, InfoFault, Value};
use lsv_base::{Bytes, List, NoMem, TimeSpec};
use serde_json::{Map, Value as Json};
use std::alloc::Global;

/// The head that the text of a log.json is: an object with `info` and `submit_time`. `info` is an object whose members
/// are numbers of 64 bits with a sign, strings, arrays of strings (an empty array is one) or arrays of such numbers.
/// `submit_time` is a valid time, an object with `nanoseconds` and `seconds`. Further members are passed over, and of a
/// key that comes twice in one object the last counts.
///
/// `NotJson` where the bytes are no JSON. `NotInfo` with the key of the first member that is missing or has another form:
/// `info` and its members, in byte order of their keys, are judged before `submit_time`. `NoMem` where it is out of memory.
#[tactic(auto, unfolding(crate::specs::Reading::head_of))]
pub fn read_head(alloc: Global, bytes: &[u8]) -> Result<Head, InfoFault>
    ensures head { IfOk result (λ head. head_of bytes.now ≡ Ok head) }
    ensures refused { IfErr result (λ e. e ≢ faults.NoMem → head_of bytes.now ≡ Err e) }
{
    head_in(alloc, json_in(alloc, bytes)?)
}

/// The exit that the text of an exit.json is: an object with `dumped_core` (a bool), `error` (a string, or missing),
/// `exit_value` (a number of 32 bits with a sign), `run_time` (a valid time, as a head has it) and `signal` (a string, or
/// missing). Further members are passed over, and of a key that comes twice in one object the last counts.
///
/// `NotJson` where the bytes are no JSON. `NotInfo` with the first of these keys, in this order, whose member is missing
/// or has another form. `NoMem` where it is out of memory.
#[tactic(auto, unfolding(crate::specs::Reading::exit_of))]
pub fn read_exit(alloc: Global, bytes: &[u8]) -> Result<Exit, InfoFault>
    ensures exit { IfOk result (λ exit. exit_of bytes.now ≡ Ok exit) }
    ensures refused { IfErr result (λ e. e ≢ faults.NoMem → exit_of bytes.now ≡ Err e) }
{
    exit_in(alloc, &json_in(alloc, bytes)?)
}

/// The JSON value that these bytes are.
fn json_in(alloc: Global, bytes: &[u8]) -> Result<Json, InfoFault>
    ensures json { IfOk result (λ json. json_in bytes.now ≡ Some (view json)) }
    ensures refused { IfErr result (λ e. e ≢ faults.NoMem → (e ≡ faults.NotJson) × (json_in bytes.now ≡ None)) }
{
    match Json::from_slice(alloc, bytes) {
        Ok(json) => Ok(json),
        Err(e) if e.is_memory() => Err(InfoFault::NoMem),
        Err(_) => Err(InfoFault::NotJson),
    }
}

fn head_in(alloc: Global, json: Json) -> Result<Head, InfoFault>
    ensures { Gives result (head_in (view json)) }
{
    let submit_time = json.get("submit_time").and_then(time_in);
    let info = needed(alloc, "info", info_of(json))?;
    let entries = entries_in(alloc, info)?;
    Ok(Head {
        submit: needed(alloc, "submit_time", submit_time)?,
        info: Info { entries },
    })
}

/// The members of `info`, where it is an object.
fn info_of(json: Json) -> Option<Map<String, Json>>
    ensures { option_map (λ info. members_view info.entries) result ≡ option_and_then as_object (get (codes "info") (view json)) }
{
    match member_of(json)? {
        Json::Object(info) => Some(info),
        Json::Null | Json::Bool(_) | Json::Number(_) | Json::String(_) | Json::Array(_) => None,
    }
}

/// The member `info`.
fn member_of(json: Json) -> Option<Json>
    ensures { option_map view result ≡ get (codes "info") (view json) }
{
    match json {
        Json::Object(mut members) => members.remove("info"),
        Json::Null | Json::Bool(_) | Json::Number(_) | Json::String(_) | Json::Array(_) => None,
    }
}

fn exit_in(alloc: Global, json: &Json) -> Result<Exit, InfoFault>
    ensures { Gives result (exit_in (view json.now)) }
{
    let dumped_core = json.get("dumped_core").and_then(Json::as_bool);
    let dumped = needed(alloc, "dumped_core", dumped_core)?;
    let error = text_or_empty(alloc, json, "error")?;
    let exit_value = json.get("exit_value").and_then(small_in);
    let value = needed(alloc, "exit_value", exit_value)?;
    let run_time = json.get("run_time").and_then(time_in);
    let run = needed(alloc, "run_time", run_time)?;
    let signal = text_or_empty(alloc, json, "signal")?;
    Ok(Exit {
        run,
        value,
        dumped,
        signal,
        error,
    })
}

/// What a member gives, or else that the member with this key is at fault.
fn needed<T: Drop>(alloc: Global, key: &str, found: Option<T>) -> Result<T, InfoFault>
    ensures { Gives result (needed key.now found) }
{
    match found {
        Some(value) => Ok(value),
        None => refuse(alloc, key),
    }
}

fn refuse<T>(alloc: Global, key: &str) -> Result<T, InfoFault>
    ensures { Gives result (Err (faults.NotInfo key.now)) }
{
    Err(InfoFault::NotInfo(Bytes::of(alloc, key.as_bytes())?))
}

/// The members are judged in byte order of their keys.
fn entries_in(alloc: Global, members: Map<String, Json>) -> Result<List<Entry>, InfoFault>
    ensures { Gives result (entries_in (members_view members.entries)) }
{
    let mut entries = Vec::with_capacity(alloc, members.len())?;
    for (key, json) in members {
        let value = needed(alloc, key.as_str(), value_in(alloc, json)?)?;
        let key = Bytes::from_vec(key.into_bytes());
        entries.push(Entry { key, value })?;
    }
    Ok(List::from_vec(entries))
}

/// The value of an entry. None where the JSON has another form.
fn value_in(alloc: Global, json: Json) -> Result<Option<Value>, NoMem>
    ensures { IfOk result (λ value. value ≡ value_in (view json)) }
{
    match json {
        Json::Number(number) => Ok(number.as_i64().map(Value::Num)),
        Json::String(text) => Ok(Some(Value::Text(Bytes::from_vec(text.into_bytes())))),
        Json::Array(items) => array_in(alloc, items),
        Json::Null | Json::Bool(_) | Json::Object(_) => Ok(None),
    }
}

fn array_in(alloc: Global, items: Vec<Json>) -> Result<Option<Value>, NoMem>
    ensures { IfOk result (λ value. value ≡ unless_texts (texts_in (items_view items.items)) (numbers_in (items_view items.items))) }
{
    if items.first().is_some_and(Json::is_number) {
        return Ok(numbers_in(alloc, &items)?.map(Value::Nums));
    }
    Ok(texts_in(alloc, items)?.map(Value::Texts))
}

/// The strings of an array of strings.
fn texts_in(alloc: Global, items: Vec<Json>) -> Result<Option<List<Bytes>>, NoMem>
    ensures { IfOk result (λ texts. texts ≡ texts_in (items_view items.items)) }
{
    let mut texts = Vec::with_capacity(alloc, items.len())?;
    for item in items {
        match item {
            Json::String(text) => texts.push(Bytes::from_vec(text.into_bytes()))?,
            Json::Null | Json::Bool(_) | Json::Number(_) | Json::Array(_) | Json::Object(_) => {
                return Ok(None);
            }
        }
    }
    Ok(Some(List::from_vec(texts)))
}

/// The numbers of an array of numbers of 64 bits with a sign.
fn numbers_in(alloc: Global, items: &[Json]) -> Result<Option<List<i64>>, NoMem>
    ensures { IfOk result (λ numbers. numbers ≡ numbers_in (items_view items.now)) }
{
    let mut numbers = Vec::new(alloc);
    for item in items {
        let Some(number) = item.as_i64() else {
            return Ok(None);
        };
        numbers.push(number)?;
    }
    Ok(Some(List::from_vec(numbers)))
}

/// A number of 32 bits with a sign.
fn small_in(json: &Json) -> Option<i32>
    ensures { result ≡ small_in (view json.now) }
{
    i32::try_from(json.as_i64()?).ok()
}

/// A valid time.
fn time_in(json: &Json) -> Option<TimeSpec>
    ensures { result ≡ time_in (view json.now) }
{
    let sec = json.get("seconds").and_then(Json::as_i64)?;
    let nsec = json.get("nanoseconds").and_then(small_in)?;
    if_valid(TimeSpec { sec, nsec })
}

fn if_valid(time: TimeSpec) -> Option<TimeSpec>
    ensures { result ≡ if_valid time }
{
    time.delay()?;
    Some(time)
}

/// The text of a member, or no bytes where there is none.
fn text_or_empty(alloc: Global, json: &Json, key: &str) -> Result<Bytes, InfoFault>
    ensures { Gives result (needed key.now (text_or_empty (get key.now (view json.now)))) }
{
    let Some(member) = json.get(key) else {
        return Ok(Bytes::new(alloc));
    };
    match member.as_str() {
        Some(text) => Ok(Bytes::of(alloc, text.as_bytes())?),
        None => refuse(alloc, key),
    }
}
