//! The line of an event as JSON.

ghost use Rattle.std.specs.Prelude.{◌≡◌, IfOk, OnOk};
ghost use Rattle.serde_json.specs.View.{view, members_view};
ghost use Rattle.lsv_info.specs.Layout.{shown_text};
ghost use Rattle.lsv_event.specs.declared.event.Event.{Event};
ghost use Rattle.lsv_event.specs.declared.event.Event.TheVariants.{Accept, Reject, Alert};
ghost use Rattle.lsv_event.specs.declared.event.Event.TheVariants as events;
ghost use Rattle.lsv_event.specs.Events.{peer_text};
ghost use Rattle.lsv_event.specs.JsonLine.{json_line, members_of, name_of, put_log};

use crate::controls::put_uncontrolled;
use crate::{Event, Peer};
use lsv_base::{Bytes, LogNo, NoMem, TimeSpec};
use lsv_info::{
    Exit, Head, exit_members, info_json, text_json, time_json, what_is_shown_has_no_float,
};
use serde_json::{Map, Value as Json, put};
use std::alloc::Global;

/// The line of an event as JSON, in the style of log.json: a compact object with one member, which is named after the
/// event. It has `server_time`, `peer`, and `iolog` where there is a log; `info`, and `submit_time` or, of an alert,
/// `alert_time`; `reason`; and of an exit the members of exit.json. DEL and the C1 controls (U+0080 to U+009F) stand by
/// their numbers, as `\u007f`. It takes memory in proportion to the event, and so much time and that of putting the keys
/// of `info` in order.
#[tactic(auto, unfolding(crate::specs::JsonLine::json_line))]
pub fn json_line(alloc: Global, event: &Event) -> Result<Bytes, NoMem>
    ensures { IfOk result (λ line. line ≡ json_line event.now) }
{
    what_is_shown_has_no_float();
    let mut line = Map::new(alloc);
    let members = members(alloc, event)?;
    put(&mut line, alloc, name(event), Json::Object(members))?;
    let plain = Json::Object(line).to_vec(alloc)?;
    let mut text = Vec::with_capacity(alloc, plain.len())?;
    put_uncontrolled(&mut text, &plain)?;
    text.push(b'\n')?;
    Ok(Bytes::from_vec(text))
}

/// What an event is called.
fn name(event: &Event) -> &'static str
    ensures { result.now ≡ name_of event.now }
{
    match event {
        Event::Accept { .. } => "accept",
        Event::Reject { .. } => "reject",
        Event::Alert { .. } => "alert",
        Event::Exit { .. } => "exit",
    }
}

fn members(alloc: Global, event: &Event) -> Result<Map<String, Json>, NoMem>
    ensures { IfOk result (λ members. members_view members.entries ≡ members_of event.now) }
{
    match event {
        Event::Accept {
            at,
            peer,
            log,
            head,
        } => accept_members(alloc, *at, *peer, *log, head),
        Event::Reject {
            at,
            peer,
            reason,
            head,
        } => reject_members(alloc, *at, *peer, reason, head),
        Event::Alert {
            at,
            peer,
            reason,
            head,
        } => alert_members(alloc, *at, *peer, reason, head),
        Event::Exit {
            at,
            peer,
            log,
            exit,
        } => ended_members(alloc, *at, *peer, *log, exit),
    }
}

// Members are put from the last key to the first, so that each goes before those that are there.

fn accept_members(
    alloc: Global,
    at: TimeSpec,
    peer: Peer,
    log: Option<LogNo>,
    head: &Head,
) -> Result<Map<String, Json>, NoMem>
    ensures { IfOk result (λ members. members_view members.entries ≡ members_of (Accept at peer log head.now)) }
{
    let mut members = Map::new(alloc);
    put(
        &mut members,
        alloc,
        "submit_time",
        time_json(alloc, head.submit)?,
    )?;
    put(&mut members, alloc, "server_time", time_json(alloc, at)?)?;
    put(&mut members, alloc, "peer", peer_json(alloc, peer)?)?;
    put_log(&mut members, alloc, log)?;
    put(&mut members, alloc, "info", info_json(alloc, &head.info)?)?;
    Ok(members)
}

fn reject_members(
    alloc: Global,
    at: TimeSpec,
    peer: Peer,
    reason: &Bytes,
    head: &Head,
) -> Result<Map<String, Json>, NoMem>
    ensures { IfOk result (λ members. members_view members.entries ≡ members_of (Reject at peer reason.now head.now)) }
{
    let mut members = Map::new(alloc);
    put(
        &mut members,
        alloc,
        "submit_time",
        time_json(alloc, head.submit)?,
    )?;
    put(&mut members, alloc, "server_time", time_json(alloc, at)?)?;
    put(
        &mut members,
        alloc,
        "reason",
        text_json(alloc, reason.as_slice())?,
    )?;
    put(&mut members, alloc, "peer", peer_json(alloc, peer)?)?;
    put(&mut members, alloc, "info", info_json(alloc, &head.info)?)?;
    Ok(members)
}

fn alert_members(
    alloc: Global,
    at: TimeSpec,
    peer: Peer,
    reason: &Bytes,
    head: &Head,
) -> Result<Map<String, Json>, NoMem>
    ensures { IfOk result (λ members. members_view members.entries ≡ members_of (Alert at peer reason.now head.now)) }
{
    let mut members = Map::new(alloc);
    put(&mut members, alloc, "server_time", time_json(alloc, at)?)?;
    put(
        &mut members,
        alloc,
        "reason",
        text_json(alloc, reason.as_slice())?,
    )?;
    put(&mut members, alloc, "peer", peer_json(alloc, peer)?)?;
    put(&mut members, alloc, "info", info_json(alloc, &head.info)?)?;
    put(
        &mut members,
        alloc,
        "alert_time",
        time_json(alloc, head.submit)?,
    )?;
    Ok(members)
}

fn ended_members(
    alloc: Global,
    at: TimeSpec,
    peer: Peer,
    log: Option<LogNo>,
    exit: &Exit,
) -> Result<Map<String, Json>, NoMem>
    ensures { IfOk result (λ members. members_view members.entries ≡ members_of (events.Exit at peer log exit.now)) }
{
    let mut members = exit_members(alloc, exit)?;
    put_log(&mut members, alloc, log)?;
    put(&mut members, alloc, "peer", peer_json(alloc, peer)?)?;
    put(&mut members, alloc, "server_time", time_json(alloc, at)?)?;
    Ok(members)
}

/// Puts the six digits of a log, where there is one.
fn put_log(members: &mut Map<String, Json>, alloc: Global, log: Option<LogNo>) -> Result<(), NoMem>
    ensures { OnOk result (members_view members.new.entries ≡ put_log log (members_view members.old.entries)) }
{
    if let Some(log) = log {
        put(members, alloc, "iolog", text_json(alloc, &log.digits())?)?;
    }
    Ok(())
}

fn peer_json(alloc: Global, peer: Peer) -> Result<Json, NoMem>
    ensures { IfOk result (λ json. view json ≡ shown_text (peer_text peer)) }
{
    text_json(alloc, peer.text(alloc)?.as_slice())
}
