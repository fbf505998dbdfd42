//! The line of an event in sudo's style.

ghost use Rattle.std.specs.Prelude.{◌≡◌, ◌++◌, ◌∷◌, [], ℕ, List, drop, IfOk, OnOk, IsSome, option_map, codes};
ghost use Rattle.std.specs.Fmt.{signed_decimal};
ghost use Rattle.std.specs.List.{flat_map};
ghost use Rattle.lsv_base.specs.LogNo.{digits_of};
ghost use Rattle.lsv_info.specs.Info.{text_of};
ghost use Rattle.lsv_event.specs.Escapes.{escaped};
ghost use Rattle.lsv_base.specs.Time.{nanos_of};
ghost use Rattle.lsv_event.specs.Events.{IsTimed, peer_text};
ghost use Rattle.lsv_event.specs.InnerLine.{Has};
ghost use Rattle.lsv_event.specs.SudoLine.{command_parts, command_text, core_part, exit_parts, joined, line_start, part, part_if, part_unless_empty, sudo_line, terminal, user_in};

use crate::line::Line;
use crate::{Event, Peer};
use itoa::Buffer;
use lsv_base::{Bytes, LogNo, NoMem, TimeSpec};
use lsv_info::{Exit, Head, Info, Value};
use std::alloc::Global;

/// The line of an event in sudo's style. It has a date, the user, and parts with ` ; ` between them, each left out
/// where its text is missing: the reason, and what follows `HOST=`, `TTY=`, `PWD=`, `USER=`, `TSID=` and `COMMAND=`.
/// The line of an exit has the connection in place of the user, and `TSID=`, `EXIT=`, `SIGNAL=`, `ERROR=` and `CORE`.
/// Bytes of a client that aren't spaces or visible, and `#`, are written as `#` and three octal digits.
/// It takes memory and time in proportion to the line.
#[tactic(auto, unfolding(crate::specs::SudoLine::sudo_line))]
pub fn sudo_line(alloc: Global, event: &Event) -> Result<Bytes, NoMem>
    requires { IsTimed event.now }
    ensures { IfOk result (λ line. line ≡ sudo_line event.now) }
{
    match event {
        Event::Accept { log, head, .. } => command_line(alloc, b"", *log, head),
        Event::Reject { reason, head, .. } => command_line(alloc, reason.as_slice(), None, head),
        Event::Alert { reason, head, .. } => command_line(alloc, reason.as_slice(), None, head),
        Event::Exit {
            at,
            peer,
            log,
            exit,
        } => exit_line(alloc, *at, *peer, *log, exit),
    }
}

fn command_line(
    alloc: Global,
    reason: &[u8],
    log: Option<LogNo>,
    head: &Head,
) -> Result<Bytes, NoMem>
    requires { IsSome (nanos_of head.now.submit) }
    ensures { IfOk result (λ line. line ≡ line_start head.now.submit (user_in head.now.info) ++ joined (part_unless_empty [] reason.now ++ command_parts log head.now.info) ++ 10 ∷ []) }
{
    let mut line = Line::new(alloc, head.submit, user_in(&head.info))?;
    line.add_unless_empty(b"", reason)?;
    put_command(&mut line, log, &head.info)?;
    line.end()
}

/// The user who asked for the command.
fn user_in(info: &Info) -> &[u8]
    ensures { result.now ≡ user_in info.now }
{
    match info.text_of(b"submituser") {
        Some(user) => user,
        None => b"unknown",
    }
}

/// Adds the parts that tell of a command.
fn put_command(line: &mut Line, log: Option<LogNo>, info: &Info) -> Result<(), NoMem>
    ensures { (start : List ℕ) (parts : List (List ℕ)) → Has start parts line.old → OnOk result (Has start (parts ++ command_parts log info.now) line.new) }
{
    line.add_if(b"HOST=", info.text_of(b"submithost"))?;
    put_terminal(line, info)?;
    line.add_if(b"PWD=", info.text_of(b"submitcwd"))?;
    line.add_if(b"USER=", info.text_of(b"runuser"))?;
    put_log(line, log)?;
    put_command_text(line, info)
}

fn put_terminal(line: &mut Line, info: &Info) -> Result<(), NoMem>
    ensures { (start : List ℕ) (parts : List (List ℕ)) → Has start parts line.old
        → OnOk result (Has start (parts ++ part_if (codes "TTY=") (option_map terminal (text_of info.now (codes "ttyname")))) line.new) }
{
    match info.text_of(b"ttyname") {
        Some(name) => line.add(b"TTY=", terminal(name)),
        None => Ok(()),
    }
}

/// The name of a terminal without `/dev/`.
fn terminal(name: &[u8]) -> &[u8]
    ensures { result.now ≡ terminal name.now }
{
    if name.starts_with(b"/dev/") {
        &name[5..]
    } else {
        name
    }
}

fn put_log(line: &mut Line, log: Option<LogNo>) -> Result<(), NoMem>
    ensures { (start : List ℕ) (parts : List (List ℕ)) → Has start parts line.old → OnOk result (Has start (parts ++ part_if (codes "TSID=") (option_map digits_of log)) line.new) }
{
    match log {
        Some(log) => line.add(b"TSID=", &log.digits()),
        None => Ok(()),
    }
}

/// Adds the command and its arguments, where there is a command.
fn put_command_text(line: &mut Line, info: &Info) -> Result<(), NoMem>
    ensures { (start : List ℕ) (parts : List (List ℕ)) → Has start parts line.old → OnOk result (Has start (parts ++ part_if (codes "COMMAND=") (command_text info.now)) line.new) }
{
    let Some(command) = info.text_of(b"command") else {
        return Ok(());
    };
    line.add(b"COMMAND=", command)?;
    match info.value_of(b"runargv") {
        Some(Value::Texts(texts)) => put_arguments(line, texts.as_slice()),
        _ => Ok(()),
    }
}

/// Goes on with the arguments of a command, each after a space. The first text is the command itself.
fn put_arguments(line: &mut Line, texts: &[Bytes]) -> Result<(), NoMem>
    ensures { (start : List ℕ) (parts : List (List ℕ)) (last : List ℕ) → Has start (parts ++ last ∷ []) line.old
        → OnOk result (Has start (parts ++ (last ++ escaped (flat_map (λ text. 32 ∷ text) (drop 1 texts.now))) ∷ []) line.new) }
{
    for text in arguments(texts) {
        line.append(b" ")?;
        line.append(text.as_slice())?;
    }
    Ok(())
}

/// The texts after the first.
fn arguments(texts: &[Bytes]) -> &[Bytes]
    ensures { result.now ≡ drop 1 texts.now }
{
    if texts.is_empty() { texts } else { &texts[1..] }
}

fn exit_line(
    alloc: Global,
    at: TimeSpec,
    peer: Peer,
    log: Option<LogNo>,
    exit: &Exit,
) -> Result<Bytes, NoMem>
    requires { IsSome (nanos_of at) }
    ensures { IfOk result (λ line. line ≡ line_start at (peer_text peer) ++ joined (exit_parts log exit.now) ++ 10 ∷ []) }
{
    let who = peer.text(alloc)?;
    let mut line = Line::new(alloc, at, who.as_slice())?;
    put_exit(&mut line, log, exit)?;
    line.end()
}

/// Adds the parts that tell how a command ended.
fn put_exit(line: &mut Line, log: Option<LogNo>, exit: &Exit) -> Result<(), NoMem>
    ensures { (start : List ℕ) (parts : List (List ℕ)) → Has start parts line.old → OnOk result (Has start (parts ++ exit_parts log exit.now) line.new) }
{
    put_log(line, log)?;
    put_value(line, exit.value)?;
    line.add_unless_empty(b"SIGNAL=", exit.signal.as_slice())?;
    line.add_unless_empty(b"ERROR=", exit.error.as_slice())?;
    put_core(line, exit.dumped)
}

fn put_value(line: &mut Line, value: i32) -> Result<(), NoMem>
    ensures { (start : List ℕ) (parts : List (List ℕ)) → Has start parts line.old → OnOk result (Has start (parts ++ part (codes "EXIT=") (signed_decimal value)) line.new) }
{
    line.add(b"EXIT=", Buffer::new().format(value).as_bytes())
}

fn put_core(line: &mut Line, dumped: bool) -> Result<(), NoMem>
    ensures { (start : List ℕ) (parts : List (List ℕ)) → Has start parts line.old → OnOk result (Has start (parts ++ core_part dumped) line.new) }
{
    if dumped {
        return line.begin(b"CORE");
    }
    Ok(())
}
