//! Cases of events and their lines.

ghost use Rattle.std.specs.Prelude.{IsSome, IfOk};
ghost use Rattle.lsv_base.specs.Time.{nanos_of};
ghost use Rattle.lsv_event.specs.Events.{IsTimed};

use crate::words::{bytes_of, digits_of};
use anyhow::{Result, anyhow};
use lsv_base::{LogNo, Point, TimeSpec, nanoseconds_are_one_time};
use lsv_event::{Event, Peer, json_line, one_event_is_one_line, sudo_line};
use lsv_hook::{Formatter, LineWriter};
use lsv_info::{Exit, Head, Info};
use lsv_msg::{ClientMessage, decode_client};
use std::alloc::Global;

/// A time that must be given, and valid.
fn valid(time: Option<TimeSpec>) -> Result<TimeSpec>
    ensures { IfOk result (λ time. IsSome (nanos_of time)) }
{
    let time = time.ok_or(anyhow!("a time"))?;
    if time.delay().is_none() {
        return Err(anyhow!("a valid time"));
    }
    Ok(time)
}

fn head(submit: Option<TimeSpec>, info: Info) -> Result<Head>
    ensures { IfOk result (λ head. IsSome (nanos_of head.submit)) }
{
    let submit = valid(submit)?;
    Ok(Head { submit, info })
}

/// The event of a connection's message at this moment. `log` is the log that it names, if any.
fn event_of(at: TimeSpec, peer: Peer, log: Option<LogNo>, message: ClientMessage) -> Result<Event>
    requires { IsSome (nanos_of at) }
    ensures { IfOk result IsTimed }
{
    match message {
        ClientMessage::Accept(m) => {
            let m = m.into_inner();
            let head = head(m.submit_time, m.info_msgs)?;
            Ok(Event::Accept {
                at,
                peer,
                log,
                head,
            })
        }
        ClientMessage::Reject(m) => {
            let m = m.into_inner();
            let head = head(m.submit_time, m.info_msgs)?;
            let reason = m.reason;
            Ok(Event::Reject {
                at,
                peer,
                reason,
                head,
            })
        }
        ClientMessage::Alert(m) => {
            let m = m.into_inner();
            let head = head(m.alert_time, m.info_msgs)?;
            let reason = m.reason;
            Ok(Event::Alert {
                at,
                peer,
                reason,
                head,
            })
        }
        ClientMessage::Exit(m) => {
            let m = m.into_inner();
            let exit = Exit {
                run: valid(m.run_time)?,
                value: m.exit_value,
                dumped: m.dumped_core,
                signal: m.signal,
                error: m.error,
            };
            Ok(Event::Exit {
                at,
                peer,
                log,
                exit,
            })
        }
        _ => Err(anyhow!("an event")),
    }
}

/// The event of a case: the moment in seconds, the worker, the connection, the log's number or 0, and a client's message.
fn event(alloc: Global, words: &str) -> Result<Event>
    ensures { IfOk result IsTimed }
{
    nanoseconds_are_one_time();
    let mut words = words.split(' ');
    let mut next = || words.next().ok_or(anyhow!("a word"));
    let seconds = next()?.parse::<u64>()?;
    let at = Point::new(seconds.saturating_mul(1_000_000_000)).ok_or(anyhow!("a moment"))?;
    let peer = Peer {
        worker: next()?.parse::<u32>()?,
        seq: next()?.parse::<u64>()?,
    };
    let log = LogNo::new(next()?.parse::<u32>()?);
    let message = decode_client(alloc, bytes_of(alloc, next()?)?.as_slice())?;
    event_of(at.spec(), peer, log, message)
}

/// The line in sudo's form.
pub fn sudo(rt: &HostRuntime, words: &str) -> Result<()> {
    let line = sudo_line(rt.alloc(), &event(rt.alloc(), words)?)?;
    println!(rt; "{}", digits_of(rt.alloc(), &line)?)?;
    Ok(())
}

/// The line of JSON.
pub fn json(rt: &HostRuntime, words: &str) -> Result<()> {
    let line = json_line(rt.alloc(), &event(rt.alloc(), words)?)?;
    println!(rt; "{}", digits_of(rt.alloc(), &line)?)?;
    Ok(())
}

/// The line that a formatter writes.
fn show_written<F: LineWriter>(
    rt: &HostRuntime,
    formatter: &Formatter<F>,
    event: &Event,
) -> Result<()>
    requires { IsTimed event.now }
{
    let line = formatter.write(rt.alloc(), event)?;
    println!(rt; "{}", digits_of(rt.alloc(), &line)?)?;
    Ok(())
}

/// The lines that the two formatters write, and those that they write by reference, as several lanes use them.
pub fn formatted(rt: &HostRuntime, words: &str) -> Result<()> {
    one_event_is_one_line();
    let event = event(rt.alloc(), words)?;
    let (sudo, json) = (Formatter::sudo(), Formatter::json());
    show_written(rt, &sudo, &event)?;
    show_written(rt, &json, &event)?;
    let (sudo, json) = (sudo.by_ref(), json.by_ref());
    show_written(rt, &sudo.by_ref(), &event)?;
    show_written(rt, &json.by_ref(), &event)
}
