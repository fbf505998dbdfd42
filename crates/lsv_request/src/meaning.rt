//! What a message asks of a session, or why it is refused.

ghost use Rattle.std.specs.Prelude.{◌≡◌, ◌≤◌, Ok};
ghost use Rattle.lsv_request.specs.declared.request.Request.TheVariants as requests;
ghost use Rattle.lsv_request.specs.Requests.{accept_of, alert_of, and_then, data_of, exit_of, has_keys, head_of, is_signal, nanos_in, reject_of, request_of, restart_of, run_of, suspend_of, valid_time, window_of};

use crate::{Accept, Refusal, Report, Request, Restart};
use lsv_base::{LogNo, Point, TimeSpec};
use lsv_info::{Exit, Head, Info};
use lsv_msg::{
    AcceptMessage, AlertMessage, Boxed, ChangeWindowSize, ClientMessage, CommandSuspend,
    ExitMessage, IoBuffer, RejectMessage, RestartMessage,
};
use lsv_record::{Record, Stream};

/// The most bytes of data that a record has, as many as a message.
const MOST_DATA: usize = 2_097_152;

/// What a message asks of a session, or why it is refused. It takes no memory. After the session's state the time is judged:
/// `BadTime` where it is negative or too large, or missing from another message than an exit or a hello. Then
/// `BadSizeOrSignal` where a window's rows or columns are negative or a signal's name isn't 1 to 32 visible bytes,
/// `MessageTooLarge` where a record has more than 2,097,152 bytes of data, and `NoSuchLog` where a restart's identifier isn't
/// the six digits of a log number. No other refusal comes. The keys of an accept aren't judged.
#[inline(always)]
pub fn request_of(message: ClientMessage) -> Result<Request, Refusal>
    ensures { result ≡ request_of message }
{
    match message {
        ClientMessage::Hello(_) => Ok(Request::Hello),
        ClientMessage::Accept(m) => accept_request(m),
        ClientMessage::Reject(m) => reject_request(m),
        ClientMessage::Alert(m) => alert_request(m),
        ClientMessage::Restart(m) => restart_request(m),
        ClientMessage::Exit(m) => exit_request(m),
        ClientMessage::Ttyin(m) => data_request(Stream::Ttyin, m),
        ClientMessage::Ttyout(m) => data_request(Stream::Ttyout, m),
        ClientMessage::Stdin(m) => data_request(Stream::Stdin, m),
        ClientMessage::Stdout(m) => data_request(Stream::Stdout, m),
        ClientMessage::Stderr(m) => data_request(Stream::Stderr, m),
        ClientMessage::Winsize(m) => window_request(m),
        ClientMessage::Suspend(m) => suspend_request(m),
    }
}

// Each of these stands apart, since whatever a function may hold is cleared where it begins.

fn data_request(stream: Stream, m: IoBuffer) -> Result<Request, Refusal>
    ensures { result ≡ and_then (data_of stream m) (λ r. Ok (requests.Record r)) }
{
    Ok(Request::Record(data_of(stream, m)?))
}

#[cold]
#[inline(never)]
fn accept_request(m: Boxed<AcceptMessage>) -> Result<Request, Refusal>
    ensures { result ≡ and_then (accept_of m) (λ a. Ok (requests.Accept a)) }
{
    Ok(Request::Accept(accept_of(m.into_inner())?))
}

#[cold]
#[inline(never)]
fn reject_request(m: Boxed<RejectMessage>) -> Result<Request, Refusal>
    ensures { result ≡ and_then (reject_of m) (λ r. Ok (requests.Reject r)) }
{
    Ok(Request::Reject(reject_of(m.into_inner())?))
}

#[cold]
#[inline(never)]
fn alert_request(m: Boxed<AlertMessage>) -> Result<Request, Refusal>
    ensures { result ≡ and_then (alert_of m) (λ r. Ok (requests.Alert r)) }
{
    Ok(Request::Alert(alert_of(m.into_inner())?))
}

#[cold]
#[inline(never)]
fn restart_request(m: RestartMessage) -> Result<Request, Refusal>
    ensures { result ≡ and_then (restart_of m) (λ r. Ok (requests.Restart r)) }
{
    Ok(Request::Restart(restart_of(m)?))
}

#[cold]
#[inline(never)]
fn exit_request(m: Boxed<ExitMessage>) -> Result<Request, Refusal>
    ensures { result ≡ and_then (exit_of m) (λ e. Ok (requests.Exit e)) }
{
    Ok(Request::Exit(exit_of(m.into_inner())?))
}

#[cold]
#[inline(never)]
fn window_request(m: ChangeWindowSize) -> Result<Request, Refusal>
    ensures { result ≡ and_then (window_of m) (λ r. Ok (requests.Record r)) }
{
    Ok(Request::Record(window_of(m)?))
}

#[cold]
#[inline(never)]
fn suspend_request(m: CommandSuspend) -> Result<Request, Refusal>
    ensures { result ≡ and_then (suspend_of m) (λ r. Ok (requests.Record r)) }
{
    Ok(Request::Record(suspend_of(m)?))
}

/// The head of a session that an accept opens: `BadTime` is judged before `MissingKey`.
pub fn head_of(m: AcceptMessage) -> Result<Head, Refusal>
    ensures { result ≡ head_of m }
{
    let accept = accept_of(m)?;
    if !has_keys(&accept.head.info) {
        return Err(Refusal::MissingKey);
    }
    Ok(accept.head)
}

/// Whether the texts are there without which no session begins: `command`, `runuser`, `submituser` and `submithost`.
pub fn has_keys(info: &Info) -> bool
    ensures { result ≡ has_keys info.now }
{
    info.text_of(b"command").is_some()
        && info.text_of(b"runuser").is_some()
        && info.text_of(b"submituser").is_some()
        && info.text_of(b"submithost").is_some()
}

fn valid_time(time: Option<TimeSpec>) -> Result<TimeSpec, Refusal>
    ensures { result ≡ valid_time time }
{
    match time {
        Some(time) if time.delay().is_some() => Ok(time),
        _ => Err(Refusal::BadTime),
    }
}

/// The nanoseconds since the record before.
#[inline(always)]
fn delay_in(time: Option<TimeSpec>) -> Result<u64, Refusal>
    ensures { result ≡ nanos_in time }
{
    match time.and_then(TimeSpec::delay) {
        Some(nanos) => Ok(nanos),
        None => Err(Refusal::BadTime),
    }
}

fn point_in(time: Option<TimeSpec>) -> Result<Point, Refusal>
    ensures { result ≡ nanos_in time }
{
    match time.and_then(TimeSpec::point) {
        Some(point) => Ok(point),
        None => Err(Refusal::BadTime),
    }
}

#[inline(always)]
fn data_of(stream: Stream, m: IoBuffer) -> Result<Record, Refusal>
    ensures { result ≡ data_of stream m }
{
    let delay = delay_in(m.delay)?;
    if m.bytes.as_slice().len() > MOST_DATA {
        return Err(Refusal::MessageTooLarge);
    }
    Ok(Record::Io {
        delay,
        stream,
        bytes: m.bytes,
    })
}

#[cold]
#[inline(never)]
fn window_of(m: ChangeWindowSize) -> Result<Record, Refusal>
    ensures { result ≡ window_of m }
{
    let delay = delay_in(m.delay)?;
    if m.rows < 0 || m.cols < 0 {
        return Err(Refusal::BadSizeOrSignal);
    }
    Ok(Record::Winsize {
        delay,
        rows: m.rows as u32,
        cols: m.cols as u32,
    })
}

#[cold]
#[inline(never)]
fn suspend_of(m: CommandSuspend) -> Result<Record, Refusal>
    ensures { result ≡ suspend_of m }
{
    let delay = delay_in(m.delay)?;
    if !is_signal(m.signal.as_slice()) {
        return Err(Refusal::BadSizeOrSignal);
    }
    Ok(Record::Suspend {
        delay,
        signal: m.signal,
    })
}

fn is_signal(text: &[u8]) -> bool
    ensures { result ≡ is_signal text.now }
{
    lsv_record::is_signal(text)
}

#[cold]
#[inline(never)]
fn accept_of(m: AcceptMessage) -> Result<Accept, Refusal>
    ensures { result ≡ accept_of m }
{
    let submit = valid_time(m.submit_time)?;
    Ok(Accept {
        head: Head {
            submit,
            info: m.info_msgs,
        },
        expect_iobufs: m.expect_iobufs,
    })
}

#[cold]
#[inline(never)]
fn reject_of(m: RejectMessage) -> Result<Report, Refusal>
    ensures { result ≡ reject_of m }
{
    let time = valid_time(m.submit_time)?;
    Ok(Report {
        time,
        reason: m.reason,
        info: m.info_msgs,
    })
}

#[cold]
#[inline(never)]
fn alert_of(m: AlertMessage) -> Result<Report, Refusal>
    ensures { result ≡ alert_of m }
{
    let time = valid_time(m.alert_time)?;
    Ok(Report {
        time,
        reason: m.reason,
        info: m.info_msgs,
    })
}

/// How long the command ran: 0 where nothing is told.
fn run_of(run: Option<TimeSpec>) -> Result<TimeSpec, Refusal>
    ensures { result ≡ run_of run }
{
    match run {
        None => Ok(TimeSpec { sec: 0, nsec: 0 }),
        Some(run) => valid_time(Some(run)),
    }
}

#[cold]
#[inline(never)]
fn exit_of(m: ExitMessage) -> Result<Exit, Refusal>
    ensures { result ≡ exit_of m }
{
    let run = run_of(m.run_time)?;
    Ok(Exit {
        run,
        value: m.exit_value,
        dumped: m.dumped_core,
        signal: m.signal,
        error: m.error,
    })
}

#[cold]
#[inline(never)]
fn restart_of(m: RestartMessage) -> Result<Restart, Refusal>
    ensures { result ≡ restart_of m }
{
    let point = point_in(m.resume_point)?;
    match LogNo::read(m.log_id.as_slice()) {
        Some(log) => Ok(Restart { log, point }),
        None => Err(Refusal::NoSuchLog),
    }
}
