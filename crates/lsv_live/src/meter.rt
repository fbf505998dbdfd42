//! How far a client is, and what becomes of each message by that.

ghost use Rattle.std.specs.Prelude.{◌≡◌, ◌≢◌, ◌<◌, ◌≤◌, ◌^◌, length, true, if◌then◌else◌, IfErr, IfOk, Ok, Err};
ghost use Rattle.lsv_base.specs.Time.{nanos_of};
ghost use Rattle.lsv_live.specs.Meter.{answered, judged, last, noted, pointed, put, recorded, resumed, start, time_in};
ghost use Rattle.lsv_live.specs.declared.fault.LiveFault.TheVariants as faults;
ghost use Rattle.lsv_live.specs.declared.live.Down.TheVariants as downs;
ghost use Rattle.lsv_msg.specs.Messages.{server_bytes};
ghost use Rattle.lsv_session.specs.Connections.{server_hello};
ghost use Rattle.lsv_wire.specs.Frame.{frame_of};
ghost use Rattle.lsv_wire.specs.declared.framing.TheConstants.{FRAME_LIMIT};

use crate::{Down, LiveFault};
use lsv_base::{Bytes, Point, TimeSpec};
use lsv_msg::{ClientMessage, EncodeFault, ServerMessage, put_server};
use lsv_session::server_hello;
use std::alloc::Global;

/// How far a client is, by all that was passed on.
#[derive(Clone, Copy, Debug, PartialEq, Eq)]
pub struct Meter {
    /// The elapsed time of its records.
    pub elapsed: Point,
    /// Its accept was passed on.
    pub has_opened: bool,
    /// Its exit or reject was passed on.
    pub has_left: bool,
    /// The other server's hello came.
    pub has_greeted: bool,
    /// An error or an abort of the other server came.
    pub has_ended: bool,
}

/// The greatest point.
const LAST_POINT: u64 = (1 << 63) - 1;

/// The point of this value.
fn point_of(nanos: u64) -> Point
    requires { nanos < 2 ^ 63 }
    ensures { result ≡ nanos }
{
    match Point::new(nanos) {
        Some(point) => point,
        None => unreachable!(),
    }
}

/// The nanoseconds of a time that is there and valid.
fn time_in(time: Option<TimeSpec>) -> Option<u64>
    ensures { result ≡ time_in time }
{
    match time {
        Some(time) => time.delay(),
        None => None,
    }
}

impl Meter {
    /// Nothing was passed on.
    pub fn new() -> Self
        ensures { result ≡ start }
    {
        Meter {
            elapsed: point_of(0),
            has_opened: false,
            has_left: false,
            has_greeted: false,
            has_ended: false,
        }
    }

    /// The same of another elapsed time.
    fn at(&self, elapsed: Point) -> Meter
        ensures { result ≡ record self.now { elapsed = elapsed } }
    {
        Meter {
            elapsed,
            has_opened: self.has_opened,
            has_left: self.has_left,
            has_greeted: self.has_greeted,
            has_ended: self.has_ended,
        }
    }

    /// A copy.
    fn same(&self) -> Meter
        ensures { result ≡ self.now }
    {
        self.at(self.elapsed)
    }

    /// After a record of this delay.
    fn recorded(&self, delay: Option<TimeSpec>) -> Result<Meter, LiveFault>
        ensures { result ≡ recorded self.now (time_in delay) }
    {
        let Some(delay) = time_in(delay) else {
            return Err(LiveFault::BadTime);
        };
        match self.elapsed.plus(delay) {
            Some(elapsed) => Ok(self.at(elapsed)),
            None => Err(LiveFault::TooLong(self.elapsed)),
        }
    }

    /// After a restart at this point.
    fn resumed(&self, point: Option<TimeSpec>) -> Result<Meter, LiveFault>
        ensures { result ≡ resumed self.now (time_in point) }
    {
        let Some(point) = time_in(point) else {
            return Err(LiveFault::BadTime);
        };
        if self.has_opened {
            return Ok(self.same());
        }
        Ok(self.at(point_of(point)))
    }

    /// After an accept.
    fn opened(&self) -> Meter
        ensures { result ≡ record self.now { has_opened = true } }
    {
        let mut meter = self.same();
        meter.has_opened = true;
        meter
    }

    /// After an exit or a reject.
    fn left(&self) -> Meter
        ensures { result ≡ record self.now { has_left = true } }
    {
        let mut meter = self.same();
        meter.has_left = true;
        meter
    }

    /// After a message of the client, or why it is refused.
    pub(crate) fn judge(&self, message: &ClientMessage) -> Result<Meter, LiveFault>
        ensures { result ≡ judged self.now message.now }
    {
        match message {
            ClientMessage::Accept(_) => Ok(self.opened()),
            ClientMessage::Reject(_) => Ok(self.left()),
            ClientMessage::Exit(_) => Ok(self.left()),
            ClientMessage::Restart(restart) => self.resumed(restart.resume_point),
            ClientMessage::Alert(_) => Ok(self.same()),
            ClientMessage::Ttyin(buffer) => self.recorded(buffer.delay),
            ClientMessage::Ttyout(buffer) => self.recorded(buffer.delay),
            ClientMessage::Stdin(buffer) => self.recorded(buffer.delay),
            ClientMessage::Stdout(buffer) => self.recorded(buffer.delay),
            ClientMessage::Stderr(buffer) => self.recorded(buffer.delay),
            ClientMessage::Winsize(size) => self.recorded(size.delay),
            ClientMessage::Suspend(suspend) => self.recorded(suspend.delay),
            ClientMessage::Hello(_) => Ok(self.same()),
        }
    }

    /// After a message of the other server.
    pub(crate) fn note(&self, message: &ServerMessage) -> Meter
        ensures { result ≡ noted self.now message.now }
    {
        let mut meter = self.same();
        match message {
            ServerMessage::Hello(_) => meter.has_greeted = true,
            ServerMessage::CommitPoint(_) => {}
            ServerMessage::LogId(_) => {}
            ServerMessage::Error(_) => meter.has_ended = true,
            ServerMessage::Abort(_) => meter.has_ended = true,
        }
        meter
    }

    /// What the client gets of a message of the other server, or why it is refused.
    pub(crate) fn answer(&self, alloc: Global, message: ServerMessage) -> Result<Down, LiveFault>
        ensures ok { IfOk result (λ down. answered self.now message ≡ Ok down) }
        ensures refused { IfErr result (λ e. e ≢ faults.NoMem → answered self.now message ≡ Err e) }
    {
        match message {
            ServerMessage::Hello(_) => self.greet(alloc),
            ServerMessage::CommitPoint(time) => self.point(alloc, time),
            ServerMessage::LogId(id) => put(alloc, &ServerMessage::LogId(id)),
            ServerMessage::Error(text) => last(alloc, &ServerMessage::Error(text)),
            ServerMessage::Abort(text) => last(alloc, &ServerMessage::Error(text)),
        }
    }

    /// The other server's hello came: the first is answered by this server's.
    fn greet(&self, alloc: Global) -> Result<Down, LiveFault>
        ensures ok { IfOk result (λ down. (if self.now.has_greeted then Ok downs.Nothing else put server_hello) ≡ Ok down) }
        ensures refused { IfErr result (λ e. e ≢ faults.NoMem → (if self.now.has_greeted then Ok downs.Nothing else put server_hello) ≡ Err e) }
    {
        if self.has_greeted {
            return Ok(Down::Nothing);
        }
        match server_hello(alloc) {
            Ok(hello) => put(alloc, &hello),
            Err(_) => Err(LiveFault::NoMem),
        }
    }

    /// A commit point of the other server came.
    fn point(&self, alloc: Global, time: TimeSpec) -> Result<Down, LiveFault>
        ensures ok { IfOk result (λ down. pointed self.now time (nanos_of time) ≡ Ok down) }
        ensures refused { IfErr result (λ e. e ≢ faults.NoMem → pointed self.now time (nanos_of time) ≡ Err e) }
    {
        let Some(point) = time.point() else {
            return Err(LiveFault::Strange(point_of(LAST_POINT)));
        };
        if point.nanos() > self.elapsed.nanos() {
            return Err(LiveFault::Strange(point));
        }
        put(alloc, &ServerMessage::CommitPoint(time))
    }
}

/// The canonical frame of a message, or why there is none.
pub(crate) fn frame(alloc: Global, message: &ServerMessage) -> Result<Bytes, LiveFault>
    ensures ok { IfOk result (λ f. (f ≡ frame_of (server_bytes message.now)) × (length (server_bytes message.now) ≤ FRAME_LIMIT)) }
    ensures refused { IfErr result (λ e. e ≢ faults.NoMem → (e ≡ LiveFault.Long (length (server_bytes message.now))) × (FRAME_LIMIT < length (server_bytes message.now))) }
{
    let mut out = Bytes::new(alloc);
    match put_server(alloc, &mut out, message) {
        Ok(()) => Ok(out),
        Err(EncodeFault::TooLong(n)) => Err(LiveFault::Long(n)),
        Err(EncodeFault::NoMem) => Err(LiveFault::NoMem),
    }
}

/// The client gets this message.
fn put(alloc: Global, message: &ServerMessage) -> Result<Down, LiveFault>
    ensures ok { IfOk result (λ down. put message.now ≡ Ok down) }
    ensures refused { IfErr result (λ e. e ≢ faults.NoMem → put message.now ≡ Err e) }
{
    match frame(alloc, message) {
        Ok(frame) => Ok(Down::Put(frame)),
        Err(fault) => Err(fault),
    }
}

/// The client gets this message, and then no other.
fn last(alloc: Global, message: &ServerMessage) -> Result<Down, LiveFault>
    ensures ok { IfOk result (λ down. last message.now ≡ Ok down) }
    ensures refused { IfErr result (λ e. e ≢ faults.NoMem → last message.now ≡ Err e) }
{
    match frame(alloc, message) {
        Ok(frame) => Ok(Down::Last(frame)),
        Err(fault) => Err(fault),
    }
}
