//! The messages of one client and of the other server, as they are passed on.

ghost use Rattle.std.specs.Prelude.{◌≡◌, ◌≢◌, ◌≤◌, ℕ, IfErr, IfOk, OnErr, OnOk, Ok, Err, Some};
ghost use Rattle.lsv_base.specs.Time.{nanos_of};
ghost use Rattle.lsv_base.specs.declared.time.TimeSpec.{TimeSpec};
ghost use Rattle.lsv_live.specs.Meter.{answer, heard_by, judge, start};
ghost use Rattle.lsv_live.specs.Story.{bytes_of, is_last};
ghost use Rattle.lsv_live.specs.declared.fault.LiveFault.TheVariants as faults;
ghost use Rattle.lsv_msg.specs.Messages.{server_in};
ghost use Rattle.lsv_msg.specs.declared.messages.ServerMessage.TheVariants as server;
ghost use Rattle.lsv_wire.specs.Frame.{frame_of, IsMessage};

use crate::{LiveFault, Meter};
use lsv_base::Bytes;
use lsv_msg::{MsgFault, decode_client, decode_server};
use lsv_wire::frame;
use std::alloc::Global;
use std::marker::Model;

/// What the client gets of a message of the other server.
#[derive(Debug, Drop)]
pub enum Down {
    Nothing,
    /// This frame.
    Put(Bytes),
    /// This frame, and then no other.
    Last(Bytes),
}

impl Down {
    /// The bytes that the client gets.
    pub fn frame(&self) -> &[u8]
        ensures { result.now ≡ bytes_of (Ok self.now) }
    {
        match self {
            Down::Nothing => &[],
            Down::Put(frame) => frame.as_slice(),
            Down::Last(frame) => frame.as_slice(),
        }
    }

    /// Whether the client gets no other message after it.
    pub fn is_last(&self) -> bool
        ensures { result ≡ is_last self.now }
    {
        match self {
            Down::Nothing => false,
            Down::Put(_) => false,
            Down::Last(_) => true,
        }
    }
}

/// What is passed on between one client and the other server, message by message. Contracts see how far the client is.
#[derive(Debug, Drop)]
pub struct Live {
    alloc: Global,
    meter: Meter,
}

impl Model for Live {
    ghost use Rattle.lsv_live.specs.declared.meter.Meter.{Meter};

    ghost Value = { Meter };

    ghost view = { λ l. l.meter };
}

impl Live {
    /// Nothing was passed on.
    pub fn new(alloc: Global) -> Self
        ensures { result ≡ start }
    {
        Live {
            alloc,
            meter: Meter::new(),
        }
    }

    /// An exit or a reject of the client was passed on.
    pub fn has_left(&self) -> bool
        ensures { result ≡ self.now.has_left }
    {
        self.meter.has_left
    }

    /// How far the client is after its message of these bytes, or why that is refused.
    pub(crate) fn judge(&self, body: &[u8]) -> Result<Meter, LiveFault>
        ensures ok { IfOk result (λ meter. judge self.now body.now ≡ Ok meter) }
        ensures refused { IfErr result (λ e. e ≢ faults.NoMem → judge self.now body.now ≡ Err e) }
    {
        match decode_client(self.alloc, body) {
            Ok(message) => self.meter.judge(&message),
            Err(MsgFault::NoMem) => Err(LiveFault::NoMem),
            Err(fault) => Err(LiveFault::Malformed(fault)),
        }
    }

    /// What the client gets of the other server's message of these bytes, and how far it is then; or why that is refused.
    pub(crate) fn answer(&self, body: &[u8]) -> Result<(Down, Meter), LiveFault>
        ensures ok { IfOk result (λ given. (answer self.now body.now ≡ Ok given.0) × (given.1 ≡ heard_by self.now body.now)) }
        ensures refused { IfErr result (λ e. e ≢ faults.NoMem → answer self.now body.now ≡ Err e) }
    {
        match decode_server(self.alloc, body) {
            Ok(message) => {
                let meter = self.meter.note(&message);
                match self.meter.answer(self.alloc, message) {
                    Ok(down) => Ok((down, meter)),
                    Err(fault) => Err(fault),
                }
            }
            Err(MsgFault::NoMem) => Err(LiveFault::NoMem),
            Err(fault) => Err(LiveFault::Malformed(fault)),
        }
    }

    /// The client is this far.
    pub(crate) fn advance(&mut self, meter: Meter)
        ensures { self.new ≡ meter }
    {
        self.meter = meter;
    }

    /// The frame for the other server of the client's message of these bytes, as it came. A refusal changes nothing.
    pub fn client(&mut self, body: &[u8]) -> Result<Bytes, LiveFault>
        requires { IsMessage body.now }
        ensures frame { IfOk result (λ f. f ≡ frame_of body.now) }
        ensures passes { OnOk result (judge self.old body.now ≡ Ok self.new) }
        ensures refused { IfErr result (λ e. e ≢ faults.NoMem → judge self.old body.now ≡ Err e) }
        ensures unchanged { OnErr result (self.new ≡ self.old) }
    {
        match self.judge(body) {
            Ok(meter) => match frame(self.alloc, body) {
                Ok(frame) => {
                    self.advance(meter);
                    Ok(frame)
                }
                Err(_) => Err(LiveFault::NoMem),
            },
            Err(fault) => Err(fault),
        }
    }

    /// What the client gets of the other server's message of these bytes. A refusal changes nothing.
    pub fn upstream(&mut self, body: &[u8]) -> Result<Down, LiveFault>
        ensures answer { IfOk result (λ down. answer self.old body.now ≡ Ok down) }
        ensures refused { IfErr result (λ e. e ≢ faults.NoMem → answer self.old body.now ≡ Err e) }
        ensures bounded { (time : TimeSpec) → server_in body.now ≡ Ok (server.CommitPoint time) → OnOk result ((point : ℕ) × (nanos_of time ≡ Some point) × (point ≤ self.old.elapsed)) }
        ensures heard { OnOk result (self.new ≡ heard_by self.old body.now) }
        ensures unchanged { OnErr result (self.new ≡ self.old) }
    {
        match self.answer(body) {
            Ok((down, meter)) => {
                self.advance(meter);
                Ok(down)
            }
            Err(fault) => Err(fault),
        }
    }
}
