ghost use Rattle.std.specs.Prelude.{◌≡◌, IfOk};
ghost use Rattle.lsv_event.specs.Events.{IsTimed};
ghost use Rattle.lsv_event.specs.Lines.{line_of};
ghost use Rattle.lsv_event.specs.declared.event.Event.{Event};

use lsv_base::{Bytes, NoMem};
use lsv_event::{Event, Kind};
use std::alloc::Global;

/// A call that writes lines of events.
pub trait LineWriter {
    ghost use Rattle.std.specs.Prelude.{ℕ, List, IfOk};
    ghost use Rattle.lsv_event.specs.Events.{IsTimed};
    ghost use Rattle.lsv_event.specs.declared.event.Event.{Event};

    /// The line that it writes of an event.
    ghost line: { Self → Event → List ℕ };

    /// Writes the line of an event whose times are valid.
    fn write_line(&self, alloc: Global, event: &Event) -> Result<Bytes, NoMem>
        requires { IsTimed event.now }
        ensures { IfOk result (λ text. text ≡ line self.now event.now) };
}

impl<F: LineWriter> LineWriter for &F {
    ghost line = { λ w. F.line w.now };

    fn write_line(&self, alloc: Global, event: &Event) -> Result<Bytes, NoMem> {
        (**self).write_line(alloc, event)
    }
}

/// A call that writes the lines of events in its form. Its type keeps that it does so for each event whose times are
/// valid, or is out of memory.
#[derive(Debug, Drop)]
pub struct Formatter<F: LineWriter> {
    pub call: F,
    pub kind: Kind,
    ghost is_right: { (event : Event) → IsTimed event → F.line call event ≡ line_of kind event },
}

impl<F: LineWriter> Formatter<F> {
    /// A call that writes the lines of this form.
    pub fn new(call: F, kind: Kind) -> Self
        requires { (event : Event) → IsTimed event → F.line call event ≡ line_of kind event }
        ensures call { result.call ≡ call }
        ensures kind { result.kind ≡ kind }
    {
        Formatter { call, kind }
    }

    /// The same by reference, for several users.
    pub fn by_ref(&self) -> Formatter<&F>
        ensures call { result.call.now ≡ self.now.call }
        ensures kind { result.kind ≡ self.now.kind }
    {
        Formatter {
            call: &self.call,
            kind: self.kind,
        }
    }

    /// The line of an event whose times are valid, in this form.
    pub fn write(&self, alloc: Global, event: &Event) -> Result<Bytes, NoMem>
        requires { IsTimed event.now }
        ensures { IfOk result (λ line. line ≡ line_of self.now.kind event.now) }
    {
        self.call.write_line(alloc, event)
    }
}
