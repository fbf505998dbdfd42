ghost use Rattle.std.specs.Prelude.{◌≡◌, IfOk};
ghost use Rattle.lsv_event.specs.Events.{peer_text};

use itoa::Buffer;
use lsv_base::{Bytes, LogNo, NoMem, TimeSpec};
use lsv_info::{Exit, Head};
use std::alloc::Global;

/// A connection: the worker that serves it, and its number there.
#[derive(Clone, Copy, Debug, PartialEq, Eq)]
pub struct Peer {
    pub worker: u32,
    pub seq: u64,
}

impl Peer {
    /// Its text: the worker, a point, and the number.
    pub(crate) fn text(self, alloc: Global) -> Result<Bytes, NoMem>
        ensures { IfOk result (λ text. text ≡ peer_text self) }
    {
        let mut text = Bytes::new(alloc);
        text.add(Buffer::new().format(self.worker).as_bytes())?;
        text.add(b".")?;
        text.add(Buffer::new().format(self.seq).as_bytes())?;
        Ok(text)
    }
}

/// What is told of a session, by the connection that it came by, at the server's moment `at`.
#[derive(Debug, Drop)]
pub enum Event {
    /// A command may run. `log` is the log that it is written to, if there is one.
    Accept {
        at: TimeSpec,
        peer: Peer,
        log: Option<LogNo>,
        head: Head,
    },
    /// A command was refused.
    Reject {
        at: TimeSpec,
        peer: Peer,
        reason: Bytes,
        head: Head,
    },
    /// Something else to be told of. Its head's time is that of the alert.
    Alert {
        at: TimeSpec,
        peer: Peer,
        reason: Bytes,
        head: Head,
    },
    /// A command ended.
    Exit {
        at: TimeSpec,
        peer: Peer,
        log: Option<LogNo>,
        exit: Exit,
    },
}

/// The form of a line.
#[derive(Clone, Copy, Debug, PartialEq, Eq)]
pub enum Kind {
    Sudo,
    Json,
}
