//! How far an endpoint is.

ghost use Rattle.std.specs.Prelude.{◌≡◌};
ghost use Rattle.lsv_endpoint.specs.InnerEndpoint.{after_fault, after_ready, ended_by};

use lsv_port::Ready;
use lsv_reactor::EndpointEnd;

/// What an endpoint does next.
#[derive(Clone, Copy, Debug, PartialEq, Eq)]
pub(crate) enum Mode {
    /// It lets its port turn.
    Going,
    /// Its port couldn't listen, or a turn of it failed: its worker is still to learn it.
    Failing,
    /// Its port told Stop.
    Stopping,
    /// Its port couldn't listen, or a turn of it failed, and its worker knows.
    Failed,
}

impl Mode {
    /// The mode of an endpoint that goes on, after a turn that told this.
    pub(crate) fn after(ready: Ready) -> Mode
        ensures { result ≡ after_ready ready }
    {
        match ready {
            Ready::Opened(_) | Ready::Readable(_) | Ready::Writable(_) | Ready::Woken => {
                Mode::Going
            }
            Ready::Stop => Mode::Stopping,
        }
    }

    /// The mode of an endpoint whose port couldn't listen.
    pub(crate) fn deafened(self) -> Mode
        ensures { result ≡ after_fault self }
    {
        match self {
            Mode::Going | Mode::Failing => Mode::Failing,
            Mode::Stopping | Mode::Failed => Mode::Failed,
        }
    }

    /// How an endpoint ends in this mode, None where it goes on.
    pub(crate) fn end(self) -> Option<EndpointEnd>
        ensures { result ≡ ended_by self }
    {
        match self {
            Mode::Going | Mode::Failing => None,
            Mode::Stopping => Some(EndpointEnd::Stopped),
            Mode::Failed => Some(EndpointEnd::Failed),
        }
    }
}
